//! Scanning of integers and dimensions (The TeXbook, chapter 24). What is read is fed one token at
//! a time and calls nobody back.
#![tactic(auto)]

mod amount;
mod constant;
mod context;
mod dimen;
mod fault;
mod fraction;
mod integer;
mod letters;
mod measure;
mod number;
mod primitive;
mod quantity;
mod start;
mod step;

pub use amount::Amount;
pub use context::Context;
pub use dimen::{Dimen, Manner, from_quantity};
pub use fault::{ScanFault, ScanKind};
pub use integer::Integer;
pub use number::{Length, Number};
pub use quantity::{CodeKind, HeldGlue, Quantity, Register, read};
pub use start::{Start, is_letter, is_space, letter, start_of};
pub use step::{Step, not_taken};
