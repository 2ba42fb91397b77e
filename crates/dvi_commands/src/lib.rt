//! The commands of a DVI file, and the numbers as which they are put.
#![tactic(auto)]

mod command;
mod fault;
mod field;
mod font;
pub mod laws;
mod number;
mod reading;

pub use command::{Command, Part};
pub use fault::{DviBad, DviKind};
pub use font::FontDef;
pub use number::{put_short, put_signed, put_unsigned};
pub use reading::{next_command, next_set};

#[cfg(test)]
mod tests;
