//! The environment of a job: meanings, codes, parameters, registers, boxes and fonts, under groups.
#![tactic(auto)]

mod code;
mod env;
mod fault;
mod font;
mod group;
mod key;
pub mod laws;
mod meaning;
mod parameter;
mod prim;
mod situation;
mod stored;

pub use code::CodeKey;
pub use env::Env;
pub use fault::EnvFault;
pub use font::{FontFacts, FontSlot};
pub use group::GroupKind;
pub use key::{DimKey, GlueKey, IntKey, ToksKey};
pub use meaning::{MacroDef, Meaning};
pub use parameter::{DimParam, GlueParam, IntParam, ToksParam};
pub use prim::PrimitiveName as Prim;
pub use situation::{Mode, Situation};
