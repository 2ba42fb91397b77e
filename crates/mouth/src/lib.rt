//! The mouth: open files with their pending tokens, names, units and conditionals (The TeXbook,
//! chapters 7, 8 and 20). Expansion meets files through it alone.
#![tactic(auto)]

mod allowed;
mod changes;
mod fault;
mod input;
mod laws;
mod mouth;
mod next;
mod place;
mod stack;

pub use allowed::Allowed;
pub use fault::MouthFault;
pub use laws::{others_are_left, sizes_fall};
pub use mouth::Mouth;
pub use place::Place;
