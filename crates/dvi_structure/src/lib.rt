//! The structure of a DVI file, and the fonts that it defines.
#![tactic(auto)]

mod definitions;
mod fault;
mod reading;
mod refusal;
mod standing;
mod structure;

pub use definitions::Fonts;
pub use fault::DviFault;
pub use reading::command_from;
pub use refusal::Refusal;
pub use structure::{checked, fonts};

#[cfg(test)]
mod tests;
