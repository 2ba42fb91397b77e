//! The spaces of a Japanese horizontal list that has ended.
#![tactic(auto)]

mod codes;
pub mod laws;
mod look;
mod nodes;
mod skip;
mod spacing;
mod walk;

pub use codes::EndCodes;
pub use spacing::adjust;
