//! Japanese horizontal lists, which get their metric spaces and penalties while characters come.
#![tactic(auto)]

mod builder;
mod character;
mod gaps;
pub mod laws;
mod puts;
mod space;

pub use builder::HBuilder;
pub use character::Kinsoku;
