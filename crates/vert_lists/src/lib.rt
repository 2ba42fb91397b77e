//! What boxes append to vertical lists.
#![tactic(auto)]

mod interline;
#[cfg(test)]
mod tests;

pub use interline::{LineShape, spaced};
