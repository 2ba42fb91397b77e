//! What every crate stands on: lists, want of memory, answers with their causes, counted work.
#![tactic(auto)]

mod laws;
mod list;
mod memory;
mod steps;
#[cfg(test)]
mod tests;

pub use laws::{answers_agree, answers_count};
pub use list::List;
pub use memory::NoMemory;
pub use steps::Steps;
