//! Packing of lists into boxes, and boxes as items of a list of any direction.
#![tactic(auto)]

mod crossing;
mod fault;
mod flex;
mod horizontal;
mod item;
pub mod laws;
mod long;
mod pack;
#[cfg(test)]
mod tests;
mod totals;
mod vertical;

pub use crossing::cross;
pub use fault::PackFault;
pub use horizontal::hpack;
pub use vertical::{vpack, vtop};
