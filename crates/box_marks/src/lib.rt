//! What a box marks on a page: its glyphs and its rules, each at a point and in a direction.
#![tactic(auto)]

pub mod laws;
mod page;
mod placed;
#[cfg(test)]
mod tests;

pub use page::page_point;
pub use placed::{Piece, Placed, item_mark};
