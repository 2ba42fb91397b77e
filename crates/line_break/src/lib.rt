//! Line breaks: the end of a paragraph, the best breaks of its items, and its lines (The TeXbook,
//! chapter 14).
#![tactic(auto)]

#[cfg(test)]
mod break_tests;
mod demerits;
mod end;
mod fault;
mod items;
pub mod laws;
mod legal;
mod line_items;
mod passes;
mod search;
mod shape;
mod states;
#[cfg(test)]
mod tests;
mod totals;
mod weight;

pub use end::end_paragraph;
pub use fault::ParaFault;
pub use line_items::lines;
pub use passes::breaks;
pub use shape::{BreakAt, ParaShape};
