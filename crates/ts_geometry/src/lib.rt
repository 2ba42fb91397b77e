//! Dimensions in scaled points, directions of writing, glue, and the arithmetic of typesetting.
#![tactic(auto)]

mod crossing;
mod direction;
mod fault;
mod glue;
pub mod laws;
mod measure;
mod numbers;
#[cfg(test)]
mod tests;

pub use crossing::{inner_point, seen};
pub use direction::{Dir, rect, step};
pub use fault::{BadKind, MetricFault};
pub use glue::{Glue, Order};
pub use measure::{MAX_DIMEN, Measures, Point, Rect, Sp};
pub use numbers::{badness, decimal, scale, share};
