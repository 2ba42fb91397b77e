//! Boxes: trees of items over shared nodes.
#![tactic(auto)]

mod fault;
mod frame;
mod item;
pub mod laws;
mod node;
mod shared_box;
#[cfg(test)]
mod tests;

pub use fault::BoxFault;
pub use frame::{Frame, Sums};
pub use item::{FontNo, GlueFrom, Item, Items, KernFrom, same_items};
pub use node::{BoxKind, BoxNode, BoxSize, SetGlue, Side};
pub use shared_box::{SharedBox, past_limits};
