//! Nodes of a list.

use box_tree::Item;

/// The number of a node, which it keeps.
#[derive(Clone, Copy, Debug, PartialEq, Eq, Hash)]
pub struct NodeNo(pub(crate) usize);

/// An item, and the number of the node after it.
#[derive(Debug, Drop)]
pub(crate) struct Node {
    pub(crate) item: Item,
    pub(crate) next: Option<NodeNo>,
}
