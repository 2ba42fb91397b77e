//! Horizontal lists whose nodes are linked, so that items can be put between others.
#![tactic(auto)]

mod fault;
mod list;
mod node;
#[cfg(test)]
mod tests;

pub use fault::ListFault;
pub use list::NodeList;
pub use node::NodeNo;
