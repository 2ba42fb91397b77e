//! Boxes as the pages of a DVI file.
#![tactic(auto)]

mod ends;
mod fault;
mod hand;
mod joining;
mod kept;
pub mod laws;
mod opcode;
mod page;
mod pen;
mod put;
mod table;
#[cfg(test)]
mod tests;
mod walk;
mod writer;

pub use fault::WriteFault;
pub use table::FontTable;
pub use writer::Writer;
