//! The lines of a file, in three codings of Japanese text.
#![tactic(auto)]

mod block;
mod coding;
mod decode;
mod fault;
mod item;
mod laws;
mod line;
mod lines;
mod source;

pub use coding::Coding;
pub use fault::{LineFault, OpenFault};
pub use laws::{lines_follow, spellings_are_decoded};
pub use line::Line;
pub use lines::Lines;

#[cfg(test)]
mod tests;
