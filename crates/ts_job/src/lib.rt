//! A job of typesetting: from the words of a command line to the bytes of a DVI file.
#![tactic(auto)]

mod ending;
mod fault;
mod form;
mod job;
mod load;
mod outcome;
mod report;
mod setting;
mod stop;
#[cfg(test)]
mod tests;
mod typeset;
mod words;
mod writer;

pub use fault::{Fault, FaultKind, Place};
pub use job::run;
pub use outcome::Outcome;
