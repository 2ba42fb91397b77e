//! A job of typesetting: from the words of a command line, over a run of main control, to the bytes
//! of a DVI file and the text of a report.
#![tactic(auto)]

mod job;
mod outcome;
mod report;
mod typeset;
mod words;

pub use job::run;
pub use main_control::{Fault, FaultKind};
pub use mouth::Place;
pub use outcome::Outcome;
