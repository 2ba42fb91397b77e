//! Scanning of numbers, dimensions and glue (The TeXbook, chapter 24). A scan is fed one token at a
//! time and calls nobody back.
#![tactic(auto)]

mod equals;
mod found;
mod gluing;
mod internal;
mod keyword;
pub mod laws;
mod naming;
mod scan;
mod state;
mod want;
mod word;

pub use scan::Scan;
pub use scan_numbers::{ScanFault, ScanKind};
pub use want::{Fed, Value, Want};
pub use word::Word;
