//! Macro calls and macro definitions (The TeXbook, chapter 20), as they are read without expansion.
#![tactic(auto)]

mod argument;
mod body;
mod border;
mod call;
mod definition;
mod delimited;
mod heading;
mod laws;
mod parts;
mod prefix;
mod same;
mod stripping;
mod undelimited;

pub use body::Body;
pub use call::read_call;
pub use definition::{macro_of, read_definition};
pub use heading::{Heading, read_heading};
pub use laws::{an_argument_is_the_shortest, definitions_stay};
