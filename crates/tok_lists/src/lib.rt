//! Characters, tokens and names: the lists that TeX's mouth works on.
#![tactic(auto)]

mod args;
mod codes;
mod cursor;
mod fault;
mod laws;
mod names;
mod pending;
mod pending_fault;
mod pending_laws;
#[cfg(test)]
mod pending_tests;
mod shared_tokens;
mod spelling;
mod start;
mod token;

pub use args::Args;
pub use codes::CodeTable;
pub use fault::NamesFault;
pub use laws::names_grow;
pub use names::Names;
pub use pending::Pending;
pub use pending_fault::PendingFault;
pub use pending_laws::{flat_lists_are_held, flat_lists_are_put, flat_lists_have_no_param};
pub use shared_tokens::SharedTokens;
pub use spelling::Spelling;
pub use token::{NameNo, Token, Tokens};
