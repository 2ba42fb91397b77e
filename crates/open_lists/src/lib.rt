//! The lists that are open: what comes into the innermost one, and what becomes of it at its end.
#![tactic(auto)]

mod codes;
mod contents;
mod ending;
mod fault;
pub mod laws;
mod list;
mod lists;
mod plan;
mod stack;

pub use codes::EnvCodes;
pub use fault::OpenFault;
pub use lists::OpenLists;
pub use plan::{BoxContext, BoxPlan, EndedBox};
