//! The eyes: characters become tokens (The TeXbook, chapter 8; pTeX).
#![tactic(auto)]

mod eyes;
mod fault;
mod find;
mod present;
mod seen;
mod state;

pub use eyes::Eyes;
pub use fault::EyeFault;
pub use seen::Seen;

#[cfg(test)]
mod tests;
