//! Tests of texts that are read without expansion: skipped text, braces, macro calls and macro
//! definitions. They stand in a crate of their own, so that those crates are proved once.
#![tactic(auto)]

#[cfg(test)]
mod calls;
#[cfg(test)]
mod texts;
