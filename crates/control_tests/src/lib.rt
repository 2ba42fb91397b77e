//! Tests of main control over files in memory. They stand in a crate of their own, so that main
//! control is proved once.
#![tactic(auto)]

#[cfg(test)]
mod assigned;
#[cfg(test)]
mod pages;
#[cfg(test)]
mod runs;
