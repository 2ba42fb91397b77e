//! Tests of expansion. They stand in a crate of their own, so that expansion is proved once.
#![tactic(auto)]

#[cfg(test)]
mod bench;
#[cfg(test)]
mod defined_macros;
#[cfg(test)]
mod primitives;
