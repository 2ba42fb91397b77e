//! Tests of Japanese horizontal lists: lists of few characters written out, and random lists
//! against each gap worked out anew. They stand in a crate of their own, so that the crates of
//! lists are proved once.
#![tactic(auto)]

#[cfg(test)]
mod built;
#[cfg(test)]
mod finished;
#[cfg(test)]
mod plain;
