//! Tests of scans. They stand in a crate of their own, so that the scans are proved once.
#![tactic(auto)]

#[cfg(test)]
mod scans;
