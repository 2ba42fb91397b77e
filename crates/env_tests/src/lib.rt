//! Tests of environments under groups: what holds at the start, and what settings, groups and fonts
//! make of it. They stand in a crate of their own, so that the environments are proved once.
#![tactic(auto)]

#[cfg(test)]
mod settings;
#[cfg(test)]
mod start;
