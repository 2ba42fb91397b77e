//! Tests of the mouth: two files and their pending tokens, ends of files, depths, units and reads
//! that fail. They stand in a crate of their own, so that the mouth is proved once.
#![tactic(auto)]

#[cfg(test)]
mod mouths;
