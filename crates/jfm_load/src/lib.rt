//! Metrics of Japanese fonts: JFM files (the JFM specification).
#![tactic(auto)]

mod char_types;
mod japanese;
mod laws;
mod lengths;
mod programs;
mod tables;

pub use japanese::{Japanese, read};
pub use laws::{
    a_metric_is_in_its_first_words, a_metric_stays_near, the_first_fault_is_the_first_bad_word,
};
pub use programs::Space;

#[cfg(test)]
mod tests;
