//! Metrics of European fonts: TFM files (TeX: The Program, part 30).
#![tactic(auto)]

mod laws;
mod lengths;
mod programs;
mod roman;

pub use laws::{
    a_metric_is_in_its_first_words, a_metric_stays_near, ligatures_are_there,
    the_first_fault_is_the_first_bad_word,
};
pub use programs::Step;
pub use roman::{Roman, read};

#[cfg(test)]
mod tests;
