//! What TFM files (TeX: The Program, part 30) and JFM files (the JFM specification) share: words,
//! lengths, tables of fix words, characters and programs.
#![tactic(auto)]

mod characters;
mod fix_words;
mod laws;
mod lengths;
mod program;
mod words;

pub use characters::Characters;
pub use fix_words::{param_in, read_design, read_fix_words, read_params};
pub use laws::{fix_words_stay_near, the_first_fault_is_the_first_bad_word};
pub use lengths::{Lengths, begins_as_jfm};
pub use program::{Command, command_of, find};
pub use words::{
    bad, first_byte, first_half, fourth_byte, halfword_at, push, second_byte, table_of, third_byte,
    truncated, word_at,
};

#[cfg(test)]
mod tests;
