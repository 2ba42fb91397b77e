//! Values as they are printed by `\number`, `\romannumeral`, `\the` and `\string`, as tokens (The
//! TeXbook, chapter 20; TeX: The Program, sections 65, 69, 103 and 178).
#![tactic(auto)]

pub mod laws;
mod points;
mod printing;
mod roman;
#[cfg(test)]
mod tests;

pub use printing::{character, dimension, glue, name, number, roman_numeral};
