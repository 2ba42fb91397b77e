//! Arithmetic on registers and parameters: what `\advance`, `\multiply` and `\divide` make of an
//! integer, a dimension or glue (The TeXbook, chapter 24; TeX: The Program, sections 1236 to 1240).
//! Where there is no result, the fault of the command is Arithmetic.
#![tactic(auto)]

mod dimens;
mod glues;
mod integers;
#[cfg(test)]
mod tests;

pub use dimens::{advance_dimen, divide_dimen, multiply_dimen};
pub use glues::{advance_glue, divide_glue, multiply_glue};
pub use integers::{advance_integer, divide_integer, multiply_integer};
