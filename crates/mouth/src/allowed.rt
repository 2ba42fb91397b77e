//! What open conditionals still allow.

/// What may still come in an open conditional (TeX: The Program, section 489).
#[derive(Clone, Copy, Debug, PartialEq, Eq)]
pub enum Allowed {
    /// Its test or its number is still being read.
    Test,
    /// `\or`, `\else` and `\fi`.
    Or,
    /// `\else` and `\fi`.
    Else,
    /// `\fi` alone.
    Fi,
}
