//! The state of the eyes.

/// The state in which the next character of a line is met (The TeXbook, chapter 8; pTeX).
#[derive(Clone, Copy, Debug, PartialEq, Eq)]
pub(crate) enum State {
    /// N: at the beginning of a line.
    NewLine,
    /// M: in the middle of a line.
    MidLine,
    /// S: blanks are skipped.
    SkipBlanks,
    /// K: after a Japanese character.
    Kanji,
}
