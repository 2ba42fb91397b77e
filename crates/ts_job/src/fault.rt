//! What a source has wrong, and where.

use ts_geometry::BadKind;
use ts_outside::FileName;

/// The kind of a source's fault.
#[derive(Clone, Copy, Debug, PartialEq, Eq)]
pub enum FaultKind {
    /// A file isn't there.
    FileMissing,
    /// The metric of a font is bad: what is wrong with it, and at which byte, from 0.
    FontBad(BadKind, u32),
    /// The source, or its font, is of a form that isn't built yet.
    FormNotBuilt,
    /// A byte begins no character and no escape: its place in the line, from 0.
    BadByte(u32),
    /// A line has more than 65,535 bytes.
    LineTooLong,
    /// A file has more than 1,000,000 lines.
    TooManyLines,
}

/// A place in a source: the innermost open file, and the number of its last line that was needed,
/// 0 before the first.
#[derive(Debug, Drop)]
pub struct Place {
    pub file: FileName,
    pub line: u32,
}

/// The first fault of a source.
#[derive(Debug, Drop)]
pub struct Fault {
    pub kind: FaultKind,
    pub place: Place,
}
