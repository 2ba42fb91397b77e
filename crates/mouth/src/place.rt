//! Places in files.

use ts_outside::FileName;

/// A place in a source: a file, and the number of its last line that was needed and is there, or 0
/// before the first.
#[derive(Debug, Drop, PartialEq, Eq)]
pub struct Place {
    pub file: FileName,
    pub line: u32,
}
