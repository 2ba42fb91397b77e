//! What a page marks.

use ts_base::List;
use ts_geometry::{Dir, Point, Sp};
use ts_outside::FileName;

/// What a mark is.
#[derive(Debug, Drop, PartialEq, Eq)]
pub enum What {
    /// A glyph: the name of its font, the font's size in scaled points, and the character's code.
    Glyph(FileName, u32, u32),
    /// A rule: its height and its width, both above 0.
    Rule(Sp, Sp),
}

/// A mark on a page: what stands with its reference point where, and in which direction of writing.
#[derive(Debug, Drop, PartialEq, Eq)]
pub struct Mark {
    pub what: What,
    pub at: Point,
    pub dir: Dir,
}

/// A list of marks.
pub type Marks = List<Mark>;
