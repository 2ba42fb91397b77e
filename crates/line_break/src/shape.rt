//! What a paragraph is broken by.

use ts_geometry::{Glue, Sp};

/// What the breaks of a paragraph are chosen by (The TeXbook, chapter 14). Lengths are in scaled
/// points.
#[derive(Clone, Copy, Debug, PartialEq, Eq, Hash)]
pub struct ParaShape {
    /// The width of each line, with its skips.
    pub hsize: Sp,
    pub left: Glue,
    pub right: Glue,
    /// The greatest badness of a line in the first pass, which is left out where this is below 0.
    pub pretolerance: i32,
    /// The greatest badness of a line in the later passes.
    pub tolerance: i32,
    /// What a last pass adds to the stretch of each line. That pass is made only where it is above
    /// 0.
    pub emergency: Sp,
    pub line_penalty: i32,
    pub adj_demerits: i32,
}

/// The place of the item at which a line ends, counted from 0.
#[derive(Clone, Copy, Debug, PartialEq, Eq, Hash)]
pub struct BreakAt(pub u32);
