//! The mode and the direction of the innermost list.

use ts_geometry::Dir;

/// The mode of the innermost list (The TeXbook, chapter 13).
#[derive(Clone, Copy, Debug, PartialEq, Eq, Hash)]
pub enum Mode {
    /// The vertical mode of the main list.
    Outer,
    /// The vertical mode of a box or of the output list.
    InnerVertical,
    /// The horizontal mode of a paragraph.
    Paragraph,
    /// The horizontal mode of a box.
    Restricted,
}

/// The mode and the direction of the innermost list.
#[derive(Clone, Copy, Debug, PartialEq, Eq, Hash)]
pub struct Situation {
    pub mode: Mode,
    pub dir: Dir,
}
