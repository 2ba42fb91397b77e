//! The nodes that hold lists of items: boxes, their kinds, and how their glue is set.

use crate::item::Items;
use ts_geometry::{Dir, Measures, Order, Sp};

/// How the items of a box stand: side by side along its direction, or one after the other across it.
#[derive(Clone, Copy, Debug, PartialEq, Eq, Hash)]
pub enum BoxKind {
    Horizontal,
    Vertical,
}

/// The size to which a list is packed: its natural one, or to or by so many scaled points (The
/// TeXbook, chapter 12).
#[derive(Clone, Copy, Debug, PartialEq, Eq, Hash)]
pub enum BoxSize {
    Natural,
    To(Sp),
    Spread(Sp),
}

/// How the glue of a box is set (The TeXbook, chapter 12): not at all, or the stretch or shrink of
/// one order takes a share of the first number, the excess, of which the second is the total. Both
/// are in scaled points.
#[derive(Clone, Copy, Debug, PartialEq, Eq, Hash)]
pub enum SetGlue {
    Plain,
    Stretch(Order, Sp, Sp),
    Shrink(Order, Sp, Sp),
}

/// One of the three measures of a box.
#[derive(Clone, Copy, Debug, PartialEq, Eq, Hash)]
pub enum Side {
    Wd,
    Ht,
    Dp,
}

/// A box: its kind, its direction, its measures, how its glue is set, and its items.
#[cycle(boxes)]
#[derive(Debug, Drop)]
pub struct BoxNode {
    pub kind: BoxKind,
    pub dir: Dir,
    pub size: Measures,
    pub set: SetGlue,
    pub items: Items,
}
