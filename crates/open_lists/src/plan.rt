//! What becomes of the list of a box.

use box_tree::{BoxSize, SharedBox};
use ts_geometry::Sp;

/// What is done with a box once it is there (TeX: The Program, sections 1071 and 1075).
#[derive(Clone, Copy, Debug, PartialEq, Eq, Hash)]
pub enum BoxContext {
    /// It is appended to the list around, moved by so many scaled points.
    Append(Sp),
    /// It is put into the register of this number, globally or not.
    Register(u32, bool),
    ShipOut,
}

/// To what size a list is packed, and what is done with its box.
#[derive(Clone, Copy, Debug, PartialEq, Eq, Hash)]
pub struct BoxPlan {
    pub size: BoxSize,
    pub context: BoxContext,
}

/// The box of a list that has ended, and what is done with it.
#[derive(Debug, Drop)]
pub struct EndedBox {
    pub node: SharedBox,
    pub context: BoxContext,
}
