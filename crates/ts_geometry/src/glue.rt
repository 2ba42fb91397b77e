//! Glue.

use crate::measure::Sp;

/// The order of infinity of a stretch or a shrink (The TeXbook, chapter 12). Only the highest order
/// with a total other than 0 is set.
#[derive(Clone, Copy, Debug, PartialEq, Eq, PartialOrd, Ord, Hash)]
pub enum Order {
    Normal,
    Fil,
    Fill,
    Filll,
}

/// Glue: its natural width, stretch and shrink, in scaled points, each of the last two with its
/// order of infinity. An infinite stretch of 1fil is 65536 of order `Fil` (TeX: The Program,
/// section 150).
#[derive(Clone, Copy, Debug, PartialEq, Eq, Hash)]
pub struct Glue {
    pub width: Sp,
    pub stretch: Sp,
    pub stretch_order: Order,
    pub shrink: Sp,
    pub shrink_order: Order,
}
