//! The definitions of fonts.

use ts_outside::FileName;

/// The definition of a font.
#[derive(Debug, Drop, PartialEq, Eq)]
pub struct FontDef {
    /// The number by which the file selects it.
    pub number: i32,
    pub check_sum: u32,
    /// The size at which its characters are set, in scaled points.
    pub size: u32,
    /// The size for which it was designed, in scaled points.
    pub design: u32,
    /// Its area and name together.
    pub name: FileName,
}
