//! The opcodes of the commands that are written (TeX: The Program, sections 585 to 590; 255 is
//! pTeX's).

pub(crate) const SET2: u8 = 129;

pub(crate) const SET_RULE: u8 = 132;

pub(crate) const BOP: u8 = 139;

pub(crate) const EOP: u8 = 140;

pub(crate) const RIGHT2: u8 = 144;

pub(crate) const RIGHT4: u8 = 146;

pub(crate) const DOWN2: u8 = 158;

pub(crate) const DOWN4: u8 = 160;

pub(crate) const FNT1: u8 = 235;

pub(crate) const FNT_DEF1: u8 = 243;

pub(crate) const PRE: u8 = 247;

pub(crate) const POST: u8 = 248;

pub(crate) const POST_POST: u8 = 249;

pub(crate) const DIRECTION: u8 = 255;

/// The byte of the fill.
pub(crate) const FILL: u8 = 223;
