//! A page of glyphs of one font as a DVI file.

mod opcode;
mod page;
mod piece;

pub(crate) use page::{Glyph, dvi_of};
