//! Fonts that a source knows: their names and sizes, their numbers, and their definitions for DVI
//! (The TeXbook, chapter 4; TeX: The Program, sections 1256 to 1262; pTeX).
#![tactic(auto)]

mod laws;
mod metrics;
mod names;
mod placing;
mod selecting;
mod sizes;
mod tables;

pub use laws::{
    definitions_go_on, fonts_as_held_are_whole, fonts_begin_so, measures_are_as_held,
    shipped_fonts_are_there, shipped_glyphs_are_as_held,
};
pub use names::FontName;
pub use placing::{Wanted, place_font};
pub use selecting::select_font;
pub use sizes::Sizing;
