//! Fonts that a source names and selects: `\font`, and the names of fonts (The TeXbook, chapter 4;
//! TeX: The Program, sections 1217 and 1257 to 1262; pTeX).
#![tactic(auto)]

mod choosing;
mod defining;
mod laws;
mod names;
mod sizings;

pub use choosing::use_font;
pub use defining::define_font;
pub use laws::font_commands_leave_less;
