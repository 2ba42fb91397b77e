//! What a DVI file says: its pages of marks.
#![tactic(auto)]

mod font;
pub mod laws;
mod mark;
mod page;
mod pages;
mod pen;

pub use dvi_commands::{
    Command, DviBad, DviKind, FontDef, Part, next_command, put_short, put_signed, put_unsigned,
};
pub use dvi_structure::{DviFault, fonts};
pub use font::Widths;
pub use mark::{Mark, Marks, What};
pub use page::{DviPage, DviPages};
pub use pages::read_pages;

#[cfg(test)]
mod tests;
