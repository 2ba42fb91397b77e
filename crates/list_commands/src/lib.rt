//! Commands of open lists: characters come into the innermost one, and the list of an `\hbox` begins
//! and ends (The TeXbook, chapter 24; TeX: The Program, sections 1034 to 1086; pTeX).
#![tactic(auto)]

mod beginning;
mod characters;
mod ending;
mod laws;

pub use beginning::begin_hbox;
pub use characters::{char_of, put_char, read_char};
pub use ending::end_hbox;
pub use laws::list_commands_leave_less;
