//! Assignments and groups of braces: the commands that touch what is read and the environment
//! alone (The TeXbook, chapters 20 and 24; TeX: The Program, sections 1208 to 1240; pTeX).
#![tactic(auto)]

mod assigning;
mod calculations;
mod command;
mod grouping;
mod laws;
mod namings;
mod reads;
mod seeking;
mod settings;
mod storing;
mod token_lists;
mod values;
mod variable;

pub use assigning::{assign, carry_out, read_prefixes};
pub use command::{
    Assignment, Command, Defining, Operation, Prefix, Prefixes, Shorthand, command_in, command_of,
    meant,
};
pub use grouping::{Grouping, change_group, grouping_of};
pub use laws::{assignments_leave_less, readings_leave_less};
pub use reads::{put_back, scan, take_next};
pub use seeking::{ignore_spaces, read_name, take_solid};
pub use storing::store_meaning;
pub use values::{read_dimension, read_equals, read_integer, read_keyword};
pub use variable::{Numbered, Target, Variable, character_at};
