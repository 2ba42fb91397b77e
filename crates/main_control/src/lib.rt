//! Main control: turns over a source, each with the whole effect of one token (The TeXbook,
//! chapters 24 and 25; TeX: The Program, part 46).
#![tactic(auto)]

mod boxes;
mod command;
mod control;
mod ending;
mod fonts;
mod laws;
mod lists;
mod stomach;
mod texts;

pub use control_faults::{Fault, FaultKind};
pub use ending::{Ending, Turn};
pub use laws::a_run_is_turn_after_turn;
pub use stomach::Stomach;
