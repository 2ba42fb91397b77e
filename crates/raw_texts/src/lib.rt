//! Texts that are read without expansion (The TeXbook, chapter 20): skipped text and token lists in
//! braces; and the machines by which they are read.
#![tactic(auto)]

mod braced;
mod fault;
mod group;
mod laws;
mod limb;
mod machine;
mod meanings;
mod naming;
mod passing;
mod run;
mod skipping;
mod text;
mod token;

pub use braced::read_braced;
pub use fault::MacroFault;
pub use group::read_group;
pub use laws::runs_go_on;
pub use limb::{Limb, limb_of};
pub use machine::{Machine, Progress};
pub use meanings::{mean_the_same, meaning_of};
pub use naming::read_name;
pub use passing::{Past, read_past};
pub use run::read_on;
pub use skipping::{Ended, Until, skip_text};
pub use text::read_text;
pub use token::{Brace, PAR, brace_of, is_par, is_parameter, is_space};
