//! The programs of ligatures, kerns and glue.

ghost use Rattle.std.specs.Prelude.{◌≡◌};
ghost use Rattle.metric_words.specs.Programs as spec;

use crate::words::{first_byte, fourth_byte, second_byte, third_byte};

/// A word of a program of ligatures and kerns, or of glue and kerns (TeX: The Program, section 545;
/// the JFM specification).
#[derive(Clone, Copy, Debug)]
pub struct Command {
    /// 128 or more where the program ends; else the number of commands to pass over.
    pub skip: u8,
    /// The character or class before which the command counts.
    pub next: u8,
    /// What is meant.
    pub op: u8,
    /// Which one of these.
    pub remainder: u8,
}

impl Command {
    /// Does the command count before this character or class?
    pub fn counts(self, next: u8) -> bool
        ensures { result ≡ spec.counts next self }
    {
        self.next == next && self.skip <= 128
    }
}

/// Returns the command that a word spells.
#[tactic(auto, unfolding(crate::specs::Programs::command_of))]
pub fn command_of(word: u32) -> Command
    ensures { result ≡ spec.command_of word }
{
    Command {
        skip: first_byte(word),
        next: second_byte(word),
        op: third_byte(word),
        remainder: fourth_byte(word),
    }
}

/// Runs a program from its first command on, and returns the first one that counts before this
/// character or class. Each command is looked at once at most. Takes no memory.
pub fn find(commands: &[Command], start: usize, next: u8) -> Option<Command>
    ensures { result ≡ spec.first_for next (spec.visited start commands.now) }
{
    let mut at = start;
    while at < commands.len() {
        let command = commands[at];
        if command.counts(next) {
            return Some(command);
        }
        if command.skip >= 128 {
            return None;
        }
        at += usize::from(command.skip) + 1;
    }
    None
}
