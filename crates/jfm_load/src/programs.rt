//! The programs of glue and kerns of a JFM.

ghost use Rattle.std.specs.Prelude.{◌≡◌, ◌<◌, length, slice_index_or, pos};
ghost use Rattle.ts_base.specs.Agreement.{Agrees};
ghost use Rattle.metric_words.specs.Checking.{cause};
ghost use Rattle.metric_words.specs.Sound.{AreSound};
ghost use Rattle.jfm_load.specs.Programs as spec;

use metric_words::{Command, Lengths, bad, command_of, push, table_of, word_at};
use std::alloc::Global;
use ts_geometry::{BadKind, MetricFault};

/// What a metric puts between two classes of characters, in fix words: parts of the size, with 20
/// binary places.
#[derive(Clone, Copy, Debug, PartialEq, Eq)]
pub enum Space {
    /// Neither glue nor a kern.
    Nothing,
    /// Glue of this width, stretch and shrink.
    Glue(i32, i32, i32),
    /// A kern of this width.
    Kern(i32),
}

fn is_command(lengths: &Lengths, command: Command) -> bool
    ensures { result ≡ spec.is_command lengths.now command }
{
    let remainder = u16::from(command.remainder);
    (command.op == 0 && 3 * remainder + 3 <= lengths.ng)
        || (command.op == 128 && remainder < lengths.nk)
}

fn has_skip(lengths: &Lengths, place: usize, command: Command) -> bool
    requires { place < 65535 }
    ensures { result ≡ spec.has_skip lengths.now place command }
{
    command.skip == 128 || (command.skip == 0 && place + 1 != usize::from(lengths.nl))
}

#[tactic(auto, unfolding(crate::specs::Programs::program_kind))]
fn program_kind(lengths: &Lengths, place: usize, word: u32) -> Option<BadKind>
    requires { place < 65535 }
    ensures { result ≡ spec.program_kind lengths.now place word }
{
    let command = command_of(word);
    if has_skip(lengths, place, command) && is_command(lengths, command) {
        None
    } else {
        Some(BadKind::Program)
    }
}

/// Reads the programs. A word that is none of glue or kerns, or leads out of them, is the fault
/// Program.
pub(crate) fn read_commands(
    alloc: Global,
    bytes: &[u8],
    lengths: &Lengths,
) -> Result<Vec<Command>, MetricFault>
    requires { AreSound lengths.now (length bytes.now) }
    ensures { Agrees (λ v. v.items) cause result (spec.commands_in bytes.now lengths.now) }
{
    let start = lengths.program_start();
    let len = usize::from(lengths.nl);
    let mut commands = table_of(alloc, len)?;
    for place in 0..len {
        let word = word_at(bytes, start + place);
        if let Some(kind) = program_kind(lengths, place, word) {
            return Err(bad(kind, start + place));
        }
        push(&mut commands, command_of(word))?;
    }
    Ok(commands)
}

// The fix word at that place of a table; each that a command names is there.
fn fix_at(table: &[i32], at: usize) -> i32
    ensures { result ≡ slice_index_or table.now at (pos 0) }
{
    if at < table.len() { table[at] } else { 0 }
}

/// Returns the space that a command puts, from the tables of kerns and glue.
pub(crate) fn space_of(kerns: &[i32], glues: &[i32], command: Command) -> Space
    ensures { result ≡ spec.space_of kerns.now glues.now command }
{
    let number = usize::from(command.remainder);
    if command.op == 0 {
        let first = 3 * number;
        Space::Glue(
            fix_at(glues, first),
            fix_at(glues, first + 1),
            fix_at(glues, first + 2),
        )
    } else {
        Space::Kern(fix_at(kerns, number))
    }
}
