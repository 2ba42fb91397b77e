//! The programs of ligatures and kerns of a TFM.

ghost use Rattle.std.specs.Prelude.{◌≡◌, ◌<◌, length, slice_index_or, pos};
ghost use Rattle.ts_base.specs.Agreement.{Agrees};
ghost use Rattle.metric_words.specs.Checking.{cause};
ghost use Rattle.metric_words.specs.Sound.{AreSound};
ghost use Rattle.metric_words.specs.Programs.{first_for, visited};
ghost use Rattle.tfm_load.specs.Programs as spec;

use metric_words::{Command, Lengths, bad, command_of, find, first_byte, push, table_of, word_at};
use std::alloc::Global;
use ts_geometry::{BadKind, MetricFault};

/// What a metric puts between two characters, or in their place.
#[derive(Clone, Copy, Debug, PartialEq, Eq)]
pub enum Step {
    /// Neither a kern nor a ligature.
    Nothing,
    /// A kern of this width, a fix word: a part of the size, with 20 binary places.
    Kern(i32),
    /// The character of this code in the place of both.
    Ligature(u8),
}

// Has the font a character of this code, by the words of the file?
#[tactic(auto, unfolding(crate::specs::Programs::is_in_font))]
fn is_in_font(bytes: &[u8], lengths: &Lengths, code: u8) -> bool
    requires { AreSound lengths.now (length bytes.now) }
    ensures { result ≡ spec.is_in_font bytes.now lengths.now code }
{
    let code = u16::from(code);
    if code < lengths.bc || lengths.ec < code {
        return false;
    }
    let at = lengths.char_info_start() + usize::from(code - lengths.bc);
    first_byte(word_at(bytes, at)) != 0
}

// Is a ligature command for a boundary character, of an operation other than 0, or of a character
// that the font lacks?
fn is_ligature_fault(lengths: &Lengths, place: usize, there: bool, command: Command) -> bool
    requires { place < 65535 }
    ensures { result ≡ spec.is_ligature_fault lengths.now place there command }
{
    if command.skip == 255 && (place == 0 || place + 1 == usize::from(lengths.nl)) {
        return true;
    }
    command.skip <= 128 && command.op < 128 && (command.op != 0 || !there)
}

/// Returns where a program starts whose first command has a skip above 128.
fn far_start(command: Command) -> usize
    ensures value { result ≡ spec.far_start command }
    ensures most { result < 65536 }
{
    256 * usize::from(command.op) + usize::from(command.remainder)
}

/// Returns the number of a command's kern.
fn kern_number(command: Command) -> usize
    ensures { result ≡ spec.kern_number command }
{
    256 * usize::from(command.op.saturating_sub(128)) + usize::from(command.remainder)
}

// Does a command lead to a command or a kern that isn't there?
fn is_program_fault(lengths: &Lengths, place: usize, command: Command) -> bool
    requires { place < 65535 }
    ensures { result ≡ spec.is_program_fault lengths.now place command }
{
    let len = usize::from(lengths.nl);
    if command.skip > 128 {
        return len <= far_start(command);
    }
    if command.op >= 128 && usize::from(lengths.nk) <= kern_number(command) {
        return true;
    }
    command.skip < 128 && len <= place + usize::from(command.skip) + 1
}

#[tactic(auto, unfolding(crate::specs::Programs::program_kind))]
fn program_kind(bytes: &[u8], lengths: &Lengths, place: usize, word: u32) -> Option<BadKind>
    requires sound { AreSound lengths.now (length bytes.now) }
    requires place { place < 65535 }
    ensures { result ≡ spec.program_kind bytes.now lengths.now place word }
{
    let command = command_of(word);
    let there = is_in_font(bytes, lengths, command.remainder);
    if is_ligature_fault(lengths, place, there, command) {
        Some(BadKind::Ligature)
    } else if is_program_fault(lengths, place, command) {
        Some(BadKind::Program)
    } else {
        None
    }
}

/// Reads the programs. A boundary character, an operation other than 0 and a ligature that the font
/// lacks are the fault Ligature; a command that leads out of the programs or the kerns is Program.
pub(crate) fn read_commands(
    alloc: Global,
    bytes: &[u8],
    lengths: &Lengths,
) -> Result<Vec<Command>, MetricFault>
    requires { AreSound lengths.now (length bytes.now) }
    ensures { Agrees (λ v. v.items) cause result (spec.commands_in bytes.now lengths.now) }
{
    let start = lengths.program_start();
    let len = usize::from(lengths.nl);
    let mut commands = table_of(alloc, len)?;
    for place in 0..len {
        let word = word_at(bytes, start + place);
        if let Some(kind) = program_kind(bytes, lengths, place, word) {
            return Err(bad(kind, start + place));
        }
        push(&mut commands, command_of(word))?;
    }
    Ok(commands)
}

/// Runs the program whose first command is that one, and returns the first command that counts
/// before a character. Each command is looked at once at most. Takes no memory.
pub(crate) fn find_from_first(commands: &[Command], first: usize, next: u8) -> Option<Command>
    ensures { result ≡ first_for next (visited (spec.start_of commands.now first) commands.now) }
{
    if commands.len() <= first {
        return None;
    }
    let command = commands[first];
    if command.skip > 128 {
        return find(commands, far_start(command), next);
    }
    if command.next == next {
        return Some(command);
    }
    if command.skip == 128 {
        return None;
    }
    find(commands, first + usize::from(command.skip) + 1, next)
}

// The fix word at that place of a table; each that a command names is there.
fn fix_at(table: &[i32], at: usize) -> i32
    ensures { result ≡ slice_index_or table.now at (pos 0) }
{
    if at < table.len() { table[at] } else { 0 }
}

/// Returns what a command puts, from the table of kerns.
pub(crate) fn step_of(kerns: &[i32], command: Command) -> Step
    ensures { result ≡ spec.step_of kerns.now command }
{
    if command.op >= 128 {
        Step::Kern(fix_at(kerns, kern_number(command)))
    } else {
        Step::Ligature(command.remainder)
    }
}
