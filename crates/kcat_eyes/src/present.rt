//! The present line.

ghost use Rattle.std.specs.Prelude.{◌≡◌, ◌≢◌, ◌≤◌, ◌<◌, ◌+◌, [], length, drop, true, false, Bool, Result, IsSome, OnOk, IfOk, is_err};
ghost use Rattle.ts_base.specs.Agreement.{Agrees, Counts, Uncounted, with_fault};
ghost use Rattle.ts_outside.specs.States.{ReadsOn};
ghost use Rattle.input_codings.specs.Lines.{Unread};
ghost use Rattle.input_codings.specs.Reading.{unread};
ghost use Rattle.kcat_eyes.specs.Eyes.{Look, Sight, FaultAt, at_line, in_line as what_is_in_line, looked, named};
ghost use Rattle.kcat_eyes.specs.Finds.{glance_of, IsInLine};
ghost use Rattle.kcat_eyes.specs.Sights.{line_in, eye_cause, look_cause, sight_in, SeesNames, Turns, CountsTurn};

use crate::fault::EyeFault;
use crate::find::{Find, in_line};
use crate::seen::Seen;
use crate::state::State;
use input_codings::{Line, Lines};
use jis_codes::Char;
use tok_lists::{CodeTable, Names, Token};
use ts_outside::Files;

/// The present line, the place of its next character, and the state in which that is met.
#[derive(Drop)]
pub(crate) struct Present {
    pub(crate) line: Option<Line>,
    pub(crate) at: usize,
    pub(crate) state: State,
}

// The characters of a line, or none.
fn characters(line: &Option<Line>) -> &[Char]
    ensures { result.now ≡ line_in line.now }
{
    match line {
        Some(line) => line.chars().as_slice(),
        None => &[],
    }
}

/// What stands next in the present line.
pub(crate) fn find<C: CodeTable>(present: &Present, codes: &C) -> Find
    requires { present.now.at ≤ length (line_in present.now.line) }
    ensures value { glance_of (line_in present.now.line) result
        ≡ what_is_in_line (C.codes codes.now) present.now.state (drop present.now.at (line_in present.now.line)) }
    ensures places { IsInLine (present.now.at + 1) (length (line_in present.now.line)) result }
{
    in_line(codes, present.state, characters(&present.line), present.at)
}

// The name of characters, as what is seen.
fn name(names: &mut Names, active: bool, chars: &[Char]) -> Result<Seen, EyeFault>
    ensures exact { (sight : Sight)
        → Agrees (λ seen. record { seen = seen; names = names.new; sight = sight }) look_cause
        (with_fault (at_line sight.lines.line_no) result)
        (named (record { active = active; chars = chars.now }) names.old sight) }
    ensures quiet { Uncounted eye_cause result }
    ensures names { SeesNames result names.old names.new }
{
    let number = names.intern(active, chars)?;
    Ok(Seen::Token(Token::Name(number)))
}

/// What is seen where something stands next in the present line, which is after it then.
pub(crate) fn see(present: &mut Present, found: Find, names: &mut Names) -> Result<Seen, EyeFault>
    requires here { present.old.at ≤ length (line_in present.old.line) }
    requires something { found ≢ Find.Nothing }
    requires places { IsInLine (present.old.at + 1) (length (line_in present.old.line)) found }
    ensures exact { (lines : Unread) (ends : Bool) (after : Result Look FaultAt)
        → Agrees (λ seen. record { seen = seen; names = names.new; sight = sight_in present.new.state present.new.at present.new.line lines ends }) look_cause
        (with_fault (at_line lines.line_no) result) (looked names.old lines ends (glance_of (line_in present.old.line) found) after) }
    ensures within { present.new.at ≤ length (line_in present.new.line) }
    ensures lowers { OnOk result
        (length (drop present.new.at (line_in present.new.line)) < length (drop present.old.at (line_in present.old.line))) }
    ensures quiet { Uncounted eye_cause result }
    ensures names { SeesNames result names.old names.new }
{
    match found {
        Find::Token(token, state, at) => {
            present.state = state;
            present.at = at;
            Ok(Seen::Token(token))
        }
        Find::Name(active, from, to, state) => {
            present.state = state;
            present.at = to;
            name(names, active, &characters(&present.line)[from..to])
        }
        Find::Paragraph => {
            present.line = None;
            present.at = 0;
            present.state = State::NewLine;
            name(
                names,
                false,
                &[Char::One(b'p'), Char::One(b'a'), Char::One(b'r')],
            )
        }
        Find::Invalid | Find::Nothing => Err(EyeFault::BadChar),
    }
}

/// Takes the next line, where there is one and the file doesn't end after the present one.
pub(crate) fn turn<F: Files>(
    present: &mut Present,
    lines: &mut Lines,
    ends: bool,
    files: &mut F,
) -> Result<bool, EyeFault>
    requires open { (F.state files.old).is_open lines.old.file ≡ true }
    requires unfailed { lines.old.failed ≡ false }
    ensures exact { IsSome ((F.state files.old).left lines.old.file)
        → Turns result (sight_in present.old.state present.old.at present.old.line (unread lines.old ((F.state files.old).left lines.old.file)) ends)
        (sight_in present.new.state present.new.at present.new.line (unread lines.new ((F.state files.new).left lines.old.file)) ends) }
    ensures within { present.new.at ≤ length (line_in present.new.line) }
    ensures short { length (line_in present.new.line) ≤ 65536 }
    ensures ended { IfOk result (λ more. more ≡ false → line_in present.new.line ≡ []) }
    ensures file { lines.new.file ≡ lines.old.file }
    ensures counts { CountsTurn result lines.old.line_no lines.new.line_no }
    ensures failed { lines.new.failed ≡ is_err result }
    ensures reads { ReadsOn lines.old.file (F.state files.old) (F.state files.new) }
    ensures counted { Counts eye_cause result (F.state files.old).faults (F.state files.new).faults }
{
    present.line = None;
    present.at = 0;
    present.state = State::NewLine;
    if ends && lines.line_no() > 0 {
        return Ok(false);
    }
    let Some(line) = lines.next_line(files)? else {
        return Ok(false);
    };
    present.line = Some(line);
    Ok(true)
}
