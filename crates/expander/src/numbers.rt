//! Values that are scanned and printed.

ghost use Rattle.std.specs.Prelude.{◌≡◌, ◌≤◌, ◌+◌, IfOk};
ghost use Rattle.ts_base.specs.Agreement.{Agrees, Uncounted, with_fault};
ghost use Rattle.ts_outside.specs.States.{FilesState};
ghost use Rattle.jis_codes.specs.Numbers.{cell_of as the_cell_of};
ghost use Rattle.env_groups.specs.Bounds.{IsInt};
ghost use Rattle.scan_syntax.specs.Bounds.{IsWithinBounds};
ghost use Rattle.mouth.specs.Keeping.{reading, AgreesAt, KeepsFiles};
ghost use Rattle.mouth.specs.Sizes.{size};
ghost use Rattle.expander.specs.declared.fault.StepFault.TheVariants as faults;
ghost use Rattle.expander.specs.Faults.{step_cause};
ghost use Rattle.expander.specs.Holding.{IsListed, IsPlainList};
ghost use Rattle.expander.specs.Numbers.{want_of as the_want, integer_in as the_integer, coding_of, japanese_at as the_japanese_at, code_shown as the_code_shown, value_shown as the_value_shown, shown as the_shown, shown_put};

use crate::action::{CharNumber, Printing};
use crate::fault::StepFault;
use crate::steps::push;
use jis_codes::{Cell, from_euc, from_jis, from_kuten, from_sjis, to_euc};
use mouth::Mouth;
use print_values::{dimension, glue, number, roman_numeral};
use scan_syntax::{ScanKind, Value, Want};
use std::alloc::Global;
use tok_lists::SharedTokens;
use ts_base::NoMemory;

/// Returns what is scanned.
pub(crate) fn want_of(printing: Printing) -> Want
    ensures { result ≡ the_want printing }
{
    match printing {
        Printing::The => Want::Internal,
        Printing::Number | Printing::RomanNumeral | Printing::Code(_) => Want::Integer,
    }
}

/// Returns the integer that a scan found, and 0 where it found another value.
pub(crate) fn integer_in(value: &Value) -> i64
    requires { IsWithinBounds value.now }
    ensures value { result ≡ the_integer value.now }
    ensures within { IsInt result }
{
    match value {
        Value::Integer(n) => *n,
        _ => 0,
    }
}

// The cell of a number of two bytes.
fn cell_of(kind: CharNumber, n: u32) -> Option<Cell>
    ensures { result ≡ the_cell_of (coding_of kind) n }
{
    match kind {
        CharNumber::Jis => from_jis(n),
        CharNumber::Euc => from_euc(n),
        CharNumber::Sjis => from_sjis(n),
        CharNumber::Kuten => from_kuten(n),
    }
}

// The cell of a number; one of more than 16 bits has none.
fn japanese_at(kind: CharNumber, n: i64) -> Option<Cell>
    ensures { result ≡ the_japanese_at (coding_of kind) n }
{
    match u16::try_from(n) {
        Ok(n) => cell_of(kind, u32::from(n)),
        Err(_) => None,
    }
}

// The internal code of a Japanese character, in decimal digits.
fn code_shown(alloc: Global, cell: Option<Cell>) -> Result<SharedTokens, StepFault>
    ensures exact { Agrees (λ tokens. tokens) step_cause result
        (with_fault (λ kind. faults.Scan kind) (the_code_shown cell)) }
    ensures quiet { Uncounted step_cause result }
{
    match cell {
        Some(cell) => Ok(number(alloc, i64::from(to_euc(cell)))?),
        None => Err(StepFault::Scan(ScanKind::CodeRange)),
    }
}

/// Returns what `\the` gives: a list of tokens as it is, and any other value printed.
pub(crate) fn value_shown(alloc: Global, value: &Value) -> Result<SharedTokens, NoMemory>
    ensures { IfOk result (λ tokens. tokens ≡ the_value_shown value.now) }
{
    match value {
        Value::Integer(n) => number(alloc, *n),
        Value::Dimen(length) => dimension(alloc, *length),
        Value::Glue(value) => glue(alloc, *value),
        Value::Toks(list) => Ok(list.same_copy()),
        _ => Ok(SharedTokens::default()),
    }
}

// What a value is printed as.
fn shown(alloc: Global, printing: Printing, value: &Value) -> Result<SharedTokens, StepFault>
    requires { IsWithinBounds value.now }
    ensures exact { Agrees (λ tokens. tokens) step_cause result
        (with_fault (λ kind. faults.Scan kind) (the_shown printing value.now)) }
    ensures quiet { Uncounted step_cause result }
{
    match printing {
        Printing::Number => Ok(number(alloc, integer_in(value))?),
        Printing::RomanNumeral => Ok(roman_numeral(alloc, integer_in(value) as i32)?),
        Printing::The => Ok(value_shown(alloc, value)?),
        Printing::Code(kind) => code_shown(alloc, japanese_at(kind, integer_in(value))),
    }
}

/// Puts what a value is printed as in front (The TeXbook, chapter 20; pTeX). `CodeRange` comes
/// exactly where a number is that of no Japanese character in the coding.
pub(crate) fn put_shown(
    alloc: Global,
    mouth: &mut Mouth,
    printing: Printing,
    value: &Value,
) -> Result<(), StepFault>
    requires listed { IsListed (IsPlainList mouth.old.names) value.now }
    requires within { IsWithinBounds value.now }
    ensures exact { (state : FilesState) → AgreesAt (λ _. reading mouth.new state) step_cause
        mouth.new result (shown_put (the_shown printing value.now) (reading mouth.old state)) }
    ensures files { KeepsFiles mouth.old mouth.new }
    ensures names { mouth.new.names ≡ mouth.old.names }
    ensures quiet { Uncounted step_cause result }
    ensures size { (state : FilesState) → size (reading mouth.new state)
        ≤ size (reading mouth.old state) + 1000000 }
{
    let list = shown(alloc, printing, value)?;
    push(mouth, &list)
}
