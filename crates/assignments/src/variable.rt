//! What can be set.

ghost use Rattle.std.specs.Prelude.{◌≡◌};
ghost use Rattle.assignments.specs.Values.{register_number as the_register_number, character_at as the_character_at, character_number as the_character_number, code_number as the_code_number};
ghost use Rattle.assignments.specs.Variables.{variable_at as the_variable_at};
ghost use Rattle.scan_numbers.specs.Quantities.{char_of as the_char_of, code_key as the_code_key};

use control_faults::FaultKind;
use env_groups::{CodeKey, DimKey, GlueKey, IntKey, ToksKey};
use jis_codes::{Char, from_euc};
use scan_numbers::CodeKind;

/// What is set: a parameter, a register or a code.
#[derive(Clone, Copy, Debug, PartialEq, Eq)]
pub enum Variable {
    Int(IntKey),
    Dim(DimKey),
    Glue(GlueKey),
    Toks(ToksKey),
    Code(CodeKey),
}

/// What a number names.
#[derive(Clone, Copy, PartialEq, Eq)]
pub enum Numbered {
    Count,
    Dimen,
    Skip,
    Toks,
    /// The code of a character.
    Code(CodeKind),
}

/// What a command sets: it is known, or named by the number that follows.
#[derive(Clone, Copy, PartialEq, Eq)]
pub enum Target {
    Known(Variable),
    OfNumber(Numbered),
}

/// Returns the number of a register. `RegisterRange` comes exactly where it isn't from 0 to 255.
pub(crate) fn register_number(n: i64) -> Result<u32, FaultKind>
    ensures { result ≡ the_register_number n }
{
    match u8::try_from(n) {
        Ok(number) => Ok(u32::from(number)),
        Err(_) => Err(FaultKind::RegisterRange),
    }
}

fn char_of(number: u32) -> Option<Char>
    ensures { result ≡ the_char_of number }
{
    match u8::try_from(number) {
        Ok(code) => Some(Char::One(code)),
        Err(_) => from_euc(number).map(Char::Ja),
    }
}

/// Returns the character of a number, a byte or an internal code, or `None` where there is none.
pub fn character_at(n: i64) -> Option<Char>
    ensures { result ≡ the_character_at n }
{
    match u16::try_from(n) {
        Ok(number) => char_of(u32::from(number)),
        Err(_) => None,
    }
}

/// Returns the number of a character. `CodeRange` comes exactly where it is neither from 0 to 255
/// nor an internal code.
pub(crate) fn character_number(n: i64) -> Result<u32, FaultKind>
    ensures { result ≡ the_character_number n }
{
    match u16::try_from(n) {
        Ok(number) if char_of(u32::from(number)).is_some() => Ok(u32::from(number)),
        _ => Err(FaultKind::CodeRange),
    }
}

fn code_key(kind: CodeKind, character: Option<Char>) -> Option<CodeKey>
    ensures { result ≡ the_code_key kind character }
{
    match (kind, character?) {
        (CodeKind::Cat, Char::One(code)) => Some(CodeKey::Cat(code)),
        (CodeKind::Kcat, Char::Ja(cell)) => Some(CodeKey::Kcat(cell)),
        (CodeKind::Xsp, Char::One(code)) => Some(CodeKey::Xsp(code)),
        (CodeKind::InhibitXsp, Char::Ja(cell)) => Some(CodeKey::InhibitXsp(cell)),
        (CodeKind::Pre, character) => Some(CodeKey::Pre(character)),
        (CodeKind::Post, character) => Some(CodeKey::Post(character)),
        (CodeKind::Cat | CodeKind::Xsp, Char::Ja(_)) => None,
        (CodeKind::Kcat | CodeKind::InhibitXsp, Char::One(_)) => None,
    }
}

fn code_number(kind: CodeKind, n: i64) -> Result<CodeKey, FaultKind>
    ensures { result ≡ the_code_number kind n }
{
    code_key(kind, character_at(n)).ok_or(FaultKind::CodeRange)
}

/// Returns what a number names. `RegisterRange` comes exactly where a register has no such number,
/// and `CodeRange` where the character has no such code.
pub(crate) fn variable_at(kind: Numbered, n: i64) -> Result<Variable, FaultKind>
    ensures { result ≡ the_variable_at kind n }
{
    match kind {
        Numbered::Count => Ok(Variable::Int(IntKey::Register(register_number(n)?))),
        Numbered::Dimen => Ok(Variable::Dim(DimKey::Register(register_number(n)?))),
        Numbered::Skip => Ok(Variable::Glue(GlueKey::Register(register_number(n)?))),
        Numbered::Toks => Ok(Variable::Toks(ToksKey::Register(register_number(n)?))),
        Numbered::Code(kind) => Ok(Variable::Code(code_number(kind, n)?)),
    }
}
