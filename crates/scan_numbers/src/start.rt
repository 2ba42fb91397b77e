//! What a token can be in a number.

ghost use Rattle.std.specs.Prelude.{◌≡◌, ◌+◌, ◌*◌, ◌<◌, min, IfOk, IfSome, slice_get};
ghost use Rattle.jis_codes.specs.Spellings.{euc};
ghost use Rattle.jis_codes.specs.Numbers.{number_of};
ghost use Rattle.scan_numbers.specs.Bounds.{BeginsBounded, IsBounded};
ghost use Rattle.scan_numbers.specs.Keywords.{is_letter as it_is_letter};
ghost use Rattle.scan_numbers.specs.Tokens.{start as the_start, digit as the_digit};
ghost use Rattle.scan_numbers.specs.Tokens.{base as the_base, character as the_character};
ghost use Rattle.scan_numbers.specs.Tokens.{is_space as it_is_space, letter as the_letter};
ghost use Rattle.scan_numbers.specs.Tokens.{meant as the_meant, place_start as the_place_start};
ghost use Rattle.scan_numbers.specs.Tokens.{whole_start as the_whole_start};
ghost use Rattle.scan_numbers.specs.Tokens.{letter_start as the_letter_start};
ghost use Rattle.scan_numbers.specs.Tokens.{code_start as the_code_start};
ghost use Rattle.scan_numbers.specs.Tokens.{char_code as the_char_code, only as the_only};
ghost use Rattle.scan_numbers.specs.Tokens.{spelt as the_spelt};

use crate::context::Context;
use crate::fault::ScanKind;
use crate::primitive::{Place, place_of};
use crate::quantity::{Quantity, Register, dim_held, glue_held, held, int_held};
use env_groups::{DimKey, GlueKey, IntKey, Meaning};
use jis_codes::{Cell, Char, to_euc};
use tok_lists::{NameNo, Names, Token};

/// What a token can begin where a number or a dimension is wanted.
#[derive(Clone, Copy, PartialEq, Eq)]
pub enum Start {
    Space,
    Plus,
    Minus,
    Digit,
    /// `'`
    Octal,
    /// `"`
    Hexadecimal,
    /// `` ` ``
    Backquote,
    /// A decimal point or comma.
    Point,
    /// A whole internal quantity.
    Internal(Quantity),
    /// A register, whose number follows.
    Register(Register),
    /// The name of a register that isn't there.
    Refused(ScanKind),
    Other,
}

#[derive(Clone, Copy, PartialEq, Eq)]
pub(crate) enum Radix {
    Octal,
    Decimal,
    Hexadecimal,
}

impl Radix {
    pub(crate) fn base(self) -> u8
        ensures { result ≡ the_base self }
    {
        match self {
            Radix::Octal => 8,
            Radix::Decimal => 10,
            Radix::Hexadecimal => 16,
        }
    }

    /// A number with a further digit, or 2^32 - 1 where that is less.
    pub(crate) fn with_digit(self, number: u32, digit: u8) -> u32
        ensures { result ≡ min (number * the_base self + digit) 4294967295 }
    {
        number
            .saturating_mul(u32::from(self.base()))
            .saturating_add(u32::from(digit))
    }
}

/// Returns what a token begins where a number is wanted: by its own character, or by what its name
/// means. A name that isn't expanded acts as `\relax`.
#[tactic(auto, unfolding(crate::specs::Tokens::start))]
pub fn start_of(token: &Token, context: &Context<'_>) -> Start
    ensures value { result ≡ the_start token.now context.now }
    ensures within { BeginsBounded result }
{
    match token {
        Token::Char(_, 10) => Start::Space,
        Token::Char(b'+', 12) => Start::Plus,
        Token::Char(b'-', 12) => Start::Minus,
        Token::Char(b'\'', 12) => Start::Octal,
        Token::Char(b'"', 12) => Start::Hexadecimal,
        Token::Char(b'`', 12) => Start::Backquote,
        Token::Char(b'.' | b',', 12) => Start::Point,
        Token::Char(b'0'..=b'9', 12) => Start::Digit,
        Token::Char(..) | Token::Ja(_) | Token::Kept(_) | Token::Param(_) => Start::Other,
        Token::Name(name) => meant(&context.env.get_meaning(*name), context),
    }
}

// A whole internal quantity.
fn whole_start(held: Result<Quantity, ScanKind>) -> Start
    requires { IfOk held IsBounded }
    ensures value { result ≡ the_whole_start held }
    ensures within { BeginsBounded result }
{
    match held {
        Ok(quantity) => Start::Internal(quantity),
        Err(kind) => Start::Refused(kind),
    }
}

fn place_start(place: Place, context: &Context<'_>) -> Start
    ensures value { result ≡ the_place_start place context.now.env }
    ensures within { BeginsBounded result }
{
    match place {
        Place::Int(param) => whole_start(int_held(IntKey::Param(param), context)),
        Place::Dim(param) => whole_start(dim_held(DimKey::Param(param), context)),
        Place::Glue(param) => whole_start(glue_held(GlueKey::Param(param), context)),
        Place::Register(register) => Start::Register(register),
        Place::Nothing => Start::Other,
    }
}

fn letter_start(token: &Token) -> Start
    ensures value { result ≡ the_letter_start token.now }
    ensures within { BeginsBounded result }
{
    match token {
        Token::Char(_, 10) => Start::Space,
        Token::Char(..) | Token::Ja(_) | Token::Name(_) | Token::Kept(_) | Token::Param(_) => {
            Start::Other
        }
    }
}

fn code_start(code: u32) -> Start
    ensures value { result ≡ the_code_start code }
    ensures within { BeginsBounded result }
{
    Start::Internal(Quantity::Integer(code.min(2_147_483_647) as i32))
}

// What a name of this meaning can begin.
fn meant(meaning: &Meaning, context: &Context<'_>) -> Start
    ensures value { result ≡ the_meant meaning.now context.now.env }
    ensures within { BeginsBounded result }
{
    match meaning {
        Meaning::Primitive(prim) => place_start(place_of(*prim), context),
        Meaning::Letter(token) => letter_start(token),
        Meaning::Code(code) => code_start(*code),
        Meaning::Count(number) => whole_start(held(Register::Count, *number, context)),
        Meaning::Dimen(number) => whole_start(held(Register::Dimen, *number, context)),
        Meaning::Skip(number) => whole_start(held(Register::Skip, *number, context)),
        Meaning::Undefined | Meaning::Macro(_) | Meaning::Toks(_) | Meaning::Font(_) => {
            Start::Other
        }
    }
}

/// Tells whether it is a space token, explicit or implicit.
pub fn is_space(token: &Token, context: &Context<'_>) -> bool
    ensures { result ≡ it_is_space token.now context.now }
{
    matches!(start_of(token, context), Start::Space)
}

/// The digit that a token is.
#[tactic(auto, unfolding(crate::specs::Tokens::digit))]
pub(crate) fn digit(radix: Radix, token: &Token) -> Option<u8>
    ensures value { result ≡ the_digit radix token.now }
    ensures below { IfSome result (λ d. d < the_base radix) }
{
    let value = match token {
        Token::Char(code @ b'0'..=b'9', 12) => *code - b'0',
        Token::Char(code @ b'A'..=b'F', 11 | 12) => *code - b'A' + 10,
        _ => return None,
    };
    if value < radix.base() {
        Some(value)
    } else {
        None
    }
}

// The internal code of a Japanese character.
fn internal_code(cell: Cell) -> u16
    ensures { result ≡ number_of euc cell }
{
    to_euc(cell) as u16
}

// The code of a character.
fn char_code(character: Char) -> u16
    ensures { result ≡ the_char_code character }
{
    match character {
        Char::One(code) => u16::from(code),
        Char::Ja(cell) => internal_code(cell),
    }
}

// The code of the one character of these.
fn only(chars: &[Char]) -> Option<u16>
    ensures { result ≡ the_only chars.now }
{
    match chars {
        [character] => Some(char_code(*character)),
        _ => None,
    }
}

// The code of the one character of a name.
fn spelt(name: NameNo, names: &Names) -> Option<u16>
    ensures { result ≡ the_spelt (slice_get names.now name.0) }
{
    if (name.0 as usize) < names.len() {
        only(names.spelling(name).chars.as_slice())
    } else {
        None
    }
}

/// The code of a character, or of a name of one character.
#[tactic(auto, unfolding(crate::specs::Tokens::character))]
pub(crate) fn character(token: &Token, context: &Context<'_>) -> Option<u16>
    ensures { result ≡ the_character token.now context.now }
{
    match token {
        Token::Char(code, _) => Some(u16::from(*code)),
        Token::Ja(cell) => Some(internal_code(*cell)),
        Token::Name(name) | Token::Kept(name) => spelt(*name, context.names),
        Token::Param(_) => None,
    }
}

/// Returns the small letter that a character of a keyword is: of any category but that of active
/// characters.
#[tactic(auto, unfolding(crate::specs::Tokens::letter))]
pub fn letter(token: &Token) -> Option<u8>
    ensures { result ≡ the_letter token.now }
{
    match token {
        Token::Char(_, 13) => None,
        Token::Char(code @ b'a'..=b'z', _) => Some(*code),
        Token::Char(code @ b'A'..=b'Z', _) => Some(*code - b'A' + b'a'),
        _ => None,
    }
}

/// Tells whether it is this letter.
pub fn is_letter(wanted: u8, found: Option<u8>) -> bool
    ensures { result ≡ it_is_letter wanted found }
{
    match found {
        Some(letter) => letter == wanted,
        None => false,
    }
}
