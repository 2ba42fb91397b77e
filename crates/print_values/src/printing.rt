//! What is printed, as tokens.

ghost use Rattle.std.specs.Prelude.{◌≡◌, ◌<◌, ◌^◌, IfOk, OnOk, ◌++◌, map};
ghost use Rattle.print_values.specs.Printing.{printed, printed_byte, printed_char, printed_dimension, printed_glue, printed_name, printed_number, printed_roman};

use crate::points::{push_dimension, push_glue};
use crate::roman::push_roman;
use itoa::Buffer;
use jis_codes::Char;
use std::alloc::{AllocError, Global};
use tok_lists::{SharedTokens, Spelling, Token};
use ts_base::NoMemory;
use ts_geometry::{Glue, Sp};

/// Returns the token of a character that is printed: of category 10 where it is a space, and else
/// of category 12 (The TeXbook, chapter 20).
pub fn character(byte: u8) -> Token
    ensures { result ≡ printed_byte byte }
{
    if byte == b' ' {
        Token::Char(byte, 10)
    } else {
        Token::Char(byte, 12)
    }
}

/// Returns a number in decimal digits, after a minus sign where it is below 0 (TeX: The Program,
/// section 65).
pub fn number(alloc: Global, n: i64) -> Result<SharedTokens, NoMemory>
    ensures { IfOk result (λ tokens. tokens ≡ printed_number n) }
{
    printed(alloc, Buffer::new().format(n).as_bytes())
}

/// Returns a number as a roman numeral in small letters, and nothing for a number of at most 0
/// (TeX: The Program, section 69).
pub fn roman_numeral(alloc: Global, n: i32) -> Result<SharedTokens, NoMemory>
    ensures { IfOk result (λ tokens. tokens ≡ printed_roman n) }
{
    let mut text = Vec::new(alloc);
    if 0 < n {
        push_roman(&mut text, n as u64)?;
    }
    printed(alloc, &text)
}

/// Returns a dimension, of so many scaled points, in points with `pt` (TeX: The Program, section
/// 103).
pub fn dimension(alloc: Global, length: Sp) -> Result<SharedTokens, NoMemory>
    ensures { IfOk result (λ tokens. tokens ≡ printed_dimension length.0) }
{
    let mut text = Vec::new(alloc);
    push_dimension(&mut text, length)?;
    printed(alloc, &text)
}

/// Returns glue: its width, and `plus` and `minus` where its stretch and its shrink aren't 0 (TeX:
/// The Program, section 178).
pub fn glue(alloc: Global, value: Glue) -> Result<SharedTokens, NoMemory>
    ensures { IfOk result (λ tokens. tokens ≡ printed_glue value) }
{
    let mut text = Vec::new(alloc);
    push_glue(&mut text, value)?;
    printed(alloc, &text)
}

/// Returns a name as it is spelt: byte 92 and its characters, or an active character alone (The
/// TeXbook, chapter 20, `\string`).
pub fn name(alloc: Global, spelling: &Spelling) -> Result<SharedTokens, NoMemory>
    ensures { IfOk result (λ tokens. tokens ≡ printed_name spelling.now) }
{
    let mut tokens = Vec::new(alloc);
    if !spelling.active {
        tokens.push(character(b'\\'))?;
    }
    push_chars(&mut tokens, spelling.chars.as_slice())?;
    SharedTokens::new(alloc, &tokens)
}

fn push_chars(tokens: &mut Vec<Token>, chars: &[Char]) -> Result<(), AllocError>
    ensures { OnOk result (tokens.new.items ≡ tokens.old.items ++ map printed_char chars.now) }
{
    for c in chars {
        tokens.push(printed_char(*c))?;
    }
    Ok(())
}

fn printed_char(c: Char) -> Token
    ensures { result ≡ printed_char c }
{
    match c {
        Char::One(byte) => character(byte),
        Char::Ja(cell) => Token::Ja(cell),
    }
}

/// Returns the tokens of a text.
fn printed(alloc: Global, text: &[u8]) -> Result<SharedTokens, NoMemory>
    ensures { IfOk result (λ tokens. tokens ≡ printed text.now) }
{
    let mut tokens = Vec::new(alloc);
    for byte in text {
        tokens.push(character(*byte))?;
    }
    SharedTokens::new(alloc, &tokens)
}
