//! The characters of a line.

ghost use Rattle.std.specs.Prelude.{◌≡◌, ◌≤◌, ◌<◌, ◌+◌, ◌++◌, ◌∷◌, ℕ, [], length, take, nat_lt, get_or, OnOk, OnErr, IfOk};
ghost use Rattle.std.proofs.Math.ListN.{replicate};
ghost use Rattle.ts_base.specs.Agreement.{Agrees, Uncounted};
ghost use Rattle.jis_codes.specs.declared.Char.TheVariants.{One};
ghost use Rattle.input_codings.specs.Decoding.{is_space as the_is_space, length_of as the_length_of, trimmed, decoded};
ghost use Rattle.input_codings.specs.Pieces.{text_of as the_text_of};
ghost use Rattle.input_codings.specs.Lines.{closed, line_cause};

use crate::coding::Coding;
use crate::fault::LineFault;
use crate::item::{Item, State, item_of};
use jis_codes::{Char, Chars};
use std::alloc::Global;

// Without a byte 13 directly before the byte 10.
fn text_of(ended: bool, bytes: &[u8]) -> &[u8]
    ensures value { result.now ≡ the_text_of ended bytes.now }
    ensures most { length result.now ≤ length bytes.now }
{
    if ended && !bytes.is_empty() && bytes[bytes.len() - 1] == 13 {
        &bytes[..bytes.len() - 1]
    } else {
        bytes
    }
}

// The byte of a place, or 0 after the end.
fn byte_at(bytes: &[u8], place: usize) -> u8
    ensures { result ≡ get_or bytes.now place 0 }
{
    if place < bytes.len() { bytes[place] } else { 0 }
}

fn is_space(c: &Char) -> bool
    ensures { result ≡ the_is_space c.now }
{
    *c == Char::One(32)
}

// Appends so many characters 32.
fn push_spaces(chars: &mut Chars, count: usize) -> Result<(), LineFault>
    ensures all { OnOk result (chars.new ≡ chars.old ++ replicate count (One 32)) }
    ensures quiet { OnErr result (result ≡ Err LineFault.NoMemory) }
{
    for pushed in 0..count {
        let _ = pushed;
        chars.push(Char::One(32))?;
    }
    Ok(())
}

// Appends a character after so many characters 32, which wait: they are appended only if a
// character other than 32 follows. Gives how many wait then.
#[tactic(auto, using(crate::proofs::Decodes::trimmed_push))]
fn push_after(chars: &mut Chars, spaces: usize, c: Char) -> Result<usize, LineFault>
    requires { spaces < 65536 }
    ensures all { IfOk result
        (λ n. chars.new ++ replicate n (One 32) ≡ (chars.old ++ replicate spaces (One 32)) ++ c ∷ []) }
    ensures most { IfOk result (λ n. n ≤ spaces + 1) }
    ensures trimmed { OnOk result (trimmed chars.old ≡ chars.old → trimmed chars.new ≡ chars.new) }
    ensures quiet { OnErr result (result ≡ Err LineFault.NoMemory) }
{
    if is_space(&c) {
        return Ok(spaces + 1);
    }
    push_spaces(chars, spaces)?;
    chars.push(c)?;
    Ok(0)
}

// How many bytes a character has.
fn length_of(c: &Char) -> usize
    ensures value { result ≡ the_length_of c.now }
    ensures least { 1 ≤ result }
    ensures most { result ≤ 2 }
{
    match c {
        Char::One(_) => 1,
        Char::Ja(_) => 2,
    }
}

// The characters that the bytes of a line stand for, without characters 32 at the end, and then
// character 13.
fn decode(alloc: Global, coding: Coding, bytes: &[u8]) -> Result<Chars, LineFault>
    requires { length bytes.now ≤ 65535 }
    ensures exact { Agrees (λ chars. chars) line_cause result (closed (decoded coding bytes.now)) }
    ensures quiet { Uncounted line_cause result }
{
    let mut chars = Chars::new(alloc);
    let mut spaces = 0;
    let mut state = State::OneByte;
    let mut at = 0;
    while at < bytes.len() {
        let (second, third) = (byte_at(bytes, at + 1), byte_at(bytes, at + 2));
        match item_of(coding, state, bytes[at], second, third) {
            None => return Err(LineFault::BadByte(at as u32)),
            Some(Item::Escape(selected)) => {
                state = selected;
                at += 3;
            }
            Some(Item::Character(c)) => {
                at += length_of(&c);
                spaces = push_after(&mut chars, spaces, c)?;
            }
        }
    }
    chars.push(Char::One(13))?;
    Ok(chars)
}

/// The characters of the line that begins the bytes and has so many of them before its byte 10, or
/// before the end of the file.
pub fn line_chars(
    alloc: Global,
    coding: Coding,
    bytes: &[u8],
    count: usize,
) -> Result<Chars, LineFault>
    requires within { count ≤ length bytes.now }
    requires most { count ≤ 65535 }
    ensures exact { Agrees (λ chars. chars) line_cause result
        (closed (decoded coding (the_text_of (nat_lt count (length bytes.now)) (take count bytes.now)))) }
    ensures short { IfOk result (λ chars. length chars ≤ 65536) }
    ensures quiet { Uncounted line_cause result }
{
    decode(alloc, coding, text_of(count < bytes.len(), &bytes[..count]))
}
