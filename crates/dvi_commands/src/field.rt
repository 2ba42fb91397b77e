//! The fields of commands, at a place of a file.

ghost use Rattle.std.specs.Prelude.{◌≡◌, ◌≤◌, ◌<◌, ◌+◌, ◌^◌, pos, ◌-ℤ◌, nat_lt, if◌then◌else◌, length, take, drop, IfOk};
ghost use Rattle.dvi_commands.specs.Fields.{Gives, left_at, byte, text, unsigned, signed, with_sign, value_after, counts, font_number, text_of};

use crate::command::Part;
use crate::fault::DviKind;
use byteorder::{BigEndian, ByteOrder};

pub(crate) fn byte_at(bytes: &[u8], at: usize) -> Result<(u8, usize), DviKind>
    requires { at ≤ length bytes.now }
    ensures exact { Gives (left_at bytes.now (λ b. b)) result (byte (drop at bytes.now)) }
    ensures on { IfOk result (λ x. at < x.1) }
    ensures within { IfOk result (λ x. x.1 ≤ length bytes.now) }
{
    if at < bytes.len() {
        Ok((bytes[at], at + 1))
    } else {
        Err(DviKind::Truncated)
    }
}

// The number in the first bytes, one to four of them.
#[tactic(auto, using(crate::proofs::Values::value_one, crate::proofs::Values::value_two, crate::proofs::Values::value_three, crate::proofs::Values::value_four))]
fn value(field: &[u8], len: usize) -> u32
    requires some { 1 ≤ len }
    requires few { len ≤ 4 }
    requires there { len ≤ length field.now }
    ensures value { result ≡ value_after 0 (take len field.now) }
    ensures fits { result < 256 ^ len }
    ensures short { len ≤ 3 → result < 16777216 }
{
    match len {
        1 => u32::from(field[0]),
        2 => u32::from(BigEndian::read_u16(field)),
        3 => u32::from(BigEndian::read_u16(field)) * 256 + u32::from(field[2]),
        _ => BigEndian::read_u32(field),
    }
}

/// A number of one to four bytes without a sign.
#[tactic(auto, unfolding(crate::specs::Fields::unsigned))]
pub(crate) fn number_at(bytes: &[u8], at: usize, len: usize) -> Result<(u32, usize), DviKind>
    requires at { at ≤ length bytes.now }
    requires some { 1 ≤ len }
    requires few { len ≤ 4 }
    ensures exact { Gives (left_at bytes.now (λ n. n)) result (unsigned len (drop at bytes.now)) }
    ensures on { IfOk result (λ x. at ≤ x.1) }
    ensures within { IfOk result (λ x. x.1 ≤ length bytes.now) }
    ensures fits { IfOk result (λ x. x.0 < 256 ^ len) }
    ensures short { IfOk result (λ x. len ≤ 3 → x.0 < 16777216) }
{
    if bytes.len() - at < len {
        return Err(DviKind::Truncated);
    }
    Ok((value(&bytes[at..], len), at + len))
}

// The number of which those from half on stand for those below 0.
fn turned(n: u32, half: u32) -> i32
    requires half { half ≤ 2147483648 }
    requires fits { n < half + half }
    ensures { result ≡ (if nat_lt n half then pos n else pos n -ℤ pos (half + half)) }
{
    if n < half {
        n as i32
    } else {
        (n as i64 - half as i64 - half as i64) as i32
    }
}

fn sign_of(n: u32, len: usize) -> i32
    requires some { 1 ≤ len }
    requires few { len ≤ 4 }
    requires fits { n < 256 ^ len }
    ensures { result ≡ with_sign len n }
{
    match len {
        1 => turned(n, 0x80),
        2 => turned(n, 0x8000),
        3 => turned(n, 0x80_0000),
        _ => turned(n, 0x8000_0000),
    }
}

/// A number of one to four bytes with a sign.
#[tactic(auto, unfolding(crate::specs::Fields::signed))]
pub(crate) fn signed_at(bytes: &[u8], at: usize, len: usize) -> Result<(i32, usize), DviKind>
    requires at { at ≤ length bytes.now }
    requires some { 1 ≤ len }
    requires few { len ≤ 4 }
    ensures exact { Gives (left_at bytes.now (λ n. n)) result (signed len (drop at bytes.now)) }
    ensures on { IfOk result (λ x. at ≤ x.1) }
    ensures within { IfOk result (λ x. x.1 ≤ length bytes.now) }
{
    let (n, after) = number_at(bytes, at, len)?;
    Ok((sign_of(n, len), after))
}

/// The number of a font, of one to four bytes, of which four have a sign.
#[tactic(auto, unfolding(crate::specs::Fields::font_number))]
pub(crate) fn font_number_at(bytes: &[u8], at: usize, len: usize) -> Result<(i32, usize), DviKind>
    requires at { at ≤ length bytes.now }
    requires some { 1 ≤ len }
    requires few { len ≤ 4 }
    ensures exact { Gives (left_at bytes.now (λ n. n)) result (font_number len (drop at
        bytes.now)) }
    ensures on { IfOk result (λ x. at ≤ x.1) }
    ensures within { IfOk result (λ x. x.1 ≤ length bytes.now) }
{
    if len == 4 {
        return signed_at(bytes, at, 4);
    }
    let (n, after) = number_at(bytes, at, len)?;
    Ok((n as i32, after))
}

/// A text of so many bytes.
pub(crate) fn text_at(bytes: &[u8], at: usize, len: usize) -> Result<(Part, usize), DviKind>
    requires { at ≤ length bytes.now }
    ensures exact { Gives (left_at bytes.now (text_of bytes.now)) result (text len (drop at
        bytes.now)) }
    ensures on { IfOk result (λ x. at ≤ x.1) }
    ensures within { IfOk result (λ x. x.1 ≤ length bytes.now) }
    ensures order { IfOk result (λ x. x.0.start ≤ x.0.end) }
    ensures end { IfOk result (λ x. x.0.end ≤ length bytes.now) }
{
    if bytes.len() - at < len {
        return Err(DviKind::Truncated);
    }
    let end = at + len;
    Ok((Part { start: at, end }, end))
}

/// Ten numbers of four bytes with signs.
pub(crate) fn counts_at(bytes: &[u8], at: usize) -> Result<([i32; 10], usize), DviKind>
    requires { at ≤ length bytes.now }
    ensures exact { Gives (left_at bytes.now (λ n. n)) result (counts 10 (drop at bytes.now)) }
    ensures on { IfOk result (λ x. at ≤ x.1) }
    ensures within { IfOk result (λ x. x.1 ≤ length bytes.now) }
{
    let mut counts = [0; 10];
    let mut place = at;
    for i in 0..10usize {
        let (count, after) = signed_at(bytes, place, 4)?;
        counts[i] = count;
        place = after;
    }
    Ok((counts, place))
}

/// A number of two bytes without a sign.
#[tactic(auto, unfolding(crate::specs::Fields::unsigned))]
pub(crate) fn half_at(bytes: &[u8], at: usize) -> Result<(u16, usize), DviKind>
    requires { at ≤ length bytes.now }
    ensures exact { Gives (left_at bytes.now (λ n. n)) result (unsigned 2 (drop at bytes.now)) }
    ensures on { IfOk result (λ x. at ≤ x.1) }
    ensures within { IfOk result (λ x. x.1 ≤ length bytes.now) }
{
    let (n, after) = number_at(bytes, at, 2)?;
    Ok((n as u16, after))
}
