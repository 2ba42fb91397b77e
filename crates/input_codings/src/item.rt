//! Characters and escapes in the bytes of a line.

ghost use Rattle.std.specs.Prelude.{◌≡◌};
ghost use Rattle.input_codings.specs.Decoding.{escape as the_escape, pair as the_pair, item as the_item};

use crate::coding::Coding;
use jis_codes::{Cell, Char, from_euc, from_jis, from_sjis};

/// The two states of a line.
#[derive(Clone, Copy, Debug, PartialEq, Eq)]
pub enum State {
    OneByte,
    TwoByte,
}

/// What begins at a byte of a line.
#[derive(Clone, Copy, Debug, PartialEq, Eq)]
pub enum Item {
    Character(Char),
    /// Three bytes that select a state.
    Escape(State),
}

/// The state that an escape selects, by the two bytes after its byte 27.
fn escape(second: u8, third: u8) -> Option<State>
    ensures { result ≡ the_escape second third }
{
    match (second, third) {
        (b'$', b'@' | b'B') => Some(State::TwoByte),
        (b'(', b'B' | b'J') => Some(State::OneByte),
        _ => None,
    }
}

/// The cell of two bytes in one-byte state.
fn pair(coding: Coding, number: u32) -> Option<Cell>
    ensures { result ≡ the_pair coding number }
{
    match coding {
        Coding::Jis => None,
        Coding::Euc => from_euc(number),
        Coding::Sjis => from_sjis(number),
    }
}

/// What begins at the first of three bytes, where a byte 0 stands for one after the line's end.
pub fn item_of(coding: Coding, state: State, first: u8, second: u8, third: u8) -> Option<Item>
    ensures { result ≡ the_item coding state first second third }
{
    if first == 27 {
        return escape(second, third).map(Item::Escape);
    }
    if state == State::OneByte && first < 128 {
        return Some(Item::Character(Char::One(first)));
    }
    let number = 256 * first as u32 + second as u32;
    let cell = match state {
        State::OneByte => pair(coding, number)?,
        State::TwoByte => from_jis(number)?,
    };
    Some(Item::Character(Char::Ja(cell)))
}
