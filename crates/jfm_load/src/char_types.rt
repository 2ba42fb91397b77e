//! The character types of a JFM, read up to the first bad one.

ghost use Rattle.std.specs.Prelude.{◌≡◌, length};
ghost use Rattle.ts_base.specs.Agreement.{Agrees};
ghost use Rattle.metric_words.specs.Checking.{cause};
ghost use Rattle.metric_words.specs.Sound.{AreSound};
ghost use Rattle.jfm_load.specs.CharTypes as spec;
ghost use Rattle.jfm_load.specs.Sound.{HasClasses};

use crate::tables::CharType;
use jis_codes::from_jis;
use metric_words::{Lengths, bad, first_half, fourth_byte, push, table_of, third_byte, word_at};
use std::alloc::Global;
use ts_geometry::{BadKind, MetricFault};

#[tactic(auto, unfolding(crate::specs::CharTypes::is_jis))]
fn is_jis(code: u16) -> bool
    ensures { result ≡ spec.is_jis code }
{
    from_jis(u32::from(code)).is_some()
}

#[tactic(auto, unfolding(crate::specs::CharTypes::char_type_of))]
fn char_type_of(word: u32) -> CharType
    ensures { result ≡ spec.char_type_of word }
{
    CharType {
        code: first_half(word),
        class: fourth_byte(word),
    }
}

#[tactic(auto, unfolding(crate::specs::CharTypes::first_type_kind))]
fn first_type_kind(word: u32) -> Option<BadKind>
    ensures { result ≡ spec.first_type_kind word }
{
    if word == 0 {
        None
    } else {
        Some(BadKind::CharType)
    }
}

#[tactic(auto, unfolding(crate::specs::CharTypes::type_kind))]
fn type_kind(before: u16, last_class: u16, word: u32) -> Option<BadKind>
    ensures { result ≡ spec.type_kind before last_class word }
{
    if third_byte(word) == 0
        && u16::from(fourth_byte(word)) <= last_class
        && before < first_half(word)
        && is_jis(first_half(word))
    {
        None
    } else {
        Some(BadKind::CharType)
    }
}

/// Reads the codes that a JFM lists, with their classes. Want of order among them is the fault
/// CharType.
pub(crate) fn read_char_types(
    alloc: Global,
    bytes: &[u8],
    lengths: &Lengths,
) -> Result<Vec<CharType>, MetricFault>
    requires sound { AreSound lengths.now (length bytes.now) }
    requires japanese { HasClasses lengths.now }
    ensures { Agrees (λ v. v.items) cause result (spec.char_types_in bytes.now lengths.now) }
{
    let start = lengths.char_type_start();
    let end = lengths.char_info_start();
    let first = word_at(bytes, start);
    if let Some(kind) = first_type_kind(first) {
        return Err(bad(kind, start));
    }
    let mut types = table_of(alloc, end - start)?;
    push(&mut types, char_type_of(first))?;
    let mut before = 0;
    for i in start + 1..end {
        let word = word_at(bytes, i);
        if let Some(kind) = type_kind(before, lengths.ec, word) {
            return Err(bad(kind, i));
        }
        let char_type = char_type_of(word);
        before = char_type.code;
        push(&mut types, char_type)?;
    }
    Ok(types)
}
