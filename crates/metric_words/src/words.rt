//! The halfwords and words of a metric file, the high byte first (TeX: The Program, section 540).

ghost use Rattle.std.specs.Prelude.{◌≡◌, ◌+◌, ◌*◌, ◌≤◌, ◌<◌, ◌^◌, ◌∷◌, [], ◌++◌, length, IfOk, OnOk, IsOkUnless};
ghost use Rattle.metric_words.specs.Words.{halfword, word as word_of, first_byte as first_of, second_byte as second_of, third_byte as third_of, fourth_byte as fourth_of, first_half as first_half_of};

use byteorder::{BigEndian, ByteOrder};
use std::alloc::Global;
use ts_geometry::{BadKind, MetricFault};

/// Returns the halfword of that number, counted from 0.
#[tactic(auto, unfolding(crate::specs::Words::halfword))]
pub fn halfword_at(bytes: &[u8], i: usize) -> u16
    requires { 2 * i + 2 ≤ length bytes.now }
    ensures { result ≡ halfword bytes.now i }
{
    BigEndian::read_u16(&bytes[2 * i..])
}

/// Returns the word of that number, counted from 0.
#[tactic(auto, unfolding(crate::specs::Words::word))]
pub fn word_at(bytes: &[u8], i: usize) -> u32
    requires { 4 * i + 4 ≤ length bytes.now }
    ensures { result ≡ word_of bytes.now i }
{
    BigEndian::read_u32(&bytes[4 * i..])
}

/// Returns the first, highest byte of a word.
pub fn first_byte(word: u32) -> u8
    ensures { result ≡ first_of word }
{
    (word / 0x100_0000) as u8
}

/// Returns the second byte of a word.
pub fn second_byte(word: u32) -> u8
    ensures { result ≡ second_of word }
{
    (word / 0x1_0000 % 0x100) as u8
}

/// Returns the third byte of a word.
pub fn third_byte(word: u32) -> u8
    ensures { result ≡ third_of word }
{
    (word / 0x100 % 0x100) as u8
}

/// Returns the fourth byte of a word.
pub fn fourth_byte(word: u32) -> u8
    ensures { result ≡ fourth_of word }
{
    (word % 0x100) as u8
}

/// Returns the first two bytes of a word.
pub fn first_half(word: u32) -> u16
    ensures { result ≡ first_half_of word }
{
    (word / 0x1_0000) as u16
}

/// Returns the fault of the word of that number, at its first byte.
pub fn bad(kind: BadKind, i: usize) -> MetricFault
    requires { i < 65536 }
    ensures { result ≡ MetricFault.Bad kind (4 * i) }
{
    MetricFault::Bad(kind, 4 * i as u32)
}

/// Returns the fault of a file that ends too early, at its length.
pub fn truncated(bytes: &[u8]) -> MetricFault
    requires { length bytes.now < 2 ^ 32 }
    ensures { result ≡ MetricFault.Bad BadKind.Truncated (length bytes.now) }
{
    MetricFault::Bad(BadKind::Truncated, bytes.len() as u32)
}

/// Returns an empty table with room for so many entries.
pub fn table_of<T: Drop>(alloc: Global, capacity: usize) -> Result<Vec<T>, MetricFault>
    ensures items { IfOk result (λ v. v.items ≡ []) }
    ensures memory { IsOkUnless result MetricFault.NoMemory }
{
    match Vec::with_capacity(alloc, capacity) {
        Ok(table) => Ok(table),
        Err(_) => Err(MetricFault::NoMemory),
    }
}

/// Appends an entry to a table. Refused, it is the fault of want of memory.
pub fn push<T: Drop>(table: &mut Vec<T>, entry: T) -> Result<(), MetricFault>
    ensures items { OnOk result (table.new.items ≡ table.old.items ++ entry ∷ []) }
    ensures memory { IsOkUnless result MetricFault.NoMemory }
{
    match table.push(entry) {
        Ok(()) => Ok(()),
        Err(_) => Err(MetricFault::NoMemory),
    }
}
