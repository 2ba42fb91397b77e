//! Fix words and tables of them, each read up to its first bad word.

ghost use Rattle.std.specs.Prelude.{◌≡◌, ◌+◌, ◌*◌, ◌≤◌, length, map, [], IfOk, IsTrue};
ghost use Rattle.std.specs.List.{list_all};
ghost use Rattle.ts_base.specs.Agreement.{Agrees};
ghost use Rattle.metric_words.specs.Checking.{cause};
ghost use Rattle.metric_words.specs.FixWords as spec;
ghost use Rattle.metric_words.specs.Words.{words};
ghost use Rattle.metric_words.specs.Sound.{AreSound, IsDesign, is_fix};
ghost use Rattle.metric_words.specs.Left.{left};

use crate::lengths::Lengths;
use crate::words::{bad, first_byte, push, table_of, word_at};
use std::alloc::Global;
use ts_geometry::{BadKind, MetricFault};

#[tactic(auto, unfolding(crate::specs::FixWords::design_kind))]
fn design_kind(word: u32) -> Option<BadKind>
    ensures { result ≡ spec.design_kind word }
{
    if word < 0x10_0000 || 0x8000_0000 <= word {
        Some(BadKind::FixWord)
    } else {
        None
    }
}

/// Reads the design size in scaled points, the word after the check sum. Below one point it is the
/// fault of that word.
pub fn read_design(bytes: &[u8], lengths: &Lengths) -> Result<u32, MetricFault>
    requires { AreSound lengths.now (length bytes.now) }
    ensures exact { Agrees (λ d. d) cause result (spec.design_in bytes.now lengths.now) }
    ensures sound { IfOk result (λ d. IsDesign d) }
{
    let at = lengths.header_start() + 1;
    let design = word_at(bytes, at);
    if let Some(kind) = design_kind(design) {
        return Err(bad(kind, at));
    }
    Ok(design / 16)
}

#[tactic(auto, unfolding(crate::specs::FixWords::fix_kind))]
fn fix_kind(word: u32) -> Option<BadKind>
    ensures { result ≡ spec.fix_kind word }
{
    if first_byte(word) == 0 || first_byte(word) == 255 {
        None
    } else {
        Some(BadKind::FixWord)
    }
}

#[tactic(auto, unfolding(crate::specs::FixWords::zero_kind))]
fn zero_kind(word: u32) -> Option<BadKind>
    ensures { result ≡ spec.zero_kind word }
{
    if word == 0 {
        None
    } else {
        Some(BadKind::FixWord)
    }
}

// Appends the fix words from one place up to another to those that are in the table.
fn append_fix_words(
    bytes: &[u8],
    start: usize,
    end: usize,
    table: &mut Vec<i32>,
) -> Result<(), MetricFault>
    requires inside { 4 * end ≤ length bytes.now }
    requires whole { end ≤ 65535 }
    ensures { Agrees (λ _. table.new.items) cause result
        (left spec.fix_kind spec.fix_of bytes.now start end table.old.items) }
{
    for i in start..end {
        let word = word_at(bytes, i);
        if let Some(kind) = fix_kind(word) {
            return Err(bad(kind, i));
        }
        push(table, word.cast_signed())?;
    }
    Ok(())
}

/// Reads so many fix words. A number that isn't within 16 of 0 is the fault of its word.
pub fn read_fix_words(
    alloc: Global,
    bytes: &[u8],
    start: usize,
    len: usize,
) -> Result<Vec<i32>, MetricFault>
    requires inside { 4 * (start + len) ≤ length bytes.now }
    requires whole { start + len ≤ 65535 }
    ensures exact { Agrees (λ v. v.items) cause result (spec.fix_words_in bytes.now start len) }
    ensures fix { IfOk result (λ v. IsTrue (list_all is_fix v.items)) }
{
    let mut table = table_of(alloc, len)?;
    append_fix_words(bytes, start, start + len, &mut table)?;
    Ok(table)
}

/// Reads a table of so many fix words, of which the first is 0.
pub(crate) fn read_table(
    alloc: Global,
    bytes: &[u8],
    start: usize,
    len: usize,
) -> Result<Vec<i32>, MetricFault>
    requires inside { 4 * (start + len) ≤ length bytes.now }
    requires whole { start + len ≤ 65535 }
    requires some { 1 ≤ len }
    ensures { Agrees (λ v. v.items) cause result (spec.table_in bytes.now start len) }
{
    let first = word_at(bytes, start);
    if let Some(kind) = zero_kind(first) {
        return Err(bad(kind, start));
    }
    let mut table = table_of(alloc, len)?;
    push(&mut table, first.cast_signed())?;
    append_fix_words(bytes, start + 1, start + len, &mut table)?;
    Ok(table)
}

/// Checks a table of so many fix words, of which the first is 0.
pub(crate) fn check_table(bytes: &[u8], start: usize, len: usize) -> Result<(), MetricFault>
    requires inside { 4 * (start + len) ≤ length bytes.now }
    requires whole { start + len ≤ 65535 }
    requires some { 1 ≤ len }
    ensures { Agrees (λ _. map spec.fix_of (words bytes.now start len)) cause result
        (spec.table_in bytes.now start len) }
{
    if let Some(kind) = zero_kind(word_at(bytes, start)) {
        return Err(bad(kind, start));
    }
    let end = start + len;
    for i in start + 1..end {
        let word = word_at(bytes, i);
        if let Some(kind) = fix_kind(word) {
            return Err(bad(kind, i));
        }
    }
    Ok(())
}

/// Reads so many parameters, of which the first, the slant, may be any number.
pub fn read_params(
    alloc: Global,
    bytes: &[u8],
    start: usize,
    len: usize,
) -> Result<Vec<i32>, MetricFault>
    requires inside { 4 * (start + len) ≤ length bytes.now }
    requires whole { start + len ≤ 65535 }
    ensures { Agrees (λ v. v.items) cause result (spec.params_in bytes.now start len) }
{
    let mut params = table_of(alloc, len)?;
    if len == 0 {
        return Ok(params);
    }
    push(&mut params, word_at(bytes, start).cast_signed())?;
    append_fix_words(bytes, start + 1, start + len, &mut params)?;
    Ok(params)
}

/// Returns a parameter, counted from 1, as a fix word. It is 0 where there is none of that number.
pub fn param_in(params: &[i32], n: u16) -> i32
    ensures { result ≡ spec.param_in params.now n }
{
    let n = usize::from(n);
    if n == 0 || params.len() < n {
        return 0;
    }
    params[n - 1]
}
