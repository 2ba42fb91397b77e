//! How a line fits.

ghost use Rattle.std.specs.Prelude.{◌≡◌, ◌≤◌, ◌*◌, ◌^◌, ◌*ℤ◌, ℤ, pos, ◌≤ℤ◌, int_le, int_lt};
ghost use Rattle.ts_geometry.specs.Numbers.{IsWithin, badness_of_ratio};
ghost use Rattle.line_break.specs.Lines.{stretched, shrunk, stretches_without_end, weight_short, weight_long, weight_at};
ghost use Rattle.line_break.specs.Loose.{is_past, IsLimit};
ghost use Rattle.line_break.specs.Running.{AreNear};

use crate::totals::{Totals, difference};
use ts_geometry::{Sp, badness};

/// How a line is set, in the order of the classes (TeX: The Program, section 817).
#[derive(Clone, Copy, Debug, PartialEq, Eq)]
pub(crate) enum Class {
    VeryLoose,
    Loose,
    Decent,
    Tight,
}

/// How a line fits: whether it is too long for its shrink, how bad it is, and its class.
#[derive(Clone, Copy, Debug, PartialEq, Eq)]
pub(crate) struct Weight {
    pub(crate) overfull: bool,
    pub(crate) badness: u16,
    pub(crate) class: Class,
}

/// Returns how a line of these totals fits at this width (TeX: The Program, sections 851 to 853).
pub(crate) fn weight_at(hsize: Sp, totals: &Totals) -> Weight
    requires hsize { IsWithin (2 ^ 32) hsize.0 }
    requires near { AreNear (2 ^ 58) totals.now }
    ensures { result ≡ weight_at hsize.0 totals.now }
{
    if totals.width.0 < hsize.0 {
        weight_short(difference(hsize, totals.width), totals)
    } else {
        weight_long(difference(totals.width, hsize), totals.shrink)
    }
}

/// Returns whether a line of these totals is short by at least so many 297ths of its stretch, which
/// is finite.
pub(crate) fn is_past(hsize: Sp, totals: &Totals, limit: u16) -> bool
    requires hsize { IsWithin (2 ^ 32) hsize.0 }
    requires near { AreNear (23 * 2 ^ 48) totals.now }
    requires limit { limit ≤ 1291 }
    ensures { result ≡ is_past hsize.0 totals.now limit }
{
    totals.width.0 < hsize.0
        && !stretches_without_end(totals)
        && is_ratio(difference(hsize, totals.width), totals.stretch, limit)
}

/// Returns whether a shortfall is at least so many 297ths of a stretch.
fn is_ratio(short: Sp, stretch: Sp, limit: u16) -> bool
    requires short { IsWithin (24 * 2 ^ 48) short.0 }
    requires stretch { IsWithin (24 * 2 ^ 48) stretch.0 }
    requires limit { limit ≤ 1291 }
    ensures { result ≡ int_le (pos limit *ℤ stretch.0) (pos 297 *ℤ short.0) }
{
    times(limit, stretch.0) <= times(297, short.0)
}

/// Returns a multiple of a length. No line is so long that it passes 64 bits.
fn times(n: u16, length: i64) -> i64
    requires few { n ≤ 1291 }
    requires near { IsWithin (24 * 2 ^ 48) length }
    ensures { result ≡ pos n *ℤ length }
{
    i64::from(n) * length
}

fn weight_short(short: Sp, totals: &Totals) -> Weight
    requires low { pos 0 ≤ℤ short.0 }
    requires high { short.0 ≤ℤ pos (2 ^ 60) }
    ensures { result ≡ weight_short short.0 totals.now }
{
    if stretches_without_end(totals) {
        stretched(0)
    } else {
        stretched(badness(short.0, totals.stretch.0))
    }
}

fn stretches_without_end(totals: &Totals) -> bool
    ensures { result ≡ stretches_without_end totals.now }
{
    totals.fil.0 != 0 || totals.fill.0 != 0 || totals.filll.0 != 0
}

fn weight_long(excess: Sp, shrink: Sp) -> Weight
    requires low { pos 0 ≤ℤ excess.0 }
    requires high { excess.0 ≤ℤ pos (2 ^ 60) }
    ensures { result ≡ weight_long excess.0 shrink.0 }
{
    if shrink.0 < excess.0 {
        Weight {
            overfull: true,
            badness: 10_000,
            class: Class::Tight,
        }
    } else {
        shrunk(badness(excess.0, shrink.0))
    }
}

fn stretched(badness: u16) -> Weight
    ensures { result ≡ stretched badness }
{
    let class = if 99 < badness {
        Class::VeryLoose
    } else if 12 < badness {
        Class::Loose
    } else {
        Class::Decent
    };
    Weight {
        overfull: false,
        badness,
        class,
    }
}

fn shrunk(badness: u16) -> Weight
    ensures { result ≡ shrunk badness }
{
    let class = if 12 < badness {
        Class::Tight
    } else {
        Class::Decent
    };
    Weight {
        overfull: false,
        badness,
        class,
    }
}

/// Returns the least ratio of shortfall to stretch, in units of 1/297, whose badness is above this
/// threshold, or that of badness 10000.
pub(crate) fn limit_above(threshold: i32) -> u16
    ensures { IsLimit threshold result }
{
    let mut low = 0;
    let mut high = 1291;
    while low < high {
        let middle = low + (high - low) / 2;
        if is_above(middle, threshold) {
            high = middle;
        } else {
            low = middle + 1;
        }
    }
    low
}

fn is_above(ratio: u16, threshold: i32) -> bool
    ensures { result ≡ int_lt threshold (pos (badness_of_ratio ratio)) }
{
    threshold < badness(i64::from(ratio), 297) as i32
}
