//! Demerits of lines.

ghost use Rattle.std.specs.Prelude.{◌≡◌, ◌^◌, ◌+◌, ◌+ℤ◌, ℤ, pos};
ghost use Rattle.ts_geometry.specs.Numbers.{IsWithin};
ghost use Rattle.line_break.specs.Lines.{apart, of_badness, of_penalty};

use crate::weight::Class;

/// Returns the demerits of `\linepenalty` and a badness that come to this (TeX: The Program,
/// section 859).
pub(crate) fn of_badness(sum: i64) -> i64
    ensures value { result ≡ of_badness sum }
    ensures bounded { IsWithin (2 ^ 28) result }
{
    if sum.unsigned_abs() < 10_000 {
        sum * sum
    } else {
        100_000_000
    }
}

/// Returns the demerits of a penalty.
pub(crate) fn of_penalty(penalty: i64) -> i64
    ensures value { result ≡ of_penalty penalty }
    ensures bounded { IsWithin (2 ^ 28) result }
{
    if penalty.unsigned_abs() >= 10_000 {
        0
    } else if 0 < penalty {
        penalty * penalty
    } else {
        -(penalty * penalty)
    }
}

/// Returns the demerits of a line, but for `\adjdemerits`.
pub(crate) fn plain_demerits(line_penalty: i32, badness: u16, penalty: i64) -> i64
    ensures value { result ≡ (of_badness (line_penalty +ℤ pos badness) +ℤ of_penalty penalty) }
    ensures bounded { IsWithin (2 ^ 32) result }
{
    total(
        of_badness(with_badness(line_penalty, badness)),
        of_penalty(penalty),
    )
}

fn with_badness(line_penalty: i32, badness: u16) -> i64
    ensures { result ≡ (line_penalty +ℤ pos badness) }
{
    line_penalty as i64 + badness as i64
}

fn total(a: i64, b: i64) -> i64
    requires a_near { IsWithin (2 ^ 60) a }
    requires b_near { IsWithin (2 ^ 60) b }
    ensures { result ≡ a +ℤ b }
{
    a + b
}

/// Returns whether two classes are more than 1 apart in their order.
#[tactic(auto, unfolding(crate::specs::Lines::apart))]
pub(crate) fn are_apart(c: Class, d: Class) -> bool
    ensures { result ≡ apart c d }
{
    let first = c as u8;
    let second = d as u8;
    first + 1 < second || second + 1 < first
}
