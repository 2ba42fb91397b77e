//! What stands directly before a character.

ghost use Rattle.std.specs.Prelude.{◌≡◌, ◌+◌, ◌≤◌, ◌<◌, ◌^◌, ◌++◌, length};
ghost use Rattle.jfm_load.specs.Metrics.{between_of};
ghost use Rattle.jlist_builder.specs.Gaps.{right_of, over, gap_penalty, penalty_items, class_before, kanji_space, letter_items, arrival};
ghost use Rattle.jlist_builder.specs.Pieces.{ligature, size_of};
ghost use Rattle.jlist_builder.specs.Spaces.{space_items};

use crate::character::{Arrival, Kinsoku, Letter, Run, Side};
use crate::space::Unscaled;
use box_tree::Item;
use jfm_load::{Japanese, Space as Words};
use tfm_load::{Roman, Step};
use ts_geometry::{Measures, Sp};

/// Returns the penalty of a gap, in which the neighbour on the left stands before a character.
#[inline(always)]
pub(crate) fn penalty_between(left: Option<Side>, is_japanese: bool, pre: i32) -> Option<i64>
    ensures { result ≡ gap_penalty left is_japanese pre }
{
    let Some(left) = left else { return None };
    if !(left.is_japanese || is_japanese) {
        return None;
    }
    let sum = i64::from(left.post) + i64::from(pre);
    if sum == 0 { None } else { Some(sum) }
}

// The class of a Japanese character before in the run, and 0 where none is.
#[inline(always)]
fn class_before(run: &Run) -> u8
    ensures { result ≡ class_before run.now }
{
    match run {
        Run::Japanese(left, _) => *left,
        Run::Start => 0,
        Run::European(_) => 0,
    }
}

// What a font has between two classes, where that between the second one and class 0 is known.
#[inline(always)]
fn words_between(font: &Japanese, left: u8, class: u8, after: Words) -> Words
    requires { after ≡ between_of font.now class 0 }
    ensures { result ≡ between_of font.now left class }
{
    if left == 0 && class == 0 {
        after
    } else {
        font.between(left, class)
    }
}

/// Returns the metric space before a Japanese character of a class, where that between this class
/// and class 0 is known.
#[inline(always)]
pub(crate) fn space_before_kanji(
    font: &Japanese,
    z: u32,
    run: &Run,
    is_inhibited: bool,
    class: u8,
    after: Words,
) -> Unscaled
    requires size { z < 2 ^ 23 }
    requires after { after ≡ between_of font.now class 0 }
    ensures { result ≡ kanji_space font.now z run.now is_inhibited class }
{
    if is_inhibited {
        return Unscaled::new(Words::Nothing, z);
    }
    Unscaled::new(words_between(font, class_before(run), class, after), z)
}

// The measures of a character, and 0 where the font lacks it.
#[inline(always)]
fn size_of(font: &Roman, code: u8, z: u32) -> Measures
    requires { z < 2 ^ 23 }
    ensures { result ≡ size_of font.now code z }
{
    match font.measures(code, z) {
        Some(size) => size,
        None => Measures {
            wd: Sp(0),
            ht: Sp(0),
            dp: Sp(0),
        },
    }
}

// The ligature of two letters.
#[inline(always)]
fn ligature(left: Letter, code: u8, size: Measures, right: Letter) -> Letter
    ensures { result ≡ ligature left code size right }
{
    Letter {
        font: right.font,
        code,
        size,
        shift: right.shift,
        first: left.first,
        last: right.last,
        kinsoku: Kinsoku {
            pre: left.kinsoku.pre,
            post: right.kinsoku.post,
        },
    }
}

/// Returns how a letter goes on after what stands before it in the run.
#[inline(always)]
pub(crate) fn arrival(
    font: &Roman,
    z: u32,
    run: &Run,
    is_inhibited: bool,
    letter: Letter,
) -> Arrival
    requires { z < 2 ^ 23 }
    ensures { result ≡ arrival font.now z run.now is_inhibited letter }
{
    match run {
        Run::Start => Arrival::Beside(Unscaled::new(Words::Nothing, z)),
        Run::Japanese(_, after) => {
            if is_inhibited {
                Arrival::Beside(Unscaled::new(Words::Nothing, z))
            } else {
                Arrival::Beside(after.same_copy())
            }
        }
        Run::European(left) => match font.pair(left.code, letter.code) {
            Step::Ligature(code) => {
                Arrival::Joined(ligature(*left, code, size_of(font, code, z), letter))
            }
            Step::Nothing => Arrival::Beside(Unscaled::new(Words::Nothing, z)),
            Step::Kern(width) => Arrival::Beside(Unscaled::new(Words::Kern(width), z)),
        },
    }
}

/// Returns what a letter is to the next character.
#[inline(always)]
pub(crate) fn side_of(letter: &Letter) -> Side
    ensures { result ≡ right_of letter.now }
{
    Side {
        is_japanese: false,
        post: letter.kinsoku.post,
    }
}

/// Returns the neighbour on the left, seen over an item.
#[inline(always)]
pub(crate) fn neighbour_over(item: &Item, left: Option<Side>) -> Option<Side>
    ensures { result ≡ over item.now left }
{
    match item {
        Item::Penalty { .. } => left,
        _ => None,
    }
}

/// Returns how many items a letter that is held back makes.
#[inline(always)]
pub(crate) fn held_count(held: &Option<Letter>) -> usize
    ensures count { result ≡ length (letter_items held.now) }
    ensures few { result ≤ 1 }
{
    match held {
        Some(_) => 1,
        None => 0,
    }
}

// How many items the penalty of a gap makes.
#[inline(always)]
fn penalty_count(penalty: Option<i64>) -> usize
    ensures count { result ≡ length (penalty_items penalty) }
    ensures few { result ≤ 1 }
{
    match penalty {
        Some(_) => 1,
        None => 0,
    }
}

/// Returns how many items a gap makes.
#[inline(always)]
#[tactic(auto, using(crate::proofs::Arrivals::counts))]
pub(crate) fn gap_count(penalty: Option<i64>, space: &Unscaled) -> usize
    ensures count { result ≡ length (penalty_items penalty ++ space_items space.now) }
    ensures few { result ≤ 2 }
{
    penalty_count(penalty) + space.count()
}
