//! Items put last where the list has room for them.

ghost use Rattle.std.specs.Prelude.{◌≡◌, ◌+◌, ◌≤◌, ◌<◌, [], ◌∷◌, ◌++◌, length, nat_lt};
ghost use Rattle.node_links.specs.Lists.{most_items};
ghost use Rattle.jlist_builder.specs.Gaps.{glyph, penalty_items, letter_items};
ghost use Rattle.jlist_builder.specs.Spaces.{space_items};

use crate::character::Letter;
use crate::gaps::held_count;
use crate::space::{Space, Unscaled};
use box_tree::{GlueFrom, Item, KernFrom};
use node_links::NodeList;
use std::sync::ledger::Ledger;
use ts_base::Steps;

/// How many items a list may have.
const MOST_ITEMS: usize = 200_000;

/// Puts an item.
#[inline(always)]
pub(crate) fn put<L: Ledger>(list: &mut NodeList, item: Item, steps: &mut Steps<L>)
    requires few { length list.old.items < most_items }
    requires room { 1 ≤ list.old.spare }
    ensures items { list.new.items ≡ list.old.items ++ item ∷ [] }
    ensures len { length list.new.items ≡ length list.old.items + 1 }
    ensures room { list.old.spare ≤ list.new.spare + 1 }
    ensures counted { steps.new ≡ steps.old + 1 }
{
    match list.append(item, steps) {
        Ok(_) => {}
        Err(_) => unreachable!(),
    }
}

/// Puts a letter that was held back.
#[inline(always)]
pub(crate) fn put_held<L: Ledger>(list: &mut NodeList, held: &Option<Letter>, steps: &mut Steps<L>)
    requires few { length list.old.items < most_items }
    requires room { 1 ≤ list.old.spare }
    ensures items { list.new.items ≡ list.old.items ++ letter_items held.now }
    ensures len { length list.new.items ≡ length list.old.items + length (letter_items held.now) }
    ensures room { list.old.spare ≤ list.new.spare + 1 }
    ensures counted { steps.new ≤ steps.old + 1 }
{
    if let Some(letter) = held {
        put(list, glyph(letter), steps);
    }
}

// Puts the penalty of a gap.
#[inline(always)]
fn put_penalty<L: Ledger>(list: &mut NodeList, penalty: Option<i64>, steps: &mut Steps<L>)
    requires few { length list.old.items < most_items }
    requires room { 1 ≤ list.old.spare }
    ensures items { list.new.items ≡ list.old.items ++ penalty_items penalty }
    ensures len { length list.new.items ≡ length list.old.items + length (penalty_items penalty) }
    ensures room { list.old.spare ≤ list.new.spare + 1 }
    ensures counted { steps.new ≤ steps.old + 1 }
{
    if let Some(value) = penalty {
        put(list, Item::Penalty { value, auto: true }, steps);
    }
}

// Puts the metric space of a gap.
#[inline(always)]
fn put_space<L: Ledger>(list: &mut NodeList, space: &Unscaled, steps: &mut Steps<L>)
    requires few { length list.old.items < most_items }
    requires room { 1 ≤ list.old.spare }
    ensures items { list.new.items ≡ list.old.items ++ space_items space.now }
    ensures len { length list.new.items ≡ length list.old.items + length (space_items space.now) }
    ensures room { list.old.spare ≤ list.new.spare + 1 }
    ensures counted { steps.new ≤ steps.old + 1 }
{
    match space.scaled() {
        Space::Nothing => {}
        Space::Glue(glue) => {
            let from = GlueFrom::Metric;
            put(list, Item::Glue { glue, from }, steps);
        }
        Space::Kern(width) => {
            let from = KernFrom::Metric;
            put(list, Item::Kern { width, from }, steps);
        }
    }
}

/// Puts what stands directly before a character: the penalty and then the space.
#[inline(always)]
pub(crate) fn put_gap<L: Ledger>(
    list: &mut NodeList,
    penalty: Option<i64>,
    space: &Unscaled,
    steps: &mut Steps<L>,
)
    requires few { length list.old.items
        + length (penalty_items penalty ++ space_items space.now) < most_items }
    requires room { 2 ≤ list.old.spare }
    ensures items { list.new.items
        ≡ (list.old.items ++ penalty_items penalty) ++ space_items space.now }
    ensures len { length list.new.items
        ≡ length list.old.items + length (penalty_items penalty ++ space_items space.now) }
    ensures room { list.old.spare ≤ list.new.spare + 2 }
    ensures counted { steps.new ≤ steps.old + 2 }
{
    put_penalty(list, penalty, steps);
    put_space(list, space, steps);
}

/// Returns a letter as an item.
#[inline(always)]
pub(crate) fn glyph(letter: &Letter) -> Item
    ensures { result ∷ [] ≡ glyph letter.now }
{
    Item::Glyph {
        font: letter.font,
        code: letter.code,
        size: letter.size,
        shift: letter.shift,
        first: letter.first,
        last: letter.last,
    }
}

/// Returns whether a list, with a letter that is held back and some items more, has too many.
#[inline(always)]
pub(crate) fn is_too_many(list: &NodeList, held: &Option<Letter>, more: usize) -> bool
    requires { more ≤ 3 }
    ensures { result ≡ nat_lt most_items (length (list.now.items ++ letter_items held.now) + more) }
{
    let len = list.len();
    len > MOST_ITEMS || len + held_count(held) + more > MOST_ITEMS
}
