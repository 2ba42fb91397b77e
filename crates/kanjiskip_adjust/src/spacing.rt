//! The walk that puts the skips and the widow penalty.

ghost use Rattle.std.specs.Prelude.{◌≡◌, ℕ, ◌+◌, ◌-◌, ◌*◌, ◌≤◌, ◌<◌, List, insert, length, take, drop, slice_get, Option, Some, IfSome, ℤ};
ghost use Rattle.node_links.specs.Lists.{IsAt};
ghost use Rattle.jlist_builder.specs.Entries.{Entry, AreEntries};
ghost use Rattle.jlist_builder.specs.Gaps.{metric_list};
ghost use Rattle.kanjiskip_adjust.specs.Finished.{finished_list};
ghost use Rattle.kanjiskip_adjust.specs.Walks.{walked, added, gap_value, IsSmall};
ghost use Rattle.kanjiskip_adjust.specs.Nodes.{AreKept};

use crate::codes::EndCodes;
use crate::look::look_of;
use crate::nodes::Marks;
use crate::skip::{glue_of, skip_at, widow_penalty};
use crate::walk::Walk;
use box_tree::{GlueFrom, Item};
use node_links::{NodeList, NodeNo};
use std::sync::ledger::Ledger;
use ts_base::Steps;

// Puts the skip of a node's item, goes past it, and returns how many items stand up to it.
#[inline(always)]
fn pass<E: EndCodes, L: Ledger>(
    list: &mut NodeList,
    codes: &E,
    walk: &mut Walk,
    marks: &mut Marks,
    number: NodeNo,
    place: usize,
    steps: &mut Steps<L>,
) -> usize
    requires here { IsAt list.old place number }
    requires kept { AreKept list.old.numbers walk.old marks.old place }
    requires many { length list.old.numbers ≡ length list.old.items }
    requires room { 1 ≤ list.old.spare }
    ensures same { (widow : Option ℤ)
        → walked (E.codes codes.now) widow walk.new
        (take result list.new.items) (drop result list.new.items)
        ≡ walked (E.codes codes.now) widow walk.old
        (take place list.old.items) (drop place list.old.items) }
    ensures kept { AreKept list.new.numbers walk.new marks.new result }
    ensures some { 1 ≤ result }
    ensures here { slice_get list.new.numbers (result - 1) ≡ Some number }
    ensures next { slice_get list.new.numbers result
        ≡ slice_get list.old.numbers (place + 1) }
    ensures many { length list.new.numbers ≡ length list.new.items }
    ensures left { result + length list.old.items ≡ place + 1 + length list.new.items }
    ensures most { length list.new.items ≤ length list.old.items + 1 }
    ensures room { list.new.spare + length list.new.items
        ≡ list.old.spare + length list.old.items }
    ensures counted { steps.new + length list.old.items ≡ steps.old + length list.new.items }
{
    let look = look_of(list.item(number));
    let len = list.len();
    match skip_at(codes, walk, &look) {
        Some(skip) => {
            let glue = glue_of(codes, skip);
            let from = GlueFrom::Skip;
            let item = Item::Glue { glue, from };
            marks.before = list.insert_after(marks.before, item, steps);
            let count = place + (list.len() - len) + 1;
            walk.go_past(&look, count);
            marks.go_past(&look, number);
            count
        }
        None => {
            walk.go_past(&look, place + 1);
            marks.go_past(&look, number);
            place + 1
        }
    }
}

// The value of the penalty of a gap.
fn gap_value(item: &Item) -> Option<i64>
    ensures { result ≡ gap_value item.now }
{
    match item {
        Item::Penalty { value, auto: true } => Some(*value),
        _ => None,
    }
}

// Adds the widow penalty to the gap after a node.
fn add_penalty<L: Ledger>(
    list: &mut NodeList,
    before: NodeNo,
    gap: usize,
    widow: i32,
    steps: &mut Steps<L>,
)
    requires here { IsAt list.old (gap - 1) before }
    requires some { 1 ≤ gap }
    requires within { gap < length list.old.items }
    requires many { length list.old.numbers ≡ length list.old.items }
    requires room { 1 ≤ list.old.spare }
    ensures items { IfSome (slice_get list.old.items gap) IsSmall
        → list.new.items ≡ added widow gap list.old.items }
    ensures counted { steps.new ≤ steps.old + 2 }
{
    let Some(number) = list.next(before, steps) else {
        return;
    };
    match gap_value(list.item(number)) {
        Some(value) => list.set_penalty(number, value.saturating_add(i64::from(widow))),
        None => {
            let value = i64::from(widow);
            list.insert_after(before, Item::Penalty { value, auto: true }, steps);
        }
    }
}

/// Turns the metric list of any entries into their finished list, with the codes as they are now:
/// skips in the gaps without a metric space, and in a paragraph (`para`) the widow penalty. It
/// needs a spare of two a node, takes no memory, can't fail, and takes at most 6 steps a node.
pub fn adjust<E: EndCodes, L: Ledger>(
    list: &mut NodeList,
    codes: &E,
    para: bool,
    steps: &mut Steps<L>,
)
    requires { 2 * length list.old.items ≤ list.old.spare }
    ensures finished { (e : List Entry) → AreEntries e → list.old.items ≡ metric_list e
        → list.new.items ≡ finished_list (E.codes codes.now) para e }
    ensures counted { steps.new ≤ steps.old + 6 * length list.old.items }
{
    let Some(first) = list.first() else {
        return;
    };
    let mut walk = Walk::start();
    let mut marks = Marks::at(first);
    let mut place = 0;
    let mut at = Some(first);
    while let Some(number) = at {
        place = pass(list, codes, &mut walk, &mut marks, number, place, steps);
        at = list.next(number, steps);
    }
    let Some(widow) = widow_penalty(codes, para) else {
        return;
    };
    if let Some(gap) = walk.widow {
        add_penalty(list, marks.widow, gap, widow, steps);
    }
}
