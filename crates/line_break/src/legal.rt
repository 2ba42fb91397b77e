//! The legal breaks of a list of items.

ghost use Rattle.std.specs.Prelude.{◌≡◌, ◌≤◌, ◌<◌, ◌^◌, ◌+◌, length, drop, IfOk};
ghost use Rattle.ts_geometry.specs.declared.direction.Dir.{Dir};
ghost use Rattle.box_tree.specs.Nodes.{tree_item};
ghost use Rattle.box_tree.specs.Sound.{IsSoundItem};
ghost use Rattle.line_break.specs.Lines.{is_legal, is_after_solid, begins_with_glue};
ghost use Rattle.line_break.specs.Ready.{AreSoundItems};
ghost use Rattle.line_break.specs.Running.{AreNear, with_before, all_breaks};

use crate::items::{can_end_at, is_dropped, is_glue, is_solid};
use crate::totals::Totals;
use box_tree::Item;
use std::alloc::{AllocError, Global};

/// A legal break, or the start: its place, the place of the first item that is kept after it, and
/// the totals of the items from each of these places on.
#[derive(Clone, Copy, Debug)]
pub(crate) struct Break {
    pub(crate) place: usize,
    pub(crate) kept: usize,
    pub(crate) from: Totals,
    pub(crate) after: Totals,
}

impl Break {
    /// Returns the same at the item before, which is given.
    fn with_before(&self, item: &Item) -> Break
        requires place { 0 < self.now.place }
        requires sound { (dir : Dir) × IsSoundItem dir (tree_item item.now) }
        requires near { AreNear (2 ^ 60) self.now.from }
        ensures { result ≡ with_before item.now self.now }
    {
        let place = self.place - 1;
        let from = self.from.with_item(item);
        if is_dropped(item) {
            Break {
                place,
                from,
                ..*self
            }
        } else {
            Break {
                place,
                kept: place,
                from,
                after: from,
            }
        }
    }
}

/// Returns the start and the legal breaks of a list.
pub(crate) fn all_breaks(alloc: Global, items: &[Item]) -> Result<Vec<Break>, AllocError>
    requires sound { AreSoundItems items.now }
    requires few { length items.now ≤ 700000 }
    ensures { IfOk result (λ breaks. breaks.items ≡ all_breaks items.now) }
{
    let mut breaks = Vec::new(alloc);
    let mut here = Break {
        place: items.len(),
        kept: items.len(),
        from: Totals::none(),
        after: Totals::none(),
    };
    while here.place > 0 {
        here = here.with_before(&items[here.place - 1]);
        if is_legal(items, here.place) {
            breaks.push(here)?;
        }
    }
    breaks.push(Break {
        kept: 0,
        after: here.from,
        ..here
    })?;
    breaks.reverse();
    Ok(breaks)
}

fn is_legal(items: &[Item], place: usize) -> bool
    requires { place < length items.now }
    ensures { result ≡ is_legal items.now place }
{
    let after_solid = is_after_solid(items, place);
    let before_glue = is_before_glue(items, place);
    can_end_at(after_solid, before_glue, &items[place])
}

fn is_after_solid(items: &[Item], place: usize) -> bool
    requires { place < length items.now }
    ensures { result ≡ is_after_solid items.now place }
{
    if place == 0 {
        return false;
    }
    is_solid(&items[place - 1])
}

fn is_before_glue(items: &[Item], place: usize) -> bool
    requires { place < length items.now }
    ensures { result ≡ begins_with_glue (drop (place + 1) items.now) }
{
    match items[place + 1..].first() {
        Some(item) => is_glue(item),
        None => false,
    }
}
