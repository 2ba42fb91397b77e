//! What items are to line breaks.

ghost use Rattle.std.specs.Prelude.{◌≡◌, ◌^◌, ℤ};
ghost use Rattle.ts_geometry.specs.declared.direction.Dir.{Dir};
ghost use Rattle.ts_geometry.specs.Directions.{sp};
ghost use Rattle.ts_geometry.specs.Numbers.{IsWithin};
ghost use Rattle.box_tree.specs.Bounds.{HasDimens, IsDimen};
ghost use Rattle.box_tree.specs.Nodes.{tree_item};
ghost use Rattle.box_tree.specs.Offsets.{item_extent, same_order};
ghost use Rattle.box_tree.specs.Sound.{IsSoundItem};
ghost use Rattle.box_tree.specs.declared.node.BoxKind.{BoxKind};
ghost use Rattle.line_break.specs.Lines.{is_solid, is_glue, is_dropped, penalty_at, can_end_at, is_given};
ghost use Rattle.line_break.specs.Paragraphs.{shrinks_without_end, item_shrinks_without_end, is_forced_end};

use box_tree::{Item, KernFrom};
use ts_geometry::{Glue, Order};

pub(crate) fn is_solid(item: &Item) -> bool
    ensures { result ≡ is_solid item.now }
{
    match item {
        Item::Glue { .. } | Item::Kern { .. } | Item::Penalty { .. } => false,
        _ => true,
    }
}

pub(crate) fn is_glue(item: &Item) -> bool
    ensures { result ≡ is_glue item.now }
{
    match item {
        Item::Glue { .. } => true,
        _ => false,
    }
}

/// Returns whether it is dropped after a break.
pub(crate) fn is_dropped(item: &Item) -> bool
    ensures { result ≡ is_dropped item.now }
{
    match item {
        Item::Glue { .. } | Item::Penalty { .. } => true,
        Item::Kern { from, .. } => is_given(*from),
        _ => false,
    }
}

/// Returns whether a line may end at it.
pub(crate) fn can_end_at(after_solid: bool, before_glue: bool, item: &Item) -> bool
    ensures { result ≡ can_end_at after_solid before_glue item.now }
{
    match item {
        Item::Glue { .. } => after_solid,
        Item::Kern { from, .. } => is_given(*from) && before_glue,
        Item::Penalty { value, .. } => *value < 10_000,
        _ => false,
    }
}

fn is_given(from: KernFrom) -> bool
    ensures { result ≡ is_given from }
{
    match from {
        KernFrom::Given => true,
        KernFrom::Metric => false,
    }
}

/// Returns its penalty, and 0 where it is none.
pub(crate) fn penalty_at(item: &Item) -> i64
    ensures { result ≡ penalty_at item.now }
{
    match item {
        Item::Penalty { value, .. } => *value,
        _ => 0,
    }
}

pub(crate) fn item_shrinks_without_end(item: &Item) -> bool
    ensures { result ≡ item_shrinks_without_end item.now }
{
    match item {
        Item::Glue { glue, .. } => shrinks_without_end(glue),
        _ => false,
    }
}

pub(crate) fn shrinks_without_end(glue: &Glue) -> bool
    ensures { result ≡ shrinks_without_end glue.now }
{
    !same_order(glue.shrink_order, Order::Normal) && glue.shrink.0 != 0
}

pub(crate) fn same_order(a: Order, b: Order) -> bool
    ensures { result ≡ same_order a b }
{
    a == b
}
