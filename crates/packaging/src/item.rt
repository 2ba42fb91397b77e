//! What an item takes up in a list.

ghost use Rattle.std.specs.Prelude.{◌≡◌, ◌^◌, ◌+ℤ◌, ◌-ℤ◌};
ghost use Rattle.ts_geometry.specs.declared.direction.Dir.{Dir};
ghost use Rattle.ts_geometry.specs.Directions.{sp};
ghost use Rattle.ts_geometry.specs.Numbers.{IsWithin};
ghost use Rattle.box_tree.specs.Bounds.{IsDimen, HasDimens, IsDimenIfThere};
ghost use Rattle.box_tree.specs.Nodes.{tree_item, tree_items};
ghost use Rattle.box_tree.specs.Offsets.{extent, or_else, measures_or, nothing, item_extent};
ghost use Rattle.box_tree.specs.Places.{item_shift};
ghost use Rattle.box_tree.specs.Sound.{IsSound, IsSoundItem};
ghost use Rattle.box_tree.specs.Trees.{size_of};
ghost use Rattle.packaging.specs.Lists.{item_size, moved_height, moved_depth, moved_width, depth_after, solid_height, first_height};

use box_tree::{BoxKind, Item, SharedBox};
use ts_geometry::{Measures, Sp};

/// What glue, kerns and penalties measure.
const NOTHING: Measures = Measures {
    wd: Sp(0),
    ht: Sp(0),
    dp: Sp(0),
};

/// Returns how far an item of a list leads on.
pub(crate) fn item_extent(kind: BoxKind, item: &Item) -> Sp
    requires { (dir : Dir) × IsSoundItem dir (tree_item item.now) }
    ensures { result ≡ sp (item_extent kind (tree_item item.now)) }
{
    match item {
        Item::Glyph { size, .. } | Item::Kanji { size, .. } => extent(kind, *size),
        Item::Box { node, .. } => extent(kind, size_of(node)),
        Item::Crossed { seen, .. } => extent(kind, *seen),
        Item::Rule { wd, ht, dp } => extent(kind, measures_of(*wd, *ht, *dp)),
        Item::Glue { glue, .. } => glue.width,
        Item::Kern { width, .. } => *width,
        Item::Penalty { .. } => Sp(0),
    }
}

fn extent(kind: BoxKind, size: Measures) -> Sp
    requires { HasDimens size }
    ensures { result ≡ sp (extent kind size) }
{
    match kind {
        BoxKind::Horizontal => size.wd,
        BoxKind::Vertical => size.ht.plus(size.dp),
    }
}

/// Returns how far an item of a horizontal list reaches above the baseline.
pub(crate) fn moved_height(item: &Item) -> Sp
    requires { (dir : Dir) × IsSoundItem dir (tree_item item.now) }
    ensures { result ≡ sp (moved_height (tree_item item.now)) }
{
    item_size(item).ht.minus(item_shift(item))
}

/// Returns how far an item of a horizontal list reaches below the baseline.
pub(crate) fn moved_depth(item: &Item) -> Sp
    requires { (dir : Dir) × IsSoundItem dir (tree_item item.now) }
    ensures { result ≡ sp (moved_depth (tree_item item.now)) }
{
    item_size(item).dp.plus(item_shift(item))
}

/// Returns the width of an item of a vertical list, with its shift.
pub(crate) fn moved_width(item: &Item) -> Sp
    requires { (dir : Dir) × IsSoundItem dir (tree_item item.now) }
    ensures { result ≡ sp (moved_width (tree_item item.now)) }
{
    match item {
        Item::Box { node, shift } => size_of(node).wd.plus(*shift),
        Item::Crossed { seen, shift, .. } => seen.wd.plus(*shift),
        Item::Rule { wd, .. } => or_0(*wd),
        _ => Sp(0),
    }
}

/// Returns the depth of a vertical list after an item, where the depth before it was this.
pub(crate) fn depth_after(before: Sp, item: &Item) -> Sp
    ensures { result ≡ sp (depth_after before.0 (tree_item item.now)) }
{
    match item {
        Item::Box { node, .. } => node.get().size.dp,
        Item::Crossed { seen, .. } => seen.dp,
        Item::Rule { dp, .. } => dp.unwrap_or(Sp(0)),
        Item::Glue { .. } | Item::Kern { .. } => Sp(0),
        Item::Glyph { .. } | Item::Kanji { .. } | Item::Penalty { .. } => before,
    }
}

/// Returns the height of the first item, if that is a box or a rule, and else 0.
pub(crate) fn first_height(items: &[Item]) -> Sp
    ensures { result ≡ sp (first_height (tree_items items.now)) }
{
    match items.first() {
        Some(item) => solid_height(item),
        None => Sp(0),
    }
}

fn solid_height(item: &Item) -> Sp
    ensures { result ≡ sp (solid_height (tree_item item.now)) }
{
    match item {
        Item::Box { node, .. } => node.get().size.ht,
        Item::Crossed { seen, .. } => seen.ht,
        Item::Rule { ht, .. } => ht.unwrap_or(Sp(0)),
        _ => Sp(0),
    }
}

fn item_size(item: &Item) -> Measures
    requires { (dir : Dir) × IsSoundItem dir (tree_item item.now) }
    ensures value { result ≡ item_size (tree_item item.now) }
    ensures sound { HasDimens result }
{
    match item {
        Item::Glyph { size, .. } | Item::Kanji { size, .. } => *size,
        Item::Box { node, .. } => size_of(node),
        Item::Crossed { seen, .. } => *seen,
        Item::Rule { wd, ht, dp } => measures_of(*wd, *ht, *dp),
        _ => NOTHING,
    }
}

fn item_shift(item: &Item) -> Sp
    requires { (dir : Dir) × IsSoundItem dir (tree_item item.now) }
    ensures value { result ≡ item_shift (tree_item item.now) }
    ensures sound { IsDimen result }
{
    match item {
        Item::Glyph { shift, .. } | Item::Box { shift, .. } | Item::Crossed { shift, .. } => *shift,
        _ => Sp(0),
    }
}

fn size_of(node: &SharedBox) -> Measures
    requires { IsSound node.now }
    ensures value { result ≡ size_of node.now }
    ensures sound { HasDimens result }
{
    node.get().size
}

/// Returns the measures of a rule; those that are absent are 0.
fn measures_of(wd: Option<Sp>, ht: Option<Sp>, dp: Option<Sp>) -> Measures
    requires wd_sound { IsDimenIfThere wd }
    requires ht_sound { IsDimenIfThere ht }
    requires dp_sound { IsDimenIfThere dp }
    ensures value { result ≡ measures_or wd ht dp nothing }
    ensures sound { HasDimens result }
{
    Measures {
        wd: or_0(wd),
        ht: or_0(ht),
        dp: or_0(dp),
    }
}

fn or_0(measure: Option<Sp>) -> Sp
    requires sound { IsDimenIfThere measure }
    ensures value { result ≡ or_else measure nothing.wd }
    ensures sound { IsDimen result }
{
    match measure {
        Some(measure) => measure,
        None => Sp(0),
    }
}
