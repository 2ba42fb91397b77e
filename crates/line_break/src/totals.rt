//! Widths, stretch and shrink of items, added up.

ghost use Rattle.std.specs.Prelude.{◌≡◌, ◌^◌, pos, ◌+ℤ◌, ◌-ℤ◌};
ghost use Rattle.ts_geometry.specs.declared.direction.Dir.{Dir};
ghost use Rattle.ts_geometry.specs.Directions.{sp};
ghost use Rattle.ts_geometry.specs.Numbers.{IsWithin};
ghost use Rattle.ts_geometry.specs.declared.glue.Order.TheVariants.{Normal};
ghost use Rattle.box_tree.specs.declared.node.BoxKind.TheVariants.{Horizontal};
ghost use Rattle.box_tree.specs.declared.node.SetGlue.TheVariants.{Stretch, Shrink};
ghost use Rattle.box_tree.specs.Bounds.{HasDimens};
ghost use Rattle.box_tree.specs.Nodes.{tree_item};
ghost use Rattle.box_tree.specs.Offsets.{item_extent, item_part};
ghost use Rattle.box_tree.specs.Sound.{IsSound, IsSoundItem};
ghost use Rattle.box_tree.specs.Trees.{size_of};
ghost use Rattle.line_break.specs.Running.{none, item_stretch, item_shrink, totals_with, plus, minus, AreNear};

use crate::items::same_order;
use box_tree::{Item, SharedBox};
use ts_geometry::{Measures, Order, Sp};

/// A width, a stretch of each order, and a finite shrink, in scaled points.
#[derive(Clone, Copy, Debug)]
pub(crate) struct Totals {
    pub(crate) width: Sp,
    pub(crate) stretch: Sp,
    pub(crate) fil: Sp,
    pub(crate) fill: Sp,
    pub(crate) filll: Sp,
    pub(crate) shrink: Sp,
}

impl Totals {
    pub(crate) fn none() -> Totals
        ensures { result ≡ none }
    {
        Totals {
            width: Sp(0),
            stretch: Sp(0),
            fil: Sp(0),
            fill: Sp(0),
            filll: Sp(0),
            shrink: Sp(0),
        }
    }

    /// Returns the totals with one more item.
    pub(crate) fn with_item(&self, item: &Item) -> Totals
        requires sound { (dir : Dir) × IsSoundItem dir (tree_item item.now) }
        requires near { AreNear (2 ^ 60) self.now }
        ensures { result ≡ totals_with (tree_item item.now) self.now }
    {
        Totals {
            width: sum(width(item), self.width),
            stretch: sum(stretch(item, Order::Normal), self.stretch),
            fil: sum(stretch(item, Order::Fil), self.fil),
            fill: sum(stretch(item, Order::Fill), self.fill),
            filll: sum(stretch(item, Order::Filll), self.filll),
            shrink: sum(shrink(item), self.shrink),
        }
    }

    pub(crate) fn plus(&self, other: &Totals) -> Totals
        requires near { AreNear (2 ^ 60) self.now }
        requires other_near { AreNear (2 ^ 60) other.now }
        ensures { result ≡ plus self.now other.now }
    {
        Totals {
            width: sum(self.width, other.width),
            stretch: sum(self.stretch, other.stretch),
            fil: sum(self.fil, other.fil),
            fill: sum(self.fill, other.fill),
            filll: sum(self.filll, other.filll),
            shrink: sum(self.shrink, other.shrink),
        }
    }

    pub(crate) fn minus(&self, other: &Totals) -> Totals
        requires near { AreNear (2 ^ 60) self.now }
        requires other_near { AreNear (2 ^ 60) other.now }
        ensures { result ≡ minus self.now other.now }
    {
        Totals {
            width: difference(self.width, other.width),
            stretch: difference(self.stretch, other.stretch),
            fil: difference(self.fil, other.fil),
            fill: difference(self.fill, other.fill),
            filll: difference(self.filll, other.filll),
            shrink: difference(self.shrink, other.shrink),
        }
    }
}

pub(crate) fn sum(a: Sp, b: Sp) -> Sp
    requires a_near { IsWithin (2 ^ 60) a.0 }
    requires b_near { IsWithin (2 ^ 60) b.0 }
    ensures { result ≡ sp (a.0 +ℤ b.0) }
{
    Sp(a.0 + b.0)
}

pub(crate) fn difference(a: Sp, b: Sp) -> Sp
    requires a_near { IsWithin (2 ^ 60) a.0 }
    requires b_near { IsWithin (2 ^ 60) b.0 }
    ensures { result ≡ sp (a.0 -ℤ b.0) }
{
    Sp(a.0 - b.0)
}

/// Returns how far an item of a horizontal list leads on. A width of a rule that is absent counts
/// as 0.
fn width(item: &Item) -> Sp
    requires { (dir : Dir) × IsSoundItem dir (tree_item item.now) }
    ensures value { result ≡ sp (item_extent Horizontal (tree_item item.now)) }
    ensures near { IsWithin (2 ^ 32) result.0 }
{
    match item {
        Item::Glyph { size, .. } | Item::Kanji { size, .. } => width_of(*size),
        Item::Box { node, .. } => width_of(node.get().size),
        Item::Crossed { seen, .. } => width_of(*seen),
        Item::Rule { wd: Some(wd), .. } => *wd,
        Item::Rule { wd: None, .. } => Sp(0),
        Item::Glue { glue, .. } => glue.width,
        Item::Kern { width, .. } => *width,
        Item::Penalty { .. } => Sp(0),
    }
}

fn width_of(size: Measures) -> Sp
    requires { HasDimens size }
    ensures value { result ≡ size.wd }
    ensures near { IsWithin (2 ^ 32) result.0 }
{
    size.wd
}

fn stretch(item: &Item, order: Order) -> Sp
    requires { (dir : Dir) × IsSoundItem dir (tree_item item.now) }
    ensures value { result
        ≡ sp (item_stretch order (tree_item item.now)) }
    ensures near { IsWithin (2 ^ 32) result.0 }
{
    match item {
        Item::Glue { glue, .. } if same_order(glue.stretch_order, order) => glue.stretch,
        _ => Sp(0),
    }
}

fn shrink(item: &Item) -> Sp
    requires { (dir : Dir) × IsSoundItem dir (tree_item item.now) }
    ensures value { result
        ≡ sp (item_shrink (tree_item item.now)) }
    ensures near { IsWithin (2 ^ 32) result.0 }
{
    match item {
        Item::Glue { glue, .. } if same_order(glue.shrink_order, Order::Normal) => glue.shrink,
        _ => Sp(0),
    }
}
