//! Natural length, stretch and shrink of a list.

ghost use Rattle.std.specs.Prelude.{◌≡◌, ◌^◌, neg_ℤ};
ghost use Rattle.ts_geometry.specs.declared.direction.Dir.{Dir};
ghost use Rattle.ts_geometry.specs.Directions.{sp};
ghost use Rattle.ts_geometry.specs.Numbers.{IsWithin};
ghost use Rattle.box_tree.specs.Nodes.{tree_item};
ghost use Rattle.box_tree.specs.Sound.{IsSoundItem};
ghost use Rattle.packaging.specs.Setting.{set_glue};
ghost use Rattle.packaging.specs.Running.{total, no_totals, totals_with, stretched, shrunk, IsFlexNear, AreNear};

use crate::flex::Flex;
use crate::item::item_extent;
use crate::long::Long;
use box_tree::{BoxKind, Item, SetGlue};
use ts_geometry::Sp;

/// The natural length of a list, and its totals of stretch and shrink.
#[derive(Clone, Copy, Debug)]
pub(crate) struct Totals {
    pub(crate) natural: Long,
    stretch: Flex,
    shrink: Flex,
}

impl Totals {
    pub(crate) fn none() -> Totals
        ensures { result ≡ no_totals }
    {
        Totals {
            natural: Long(0),
            stretch: Flex::none(),
            shrink: Flex::none(),
        }
    }

    /// Returns the totals with one more item of a list of this kind.
    pub(crate) fn with_item(self, kind: BoxKind, item: &Item) -> Totals
        requires sound { (dir : Dir) × IsSoundItem dir (tree_item item.now) }
        requires near { AreNear (2 ^ 100) self }
        ensures { result ≡ totals_with kind self (tree_item item.now) }
    {
        Totals {
            natural: self.natural.plus(item_extent(kind, item)),
            stretch: stretched(self.stretch, item),
            shrink: shrunk(self.shrink, item),
        }
    }

    /// Returns how the glue of these totals takes an excess.
    #[tactic(auto, unfolding(crate::specs::Setting::set_glue))]
    pub(crate) fn set_glue(&self, excess: Sp) -> SetGlue
        requires excess { IsWithin (2 ^ 62) excess.0 }
        requires near { AreNear (2 ^ 62) self.now }
        ensures { result
            ≡ set_glue excess.0 (total self.now.stretch) (total self.now.shrink) }
    {
        if 0 < excess.0 {
            self.stretch.stretch_by(excess)
        } else if excess.0 < 0 {
            self.shrink.shrink_by(opposite(excess))
        } else {
            SetGlue::Plain
        }
    }
}

fn opposite(excess: Sp) -> Sp
    requires { IsWithin (2 ^ 62) excess.0 }
    ensures { result ≡ sp (neg_ℤ excess.0) }
{
    Sp(-excess.0)
}

fn stretched(total: Flex, item: &Item) -> Flex
    requires near { IsFlexNear (2 ^ 100) total }
    ensures { result ≡ stretched total (tree_item item.now) }
{
    match item {
        Item::Glue { glue, .. } => total.added(glue.stretch_order, glue.stretch),
        _ => total,
    }
}

fn shrunk(total: Flex, item: &Item) -> Flex
    requires near { IsFlexNear (2 ^ 100) total }
    ensures { result ≡ shrunk total (tree_item item.now) }
{
    match item {
        Item::Glue { glue, .. } => total.added(glue.shrink_order, glue.shrink),
        _ => total,
    }
}
