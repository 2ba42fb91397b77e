//! Packing of horizontal lists.

ghost use Rattle.std.specs.Prelude.{◌≡◌, ◌+◌, ◌*◌, ◌^◌, IfOk};
ghost use Rattle.std.specs.Int.{int_max};
ghost use Rattle.ts_base.specs.Agreement.{Agrees};
ghost use Rattle.ts_geometry.specs.declared.direction.Dir.{Dir};
ghost use Rattle.ts_geometry.specs.Directions.{sp};
ghost use Rattle.ts_geometry.specs.Numbers.{IsWithin};
ghost use Rattle.box_tree.specs.Nodes.{tree_item, tree_items};
ghost use Rattle.box_tree.specs.Sound.{IsSoundItem, AreSound};
ghost use Rattle.packaging.specs.Packing.{hpacked, pack_cause, IsSoundSize, IsSoundIn};
ghost use Rattle.packaging.specs.Running.{horizontal_target, horizontal_with, no_horizontal, AreNear, IsHorizontal};

use crate::fault::PackFault;
use crate::item::{moved_depth, moved_height};
use crate::long::{Long, LongMeasures};
use crate::pack::{Target, excess_for, length_for, pack};
use crate::totals::Totals;
use box_tree::{BoxKind, BoxSize, Item, Items, SharedBox};
use std::alloc::Global;
use ts_geometry::{Dir, Sp};

/// What the items of a horizontal list come to: its totals, and how far it reaches above the
/// baseline and below it.
#[derive(Clone, Copy, Debug)]
pub(crate) struct HorizontalSums {
    totals: Totals,
    height: Sp,
    depth: Sp,
}

impl HorizontalSums {
    fn none() -> HorizontalSums
        ensures { result ≡ no_horizontal }
    {
        HorizontalSums {
            totals: Totals::none(),
            height: Sp(0),
            depth: Sp(0),
        }
    }

    fn with_item(self, item: &Item) -> HorizontalSums
        requires sound { (dir : Dir) × IsSoundItem dir (tree_item item.now) }
        requires near { AreNear (2 ^ 100) self.totals }
        ensures { result ≡ horizontal_with self (tree_item item.now) }
    {
        HorizontalSums {
            totals: self.totals.with_item(BoxKind::Horizontal, item),
            height: self.height.greater(moved_height(item)),
            depth: self.depth.greater(moved_depth(item)),
        }
    }

    /// Returns the list packed to a size.
    fn target(&self, dir: Dir, size: BoxSize) -> Target
        requires near { IsWithin (2 ^ 98) self.now.totals.natural.0 }
        requires size_sound { IsSoundSize size }
        ensures { result ≡ horizontal_target self.now dir size }
    {
        let natural = self.totals.natural;
        Target {
            kind: BoxKind::Horizontal,
            dir,
            size: LongMeasures {
                wd: length_for(size, natural),
                ht: Long::new(self.height),
                dp: Long::new(self.depth),
            },
            excess: excess_for(size, natural),
        }
    }
}

fn horizontal_sums(items: &[Item]) -> HorizontalSums
    requires { (dir : Dir) × AreSound dir (tree_items items.now) }
    ensures sums { IsHorizontal (tree_items items.now) result }
    ensures near { AreNear (2 ^ 98) result.totals }
{
    let mut sums = HorizontalSums::none();
    for item in items {
        sums = sums.with_item(item);
    }
    sums
}

/// Returns a horizontal list of this direction, packed to a size in scaled points (The TeXbook,
/// chapter 12; TeX: The Program, sections 649 to 667). Its height and depth are the greatest of 0
/// and those of the items, where a box and a European character count as moved by their shift, and
/// a measure of a rule that is absent counts as 0. The highest order of stretch or shrink with a
/// total other than 0 takes the excess; a finite shrink below it shrinks by its whole total, and
/// without stretch nothing is stretched. The items move into the box.
///
/// DimenRange comes exactly where a measure of the box isn't within 2^30 - 1 scaled points of 0;
/// else BoxTooLarge exactly where the weight passes 2,000,000, with the weight, or with 2^64 - 1
/// where it is greater; else BoxTooDeep exactly where the depth of nested boxes passes 200, with
/// that depth. Where it is refused the items are dropped.
pub fn hpack(alloc: Global, items: Items, dir: Dir, size: BoxSize) -> Result<SharedBox, PackFault>
    requires sound { AreSound dir (tree_items items) }
    requires size_sound { IsSoundSize size }
    ensures value { Agrees (λ b. b) pack_cause result (hpacked (tree_items items) dir size) }
    ensures sound { IfOk result (λ b. IsSoundIn dir b) }
{
    let sums = horizontal_sums(items.as_slice());
    let target = sums.target(dir, size);
    pack(alloc, items, &sums.totals, target)
}
