//! Packing of vertical lists.

ghost use Rattle.std.specs.Prelude.{◌≡◌, ◌+◌, ◌*◌, ◌^◌, pos, ◌+ℤ◌, ◌-ℤ◌, IfOk};
ghost use Rattle.std.specs.Int.{int_max, int_min};
ghost use Rattle.ts_base.specs.Agreement.{Agrees};
ghost use Rattle.ts_geometry.specs.declared.direction.Dir.{Dir};
ghost use Rattle.ts_geometry.specs.Directions.{sp};
ghost use Rattle.ts_geometry.specs.Numbers.{IsWithin};
ghost use Rattle.box_tree.specs.Bounds.{IsDimen};
ghost use Rattle.box_tree.specs.Nodes.{tree_item, tree_items};
ghost use Rattle.box_tree.specs.Sound.{IsSoundItem, AreSound};
ghost use Rattle.packaging.specs.Lists.{first_height};
ghost use Rattle.packaging.specs.Packing.{vpacked, vtopped, vertical_size, vertical_height, with_height, excess_for, pack_cause, IsSoundSize, IsSoundIn};
ghost use Rattle.packaging.specs.Running.{long, vertical_target, measures_of, vertical_with, no_vertical, AreNear, IsVertical};

use crate::fault::PackFault;
use crate::item::{depth_after, first_height, moved_width};
use crate::long::{Long, LongMeasures};
use crate::pack::{Target, excess_for, length_for, pack};
use crate::totals::Totals;
use box_tree::{BoxKind, BoxSize, Item, Items, SharedBox};
use std::alloc::Global;
use ts_geometry::{Dir, Sp};

/// What the items of a vertical list come to: its totals, its width, and the depth at its end.
#[derive(Clone, Copy, Debug)]
pub(crate) struct VerticalSums {
    totals: Totals,
    width: Sp,
    depth: Sp,
}

impl VerticalSums {
    fn none() -> VerticalSums
        ensures { result ≡ no_vertical }
    {
        VerticalSums {
            totals: Totals::none(),
            width: Sp(0),
            depth: Sp(0),
        }
    }

    fn with_item(self, item: &Item) -> VerticalSums
        requires sound { (dir : Dir) × IsSoundItem dir (tree_item item.now) }
        requires near { AreNear (2 ^ 100) self.totals }
        ensures { result ≡ vertical_with self (tree_item item.now) }
    {
        VerticalSums {
            totals: self.totals.with_item(BoxKind::Vertical, item),
            width: self.width.greater(moved_width(item)),
            depth: depth_after(self.depth, item),
        }
    }

    /// Returns the list packed to a size, with a maximum depth.
    fn target(&self, dir: Dir, size: BoxSize, max_depth: Sp) -> Target
        requires near { IsWithin (2 ^ 98) self.now.totals.natural.0 }
        requires size_sound { IsSoundSize size }
        ensures value { result ≡ vertical_target self.now dir size max_depth }
        ensures height_near { IsWithin (2 ^ 100) result.size.ht.0 }
        ensures depth_near { IsWithin (2 ^ 100) result.size.dp.0 }
    {
        let depth = lesser(self.depth, max_depth);
        let natural = self.totals.natural.minus(depth);
        Target {
            kind: BoxKind::Vertical,
            dir,
            size: LongMeasures {
                wd: Long::new(self.width),
                ht: length_for(size, natural),
                dp: Long::new(depth),
            },
            excess: excess_for(size, natural),
        }
    }
}

fn lesser(a: Sp, b: Sp) -> Sp
    ensures { result ≡ sp (int_min a.0 b.0) }
{
    Sp(a.0.min(b.0))
}

fn vertical_sums(items: &[Item]) -> VerticalSums
    requires { (dir : Dir) × AreSound dir (tree_items items.now) }
    ensures sums { IsVertical (tree_items items.now) result }
    ensures near { AreNear (2 ^ 98) result.totals }
{
    let mut sums = VerticalSums::none();
    for item in items {
        sums = sums.with_item(item);
    }
    sums
}

/// Returns a vertical list of this direction, packed to a size, with a maximum depth, both in
/// scaled points (The TeXbook, chapter 12; TeX: The Program, sections 668 to 678). Its width is the
/// greatest of 0, the widths of rules, and those of boxes with their shift. Its depth is that of
/// the last box or rule where neither glue nor a kern follows it, and else 0; what passes the
/// maximum goes to the height. Glue is set as by `hpack`, and a measure of a rule that is absent
/// counts as 0. The items move into the box.
///
/// DimenRange, BoxTooLarge and BoxTooDeep come as from `hpack`. Where it is refused the items are
/// dropped.
pub fn vpack(
    alloc: Global,
    items: Items,
    dir: Dir,
    size: BoxSize,
    max_depth: Sp,
) -> Result<SharedBox, PackFault>
    requires sound { AreSound dir (tree_items items) }
    requires size_sound { IsSoundSize size }
    requires depth_sound { IsDimen max_depth }
    ensures value { Agrees (λ b. b) pack_cause result
        (vpacked (tree_items items) dir size max_depth) }
    ensures sound { IfOk result (λ b. IsSoundIn dir b) }
{
    let sums = vertical_sums(items.as_slice());
    let target = sums.target(dir, size, max_depth);
    pack(alloc, items, &sums.totals, target)
}

/// Returns a vertical list as `vpack` does, but with the height of its first item, if that is a box
/// or a rule, and else of 0; the depth is the rest (The TeXbook, chapter 12; TeX: The Program,
/// section 1087). The items move into the box.
///
/// DimenRange comes exactly where a measure of this box isn't within 2^30 - 1 scaled points of 0,
/// whatever the height and depth of `vpack` are; BoxTooLarge and BoxTooDeep come as from `hpack`.
/// Where it is refused the items are dropped.
pub fn vtop(
    alloc: Global,
    items: Items,
    dir: Dir,
    size: BoxSize,
    max_depth: Sp,
) -> Result<SharedBox, PackFault>
    requires sound { AreSound dir (tree_items items) }
    requires size_sound { IsSoundSize size }
    requires depth_sound { IsDimen max_depth }
    ensures value { Agrees (λ b. b) pack_cause result
        (vtopped (tree_items items) dir size max_depth) }
    ensures sound { IfOk result (λ b. IsSoundIn dir b) }
{
    let sums = vertical_sums(items.as_slice());
    let target = sums.target(dir, size, max_depth);
    let height = first_height(items.as_slice());
    let target = Target {
        size: with_height(target.size, height),
        ..target
    };
    pack(alloc, items, &sums.totals, target)
}

/// Returns the same height with depth, but with this height.
fn with_height(size: LongMeasures, height: Sp) -> LongMeasures
    requires ht_near { IsWithin (2 ^ 100) size.ht.0 }
    requires dp_near { IsWithin (2 ^ 100) size.dp.0 }
    ensures { measures_of result ≡ with_height (measures_of size) height.0 }
{
    LongMeasures {
        wd: size.wd,
        ht: Long::new(height),
        dp: size.ht.plus_long(size.dp).minus(height),
    }
}
