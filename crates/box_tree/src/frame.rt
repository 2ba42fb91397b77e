//! Where the items of a set box stand.

ghost use Rattle.std.specs.Prelude.{◌≡◌, ℤ, pos, neg_ℤ, ◌+ℤ◌, ◌-ℤ◌, ◌≤ℤ◌, ◌^◌};
ghost use Rattle.ts_geometry.specs.Directions.{sp};
ghost use Rattle.box_tree.specs.Bounds.{IsDimen, HasDimens, IsDimenIfThere, PointIsNear};
ghost use Rattle.ts_geometry.specs.Numbers.{IsWithin};
ghost use Rattle.box_tree.specs.Nodes.{tree, tree_item};
ghost use Rattle.box_tree.specs.Offsets.{extent, or_else, measures_or, item_extent, item_part, glue_part, same_order, share_of, offset};
ghost use Rattle.box_tree.specs.Places.{frame_of, after, item_shift, item_height, down, place, item_point};
ghost use Rattle.box_tree.specs.Sound.{IsSound, IsSoundGlue, IsSoundShare, IsSoundSet, IsSoundItem};
ghost use Rattle.box_tree.specs.Trees.{size_of};

use crate::item::Item;
use crate::node::{BoxKind, BoxNode, SetGlue};
use crate::shared_box::SharedBox;
use ts_geometry::{Dir, Glue, Measures, Order, Point, Sp, share, step};

/// A box as the list in it sees it: its kind, its direction, its measures, how its glue is set, and
/// the point from which it is set.
#[derive(Clone, Copy, Debug)]
pub struct Frame {
    pub kind: BoxKind,
    pub dir: Dir,
    pub size: Measures,
    pub set: SetGlue,
    pub at: Point,
}

/// What stands before an item, in scaled points: the sum of the extents, and that of the stretch or
/// shrink of the set order.
#[derive(Clone, Copy, Debug)]
pub struct Sums {
    pub natural: Sp,
    pub part: Sp,
}

/// What an absent measure of a rule counts as.
const NOTHING: Measures = Measures {
    wd: Sp(0),
    ht: Sp(0),
    dp: Sp(0),
};

impl Frame {
    /// Returns a box that is set from a point, as the list in it sees it.
    pub fn new(node: &BoxNode, at: Point) -> Frame
        ensures { result ≡ frame_of (tree node.now) at }
    {
        Frame {
            kind: node.kind,
            dir: node.dir,
            size: node.size,
            set: node.set,
            at,
        }
    }

    /// Returns the sums after an item.
    pub fn after(&self, sums: Sums, item: &Item) -> Sums
        requires sound { IsSoundItem self.now.dir (tree_item item.now) }
        requires natural_near { IsWithin (2 ^ 58) sums.natural.0 }
        requires part_near { IsWithin (2 ^ 58) sums.part.0 }
        ensures { result ≡ after self.now sums (tree_item item.now) }
    {
        Sums {
            natural: sum(sums.natural, self.item_extent(item)),
            part: sum(sums.part, self.item_part(item)),
        }
    }

    /// Returns the offset of an item before which these sums stand.
    pub fn offset(&self, sums: Sums) -> Sp
        requires sound { IsSoundSet self.now.set }
        requires natural_near { IsWithin (2 ^ 58) sums.natural.0 }
        requires part_near { IsWithin (2 ^ 58) sums.part.0 }
        ensures value { result ≡ sp (offset self.now.set sums.natural.0 sums.part.0) }
        ensures near { IsWithin (2 ^ 59) result.0 }
    {
        Sp(offset(self.set, sums.natural.0, sums.part.0))
    }

    /// Returns the reference point of an item at this offset.
    pub fn item_point(&self, off: Sp, item: &Item) -> Point
        requires size_sound { HasDimens self.now.size }
        requires sound { IsSoundItem self.now.dir (tree_item item.now) }
        requires at_near { PointIsNear (2 ^ 60) self.now.at }
        requires off_near { IsWithin (2 ^ 59) off.0 }
        ensures { result ≡ item_point self.now off.0 (tree_item item.now) }
    {
        self.place(off.0, self.item_shift(item), self.item_height(item))
    }
}

impl Frame {
    fn place(&self, off: i64, shift: Sp, height: Sp) -> Point
        requires size_sound { HasDimens self.now.size }
        requires shift_sound { IsDimen shift }
        requires height_sound { IsDimen height }
        requires at_near { PointIsNear (2 ^ 60) self.now.at }
        requires off_near { IsWithin (2 ^ 59) off }
        ensures { result ≡ place self.now.kind self.now off shift height }
    {
        match self.kind {
            BoxKind::Horizontal => step(self.at, self.dir, Sp(off), shift),
            BoxKind::Vertical => { step(self.at, self.dir, shift, Sp(self.down(off, height))) }
        }
    }

    /// Returns how far the reference point of an item of a vertical box lies below the box's own.
    fn down(&self, off: i64, height: Sp) -> i64
        requires size_sound { HasDimens self.now.size }
        requires height_sound { IsDimen height }
        requires off_near { IsWithin (2 ^ 59) off }
        ensures value { result ≡ down off height self.now.size.ht }
        ensures near { IsWithin (2 ^ 60) result }
    {
        off + height.0 - self.size.ht.0
    }

    /// Returns how far an item leads on.
    fn item_extent(&self, item: &Item) -> i64
        requires { IsSoundItem self.now.dir (tree_item item.now) }
        ensures value { result ≡ item_extent self.now.kind (tree_item item.now) }
        ensures near { IsWithin (2 ^ 32) result }
    {
        match item {
            Item::Glyph { size, .. } | Item::Kanji { size, .. } => extent(self.kind, *size),
            Item::Box { node, .. } => extent(self.kind, size_of(node)),
            Item::Crossed { seen, .. } => extent(self.kind, *seen),
            Item::Rule { wd, ht, dp } => extent(self.kind, measures_or(*wd, *ht, *dp, NOTHING)),
            Item::Glue { glue, .. } => glue.width.0,
            Item::Kern { width, .. } => width.0,
            Item::Penalty { .. } => 0,
        }
    }

    /// Returns how much of an item counts where the glue is set.
    fn item_part(&self, item: &Item) -> i64
        requires { IsSoundItem self.now.dir (tree_item item.now) }
        ensures value { result ≡ item_part self.now.set (tree_item item.now) }
        ensures near { IsWithin (2 ^ 32) result }
    {
        match item {
            Item::Glue { glue, .. } => glue_part(self.set, glue),
            _ => 0,
        }
    }

    /// Returns how far an item is moved.
    fn item_shift(&self, item: &Item) -> Sp
        requires { IsSoundItem self.now.dir (tree_item item.now) }
        ensures value { result ≡ item_shift (tree_item item.now) }
        ensures sound { IsDimen result }
    {
        match item {
            Item::Glyph { shift, .. } | Item::Box { shift, .. } | Item::Crossed { shift, .. } => {
                *shift
            }
            _ => Sp(0),
        }
    }

    /// Returns how far an item reaches above its reference point.
    fn item_height(&self, item: &Item) -> Sp
        requires { IsSoundItem self.now.dir (tree_item item.now) }
        ensures value { result ≡ item_height (tree_item item.now) }
        ensures sound { IsDimen result }
    {
        match item {
            Item::Glyph { size, .. } | Item::Kanji { size, .. } => size.ht,
            Item::Box { node, .. } => size_of(node).ht,
            Item::Crossed { seen, .. } => seen.ht,
            Item::Rule { ht, .. } => or_else(*ht, Sp(0)),
            _ => Sp(0),
        }
    }
}

fn size_of(node: &SharedBox) -> Measures
    requires { IsSound node.now }
    ensures value { result ≡ size_of node.now }
    ensures sound { HasDimens result }
{
    node.get().size
}

fn extent(kind: BoxKind, size: Measures) -> i64
    requires { HasDimens size }
    ensures value { result ≡ extent kind size }
    ensures near { IsWithin (2 ^ 32) result }
{
    match kind {
        BoxKind::Horizontal => size.wd.0,
        BoxKind::Vertical => size.ht.0 + size.dp.0,
    }
}

/// Returns the measures of a rule, with those of other measures where they are absent.
fn measures_or(wd: Option<Sp>, ht: Option<Sp>, dp: Option<Sp>, other: Measures) -> Measures
    requires wd_sound { IsDimenIfThere wd }
    requires ht_sound { IsDimenIfThere ht }
    requires dp_sound { IsDimenIfThere dp }
    requires other_sound { HasDimens other }
    ensures value { result ≡ measures_or wd ht dp other }
    ensures sound { HasDimens result }
{
    Measures {
        wd: or_else(wd, other.wd),
        ht: or_else(ht, other.ht),
        dp: or_else(dp, other.dp),
    }
}

fn or_else(measure: Option<Sp>, other: Sp) -> Sp
    requires sound { IsDimenIfThere measure }
    requires other_sound { IsDimen other }
    ensures value { result ≡ or_else measure other }
    ensures sound { IsDimen result }
{
    match measure {
        Some(measure) => measure,
        None => other,
    }
}

fn glue_part(set: SetGlue, glue: &Glue) -> i64
    requires { IsSoundGlue glue.now }
    ensures value { result ≡ glue_part set glue.now }
    ensures near { IsWithin (2 ^ 32) result }
{
    match set {
        SetGlue::Stretch(order, _, _) if same_order(glue.stretch_order, order) => glue.stretch.0,
        SetGlue::Shrink(order, _, _) if same_order(glue.shrink_order, order) => glue.shrink.0,
        _ => 0,
    }
}

fn same_order(a: Order, b: Order) -> bool
    ensures { result ≡ same_order a b }
{
    a == b
}

fn offset(set: SetGlue, natural: i64, part: i64) -> i64
    requires sound { IsSoundSet set }
    requires natural_near { IsWithin (2 ^ 58) natural }
    requires part_near { IsWithin (2 ^ 58) part }
    ensures value { result ≡ offset set natural part }
    ensures near { IsWithin (2 ^ 59) result }
{
    match set {
        SetGlue::Plain => natural,
        SetGlue::Stretch(_, excess, whole) => total(natural, share_of(part, excess, whole)),
        SetGlue::Shrink(_, excess, whole) => difference(natural, share_of(part, excess, whole)),
    }
}

fn sum(a: Sp, b: i64) -> Sp
    requires a_near { IsWithin (2 ^ 58) a.0 }
    requires b_near { IsWithin (2 ^ 32) b }
    ensures { result ≡ sp (a.0 +ℤ b) }
{
    Sp(total(a.0, b))
}

fn total(a: i64, b: i64) -> i64
    requires a_near { IsWithin (2 ^ 58) a }
    requires b_near { IsWithin (2 ^ 32) b }
    ensures { result ≡ a +ℤ b }
{
    a + b
}

fn difference(a: i64, b: i64) -> i64
    requires a_near { IsWithin (2 ^ 58) a }
    requires b_near { IsWithin (2 ^ 32) b }
    ensures { result ≡ a -ℤ b }
{
    a - b
}

#[tactic(auto, using(crate::proofs::Near::share_of_near, std::proofs::lemmas::Grind::common_steps), unfolding(crate::specs::Offsets::share_of))]
fn share_of(part: i64, excess: Sp, total: Sp) -> i64
    requires sound { IsSoundShare excess total }
    requires near { IsWithin (2 ^ 58) part }
    ensures value { result ≡ share_of part excess total }
    ensures near { IsWithin (10 ^ 9) result }
{
    share(part, excess.0, total.0)
}
