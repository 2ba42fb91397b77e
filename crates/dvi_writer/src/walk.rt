//! The walk over a box.

ghost use Rattle.std.specs.Prelude.{◌≡◌, ◌^◌, OnOk, IfErr};
ghost use Rattle.box_tree.specs.Bounds.{HasDimens, PointIsNear};
ghost use Rattle.box_tree.specs.Nodes.{tree_item};
ghost use Rattle.box_tree.specs.Places.{PlacesAreNear, ItemIsNear};
ghost use Rattle.box_tree.specs.Sound.{IsSound, IsSoundItem};
ghost use Rattle.box_tree.specs.Trees.{size_of, dir_of};
ghost use Rattle.box_marks.specs.Placing.{own_placed, listed, box_placed, item_placed};
ghost use Rattle.dvi_writer.specs.Saying.{IsInReach};
ghost use Rattle.dvi_writer.specs.Wrote.{Writes, Refuses};

use crate::fault::WriteFault;
use crate::pen::Pen;
use box_marks::item_mark;
use box_tree::laws::{each_item_weighs_something, sums_are_near, sums_run};
use box_tree::{Frame, Item, SharedBox, Sums};
use ts_geometry::{Dir, Measures, Point, Sp, inner_point};

/// What stands before the first item.
const NOTHING: Sums = Sums {
    natural: Sp(0),
    part: Sp(0),
};

/// Puts what a box marks that is set from a point.
#[cycle(walk)]
pub(crate) fn put_box(pen: &mut Pen, node: &SharedBox, at: Point) -> Result<(), WriteFault>
    requires reach { IsInReach pen.old.hand.at }
    requires sound { IsSound node.now }
    requires near { PlacesAreNear (2 ^ 60) node.now at }
    ensures ok { OnOk result (Writes pen.old pen.new (box_placed node.now at)) }
    ensures err { IfErr result (λ fault. Refuses fault (box_placed node.now at)) }
{
    sums_are_near();
    sums_run();
    each_item_weighs_something();
    // Its limit bounds the places and sums below.
    let _weight = node.weight();
    let list = node.get();
    let frame = Frame::new(list, at);
    let mut sums = NOTHING;
    for item in list.items.as_slice() {
        let at = frame.item_point(frame.offset(sums), item);
        put_item(pen, &frame, at, item)?;
        sums = frame.after(sums, item);
    }
    Ok(())
}

/// Puts what an item marks whose reference point is `at`.
#[cycle(walk)]
fn put_item(pen: &mut Pen, frame: &Frame, at: Point, item: &Item) -> Result<(), WriteFault>
    requires reach { IsInReach pen.old.hand.at }
    requires size_sound { HasDimens frame.now.size }
    requires sound { IsSoundItem frame.now.dir (tree_item item.now) }
    requires near { ItemIsNear (2 ^ 60) frame.now at (tree_item item.now) }
    ensures ok { OnOk result (Writes pen.old pen.new
        (item_placed frame.now at (tree_item item.now))) }
    ensures err { IfErr result (λ fault. Refuses fault
        (item_placed frame.now at (tree_item item.now))) }
{
    match item {
        Item::Box { node, .. } => put_box(pen, node, at),
        Item::Crossed { node, .. } => {
            let at = inner_point(size_of(node), dir_of(node), at, frame.dir);
            put_box(pen, node, at)
        }
        _ => put_own(pen, frame, at, item),
    }
}

/// Puts what an item itself marks.
fn put_own(pen: &mut Pen, frame: &Frame, at: Point, item: &Item) -> Result<(), WriteFault>
    requires reach { IsInReach pen.old.hand.at }
    requires size_sound { HasDimens frame.now.size }
    requires sound { IsSoundItem frame.now.dir (tree_item item.now) }
    requires near { PointIsNear (2 ^ 60) at }
    ensures ok { OnOk result (Writes pen.old pen.new
        (listed (own_placed frame.now at (tree_item item.now)))) }
    ensures err { IfErr result (λ fault. Refuses fault
        (listed (own_placed frame.now at (tree_item item.now)))) }
{
    match item_mark(frame, at, item) {
        Some(p) => pen.put(p),
        None => Ok(()),
    }
}

fn size_of(node: &SharedBox) -> Measures
    requires { IsSound node.now }
    ensures value { result ≡ size_of node.now }
    ensures sound { HasDimens result }
{
    node.get().size
}

fn dir_of(node: &SharedBox) -> Dir
    ensures { result ≡ dir_of node.now }
{
    node.get().dir
}
