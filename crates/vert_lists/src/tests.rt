//! Interline glue, by worked values.

ghost use Rattle.std.specs.Prelude.{◌≡◌, pos, IfOk};
ghost use Rattle.ts_geometry.specs.declared.direction.Dir.{Dir};
ghost use Rattle.ts_geometry.specs.Crossings.{measures};
ghost use Rattle.ts_geometry.specs.Numbers.{IsWithin};
ghost use Rattle.box_tree.specs.Bounds.{IsDimenIfThere};
ghost use Rattle.box_tree.specs.Nodes.{tree_item};
ghost use Rattle.box_tree.specs.Sound.{IsSound, IsSoundItem};
ghost use Rattle.box_tree.specs.Trees.{dir_of, size_of};
ghost use Rattle.vert_lists.specs.Interline.{IsBox};

use crate::*;
use box_tree::{BoxFault, BoxKind, BoxNode, Item, Items, SetGlue, SharedBox};
use std::alloc::Global;
use ts_geometry::{Dir, Glue, Measures, Order, Sp, seen};

/// 12sp plus 1fil, 1sp minus 2sp, and a limit of -2sp.
const SHAPE: LineShape = LineShape {
    baseline: Glue {
        width: Sp(12),
        stretch: Sp(65_536),
        stretch_order: Order::Fil,
        shrink: Sp(0),
        shrink_order: Order::Normal,
    },
    line_skip: Glue {
        width: Sp(1),
        stretch: Sp(0),
        stretch_order: Order::Normal,
        shrink: Sp(2),
        shrink_order: Order::Normal,
    },
    limit: Sp(-2),
};

/// Returns an empty yoko box of width 20 and of this height.
fn empty(alloc: Global, ht: i64) -> Result<SharedBox, BoxFault>
    requires { IsWithin 100 ht }
    ensures sound { IfOk result (λ b. IsSound b) }
    ensures dir { IfOk result (λ b. dir_of b ≡ Dir.Yoko) }
    ensures size { IfOk result (λ b. size_of b ≡ measures (pos 20) ht (pos 0)) }
{
    let node = BoxNode {
        kind: BoxKind::Horizontal,
        dir: Dir::Yoko,
        size: Measures {
            wd: Sp(20),
            ht: Sp(ht),
            dp: Sp(0),
        },
        set: SetGlue::Plain,
        items: Items::new(alloc),
    };
    SharedBox::new(alloc, node)
}

/// Returns the glue of the first of two items, or nothing where there is one item.
fn glue_of(items: &[Item]) -> Option<Glue> {
    match items {
        [
            Item::Glue { glue, .. },
            Item::Box { .. } | Item::Crossed { .. },
        ] => Some(*glue),
        _ => None,
    }
}

/// Returns the glue before an item, and the number of items.
fn glue_before(
    alloc: Global,
    item: Item,
    last: Option<Sp>,
) -> Result<(Option<Glue>, usize), BoxFault>
    requires is_box { IsBox (tree_item item) }
    requires sound { (dir : Dir) × IsSoundItem dir (tree_item item) }
    requires last_sound { IsDimenIfThere last }
{
    let items = spaced(alloc, item, last, &SHAPE)?;
    Ok((glue_of(items.as_slice()), items.len()))
}

fn before_a_box(alloc: Global, ht: i64, last: Option<Sp>) -> Result<(Option<Glue>, usize), BoxFault>
    requires ht { IsWithin 100 ht }
    requires last_sound { IsDimenIfThere last }
{
    let node = empty(alloc, ht)?;
    let item = Item::Box { node, shift: Sp(5) };
    glue_before(alloc, item, last)
}

fn in_dtou(node: SharedBox) -> Item
    requires sound { IsSound node }
    requires dir { dir_of node ≡ Dir.Yoko }
    requires size { size_of node ≡ measures (pos 20) (pos 3) (pos 0) }
    ensures is_box { IsBox (tree_item result) }
    ensures sound { IsSoundItem Dir.Dtou (tree_item result) }
{
    let seen = seen(node.get().size, Dir::Yoko, Dir::Dtou);
    Item::Crossed {
        node,
        shift: Sp(0),
        seen,
    }
}

fn baseline(width: i64) -> Option<Glue> {
    Some(Glue {
        width: Sp(width),
        ..SHAPE.baseline
    })
}

#[test]
fn lines_are_a_baseline_skip_apart(rt: HostRuntime) {
    let alloc = rt.alloc();
    let apart = before_a_box(alloc, 7, Some(Sp(2)));
    assert_eq!(rt; apart, Ok((baseline(3), 2)));
    let at_the_limit = before_a_box(alloc, 10, Some(Sp(4)));
    assert_eq!(rt; at_the_limit, Ok((baseline(-2), 2)));
    let below_the_limit = before_a_box(alloc, 10, Some(Sp(5)));
    assert_eq!(rt; below_the_limit, Ok((Some(SHAPE.line_skip), 2)));
}

#[test]
fn no_glue_stands_at_the_start_or_after_an_ignored_depth(rt: HostRuntime) {
    let alloc = rt.alloc();
    let at_the_start = before_a_box(alloc, 7, None);
    assert_eq!(rt; at_the_start, Ok((None, 1)));
    let ignored = before_a_box(alloc, 7, Some(Sp(-65_536_000)));
    assert_eq!(rt; ignored, Ok((None, 1)));
    let not_ignored = before_a_box(alloc, 7, Some(Sp(-65_535_999)));
    assert_eq!(rt; not_ignored, Ok((baseline(65_536_004), 2)));
}

#[test]
fn a_crossed_box_counts_with_the_height_that_is_seen(rt: HostRuntime) {
    let alloc = rt.alloc();
    let node = empty(alloc, 3).expect(&rt, "memory");
    let seen = seen(node.get().size, Dir::Yoko, Dir::Dtou);
    let item = Item::Crossed {
        node,
        shift: Sp(0),
        seen,
    };
    assert_eq!(rt;
        glue_before(alloc, item, Some(Sp(-10))),
        Ok((baseline(2), 2))
    );
}
