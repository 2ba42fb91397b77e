//! Boxes in boxes.

ghost use Rattle.std.specs.Prelude.{◌≡◌};
ghost use Rattle.ts_geometry.specs.Directions.{sp};
ghost use Rattle.ts_geometry.specs.Numbers.{IsWithin};
ghost use Rattle.box_tree.specs.Nodes.{tree_item};
ghost use Rattle.box_tree.specs.Sound.{IsSoundItem};

use crate::*;
use jis_codes::Cell;
use std::alloc::Global;
use std::test::Fail;
use ts_geometry::{Dir, Glue, Measures, Order, Point, Sp};

const POINT: Measures = Measures {
    wd: Sp(1),
    ht: Sp(1),
    dp: Sp(0),
};

const RULE: Item = Item::Rule {
    wd: Some(Sp(1)),
    ht: None,
    dp: None,
};

fn yoko(alloc: Global, items: Items) -> Result<SharedBox, BoxFault> {
    let node = BoxNode {
        kind: BoxKind::Horizontal,
        dir: Dir::Yoko,
        size: POINT,
        set: SetGlue::Plain,
        items,
    };
    SharedBox::new(alloc, node)
}

/// Returns a box with so many copies of another one in it, each with a shift of its place.
fn copies(alloc: Global, of: &SharedBox, count: u32) -> Result<SharedBox, BoxFault> {
    let mut items = Items::new(alloc);
    for place in 0..count {
        items.push(Item::Box {
            node: of.same_copy(),
            shift: Sp(i64::from(place)),
        })?;
    }
    yoko(alloc, items)
}

/// Returns a box with a rule in it, in boxes that each have so many copies of the one before.
fn nested(alloc: Global, levels: u32, count: u32) -> Result<SharedBox, BoxFault> {
    let mut items = Items::new(alloc);
    items.push(RULE)?;
    let mut node = yoko(alloc, items)?;
    for _ in 0..levels {
        node = copies(alloc, &node, count)?;
    }
    Ok(node)
}

fn weight_and_depth(node: Result<SharedBox, BoxFault>) -> Result<(u64, u32), BoxFault> {
    let node = node?;
    Ok((node.weight(), node.deepest()))
}

#[test]
fn weight_and_depth_have_their_limits(rt: HostRuntime) {
    for (levels, count, want) in [
        (0, 0, Ok((2, 1))),
        (1, 0, Ok((1, 1))),
        (1, 2, Ok((5, 2))),
        (2, 3, Ok((22, 3))),
        (19, 2, Ok((1_572_863, 20))),
        (20, 2, Err(BoxFault::BoxTooLarge(3_145_727))),
        (199, 1, Ok((201, 200))),
        (200, 1, Err(BoxFault::BoxTooDeep(201))),
    ] {
        assert_eq!(rt;
            weight_and_depth(nested(rt.alloc(), levels, count)),
            want,
            "at {levels}, {count}"
        );
    }
}

#[test]
fn the_weight_is_told_before_the_depth(rt: HostRuntime) -> Result<(), Fail> {
    let deep = nested(rt.alloc(), 199, 1).expect(&rt, "memory");
    let mut items = Items::new(rt.alloc());
    items.push(Item::Box {
        node: deep.same_copy(),
        shift: Sp(0),
    })?;
    assert_eq!(rt;
        past_limits(items.as_slice()),
        Some(BoxFault::BoxTooDeep(201))
    );
    let large = nested(rt.alloc(), 19, 2).expect(&rt, "memory");
    for _ in 0..2 {
        items.push(Item::Crossed {
            node: large.same_copy(),
            shift: Sp(0),
            seen: POINT,
        })?;
    }
    assert_eq!(rt;
        past_limits(items.as_slice()),
        Some(BoxFault::BoxTooLarge(3_145_928))
    );
    assert_eq!(rt; past_limits(&[]), None);
    Ok(())
}

/// Returns the shift of an item that is a box.
fn shift_of(item: &Item) -> Option<Sp> {
    match item {
        Item::Box { shift, .. } => Some(*shift),
        _ => None,
    }
}

#[test]
fn a_measure_changes_in_one_copy(rt: HostRuntime) {
    let node = nested(rt.alloc(), 2, 2).expect(&rt, "memory");
    let other = node.same_copy();
    let changed = node
        .with_measure(rt.alloc(), Side::Ht, Sp(7))
        .expect(&rt, "memory");
    assert_eq!(rt; changed.get().size, Measures { ht: Sp(7), ..POINT });
    assert_eq!(rt; changed.weight(), 11);
    assert_eq!(rt; changed.deepest(), 3);
    for item in changed.get().items.as_slice() {
        assert_eq!(rt; item.weight(), 5);
    }
    drop(node);
    assert_eq!(rt; other.get().size, POINT);
    for (place, item) in other.get().items.as_slice().iter().enumerate() {
        assert_eq!(rt; shift_of(item), Some(Sp(place as i64)));
    }
}

#[test]
fn a_copy_of_a_list_has_each_item(rt: HostRuntime) -> Result<(), Fail> {
    let mut items = Items::new(rt.alloc());
    items.push(RULE)?;
    items.push(Item::Glyph {
        font: FontNo(1),
        code: 65,
        size: POINT,
        shift: Sp(2),
        first: 65,
        last: 66,
    })?;
    items.push(Item::Kanji {
        font: FontNo(2),
        cell: Cell::new(16, 1).expect(&rt, "a cell"),
        size: POINT,
        kind: 16,
    })?;
    items.push(Item::Glue {
        glue: Glue {
            width: Sp(5),
            stretch: Sp(65_536),
            stretch_order: Order::Fil,
            shrink: Sp(0),
            shrink_order: Order::Normal,
        },
        from: GlueFrom::Skip,
    })?;
    items.push(Item::Kern {
        width: Sp(-3),
        from: KernFrom::Given,
    })?;
    items.push(Item::Penalty {
        value: 10_000,
        auto: true,
    })?;
    let copies = same_items(rt.alloc(), items.as_slice()).expect(&rt, "memory");
    let printed = format!(in rt.alloc(); "{copies:?}").expect(&rt, "memory");
    let original = format!(in rt.alloc(); "{items:?}").expect(&rt, "memory");
    assert_eq!(rt; printed, original);
    Ok(())
}

fn glue(width: i64, stretch: i64, order: Order) -> Item
    requires width { IsWithin 100 width }
    requires stretch { IsWithin 100 stretch }
    ensures { IsSoundItem Dir.Yoko (tree_item result) }
{
    Item::Glue {
        glue: Glue {
            width: Sp(width),
            stretch: Sp(stretch),
            stretch_order: order,
            shrink: Sp(0),
            shrink_order: Order::Normal,
        },
        from: GlueFrom::Given,
    }
}

fn sums(natural: i64, part: i64) -> Sums
    ensures { result ≡ record { natural = sp natural; part = sp part } }
{
    Sums {
        natural: Sp(natural),
        part: Sp(part),
    }
}

#[test]
fn stretch_of_the_set_order_alone_moves_items(rt: HostRuntime) {
    let frame = Frame {
        kind: BoxKind::Horizontal,
        dir: Dir::Yoko,
        size: POINT,
        set: SetGlue::Stretch(Order::Fil, Sp(8), Sp(4)),
        at: Point {
            x: Sp(100),
            y: Sp(7),
        },
    };
    let finite = frame.after(sums(0, 0), &glue(5, 10, Order::Normal));
    assert_eq!(rt; (finite.natural, finite.part), (Sp(5), Sp(0)));
    assert_eq!(rt; frame.offset(sums(5, 0)), Sp(5));
    let infinite = frame.after(sums(5, 0), &glue(7, 3, Order::Fil));
    assert_eq!(rt; (infinite.natural, infinite.part), (Sp(12), Sp(3)));
    assert_eq!(rt; frame.offset(sums(12, 3)), Sp(18));
    assert_eq!(rt;
        frame.item_point(Sp(18), &RULE),
        Point {
            x: Sp(118),
            y: Sp(7)
        }
    );
}
