//! Worked boxes.

ghost use Rattle.std.specs.Prelude.{◌≡◌, IfOk};
ghost use Rattle.ts_geometry.specs.declared.direction.Dir.{Dir};
ghost use Rattle.ts_geometry.specs.Numbers.{IsWithin};
ghost use Rattle.box_tree.specs.Bounds.{IsDimen};
ghost use Rattle.box_tree.specs.Nodes.{tree_item, tree_items};
ghost use Rattle.box_tree.specs.Sound.{IsSound, IsSoundItem, AreSound};
ghost use Rattle.packaging.specs.Packing.{IsSoundSize, IsSoundIn};

use crate::*;
use box_tree::{BoxSize, GlueFrom, Item, Items, KernFrom, SetGlue, SharedBox};
use std::alloc::Global;
use std::test::Fail;
use ts_geometry::{Dir, Glue, MAX_DIMEN, Measures, Order, Sp};

fn measures(wd: i64, ht: i64, dp: i64) -> Measures {
    Measures {
        wd: Sp(wd),
        ht: Sp(ht),
        dp: Sp(dp),
    }
}

fn rule(wd: i64, ht: i64, dp: i64) -> Item
    requires wd { IsWithin 1000 wd }
    requires ht { IsWithin 1000 ht }
    requires dp { IsWithin 1000 dp }
    ensures { (dir : Dir) → IsSoundItem dir (tree_item result) }
{
    Item::Rule {
        wd: Some(Sp(wd)),
        ht: Some(Sp(ht)),
        dp: Some(Sp(dp)),
    }
}

fn kern(width: Sp) -> Item
    requires { IsDimen width }
    ensures { (dir : Dir) → IsSoundItem dir (tree_item result) }
{
    Item::Kern {
        width,
        from: KernFrom::Given,
    }
}

const PENALTY: Item = Item::Penalty {
    value: 100,
    auto: false,
};

fn glue(width: i64, stretch: i64, stretch_order: Order, shrink: i64) -> Item
    requires width { IsWithin 100 width }
    requires stretch { IsWithin 100 stretch }
    requires shrink { IsWithin 100 shrink }
    ensures { (dir : Dir) → IsSoundItem dir (tree_item result) }
{
    Item::Glue {
        glue: Glue {
            width: Sp(width),
            stretch: Sp(stretch),
            stretch_order,
            shrink: Sp(shrink),
            shrink_order: Order::Normal,
        },
        from: GlueFrom::Given,
    }
}

fn one(alloc: Global, _dir: Dir, item: Item) -> Result<Items, PackFault>
    requires { IsSoundItem _dir (tree_item item) }
    ensures { IfOk result (λ items. AreSound _dir (tree_items items)) }
{
    let mut items = Items::new(alloc);
    items.push(item).map_err(|_| PackFault::NoMemory)?;
    Ok(items)
}

fn two(alloc: Global, _dir: Dir, first: Item, second: Item) -> Result<Items, PackFault>
    requires first { IsSoundItem _dir (tree_item first) }
    requires second { IsSoundItem _dir (tree_item second) }
    ensures { IfOk result (λ items. AreSound _dir (tree_items items)) }
{
    let mut items = Items::new(alloc);
    items.push(first).map_err(|_| PackFault::NoMemory)?;
    items.push(second).map_err(|_| PackFault::NoMemory)?;
    Ok(items)
}

fn set(node: Result<SharedBox, PackFault>) -> Result<(Measures, SetGlue), PackFault> {
    let node = node?;
    Ok((node.get().size, node.get().set))
}

/// Returns two glues, packed.
fn glues(
    alloc: Global,
    size: BoxSize,
    first: Item,
    second: Item,
) -> Result<(Measures, SetGlue), PackFault>
    requires size { IsSoundSize size }
    requires first { (dir : Dir) → IsSoundItem dir (tree_item first) }
    requires second { (dir : Dir) → IsSoundItem dir (tree_item second) }
{
    let items = two(alloc, Dir::Yoko, first, second)?;
    set(hpack(alloc, items, Dir::Yoko, size))
}

#[test]
fn the_highest_order_takes_the_excess(rt: HostRuntime) {
    let alloc = rt.alloc();
    let finite = glue(5, 10, Order::Normal, 2);
    let infinite = glue(7, 3, Order::Fil, 1);
    assert_eq!(rt;
        glues(
            alloc,
            BoxSize::To(Sp(20)),
            finite.same_copy(),
            infinite.same_copy()
        ),
        Ok((
            measures(20, 0, 0),
            SetGlue::Stretch(Order::Fil, Sp(8), Sp(3))
        ))
    );
    assert_eq!(rt;
        glues(
            alloc,
            BoxSize::Spread(Sp(-2)),
            finite.same_copy(),
            infinite.same_copy()
        ),
        Ok((
            measures(10, 0, 0),
            SetGlue::Shrink(Order::Normal, Sp(2), Sp(3))
        ))
    );
    assert_eq!(rt;
        glues(
            alloc,
            BoxSize::To(Sp(3)),
            finite.same_copy(),
            infinite.same_copy()
        ),
        Ok((
            measures(3, 0, 0),
            SetGlue::Shrink(Order::Normal, Sp(3), Sp(3))
        ))
    );
    assert_eq!(rt;
        glues(alloc, BoxSize::Natural, finite, infinite),
        Ok((measures(12, 0, 0), SetGlue::Plain))
    );
    assert_eq!(rt;
        glues(
            alloc,
            BoxSize::Spread(Sp(4)),
            glue(1, 6, Order::Fill, 0),
            glue(1, -6, Order::Fill, 0)
        ),
        Ok((measures(6, 0, 0), SetGlue::Plain))
    );
}

#[test]
fn two_kerns_of_16383pt_are_too_wide(rt: HostRuntime) {
    let alloc = rt.alloc();
    let items = two(
        alloc,
        Dir::Tate,
        kern(Sp(1_073_676_288)),
        kern(Sp(1_073_676_288)),
    )
    .expect(&rt, "memory");
    assert_eq!(rt;
        set(hpack(alloc, items, Dir::Tate, BoxSize::Natural)),
        Err(PackFault::DimenRange)
    );
    let items = two(alloc, Dir::Tate, kern(Sp(1_073_676_288)), kern(Sp(65_535))).expect(
        &rt, "memory",
    );
    assert_eq!(rt;
        set(hpack(alloc, items, Dir::Tate, BoxSize::Natural)),
        Ok((measures(1_073_741_823, 0, 0), SetGlue::Plain))
    );
}

fn packed_down(
    alloc: Global,
    first: Item,
    second: Item,
    max_depth: Sp,
) -> Result<Measures, PackFault>
    requires first { (dir : Dir) → IsSoundItem dir (tree_item first) }
    requires second { (dir : Dir) → IsSoundItem dir (tree_item second) }
    requires depth { IsDimen max_depth }
{
    let items = two(alloc, Dir::Dtou, first, second)?;
    let node = vpack(alloc, items, Dir::Dtou, BoxSize::Natural, max_depth)?;
    Ok(node.get().size)
}

#[test]
fn the_depth_is_that_of_the_last_box_or_rule(rt: HostRuntime) {
    let alloc = rt.alloc();
    let skip = glue(1, 0, Order::Normal, 0);
    let first = packed_down(alloc, rule(3, 1, 2), rule(9, 4, 5), MAX_DIMEN);
    assert_eq!(rt; first, Ok(measures(9, 7, 5)));
    let deeper = packed_down(alloc, rule(3, 1, 2), rule(9, 4, 5), Sp(2));
    assert_eq!(rt; deeper, Ok(measures(9, 10, 2)));
    let after_kern = packed_down(alloc, rule(3, 4, 5), kern(Sp(1)), MAX_DIMEN);
    assert_eq!(rt; after_kern, Ok(measures(3, 10, 0)));
    let after_glue = packed_down(alloc, rule(3, 4, 5), skip, MAX_DIMEN);
    assert_eq!(rt; after_glue, Ok(measures(3, 10, 0)));
    let after_penalty = packed_down(alloc, rule(3, 4, -3), PENALTY, MAX_DIMEN);
    assert_eq!(rt; after_penalty, Ok(measures(3, 4, -3)));
    let below_0 = packed_down(alloc, rule(3, 4, 5), PENALTY, Sp(-1));
    assert_eq!(rt; below_0, Ok(measures(3, 10, -1)));
}

fn topped(alloc: Global, first: Item, second: Item) -> Result<Measures, PackFault>
    requires first { (dir : Dir) → IsSoundItem dir (tree_item first) }
    requires second { (dir : Dir) → IsSoundItem dir (tree_item second) }
{
    let items = two(alloc, Dir::Yoko, first, second)?;
    let node = vtop(alloc, items, Dir::Yoko, BoxSize::Natural, MAX_DIMEN)?;
    Ok(node.get().size)
}

#[test]
fn a_top_has_the_height_of_its_first_item(rt: HostRuntime) {
    let alloc = rt.alloc();
    let rules = topped(alloc, rule(3, 1, 2), rule(3, 4, 5));
    assert_eq!(rt; rules, Ok(measures(3, 1, 11)));
    let after_kern = topped(alloc, kern(Sp(2)), rule(3, 4, 5));
    assert_eq!(rt; after_kern, Ok(measures(3, 0, 11)));
    let far_down = topped(alloc, kern(MAX_DIMEN), rule(3, 1, -2));
    assert_eq!(rt; far_down, Ok(measures(3, 0, 1_073_741_822)));
}

/// Returns a box in a box of another direction, with the measures of both.
fn seen_through(alloc: Global, node: SharedBox, dir: Dir) -> Result<SharedBox, PackFault>
    requires { IsSound node }
    ensures { IfOk result (λ b. IsSoundIn dir b) }
{
    let item = cross(node, dir, Sp(0))?;
    let items = one(alloc, dir, item)?;
    hpack(alloc, items, dir, BoxSize::Natural)
}

#[test]
fn a_box_is_seen_through_three_directions(rt: HostRuntime) {
    let alloc = rt.alloc();
    let items = one(alloc, Dir::Yoko, rule(3, 5, 7)).expect(&rt, "memory");
    let yoko = hpack(alloc, items, Dir::Yoko, BoxSize::Natural).expect(&rt, "memory");
    assert_eq!(rt; yoko.get().size, measures(3, 5, 7));
    let tate = seen_through(alloc, yoko, Dir::Tate).expect(&rt, "memory");
    assert_eq!(rt; tate.get().size, measures(12, 2, 1));
    let dtou = seen_through(alloc, tate, Dir::Dtou).expect(&rt, "memory");
    assert_eq!(rt; dtou.get().size, measures(12, 1, 2));
    let outer = seen_through(alloc, dtou, Dir::Yoko).expect(&rt, "memory");
    assert_eq!(rt; outer.get().size, measures(3, 12, 0));
    let same = seen_through(alloc, outer, Dir::Yoko).expect(&rt, "memory");
    assert_eq!(rt; same.get().size, measures(3, 12, 0));
}

/// Returns a list of two copies of a box, moved by a shift.
fn doubled(alloc: Global, node: &SharedBox, shift: Sp) -> Result<Items, PackFault>
    requires sound { IsSoundIn Dir.Yoko node.now }
    requires shift { IsDimen shift }
    ensures { IfOk result (λ items. AreSound Dir.Yoko (tree_items items)) }
{
    let first = Item::Box {
        node: node.same_copy(),
        shift,
    };
    let second = Item::Box {
        node: node.same_copy(),
        shift,
    };
    two(alloc, Dir::Yoko, first, second)
}

#[test]
fn a_box_of_too_much_weight_is_refused_after_its_measures(rt: HostRuntime) {
    let alloc = rt.alloc();
    let items = one(alloc, Dir::Yoko, rule(0, 1, 0)).expect(&rt, "memory");
    let mut node = hpack(alloc, items, Dir::Yoko, BoxSize::Natural).expect(&rt, "memory");
    for _ in 0..19 {
        let items = doubled(alloc, &node, Sp(0)).expect(&rt, "memory");
        node = hpack(alloc, items, Dir::Yoko, BoxSize::Natural).expect(&rt, "memory");
    }
    let items = doubled(alloc, &node, Sp(0)).expect(&rt, "memory");
    assert_eq!(rt;
        set(hpack(alloc, items, Dir::Yoko, BoxSize::Natural)),
        Err(PackFault::BoxTooLarge(3_145_727))
    );
    let items = doubled(alloc, &node, Sp(-1_073_741_823)).expect(&rt, "memory");
    assert_eq!(rt;
        set(hpack(alloc, items, Dir::Yoko, BoxSize::Natural)),
        Err(PackFault::DimenRange)
    );
}

#[test]
fn a_box_of_too_much_depth_is_refused(rt: HostRuntime) {
    let alloc = rt.alloc();
    let mut node = vpack(alloc, Items::new(alloc), Dir::Yoko, BoxSize::Natural, Sp(0)).expect(
        &rt, "memory",
    );
    for _ in 0..199 {
        let item = cross(node, Dir::Yoko, Sp(0)).expect(&rt, "no fault");
        let items = one(alloc, Dir::Yoko, item).expect(&rt, "memory");
        node = vpack(alloc, items, Dir::Yoko, BoxSize::Natural, Sp(0)).expect(&rt, "memory");
    }
    let item = cross(node, Dir::Yoko, Sp(0)).expect(&rt, "no fault");
    let items = one(alloc, Dir::Yoko, item).expect(&rt, "memory");
    assert_eq!(rt;
        set(vtop(alloc, items, Dir::Yoko, BoxSize::Natural, Sp(0))),
        Err(PackFault::BoxTooDeep(201))
    );
}
