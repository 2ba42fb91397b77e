//! Worked lines.

use crate::*;
use box_tree::{GlueFrom, Item, Items, KernFrom};
use std::alloc::Global;
use std::test::Fail;
use ts_geometry::{Glue, Order, Sp};

const NONE: Glue = Glue {
    width: Sp(0),
    stretch: Sp(0),
    stretch_order: Order::Normal,
    shrink: Sp(0),
    shrink_order: Order::Normal,
};

const FILL: Glue = Glue {
    width: Sp(0),
    stretch: Sp(65_536),
    stretch_order: Order::Fil,
    shrink: Sp(0),
    shrink_order: Order::Normal,
};

const SHAPE: ParaShape = ParaShape {
    hsize: Sp(655_360),
    left: NONE,
    right: FILL,
    pretolerance: 100,
    tolerance: 200,
    emergency: Sp(0),
    line_penalty: 10,
    adj_demerits: 10_000,
};

/// What a test tells one item from another by.
#[derive(Clone, Copy, Debug, PartialEq, Eq)]
enum Look {
    Rule,
    Given(Glue),
    Skip,
    Kern(i64),
    Penalty(i64, bool),
    Other,
}

fn look_of(item: &Item) -> Look {
    match item {
        Item::Rule { .. } => Look::Rule,
        Item::Glue {
            glue,
            from: GlueFrom::Given,
        } => Look::Given(*glue),
        Item::Glue { .. } => Look::Skip,
        Item::Kern { width, .. } => Look::Kern(width.0),
        Item::Penalty { value, auto } => Look::Penalty(*value, *auto),
        _ => Look::Other,
    }
}

fn look_like(items: &Items, wanted: &[Look]) -> bool {
    let items = items.as_slice();
    if items.len() != wanted.len() {
        return false;
    }
    for (item, wanted) in items.iter().zip(wanted) {
        if look_of(item) != *wanted {
            return false;
        }
    }
    true
}

fn penalty(value: i64) -> Item {
    Item::Penalty { value, auto: false }
}

fn kern(width: Sp, from: KernFrom) -> Item {
    Item::Kern { width, from }
}

fn space() -> Item {
    Item::Glue {
        glue: NONE,
        from: GlueFrom::Skip,
    }
}

fn rule() -> Item {
    Item::Rule {
        wd: Some(Sp(655_360)),
        ht: None,
        dp: None,
    }
}

#[test]
fn one_last_glue_makes_way_for_the_end(rt: HostRuntime) {
    let end = [
        Look::Penalty(10_000, false),
        Look::Given(FILL),
        Look::Penalty(-10_000, false),
    ];
    let items = vec![in rt.alloc(); rule(), space(), space()].expect(&rt, "memory");
    let ended = end_paragraph(rt.alloc(), Items::from(items), FILL).expect(&rt, "memory");
    assert!(rt; look_like(&ended, &[Look::Rule, Look::Skip, end[0], end[1], end[2]]));
    let items = vec![in rt.alloc(); space(), penalty(5)].expect(&rt, "memory");
    let ended = end_paragraph(rt.alloc(), Items::from(items), FILL).expect(&rt, "memory");
    assert!(rt;
        look_like(
            &ended,
            &[Look::Skip, Look::Penalty(5, false), end[0], end[1], end[2]]
        )
    );
    let items = vec![in rt.alloc(); space()].expect(&rt, "memory");
    let ended = end_paragraph(rt.alloc(), Items::from(items), FILL).expect(&rt, "memory");
    assert!(rt; look_like(&ended, &end));
}

#[test]
fn what_follows_a_break_is_dropped_up_to_the_next(rt: HostRuntime) {
    let items = [
        space(),
        rule(),
        space(),
        kern(Sp(1), KernFrom::Given),
        penalty(-10_000),
        kern(Sp(2), KernFrom::Metric),
        space(),
        rule(),
        penalty(-10_000),
    ];
    let at = [BreakAt(2), BreakAt(4), BreakAt(8)];
    let lines = lines(rt.alloc(), &items, &at, &SHAPE).expect(&rt, "memory");
    assert_eq!(rt; lines.len(), 3);
    assert!(rt;
        look_like(
            &lines[0],
            &[Look::Given(NONE), Look::Skip, Look::Rule, Look::Given(FILL)]
        )
    );
    assert!(rt; look_like(&lines[1], &[Look::Given(NONE), Look::Given(FILL)]));
    assert!(rt;
        look_like(
            &lines[2],
            &[
                Look::Given(NONE),
                Look::Kern(2),
                Look::Skip,
                Look::Rule,
                Look::Given(FILL)
            ]
        )
    );
}
