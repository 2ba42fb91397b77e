//! What items mark, and where shipped boxes stand.

ghost use Rattle.std.specs.Prelude.{◌≡◌, IfOk};
ghost use Rattle.box_tree.specs.Bounds.{IsDimenIfThere};
ghost use Rattle.box_tree.specs.Sound.{IsSound};

use crate::*;
use box_tree::{BoxFault, BoxKind, BoxNode, FontNo, Frame, Item, Items, SetGlue, SharedBox};
use jis_codes::Cell;
use std::alloc::Global;
use std::test::Fail;
use ts_geometry::{Dir, Measures, Point, Sp};

const SIZE: Measures = Measures {
    wd: Sp(9),
    ht: Sp(5),
    dp: Sp(2),
};

const TATE: Frame = Frame {
    kind: BoxKind::Horizontal,
    dir: Dir::Tate,
    size: SIZE,
    set: SetGlue::Plain,
    at: POINT,
};

const POINT: Point = Point {
    x: Sp(100),
    y: Sp(7),
};

#[test]
fn characters_are_marked_at_their_points(rt: HostRuntime) {
    let latin = Item::Glyph {
        font: FontNo(2),
        code: 97,
        size: SIZE,
        shift: Sp(3),
        first: 97,
        last: 97,
    };
    let kanji = Item::Kanji {
        font: FontNo(1),
        cell: Cell::new(20, 33).expect(&rt, "a cell"),
        size: SIZE,
        kind: 16,
    };
    for (item, font, code) in [(latin, 2, 97), (kanji, 1, 0x3441)] {
        let piece = Piece::Glyph {
            font: FontNo(font),
            code,
            width: Sp(9),
        };
        let want = Placed {
            piece,
            at: POINT,
            dir: Dir::Tate,
        };
        assert_eq!(rt; item_mark(&TATE, POINT, &item), Some(want));
    }
}

/// Returns the height, the width and the abscissa of what a rule marks in tate.
fn ruled(wd: Option<Sp>, ht: Option<Sp>, dp: Option<Sp>) -> Option<(Sp, Sp, Sp)>
    requires wd_sound { IsDimenIfThere wd }
    requires ht_sound { IsDimenIfThere ht }
    requires dp_sound { IsDimenIfThere dp }
{
    match item_mark(&TATE, POINT, &Item::Rule { wd, ht, dp }) {
        Some(
            Placed {
                piece: Piece::Rule { height, width },
                at,
                ..
            },
        ) => Some((height, width, at.x)),
        _ => None,
    }
}

#[test]
fn rules_run_to_the_box_and_are_marked_where_they_are_seen(rt: HostRuntime) {
    assert_eq!(rt; ruled(None, None, None), Some((Sp(7), Sp(9), Sp(98))));
    assert_eq!(rt;
        ruled(Some(Sp(1)), None, Some(Sp(-4))),
        Some((Sp(1), Sp(1), Sp(104)))
    );
    assert_eq!(rt; ruled(Some(Sp(1)), None, Some(Sp(-5))), None);
    assert_eq!(rt; ruled(Some(Sp(0)), None, None), None);
}

fn empty(alloc: Global, dir: Dir) -> Result<SharedBox, BoxFault>
    ensures { IfOk result (λ b. IsSound b) }
{
    let node = BoxNode {
        kind: BoxKind::Horizontal,
        dir,
        size: SIZE,
        set: SetGlue::Plain,
        items: Items::new(alloc),
    };
    SharedBox::new(alloc, node)
}

#[test]
fn shipped_boxes_begin_in_the_corner(rt: HostRuntime) -> Result<(), Fail> {
    for (dir, x, y) in [(Dir::Yoko, 0, 5), (Dir::Tate, 2, 0), (Dir::Dtou, 5, 9)] {
        let node = empty(rt.alloc(), dir).expect(&rt, "memory");
        assert_eq!(rt; page_point(&node), Point { x: Sp(x), y: Sp(y) });
    }
    Ok(())
}
