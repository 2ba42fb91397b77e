//! Worked values.
ghost use Rattle.std.specs.Prelude.{◌≡◌};
ghost use Rattle.ts_geometry.specs.Directions.{point};
ghost use Rattle.ts_geometry.specs.Crossings.{measures};

use crate::*;

fn measures(wd: i64, ht: i64, dp: i64) -> Measures
    ensures { result ≡ measures wd ht dp }
{
    Measures {
        wd: Sp(wd),
        ht: Sp(ht),
        dp: Sp(dp),
    }
}

fn point(x: i64, y: i64) -> Point
    ensures { result ≡ point x y }
{
    Point { x: Sp(x), y: Sp(y) }
}

#[test]
fn numbers_are_those_of_tex(rt: HostRuntime) {
    for (shortfall, stretch, want) in [
        (100, 100, 100),
        (1, 0, 10_000),
        (0, 0, 0),
        (1, -1, 10_000),
        (7_230_584, 1_663_497, 8189),
        (7_230_585, 1_663_497, 8189),
        (7_230_585, 1_663_496, 10_000),
    ] {
        assert_eq!(rt;
            badness(shortfall, stretch),
            want,
            "at {shortfall}, {stretch}"
        );
    }
    assert_eq!(rt; scale(917_504, 655_360), 573_440);
    assert_eq!(rt; scale(-1, 1), -1);
    assert_eq!(rt; decimal(&[4]), 26_214);
    assert_eq!(rt; decimal(&[9; 20]), 65_536);
    for (part, excess, total, want) in [
        (1, 1, 2, 1),
        (1, -1, 2, -1),
        (1, 1, 3, 0),
        (1, 2, -3, -1),
        (-1 << 60, 1, 1, -1_000_000_000),
    ] {
        assert_eq!(rt;
            share(part, excess, total),
            want,
            "at {part}, {excess}, {total}"
        );
    }
}

#[test]
fn a_step_goes_along_and_across(rt: HostRuntime) {
    assert_eq!(rt; step(point(10, 20), Dir::Yoko, Sp(3), Sp(5)), point(13, 25));
    assert_eq!(rt; step(point(10, 20), Dir::Tate, Sp(3), Sp(5)), point(5, 23));
    assert_eq!(rt; step(point(10, 20), Dir::Dtou, Sp(3), Sp(5)), point(15, 17));
}

#[test]
fn a_box_is_seen_through_tate_and_dtou(rt: HostRuntime) {
    assert_eq!(rt;
        seen(measures(3, 5, 7), Dir::Yoko, Dir::Tate),
        measures(12, 2, 1)
    );
    assert_eq!(rt;
        seen(measures(12, 2, 1), Dir::Tate, Dir::Dtou),
        measures(12, 1, 2)
    );
    assert_eq!(rt;
        seen(measures(12, 1, 2), Dir::Dtou, Dir::Yoko),
        measures(3, 12, 0)
    );

    let covered = Rect {
        left: Sp(0),
        top: Sp(0),
        right: Sp(3),
        bottom: Sp(12),
    };
    assert_eq!(rt; rect(measures(3, 12, 0), point(0, 12), Dir::Yoko), covered);
    assert_eq!(rt;
        inner_point(measures(12, 1, 2), Dir::Dtou, point(0, 12), Dir::Yoko),
        point(1, 12)
    );
    assert_eq!(rt; rect(measures(12, 1, 2), point(1, 12), Dir::Dtou), covered);
    assert_eq!(rt;
        inner_point(measures(12, 2, 1), Dir::Tate, point(1, 12), Dir::Dtou),
        point(1, 0)
    );
    assert_eq!(rt; rect(measures(12, 2, 1), point(1, 0), Dir::Tate), covered);
    assert_eq!(rt;
        inner_point(measures(3, 5, 7), Dir::Yoko, point(1, 0), Dir::Tate),
        point(0, 5)
    );
    assert_eq!(rt; rect(measures(3, 5, 7), point(0, 5), Dir::Yoko), covered);
}
