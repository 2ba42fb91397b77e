//! Directions of writing.
ghost use Rattle.std.specs.Prelude.{◌≡◌};
ghost use Rattle.ts_geometry.specs.Numbers.{IsWithin, far};
ghost use Rattle.ts_geometry.specs.Directions.{step, rect, PointIsWithin, MeasuresAreWithin};

use crate::measure::{Measures, Point, Rect, Sp};

/// The direction of a list (pTeX): yoko goes to the right, with lines downwards, tate goes
/// downwards, with lines to the left, and dtou goes upwards, with lines to the right.
#[derive(Clone, Copy, Debug, PartialEq, Eq, Hash)]
pub enum Dir {
    Yoko,
    Tate,
    Dtou,
}

/// The point that lies `along` scaled points along a direction and `across` of them across it, from
/// `p`. Across is where the next line lies: down in yoko, to the left in tate, to the right in dtou.
pub fn step(p: Point, dir: Dir, along: Sp, across: Sp) -> Point
    requires p_within { PointIsWithin p }
    requires along_within { IsWithin far along.0 }
    requires across_within { IsWithin far across.0 }
    ensures { result ≡ step p dir along across }
{
    match dir {
        Dir::Yoko => Point {
            x: p.x.plus(along),
            y: p.y.plus(across),
        },
        Dir::Tate => Point {
            x: p.x.minus(across),
            y: p.y.plus(along),
        },
        Dir::Dtou => Point {
            x: p.x.plus(across),
            y: p.y.minus(along),
        },
    }
}

/// What a box covers whose reference point is at `p`.
pub fn rect(m: Measures, p: Point, dir: Dir) -> Rect
    requires m_within { MeasuresAreWithin m }
    requires p_within { PointIsWithin p }
    ensures { result ≡ rect m p dir }
{
    let Point { x, y } = p;
    let Measures { wd, ht, dp } = m;
    match dir {
        Dir::Yoko => Rect {
            left: x,
            top: y.minus(ht),
            right: x.plus(wd),
            bottom: y.plus(dp),
        },
        Dir::Tate => Rect {
            left: x.minus(dp),
            top: y,
            right: x.plus(ht),
            bottom: y.plus(wd),
        },
        Dir::Dtou => Rect {
            left: x.minus(ht),
            top: y.minus(wd),
            right: x.plus(dp),
            bottom: y,
        },
    }
}
