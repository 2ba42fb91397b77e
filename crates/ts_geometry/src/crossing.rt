//! Boxes in lists of another direction.
ghost use Rattle.std.specs.Prelude.{◌≡◌};
ghost use Rattle.ts_geometry.specs.Directions.{sp, PointIsWithin, MeasuresAreWithin};
ghost use Rattle.ts_geometry.specs.Crossings.{half, seen, inner_point, IsInnerPoint};

use crate::direction::Dir;
use crate::measure::{Measures, Point, Sp};

/// Half a width, rounded down.
fn half(width: Sp) -> Sp
    ensures { result ≡ sp (half width.0) }
{
    Sp(width.0.div_euclid(2))
}

/// The measures that a list of direction `from` sees of a box with the measures `m`, whose own
/// direction is `own`. Where the two agree they are `m`. Half of an odd width is rounded down.
pub fn seen(m: Measures, own: Dir, from: Dir) -> Measures
    requires { MeasuresAreWithin m }
    ensures { result ≡ seen m own from }
{
    let Measures { wd, ht, dp } = m;
    match (own, from) {
        (Dir::Yoko, Dir::Tate) => {
            let half = half(wd);
            Measures {
                wd: ht.plus(dp),
                ht: wd.minus(half),
                dp: half,
            }
        }
        (Dir::Yoko, Dir::Dtou) => Measures {
            wd: ht.plus(dp),
            ht: wd,
            dp: Sp(0),
        },
        (Dir::Tate | Dir::Dtou, Dir::Yoko) => Measures {
            wd: ht.plus(dp),
            ht: wd,
            dp: Sp(0),
        },
        (Dir::Tate, Dir::Dtou) | (Dir::Dtou, Dir::Tate) => Measures { wd, ht: dp, dp: ht },
        (Dir::Yoko, Dir::Yoko) | (Dir::Tate, Dir::Tate) | (Dir::Dtou, Dir::Dtou) => m,
    }
}

/// The point from which a box is set in its own direction `own`, where a list of direction `from`
/// has it at `p`: the one from which it covers what the list sees. Where the two directions agree
/// it is `p`.
#[tactic(auto, using(crate::proofs::Crossed::is_inner_point, std::proofs::lemmas::Grind::common_steps))]
pub fn inner_point(m: Measures, own: Dir, p: Point, from: Dir) -> Point
    requires m_within { MeasuresAreWithin m }
    requires p_within { PointIsWithin p }
    ensures inner { IsInnerPoint m own p from result }
    ensures value { result ≡ inner_point m own p from }
{
    let Point { x, y } = p;
    let Measures { wd, ht, dp } = m;
    match (own, from) {
        (Dir::Yoko, Dir::Tate) => Point {
            x: x.minus(half(wd)),
            y: y.plus(ht),
        },
        (Dir::Yoko, Dir::Dtou) => Point {
            x: x.minus(wd),
            y: y.minus(dp),
        },
        (Dir::Tate, Dir::Yoko) => Point {
            x: x.plus(dp),
            y: y.minus(wd),
        },
        (Dir::Tate, Dir::Dtou) => Point { x, y: y.minus(wd) },
        (Dir::Dtou, Dir::Yoko) => Point { x: x.plus(ht), y },
        (Dir::Dtou, Dir::Tate) => Point { x, y: y.plus(wd) },
        (Dir::Yoko, Dir::Yoko) | (Dir::Tate, Dir::Tate) | (Dir::Dtou, Dir::Dtou) => p,
    }
}
