//! Where a shipped box stands.

ghost use Rattle.std.specs.Prelude.{◌≡◌, ◌^◌};
ghost use Rattle.box_tree.specs.Bounds.{PointIsNear};
ghost use Rattle.box_tree.specs.Sound.{IsSound};
ghost use Rattle.box_marks.specs.Marks.{page_point};

use box_tree::SharedBox;
use ts_geometry::{Point, Sp, rect};

const CORNER: Point = Point { x: Sp(0), y: Sp(0) };

/// Returns the point from which a shipped box is set: the top left corner of what it covers is the
/// corner of the page.
#[tactic(auto, using(crate::proofs::Placing::page_point_near))]
pub fn page_point(node: &SharedBox) -> Point
    requires { IsSound node.now }
    ensures value { result ≡ page_point node.now }
    ensures near { PointIsNear (2 ^ 59) result }
{
    let node = node.get();
    let covered = rect(node.size, CORNER, node.dir);
    Point {
        x: CORNER.x.minus(covered.left),
        y: CORNER.y.minus(covered.top),
    }
}
