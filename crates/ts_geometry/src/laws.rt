//! Laws of numbers, directions and crossings, over all whole numbers.
ghost use Rattle.ts_geometry.specs.Laws.{FloorsAreGreatest, NearestIsWithinHalf, StepsMoveRectangles, InnerPointsAreUnique, CrossingsKeepExtents, CrossingsMoveAlong, EachPointIsInner, CrossingsNest, WaysOfSeeingAgree};

/// A floor is the greatest whole number that isn't above the quotient.
#[tactic(auto, using(crate::proofs::Quotients::floors_are_greatest, std::proofs::lemmas::Grind::common_steps))]
pub fn a_floor_is_the_greatest_below()
    ensures { FloorsAreGreatest }
{}

/// A rounded quotient is no more than half away, and halves are rounded upwards.
#[tactic(auto, using(crate::proofs::Quotients::nearest_is_within_half, std::proofs::lemmas::Grind::common_steps))]
pub fn the_nearest_is_within_half()
    ensures { NearestIsWithinHalf }
{}

/// A box moves as its reference point does: where the point takes a step along and across in any
/// direction, both corners of the box's rectangle take it.
#[tactic(auto, using(crate::proofs::Moved::steps_move_rectangles, std::proofs::lemmas::Grind::common_steps))]
pub fn a_step_moves_the_rectangle()
    ensures { StepsMoveRectangles }
{}

/// Exactly one point is the inner point of a box that a list has at a given point: the one of the
/// table of crossings, and that point itself where the two directions agree.
#[tactic(auto, using(crate::proofs::Crossed::inner_points_are_unique, std::proofs::lemmas::Grind::common_steps))]
pub fn there_is_one_inner_point()
    ensures { InnerPointsAreUnique }
{}

/// Seen from any direction and set at any point, a box covers a rectangle as wide and as high.
#[tactic(auto, using(crate::proofs::Nested::crossings_keep_extents, std::proofs::lemmas::Grind::common_steps))]
pub fn a_crossing_keeps_the_extent()
    ensures { CrossingsKeepExtents }
{}

/// Where the point of a crossed box takes a step, its inner point takes it too.
#[tactic(auto, using(crate::proofs::Nested::crossings_move_along, std::proofs::lemmas::Grind::common_steps))]
pub fn a_step_moves_the_inner_point()
    ensures { CrossingsMoveAlong }
{}

/// A box can be set from any point, in a list of any direction.
#[tactic(auto, using(crate::proofs::Nested::each_point_is_inner, std::proofs::lemmas::Grind::common_steps))]
pub fn each_point_is_an_inner_point()
    ensures { EachPointIsInner }
{}

/// A box that is seen through a list of a third direction covers what it does from the inner point
/// of the inner point.
#[tactic(auto, using(crate::proofs::Nested::crossings_nest, std::proofs::lemmas::Grind::common_steps))]
pub fn crossings_nest()
    ensures { CrossingsNest }
{}

/// Whichever way the seen measures of a box are reached, straight or through a third direction,
/// they have the same rectangle where they lead to the same inner point.
#[tactic(auto, using(crate::proofs::Nested::ways_of_seeing_agree, std::proofs::lemmas::Grind::common_steps))]
pub fn seen_measures_agree_whichever_way()
    ensures { WaysOfSeeingAgree }
{}
