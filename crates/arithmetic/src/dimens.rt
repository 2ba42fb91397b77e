//! Dimensions, in scaled points.

ghost use Rattle.std.specs.Prelude.{◌≡◌, IfSome};
ghost use Rattle.ts_geometry.specs.Numbers.{IsWithin};
ghost use Rattle.box_tree.specs.Bounds.{IsDimen};
ghost use Rattle.env_groups.specs.Bounds.{IsInt};
ghost use Rattle.arithmetic.specs.Results.{dimen_advanced, dimen_multiplied, dimen_divided};

use crate::integers::{in_range, quotient};
use ts_geometry::{MAX_DIMEN, Sp};

/// Returns the sum of two dimensions, in scaled points, or nothing exactly where its absolute value
/// passes 2^30 - 1. TeX tests nothing there.
pub fn advance_dimen(old: Sp, by: Sp) -> Option<Sp>
    requires old { IsDimen old }
    requires by { IsDimen by }
    ensures value { result ≡ dimen_advanced old by }
    ensures within { IfSome result IsDimen }
{
    in_range(MAX_DIMEN.0, old.0 + by.0).map(Sp)
}

/// Returns a dimension times an integer, in scaled points, or nothing exactly where its absolute
/// value passes 2^30 - 1.
pub fn multiply_dimen(old: Sp, by: i64) -> Option<Sp>
    requires old { IsDimen old }
    requires by { IsInt by }
    ensures value { result ≡ dimen_multiplied by old }
    ensures within { IfSome result IsDimen }
{
    in_range(MAX_DIMEN.0, old.0 * by).map(Sp)
}

/// Returns a dimension divided by an integer, cut towards 0, in scaled points, or nothing exactly
/// where the integer is 0.
pub fn divide_dimen(old: Sp, by: i64) -> Option<Sp>
    requires old { IsDimen old }
    requires by { IsInt by }
    ensures value { result ≡ dimen_divided by old }
    ensures within { IfSome result IsDimen }
{
    quotient(old.0, by).map(Sp)
}
