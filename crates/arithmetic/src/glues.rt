//! Glue, in scaled points.

ghost use Rattle.std.specs.Prelude.{◌≡◌, IfSome};
ghost use Rattle.ts_geometry.specs.declared.glue.Order.{Order};
ghost use Rattle.box_tree.specs.Bounds.{IsDimen};
ghost use Rattle.env_groups.specs.Bounds.{IsInt, HasSetDimens};
ghost use Rattle.arithmetic.specs.Results.{part_advanced as the_part_advanced, glue_advanced, glue_multiplied, glue_divided};

use crate::dimens::{advance_dimen, divide_dimen, multiply_dimen};
use ts_geometry::{Glue, Order, Sp};

/// A stretch or a shrink with its order.
#[derive(Clone, Copy)]
struct Part {
    size: Sp,
    order: Order,
}

// Adds a stretch or a shrink to another. One of 0 has order Normal; equal orders add, and else the
// higher order counts, if its size isn't 0.
fn advance_part(old: Part, by: Part) -> Option<Part>
    requires old { IsDimen old.size }
    requires by { IsDimen by.size }
    ensures value { result ≡ the_part_advanced old by }
    ensures within { IfSome result (λ part. IsDimen part.size) }
{
    let order = if by.size.0 == 0 {
        Order::Normal
    } else {
        by.order
    };
    if old.order == order {
        let size = advance_dimen(old.size, by.size)?;
        return Some(Part { size, order });
    }
    if order < old.order && old.size.0 != 0 {
        Some(old)
    } else {
        Some(Part {
            size: by.size,
            order,
        })
    }
}

/// Returns the sum of two glues: widths add, and so do stretches and shrinks of the same order; of
/// different orders the higher counts, if its size isn't 0, where an added one of 0 has order
/// Normal (TeX: The Program, section 1239). Returns nothing exactly where the absolute value of a
/// sum passes 2^30 - 1.
#[tactic(auto, unfolding(crate::specs::Results::glue_advanced))]
pub fn advance_glue(old: Glue, by: Glue) -> Option<Glue>
    requires old { HasSetDimens old }
    requires by { HasSetDimens by }
    ensures value { result ≡ glue_advanced old by }
    ensures within { IfSome result HasSetDimens }
{
    let width = advance_dimen(old.width, by.width)?;
    let stretch = advance_part(
        Part {
            size: old.stretch,
            order: old.stretch_order,
        },
        Part {
            size: by.stretch,
            order: by.stretch_order,
        },
    )?;
    let shrink = advance_part(
        Part {
            size: old.shrink,
            order: old.shrink_order,
        },
        Part {
            size: by.shrink,
            order: by.shrink_order,
        },
    )?;
    Some(Glue {
        width,
        stretch: stretch.size,
        stretch_order: stretch.order,
        shrink: shrink.size,
        shrink_order: shrink.order,
    })
}

/// Returns glue whose width, stretch and shrink are those of another times an integer, with their
/// orders, or nothing exactly where the absolute value of one passes 2^30 - 1.
#[tactic(auto, unfolding(crate::specs::Results::glue_multiplied))]
pub fn multiply_glue(old: Glue, by: i64) -> Option<Glue>
    requires old { HasSetDimens old }
    requires by { IsInt by }
    ensures value { result ≡ glue_multiplied by old }
    ensures within { IfSome result HasSetDimens }
{
    Some(Glue {
        width: multiply_dimen(old.width, by)?,
        stretch: multiply_dimen(old.stretch, by)?,
        shrink: multiply_dimen(old.shrink, by)?,
        ..old
    })
}

/// Returns glue whose width, stretch and shrink are those of another divided by an integer, cut
/// towards 0, with their orders, or nothing exactly where the integer is 0.
#[tactic(auto, unfolding(crate::specs::Results::glue_divided))]
pub fn divide_glue(old: Glue, by: i64) -> Option<Glue>
    requires old { HasSetDimens old }
    requires by { IsInt by }
    ensures value { result ≡ glue_divided by old }
    ensures within { IfSome result HasSetDimens }
{
    Some(Glue {
        width: divide_dimen(old.width, by)?,
        stretch: divide_dimen(old.stretch, by)?,
        shrink: divide_dimen(old.shrink, by)?,
        ..old
    })
}
