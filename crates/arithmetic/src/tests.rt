//! Results at the borders of their ranges.

ghost use Rattle.ts_geometry.specs.Numbers.{IsWithin};
ghost use Rattle.env_groups.specs.Bounds.{HasSetDimens};

use crate::{
    advance_dimen, advance_glue, advance_integer, divide_dimen, divide_glue, divide_integer,
    multiply_dimen, multiply_glue, multiply_integer,
};
use ts_geometry::{Glue, Order, Sp};

#[test]
fn integers_and_dimensions_have_their_ranges(rt: HostRuntime) {
    assert_eq!(rt; advance_integer(2_147_483_646, 1), Some(2_147_483_647));
    assert_eq!(rt; advance_integer(2_147_483_647, 1), None);
    assert_eq!(rt; advance_integer(-2_147_483_647, -1), None);
    assert_eq!(rt; multiply_integer(-46_341, 46_340), Some(-2_147_441_940));
    assert_eq!(rt; multiply_integer(46_341, 46_341), None);
    assert_eq!(rt; divide_integer(-7, 2), Some(-3));
    assert_eq!(rt; divide_integer(0, 0), None);
    assert_eq!(rt;
        advance_dimen(Sp(1_073_741_822), Sp(1)),
        Some(Sp(1_073_741_823))
    );
    assert_eq!(rt; advance_dimen(Sp(1_073_741_823), Sp(1)), None);
    assert_eq!(rt; multiply_dimen(Sp(536_870_912), -2), None);
    assert_eq!(rt; divide_dimen(Sp(7), -2), Some(Sp(-3)));
    assert_eq!(rt; divide_dimen(Sp(0), 0), None);
}

/// Returns the stretch, in scaled points, of a sum of glues with these stretches.
fn stretched(old: i64, order: Order, by: i64, by_order: Order) -> Option<(i64, Order)>
    requires old { IsWithin 1073741823 old }
    requires by { IsWithin 1073741823 by }
{
    let sum = advance_glue(glue(0, old, order), glue(0, by, by_order))?;
    Some((sum.stretch.0, sum.stretch_order))
}

fn glue(width: i64, stretch: i64, stretch_order: Order) -> Glue
    requires width { IsWithin 1073741823 width }
    requires stretch { IsWithin 1073741823 stretch }
    ensures { HasSetDimens result }
{
    Glue {
        width: Sp(width),
        stretch: Sp(stretch),
        stretch_order,
        shrink: Sp(-5),
        shrink_order: Order::Fill,
    }
}

#[test]
fn the_higher_order_counts(rt: HostRuntime) {
    use Order::{Fil, Fill, Filll, Normal};
    assert_eq!(rt; stretched(1, Fil, 2, Fil), Some((3, Fil)));
    assert_eq!(rt; stretched(1, Fil, 2, Normal), Some((1, Fil)));
    assert_eq!(rt; stretched(1, Fil, 2, Fill), Some((2, Fill)));
    assert_eq!(rt; stretched(0, Fill, 2, Fil), Some((2, Fil)));
    assert_eq!(rt; stretched(1, Normal, 0, Filll), Some((1, Normal)));
    assert_eq!(rt; stretched(1_073_741_823, Fil, 1, Fil), None);
}

#[test]
fn glue_keeps_its_orders(rt: HostRuntime) {
    let old = glue(7, -9, Order::Filll);
    let Some(product) = multiply_glue(old, -3) else {
        return assert!(rt; false);
    };
    assert_eq!(rt;
        (product.width, product.stretch, product.shrink),
        (Sp(-21), Sp(27), Sp(15))
    );
    assert_eq!(rt;
        (product.stretch_order, product.shrink_order),
        (Order::Filll, Order::Fill)
    );
    let Some(quotient) = divide_glue(old, -2) else {
        return assert!(rt; false);
    };
    assert_eq!(rt;
        (quotient.width, quotient.stretch, quotient.shrink),
        (Sp(-3), Sp(4), Sp(2))
    );
    assert_eq!(rt; divide_glue(old, 0), None);
}
