//! Totals of stretch and shrink, and how glue is set by them.

ghost use Rattle.std.specs.Prelude.{◌≡◌, ◌^◌, neg_ℤ};
ghost use Rattle.ts_geometry.specs.Directions.{sp};
ghost use Rattle.ts_geometry.specs.Numbers.{IsWithin};
ghost use Rattle.packaging.specs.Setting.{highest, stretch_by, shrink_most, shrink_by};
ghost use Rattle.packaging.specs.Running.{total, none, added, IsFlexNear};

use crate::long::Long;
use box_tree::SetGlue;
use ts_geometry::{Order, Sp};

/// A total of stretch or shrink, by its orders.
#[derive(Clone, Copy, Debug)]
pub(crate) struct Flex {
    normal: Long,
    fil: Long,
    fill: Long,
    filll: Long,
}

impl Flex {
    pub(crate) fn none() -> Flex
        ensures { result ≡ none }
    {
        Flex {
            normal: Long(0),
            fil: Long(0),
            fill: Long(0),
            filll: Long(0),
        }
    }

    /// Returns the total with one more.
    pub(crate) fn added(self, order: Order, part: Sp) -> Flex
        requires { IsFlexNear (2 ^ 100) self }
        ensures { result ≡ added self order part }
    {
        match order {
            Order::Normal => Flex {
                normal: self.normal.plus(part),
                ..self
            },
            Order::Fil => Flex {
                fil: self.fil.plus(part),
                ..self
            },
            Order::Fill => Flex {
                fill: self.fill.plus(part),
                ..self
            },
            Order::Filll => Flex {
                filll: self.filll.plus(part),
                ..self
            },
        }
    }

    fn total(&self, order: Order) -> Long
        ensures { result.0 ≡ total self.now order }
    {
        match order {
            Order::Normal => self.normal,
            Order::Fil => self.fil,
            Order::Fill => self.fill,
            Order::Filll => self.filll,
        }
    }

    /// Returns the highest order with a total other than 0, or `Normal` where there is none.
    #[tactic(auto, unfolding(crate::specs::Setting::highest))]
    fn highest(&self) -> Order
        ensures { result ≡ highest (total self.now) }
    {
        if self.filll.0 != 0 {
            Order::Filll
        } else if self.fill.0 != 0 {
            Order::Fill
        } else if self.fil.0 != 0 {
            Order::Fil
        } else {
            Order::Normal
        }
    }

    /// Returns how glue of this total stretch takes an excess.
    pub(crate) fn stretch_by(&self, excess: Sp) -> SetGlue
        requires { IsFlexNear (2 ^ 62) self.now }
        ensures { result ≡ stretch_by excess.0 (highest (total self.now))
            (total self.now (highest (total self.now))) }
    {
        let order = self.highest();
        let total = self.total(order);
        if total.0 == 0 {
            return SetGlue::Plain;
        }
        SetGlue::Stretch(order, excess, total.short())
    }

    /// Returns how glue of this total shrink takes an excess. A finite shrink below the excess
    /// shrinks whole.
    pub(crate) fn shrink_by(&self, excess: Sp) -> SetGlue
        requires { IsFlexNear (2 ^ 62) self.now }
        ensures { result ≡ shrink_by excess.0 (highest (total self.now))
            (total self.now (highest (total self.now))) }
    {
        let order = self.highest();
        let total = self.total(order);
        if total.0 == 0 {
            return SetGlue::Plain;
        }
        shrink_most(excess, order, total.short())
    }
}

fn shrink_most(excess: Sp, order: Order, total: Sp) -> SetGlue
    ensures { result ≡ shrink_most excess.0 order total.0 }
{
    match order {
        Order::Normal if total.0 < excess.0 => SetGlue::Shrink(order, total, total),
        _ => SetGlue::Shrink(order, excess, total),
    }
}
