//! Factors and units.

ghost use Rattle.std.specs.Prelude.{◌≡◌, ◌^◌, ◌<◌, ◌≤◌, ◌*◌, ◌+◌, pos, unsigned_abs, false};
ghost use Rattle.scan_numbers.specs.Fonts.{facts_at, font_unit as the_font_unit};
ghost use Rattle.scan_numbers.specs.Fonts.{japanese_slot as the_japanese_slot};
ghost use Rattle.scan_numbers.specs.Dimensions.{points as the_points, times as the_times};
ghost use Rattle.scan_numbers.specs.Dimensions.{measured as the_measured, of_measure, factor};
ghost use Rattle.scan_numbers.specs.Quantities.{integer_of as the_integer_of};

use crate::context::Context;
use crate::quantity::Quantity;
use env_groups::{FontFacts, FontSlot};
use ts_geometry::Dir;

/// A unit of measure.
#[derive(Clone, Copy, PartialEq, Eq)]
pub(crate) enum Unit {
    Point,
    /// A scaled point.
    Scaled,
    Pica,
    Inch,
    BigPoint,
    Centimeter,
    Millimeter,
    Didot,
    Cicero,
    /// A quarter of a millimeter.
    Quarter,
    Em,
    Ex,
    Zw,
    Zh,
}

/// A unit of the fonts that are selected.
#[derive(Clone, Copy, PartialEq, Eq)]
pub(crate) enum FontUnit {
    Em,
    Ex,
    Zw,
    Zh,
}

// The slot of the Japanese font of a direction.
fn japanese_slot(dir: Dir) -> FontSlot
    ensures { result ≡ the_japanese_slot dir }
{
    match dir {
        Dir::Yoko | Dir::Dtou => FontSlot::Yoko,
        Dir::Tate => FontSlot::Tate,
    }
}

// What is known of the font that is selected.
fn facts(slot: FontSlot, context: &Context<'_>) -> Option<FontFacts>
    ensures { result ≡ facts_at context.now.env slot }
{
    match context.env.get_font(slot) {
        Some(font) => Some(context.env.facts(font)),
        None => None,
    }
}

// How much a unit of the fonts is, in scaled points: 0 where no font is selected.
#[tactic(auto, unfolding(crate::specs::Fonts::font_unit))]
fn font_unit(unit: FontUnit, context: &Context<'_>) -> i64
    ensures { result ≡ the_font_unit unit context.now.env }
{
    let slot = match unit {
        FontUnit::Em | FontUnit::Ex => FontSlot::Roman,
        FontUnit::Zw | FontUnit::Zh => japanese_slot(context.env.situation().dir),
    };
    match facts(slot, context) {
        Some(facts) => match unit {
            FontUnit::Em => facts.em.0,
            FontUnit::Ex => facts.ex.0,
            FontUnit::Zw => facts.zw.0,
            FontUnit::Zh => facts.zh.0,
        },
        None => 0,
    }
}

/// The factor of a unit: a whole number, and a fraction in units of 2^-16.
#[derive(Clone, Copy, PartialEq, Eq)]
pub(crate) struct Factor {
    pub(crate) whole: u32,
    pub(crate) fraction: u32,
}

/// A dimension of any size, in scaled points.
#[derive(Clone, Copy, PartialEq, Eq)]
pub(crate) struct Measure {
    pub(crate) negative: bool,
    pub(crate) size: u128,
}

impl Measure {
    fn positive(size: u64) -> Measure
        ensures negative { result.negative ≡ false }
        ensures size { result.size ≡ size }
    {
        Measure {
            negative: false,
            size: u128::from(size),
        }
    }

    /// What a quantity holds, as a dimension.
    pub(crate) fn held(quantity: Quantity) -> Measure
        ensures { of_measure result ≡ the_integer_of quantity }
    {
        Measure {
            negative: quantity.is_negative(),
            size: u128::from(quantity.integer().unsigned_abs()),
        }
    }
}

impl Factor {
    /// A whole factor.
    pub(crate) fn whole(whole: u32) -> Factor
        ensures { result ≡ factor whole 0 }
    {
        Factor { whole, fraction: 0 }
    }

    /// What a quantity holds, without its sign.
    pub(crate) fn held(quantity: Quantity) -> Factor
        ensures { result ≡ factor (unsigned_abs (the_integer_of quantity)) 0 }
    {
        Factor::whole(quantity.integer().unsigned_abs())
    }

    /// So many times what a quantity holds, as a dimension.
    pub(crate) fn times_quantity(self, quantity: Quantity) -> Measure
        ensures { of_measure result ≡ the_times self (the_integer_of quantity) }
    {
        self.times(i64::from(quantity.integer()))
    }

    // So many times a / b points.
    fn points(self, a: u16, b: u16) -> u64
        requires { 0 < b }
        ensures { result ≡ the_points a b self }
    {
        let a = u64::from(a);
        let b = u64::from(b);
        let whole = u64::from(self.whole) * a;
        65_536 * (whole / b) + (a * u64::from(self.fraction) + 65_536 * (whole % b)) / b
    }

    /// So many times a dimension, the part of the fraction cut towards zero.
    fn times(self, dimension: i64) -> Measure
        ensures { of_measure result ≡ the_times self dimension }
    {
        let size = u128::from(dimension.unsigned_abs());
        Measure {
            negative: dimension < 0,
            size: u128::from(self.whole) * size + size * u128::from(self.fraction) / 65_536,
        }
    }

    /// So much of a unit, where the fonts are those of the environment.
    #[tactic(auto, unfolding(crate::specs::Dimensions::measured))]
    pub(crate) fn of(self, unit: Unit, context: &Context<'_>) -> Measure
        ensures { of_measure result ≡ the_measured self unit context.now }
    {
        match unit {
            Unit::Point => {
                Measure::positive(65_536 * u64::from(self.whole) + u64::from(self.fraction))
            }
            Unit::Scaled => Measure::positive(u64::from(self.whole)),
            Unit::Inch => Measure::positive(self.points(7227, 100)),
            Unit::Pica => Measure::positive(self.points(12, 1)),
            Unit::Centimeter => Measure::positive(self.points(7227, 254)),
            Unit::Millimeter => Measure::positive(self.points(7227, 2540)),
            Unit::BigPoint => Measure::positive(self.points(7227, 7200)),
            Unit::Didot => Measure::positive(self.points(1238, 1157)),
            Unit::Cicero => Measure::positive(self.points(14_856, 1157)),
            Unit::Quarter => Measure::positive(self.points(7227, 10_160)),
            Unit::Em => self.times(font_unit(FontUnit::Em, context)),
            Unit::Ex => self.times(font_unit(FontUnit::Ex, context)),
            Unit::Zw => self.times(font_unit(FontUnit::Zw, context)),
            Unit::Zh => self.times(font_unit(FontUnit::Zh, context)),
        }
    }
}
