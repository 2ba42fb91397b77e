//! Sums of dimensions.

ghost use Rattle.std.specs.Prelude.{◌≡◌, ◌^◌, ◌+ℤ◌, ◌-ℤ◌, IsTrue};
ghost use Rattle.ts_geometry.specs.Directions.{sp};
ghost use Rattle.ts_geometry.specs.Numbers.{IsWithin, max_dimen};
ghost use Rattle.box_tree.specs.Bounds.{HasDimens};
ghost use Rattle.packaging.specs.Packing.{is_dimen, are_dimens};
ghost use Rattle.packaging.specs.Running.{long, plus, measures_of};

use ts_geometry::{MAX_DIMEN, Measures, Sp};

/// A sum of dimensions in scaled points, which may be too long for one.
#[derive(Clone, Copy, Debug)]
pub(crate) struct Long(pub(crate) i128);

/// Measures that may be too long for those of a box.
#[derive(Clone, Copy, Debug)]
pub(crate) struct LongMeasures {
    pub(crate) wd: Long,
    pub(crate) ht: Long,
    pub(crate) dp: Long,
}

impl Long {
    pub(crate) fn new(s: Sp) -> Long
        ensures { result ≡ long s.0 }
    {
        Long(i128::from(s.0))
    }

    pub(crate) fn plus(self, s: Sp) -> Long
        requires { IsWithin (2 ^ 100) self.0 }
        ensures { result ≡ plus self s }
    {
        Long(self.0 + i128::from(s.0))
    }

    pub(crate) fn minus(self, s: Sp) -> Long
        requires { IsWithin (2 ^ 110) self.0 }
        ensures { result ≡ long (self.0 -ℤ s.0) }
    {
        Long(self.0 - i128::from(s.0))
    }

    pub(crate) fn plus_long(self, other: Long) -> Long
        requires near { IsWithin (2 ^ 110) self.0 }
        requires other_near { IsWithin (2 ^ 110) other.0 }
        ensures { result ≡ long (self.0 +ℤ other.0) }
    {
        Long(self.0 + other.0)
    }

    /// Returns the same length, where it fits a word.
    pub(crate) fn short(self) -> Sp
        requires { IsWithin (2 ^ 62) self.0 }
        ensures { result ≡ sp self.0 }
    {
        Sp(self.0 as i64)
    }

    #[tactic(auto, unfolding(crate::specs::Packing::is_dimen))]
    fn is_dimen(self) -> bool
        ensures value { result ≡ is_dimen self.0 }
        ensures near { IsTrue result → IsWithin max_dimen self.0 }
    {
        let most = i128::from(MAX_DIMEN.0);
        -most <= self.0 && self.0 <= most
    }
}

impl LongMeasures {
    pub(crate) fn new(size: Measures) -> LongMeasures
        ensures { measures_of result ≡ size }
    {
        LongMeasures {
            wd: Long::new(size.wd),
            ht: Long::new(size.ht),
            dp: Long::new(size.dp),
        }
    }

    #[tactic(auto, unfolding(crate::specs::Packing::are_dimens))]
    pub(crate) fn are_dimens(&self) -> bool
        ensures value { result ≡ are_dimens (measures_of self.now) }
        ensures sound { IsTrue result → HasDimens (measures_of self.now) }
    {
        self.wd.is_dimen() && self.ht.is_dimen() && self.dp.is_dimen()
    }

    /// Returns the measures, where they are dimensions.
    pub(crate) fn short(&self) -> Measures
        requires { HasDimens (measures_of self.now) }
        ensures { result ≡ measures_of self.now }
    {
        Measures {
            wd: self.wd.short(),
            ht: self.ht.short(),
            dp: self.dp.short(),
        }
    }
}
