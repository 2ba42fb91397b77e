//! Numbers with a sign.

ghost use Rattle.std.specs.Prelude.{◌≡◌, ◌≤◌, ◌≤ℤ◌, pos, neg_ℤ};
ghost use Rattle.ts_geometry.specs.Numbers.{IsWithin, max_dimen};
ghost use Rattle.env_groups.specs.Bounds.{IsInt, max_int};
ghost use Rattle.scan_numbers.specs.Bounds.{IsBounded};
ghost use Rattle.scan_numbers.specs.Quantities.{integer_of as the_integer_of};
ghost use Rattle.scan_numbers.specs.Integers.{signed as the_signed};

use crate::quantity::Quantity;

/// An integer, within 2^31 - 1 of 0.
#[derive(Clone, Copy)]
pub struct Number {
    pub value: i64,
    ghost low: { neg_ℤ (pos max_int) ≤ℤ value },
    ghost high: { value ≤ℤ pos max_int },
}

impl Number {
    /// The integer of this size.
    pub(crate) fn positive(value: u32) -> Number
        requires { value ≤ max_int }
        ensures { result.value ≡ pos value }
    {
        Number {
            value: i64::from(value),
        }
    }

    /// The integer that a quantity comes to.
    #[tactic(auto, using(crate::proofs::Bounds::comes_low, crate::proofs::Bounds::comes_high))]
    pub(crate) fn held(quantity: Quantity) -> Number
        requires { IsBounded quantity }
        ensures { result.value ≡ the_integer_of quantity }
    {
        Number {
            value: i64::from(quantity.integer()),
        }
    }

    /// The integer, turned where its signs make it negative.
    pub(crate) fn signed(self, negative: bool) -> Number
        ensures { result.value ≡ the_signed negative self.value }
    {
        if negative {
            Number { value: -self.value }
        } else {
            self
        }
    }

    /// Returns the integer.
    pub fn value(self) -> i64
        ensures value { result ≡ self.value }
        ensures within { IsInt result }
    {
        self.value
    }
}

/// A dimension in scaled points, within 2^30 - 1 of 0.
#[derive(Clone, Copy)]
pub struct Length {
    pub value: i64,
    ghost low: { neg_ℤ (pos max_dimen) ≤ℤ value },
    ghost high: { value ≤ℤ pos max_dimen },
}

impl Length {
    /// Returns the dimension of this size.
    pub fn positive(size: u32) -> Length
        requires { size ≤ max_dimen }
        ensures { result.value ≡ pos size }
    {
        Length {
            value: i64::from(size),
        }
    }

    /// Returns the dimension of this value.
    pub fn of(value: i32) -> Length
        requires { IsWithin max_dimen value }
        ensures { result.value ≡ value }
    {
        Length {
            value: i64::from(value),
        }
    }

    /// Returns the dimension, turned where its signs make it negative.
    pub fn signed(self, negative: bool) -> Length
        ensures { result.value ≡ the_signed negative self.value }
    {
        if negative {
            Length { value: -self.value }
        } else {
            self
        }
    }

    /// Returns the dimension in scaled points.
    pub fn value(self) -> i64
        ensures value { result ≡ self.value }
        ensures within { IsWithin max_dimen result }
    {
        self.value
    }
}
