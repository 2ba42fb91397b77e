//! Dimensions, points, and the measures of boxes.
ghost use Rattle.std.specs.Prelude.{◌≡◌, ◌+ℤ◌, ◌-ℤ◌, FitsSigned};
ghost use Rattle.std.specs.Int.{w64, int_max};
ghost use Rattle.ts_geometry.specs.Directions.{sp};

/// A dimension in scaled points, of which 65536 make one printer's point (The TeXbook, chapter 10).
#[derive(Clone, Copy, Debug, PartialEq, Eq, PartialOrd, Ord, Hash)]
pub struct Sp(pub i64);

/// The greatest dimension of a source, 2^30 - 1 scaled points (The TeXbook, chapter 10).
pub const MAX_DIMEN: Sp = Sp(1_073_741_823);

impl Sp {
    /// Returns the sum of two dimensions.
    pub fn plus(self, other: Sp) -> Sp
        requires { FitsSigned w64 (self.0 +ℤ other.0) }
        ensures { result ≡ sp (self.0 +ℤ other.0) }
    {
        Sp(self.0 + other.0)
    }

    /// Returns the dimension less another.
    pub fn minus(self, other: Sp) -> Sp
        requires { FitsSigned w64 (self.0 -ℤ other.0) }
        ensures { result ≡ sp (self.0 -ℤ other.0) }
    {
        Sp(self.0 - other.0)
    }

    /// Returns the greater of two dimensions.
    pub fn greater(self, other: Sp) -> Sp
        ensures { result.0 ≡ int_max self.0 other.0 }
    {
        Sp(self.0.max(other.0))
    }
}

/// A point of a page, in scaled points from the page's top left corner: `x` grows to the right and
/// `y` downwards.
#[derive(Clone, Copy, Debug, PartialEq, Eq, Hash)]
pub struct Point {
    pub x: Sp,
    pub y: Sp,
}

/// The width, height and depth of a box or a character, in scaled points (The TeXbook, chapter 11).
/// The width lies along the direction of writing, height and depth across it, before and after the
/// baseline.
#[derive(Clone, Copy, Debug, PartialEq, Eq, Hash)]
pub struct Measures {
    pub wd: Sp,
    pub ht: Sp,
    pub dp: Sp,
}

/// What a box covers of a page: the coordinates of its four edges, in scaled points, as of `Point`.
#[derive(Clone, Copy, Debug, PartialEq, Eq, Hash)]
pub struct Rect {
    pub left: Sp,
    pub top: Sp,
    pub right: Sp,
    pub bottom: Sp,
}
