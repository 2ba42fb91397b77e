//! Integers.

ghost use Rattle.std.specs.Prelude.{◌≡◌, ℕ, IfSome};
ghost use Rattle.ts_geometry.specs.Numbers.{IsWithin};
ghost use Rattle.env_groups.specs.Bounds.{IsInt};
ghost use Rattle.arithmetic.specs.Results.{in_range as the_in_range, quotient as the_quotient, integer_advanced, integer_multiplied, integer_divided};

/// The greatest integer (The TeXbook, chapter 24).
const MAX_INT: i64 = 2_147_483_647;

/// Returns a number where its absolute value is at most so much.
pub(crate) fn in_range(most: i64, n: i64) -> Option<i64>
    requires { IsWithin 2147483647 most }
    ensures value { result ≡ the_in_range most n }
{
    if -most <= n && n <= most {
        Some(n)
    } else {
        None
    }
}

/// Returns a quotient, cut towards 0, or nothing where the divisor is 0.
pub(crate) fn quotient(n: i64, by: i64) -> Option<i64>
    requires { IsInt n }
    ensures value { result ≡ the_quotient n by }
    ensures within { (most : ℕ) → IsWithin most n → IfSome result (IsWithin most) }
{
    if by == 0 { None } else { Some(n / by) }
}

/// Returns the sum of two integers, or nothing exactly where its absolute value passes 2^31 - 1.
pub fn advance_integer(old: i64, by: i64) -> Option<i64>
    requires old { IsInt old }
    requires by { IsInt by }
    ensures value { result ≡ integer_advanced old by }
    ensures within { IfSome result IsInt }
{
    in_range(MAX_INT, old + by)
}

/// Returns the product of two integers, or nothing exactly where its absolute value passes
/// 2^31 - 1.
pub fn multiply_integer(old: i64, by: i64) -> Option<i64>
    requires old { IsInt old }
    requires by { IsInt by }
    ensures value { result ≡ integer_multiplied old by }
    ensures within { IfSome result IsInt }
{
    in_range(MAX_INT, old * by)
}

/// Returns the quotient of two integers, cut towards 0, or nothing exactly where the divisor is 0.
pub fn divide_integer(old: i64, by: i64) -> Option<i64>
    requires old { IsInt old }
    requires by { IsInt by }
    ensures value { result ≡ integer_divided old by }
    ensures within { IfSome result IsInt }
{
    quotient(old, by)
}
