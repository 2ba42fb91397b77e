//! The arithmetic of typesetting.
ghost use Rattle.std.specs.Prelude.{◌≡◌, ◌≢◌, ◌<◌, ◌^◌, ◌≤ℤ◌, ◌*ℤ◌, pos, All, unsigned_abs, ◌≤◌};
ghost use Rattle.ts_geometry.specs.Numbers.{IsWithin, far, badness, badness_of_ratio, stretch_ratio, scale, decimal, half_units_before, bounded, rounded, nearest, share};

/// The greatest size of a share, in scaled points.
const GREATEST_SHARE: i128 = 1_000_000_000;

/// How many digits of a decimal fraction count (TeX: The Program, section 452).
const DIGITS: usize = 17;

/// How bad it is to make up for a shortfall by this much stretch, or for an excess by this much
/// shrink, both in scaled points: about 100 times the cube of their ratio, and 10000 at most (TeX:
/// The Program, section 108).
pub fn badness(shortfall: i64, stretch: i64) -> u16
    requires low { pos 0 ≤ℤ shortfall }
    requires high { shortfall ≤ℤ pos (2 ^ 60) }
    ensures { result ≡ badness (unsigned_abs shortfall) stretch }
{
    if shortfall == 0 {
        0
    } else if stretch <= 0 {
        10_000
    } else {
        badness_of_ratio(stretch_ratio(shortfall.unsigned_abs(), stretch.unsigned_abs()))
    }
}

fn stretch_ratio(shortfall: u64, stretch: u64) -> u64
    requires { 0 < stretch }
    ensures { result ≡ stretch_ratio shortfall stretch }
{
    if shortfall <= 7_230_584 {
        297 * shortfall / stretch
    } else if stretch >= 1_663_497 {
        shortfall / (stretch / 297)
    } else {
        shortfall
    }
}

fn badness_of_ratio(ratio: u64) -> u16
    ensures { result ≡ badness_of_ratio ratio }
{
    if ratio <= 1290 {
        ((ratio * ratio * ratio + (1 << 17)) / (1 << 18)) as u16
    } else {
        10_000
    }
}

/// A number of a metric file, which is in units of 2^-20 of the font's size, in scaled points,
/// rounded down (TeX: The Program, sections 571 and 572).
pub fn scale(fix_word: i32, size: u32) -> i64
    requires { size < 2 ^ 23 }
    ensures { result ≡ scale fix_word size }
{
    (i64::from(fix_word) * i64::from(size)).div_euclid(1 << 20)
}

/// The fraction that decimal digits spell, each as a number from 0 to 9, in units of 2^-16. Only
/// the first 17 count (TeX: The Program, sections 102 and 452).
pub fn decimal(digits: &[u8]) -> u32
    requires { All (λ digit. digit ≤ 9) digits.now }
    ensures { result ≡ decimal digits.now }
{
    let count = digits.len().min(DIGITS);
    let mut half_units = 0;
    for k in (0..count).rev() {
        half_units = half_units_before(digits[k], half_units);
    }
    half_units.div_ceil(2)
}

/// The half units of a digit and what comes after it.
fn half_units_before(digit: u8, after: u32) -> u32
    requires digit { digit ≤ 9 }
    requires below_one { after < 2 ^ 17 }
    ensures value { result ≡ half_units_before digit after }
    ensures below_one { result < 2 ^ 17 }
{
    (after + (1 << 17) * u32::from(digit)) / 10
}

/// How much of an excess falls to a part of the stretch or shrink, where all of it comes to
/// `total`: `part * excess / total`, rounded to the nearest whole number, halves away from zero,
/// and no more than 10^9 from 0. All are in scaled points.
pub fn share(part: i64, excess: i64, total: i64) -> i64
    requires total_is_not_0 { total ≢ pos 0 }
    requires part_within { IsWithin far part }
    requires excess_within { IsWithin far excess }
    requires total_within { IsWithin far total }
    ensures { result ≡ share part excess total }
{
    bounded(rounded(product(part, excess), total))
}

fn bounded(z: i128) -> i64
    ensures { result ≡ bounded z }
{
    z.clamp(-GREATEST_SHARE, GREATEST_SHARE) as i64
}

fn product(part: i64, excess: i64) -> i128
    requires part_within { IsWithin far part }
    requires excess_within { IsWithin far excess }
    ensures value { result ≡ part *ℤ excess }
    ensures bound { unsigned_abs result ≤ 2 ^ 120 }
{
    i128::from(part) * i128::from(excess)
}

/// `n / d`, rounded to the nearest whole number, halves away from zero.
fn rounded(n: i128, d: i64) -> i128
    requires d_is_not_0 { d ≢ pos 0 }
    requires n_within { unsigned_abs n ≤ 2 ^ 120 }
    requires d_within { IsWithin far d }
    ensures value { result ≡ rounded n d }
    ensures bound { unsigned_abs result ≤ 2 ^ 122 }
{
    let size = nearest(n.unsigned_abs(), u128::from(d.unsigned_abs())) as i128;
    if (n < 0) == (d < 0) { size } else { -size }
}

/// `n / d`, rounded to the nearest whole number, halves upwards.
fn nearest(n: u128, d: u128) -> u128
    requires not_0 { 0 < d }
    requires n_fits { n ≤ 2 ^ 120 }
    requires d_fits { d ≤ 2 ^ 60 }
    ensures value { result ≡ nearest n d }
    ensures bound { result ≤ 2 ^ 122 }
{
    (2 * n + d) / (2 * d)
}
