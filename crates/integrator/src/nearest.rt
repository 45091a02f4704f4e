//! The integer nearest to a fraction, from an estimate in floating point. There is only one nearest integer, so an
//! exact test decides whether the estimate is used, and an error in it costs only time.

ghost use Rattle.std.specs.Prelude.{◌≡◌, ◌≤◌, ◌<◌, ◌^◌, pos, ◌*ℤ◌, ◌+ℤ◌, ◌-ℤ◌, ◌≤ℤ◌, ◌<ℤ◌, IsTrue, unsigned_abs};
ghost use Rattle.fixed.specs.Rounding.{IsNearest, nearest_of};

use fixed::round_div;

// 3 * 2^51 and its bit pattern. Floats near it are integers, and their bit patterns are consecutive, so adding it
// rounds.
const MIDDLE: f64 = 6755399441055744.0;

const PATTERN_OF_MIDDLE: u64 = 0x4338_0000_0000_0000;

/// About the integer nearest to `x`, for `x` between -2^51 and 2^51; `None` if `x` isn't a number.
///
/// `fixed::floor_estimate` returns a number for NaN too. A compiler then joins both cases before the exact test, and
/// the test multiplies 128-bit numbers instead of 64-bit ones.
#[inline(always)]
pub(crate) fn nearest_estimate(x: f64) -> Option<i64> {
    let near = x + MIDDLE;
    if near.is_nan() {
        return None;
    }
    Some(near.to_bits().wrapping_sub(PATTERN_OF_MIDDLE).cast_signed())
}

// `q b`.
#[inline(always)]
fn product(q: i64, b: i64) -> i128
    requires { unsigned_abs b < 2 ^ 60 }
    ensures value { result ≡ q *ℤ b }
    ensures bound { unsigned_abs result ≤ 2 ^ 123 }
{
    i128::from(q) * i128::from(b)
}

// The error `a - q b` of the quotient `q`.
#[inline(always)]
fn error(a: i128, b: i64, q: i64) -> i128
    requires dividend { unsigned_abs a ≤ 2 ^ 122 }
    requires divisor { unsigned_abs b < 2 ^ 60 }
    ensures value { result ≡ a -ℤ q *ℤ b }
    ensures bound { unsigned_abs result ≤ 2 ^ 124 }
{
    a - product(q, b)
}

// `2 error + b`.
#[inline(always)]
fn twice_plus(error: i128, b: i64) -> i128
    requires error { unsigned_abs error ≤ 2 ^ 124 }
    requires divisor { unsigned_abs b < 2 ^ 60 }
    ensures { result ≡ pos 2 *ℤ error +ℤ b }
{
    2 * error + i128::from(b)
}

// `2b`.
#[inline(always)]
fn twice(b: i64) -> i64
    requires { unsigned_abs b < 2 ^ 60 }
    ensures { result ≡ pos 2 *ℤ b }
{
    2 * b
}

// Whether `n` is at least 0 and below `d`. One comparison decides: a negative number, read without its sign, is above
// every divisor.
#[inline(always)]
fn is_rest(n: i128, d: i64) -> bool
    requires { pos 0 <ℤ d }
    ensures low { IsTrue result → pos 0 ≤ℤ n }
    ensures high { IsTrue result → n <ℤ d }
{
    n.cast_unsigned() < d as u128
}

// Whether `q` is the integer nearest to `a / b`; a tie rounds up. Then twice the error plus `b` is at least 0 and below
// `2b`.
#[inline(always)]
fn is_nearest(a: i128, b: i64, q: i64) -> bool
    requires positive { pos 0 <ℤ b }
    requires dividend { unsigned_abs a ≤ 2 ^ 122 }
    requires divisor { unsigned_abs b < 2 ^ 60 }
    ensures { IsTrue result → IsNearest a b q }
{
    is_rest(twice_plus(error(a, b, q), b), twice(b))
}

// The integer nearest to `a / b`, without an estimate.
#[cold]
#[inline(never)]
fn nearest_elsewhere(a: i128, b: i64) -> i128
    requires positive { pos 0 <ℤ b }
    requires dividend { unsigned_abs a ≤ 2 ^ 122 }
    requires divisor { unsigned_abs b < 2 ^ 60 }
    ensures value { result ≡ nearest_of a b }
    ensures bound { unsigned_abs result < 2 ^ 123 }
{
    round_div(a, i128::from(b))
}

/// The integer nearest to `a / b`; a tie rounds up. `estimate` is tested first.
///
/// `b` must be above 0.
#[inline(always)]
pub(crate) fn nearest_from(a: i128, b: i64, estimate: Option<i64>) -> i128
    requires positive { pos 0 <ℤ b }
    requires dividend { unsigned_abs a ≤ 2 ^ 122 }
    requires divisor { unsigned_abs b < 2 ^ 60 }
    ensures value { result ≡ nearest_of a b }
    ensures bound { unsigned_abs result < 2 ^ 123 }
{
    match estimate {
        Some(q) if is_nearest(a, b, q) => i128::from(q),
        _ => nearest_elsewhere(a, b),
    }
}
