//! Products and squares: `x y - X Y = x (y - Y) + Y (x - X)` for computed `x`, `y` and exact `X`, `Y`.
ghost use Rattle.std.specs.Prelude.{◌≡◌, ◌^◌, ◌-◌, ◌+◌, ◌-ℤ◌, ◌<ℤ◌, pos, true, unsigned_abs, ◌≤◌, IsTrue};
ghost use Rattle.std.specs.Option.{option_map};
ghost use Rattle.fixed.specs.Arithmetic.{floor_over, is_zero};
ghost use Rattle.fixed.specs.Fractions.{bits_of};
ghost use Rattle.error_bounds.specs.Approximations.{exact_range, scale};
ghost use Rattle.interval_domain.specs.Ranges.{IsWithin, over, times};
ghost use Rattle.error_bounds.specs.Rules.{are_moderate, has_room, is_whole, product_error, product_errors, product_numerator, product_spread, rounded_down};
ghost use Rattle.interval_domain.specs.Views.{range_of, span_range};

use crate::approximations::{Approximation, magnitude};
use crate::corners::products;
use fixed::{Frac, Fx, floor};
use interval_domain::{Ends, Span, negative, plus, scaled};

// The limit of products of magnitudes: 128 bits hold 256 times two products within it, and a third.
const LARGEST_PRODUCT: u128 = 1 << 116;
// No product of a factor within 2^63 and an error within this limit is beyond 2^116.
const SLIGHT: i128 = 1 << 53;

/// The error units in the number 1.
pub(crate) fn scale(frac: Frac) -> i128
    ensures value { result ≡ pos (scale (bits_of frac)) }
    ensures positive { pos 0 <ℤ result }
    ensures bound { unsigned_abs result ≤ 2 ^ 48 }
{
    256 * i128::from(frac.one())
}

// Whether two numbers are the same.
fn is_same(a: Fx, b: Fx) -> bool
    ensures { result ≡ is_zero (a -ℤ b) }
{
    a.raw() == b.raw()
}

// Whether the interval is one multiple of the number 1, by which products are exact.
fn is_whole(frac: Frac, x: Span) -> bool
    ensures { result ≡ is_whole (bits_of frac) (span_range x) }
{
    is_same(x.hi, x.lo) && is_same(x.lo, floor(frac, x.lo))
}

/// The errors after rounding down, which adds an error from -1 unit to 0.
///
/// The result must fit.
pub(crate) fn rounded_down(e: Ends) -> Ends
    requires { IsWithin (2 ^ 127 - 1) (rounded_down (range_of e)) }
    ensures { range_of result ≡ rounded_down (range_of e) }
{
    Ends {
        low: e.low - 256,
        high: e.high,
    }
}

// Whether no error is beyond 2^53.
fn are_slight(errors: Ends) -> bool
    ensures { IsTrue result → IsWithin (2 ^ 53) (range_of errors) }
{
    -SLIGHT <= errors.low && errors.high <= SLIGHT
}

// Whether no product of two magnitudes is beyond 2^116.
fn is_moderate(factors: Ends, errors: Ends) -> bool
    requires factors { IsWithin (2 ^ 63) (range_of factors) }
    requires errors { IsWithin (2 ^ 62) (range_of errors) }
    ensures { result ≡ are_moderate (range_of factors) (range_of errors) }
{
    magnitude(factors) * magnitude(errors) <= LARGEST_PRODUCT
}

/// Whether no product of the factors and the errors is beyond 2^116. Most errors are so slight that no test of products
/// is needed.
pub(crate) fn are_moderate(factors: Ends, errors: Ends) -> bool
    requires factors { IsWithin (2 ^ 63) (range_of factors) }
    requires errors { IsWithin (2 ^ 62) (range_of errors) }
    ensures { result ≡ are_moderate (range_of factors) (range_of errors) }
{
    are_slight(errors) || is_moderate(factors, errors)
}

// Whether no product of a computed value of `x` and an error of `y` is beyond 2^116.
fn has_moderate_values(x: &Approximation, y: &Approximation) -> bool
    ensures { result ≡ are_moderate x.now.computed y.now.error }
{
    are_moderate(x.values(), y.errors())
}

// Whether no product of two errors is beyond 2^116.
fn has_moderate_errors(x: &Approximation, y: &Approximation) -> bool
    ensures { result ≡ are_moderate x.now.error y.now.error }
{
    are_moderate(x.errors(), y.errors())
}

// Whether 128 bits have room for the errors of a product.
fn has_room(x: &Approximation, y: &Approximation) -> bool
    ensures { result ≡ has_room x.now y.now }
{
    has_moderate_values(x, y) && has_moderate_values(y, x) && has_moderate_errors(x, y)
}

// `x (y - Y)`, for computed `x`.
fn times_errors(x: &Approximation, y: &Approximation) -> Ends
    requires { are_moderate x.now.computed y.now.error ≡ true }
    ensures value { range_of result ≡ times x.now.computed y.now.error }
    ensures bound { IsWithin (2 ^ 116) (range_of result) }
{
    products(x.values(), y.errors())
}

// `X (y - Y)`, for exact `X` in error units.
fn exact_times_errors(x: &Approximation, y: &Approximation) -> Ends
    requires values { are_moderate x.now.computed y.now.error ≡ true }
    requires errors { are_moderate y.now.error x.now.error ≡ true }
    ensures value { range_of result ≡ times (exact_range x.now) y.now.error }
    ensures bound { IsWithin (2 ^ 125) (range_of result) }
{
    products(x.exact(), y.errors())
}

// `x (y - Y) + Y (x - X)`, in units of the square of an error unit, over the number 1.
fn product_numerator(x: &Approximation, y: &Approximation) -> Ends
    requires { has_room x.now y.now ≡ true }
    ensures value { range_of result ≡ product_numerator x.now y.now }
    ensures bound { IsWithin (2 ^ 126) (range_of result) }
{
    plus(scaled(times_errors(x, y), 256), exact_times_errors(y, x))
}

// The floor of `n` over the error units in the number 1. The branches shift by a constant, which is faster than a shift
// by a variable.
fn floor_over_scale(frac: Frac, n: i128) -> i128
    ensures value { result ≡ floor_over n (scale (bits_of frac)) }
    ensures bound { unsigned_abs result ≤ unsigned_abs n }
{
    match frac {
        Frac::F24 => n >> 32,
        Frac::F32 => n >> 40,
        Frac::F40 => n >> 48,
    }
}

// All `x` over the error units in the number 1.
fn over_scale(frac: Frac, x: Ends) -> Ends
    requires { IsWithin (2 ^ 127 - 1) (range_of x) }
    ensures { range_of result ≡ over (range_of x) (pos (scale (bits_of frac))) }
{
    Ends {
        low: floor_over_scale(frac, x.low),
        high: negative(floor_over_scale(frac, negative(x.high))),
    }
}

// The errors of a product before it is rounded.
fn product_spread(frac: Frac, x: &Approximation, y: &Approximation) -> Ends
    requires { has_room x.now y.now ≡ true }
    ensures value { range_of result ≡ product_spread (bits_of frac) x.now y.now }
    ensures bound { IsWithin (2 ^ 126) (range_of result) }
{
    over_scale(frac, product_numerator(x, y))
}

// The errors of a product.
fn product_error(frac: Frac, x: &Approximation, y: &Approximation) -> Ends
    requires { has_room x.now y.now ≡ true }
    ensures { range_of result ≡ product_error (bits_of frac) x.now y.now }
{
    let spread = product_spread(frac, x, y);
    if is_whole(frac, x.computed()) || is_whole(frac, y.computed()) {
        spread
    } else {
        rounded_down(spread)
    }
}

/// The errors of a product; `None` if 128 bits may be too few for them.
pub(crate) fn product_errors(frac: Frac, x: &Approximation, y: &Approximation) -> Option<Ends>
    ensures { option_map range_of result ≡ product_errors (bits_of frac) x.now y.now }
{
    if has_room(x, y) {
        Some(product_error(frac, x, y))
    } else {
        None
    }
}
