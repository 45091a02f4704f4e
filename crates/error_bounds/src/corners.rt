//! Products and quotients of ranges. The signs say which ends make the least and the greatest one, so two are computed
//! instead of four or eight.
ghost use Rattle.std.specs.Prelude.{◌≡◌, ◌^◌, ◌-◌, ◌≤◌, ◌≤ℤ◌, ◌<ℤ◌, ◌*ℤ◌, pos, false, unsigned_abs};
ghost use Rattle.std.specs.Int.{int_max, int_min};
ghost use Rattle.fixed.specs.Arithmetic.{floor_of};
ghost use Rattle.interval_domain.specs.Ranges.{IsWithin, has_zero, quotients, range, scaled, times, up_over};
ghost use Rattle.interval_domain.specs.Views.{range_of};

use fixed::floor_div;
use interval_domain::{Ends, negative};

// `a b`.
//
// The result must fit.
fn product(a: i128, b: i128) -> i128
    requires { unsigned_abs (a *ℤ b) ≤ 2 ^ 127 - 1 }
    ensures { result ≡ a *ℤ b }
{
    a * b
}

// The least product of an integer and a range.
//
// The products must fit.
fn least_product(x: Ends, n: i128) -> i128
    requires { IsWithin (2 ^ 127 - 1) (scaled (range_of x) n) }
    ensures { result ≡ int_min (x.low *ℤ n) (x.high *ℤ n) }
{
    if n < 0 {
        product(x.high, n)
    } else {
        product(x.low, n)
    }
}

// The greatest product of an integer and a range.
//
// The products must fit.
fn greatest_product(x: Ends, n: i128) -> i128
    requires { IsWithin (2 ^ 127 - 1) (scaled (range_of x) n) }
    ensures { result ≡ int_max (x.low *ℤ n) (x.high *ℤ n) }
{
    if n < 0 {
        product(x.low, n)
    } else {
        product(x.high, n)
    }
}

// From the least product of `x` with `least` to its greatest one with `greatest`.
//
// The products must fit, and be in this order.
fn products_with(x: Ends, least: i128, greatest: i128) -> Ends
    requires least_fits { IsWithin (2 ^ 127 - 1) (scaled (range_of x) least) }
    requires greatest_fits { IsWithin (2 ^ 127 - 1) (scaled (range_of x) greatest) }
    requires ordered { int_min (x.low *ℤ least) (x.high *ℤ least) ≤ℤ int_max (x.low *ℤ greatest) (x.high *ℤ greatest) }
    ensures { range_of result ≡ range (int_min (x.low *ℤ least) (x.high *ℤ least)) (int_max (x.low *ℤ greatest) (x.high *ℤ greatest)) }
{
    Ends {
        low: least_product(x, least),
        high: greatest_product(x, greatest),
    }
}

/// All `x y`.
///
/// The result must fit.
pub(crate) fn products(x: Ends, y: Ends) -> Ends
    requires { IsWithin (2 ^ 127 - 1) (times (range_of x) (range_of y)) }
    ensures { range_of result ≡ times (range_of x) (range_of y) }
{
    if x.low >= 0 {
        products_with(x, y.low, y.high)
    } else if x.high <= 0 {
        products_with(x, y.high, y.low)
    } else {
        interval_domain::times(x, y)
    }
}

// The least quotient of an integer and a range of numbers above 0, rounded down.
fn least_quotient(n: i128, d: Ends) -> i128
    requires positive { pos 0 <ℤ d.low }
    requires fits { unsigned_abs n ≤ 2 ^ 127 - 1 }
    ensures value { result ≡ int_min (floor_of n d.low) (floor_of n d.high) }
    ensures bound { unsigned_abs result ≤ unsigned_abs n }
{
    if n < 0 {
        floor_div(n, d.low)
    } else {
        floor_div(n, d.high)
    }
}

// The greatest quotient of an integer and a range of numbers above 0, rounded up.
fn greatest_quotient(n: i128, d: Ends) -> i128
    requires positive { pos 0 <ℤ d.low }
    requires fits { unsigned_abs n ≤ 2 ^ 127 - 1 }
    ensures { result ≡ int_max (up_over n d.low) (up_over n d.high) }
{
    negative(least_quotient(negative(n), d))
}

// All `x / y`, for numbers `y` above 0.
fn quotients_above(x: Ends, y: Ends) -> Ends
    requires positive { pos 0 <ℤ y.low }
    requires fits { IsWithin (2 ^ 127 - 1) (range_of x) }
    ensures { range_of result ≡ quotients (range_of x) (range_of y) }
{
    Ends {
        low: least_quotient(x.low, y),
        high: greatest_quotient(x.high, y),
    }
}

/// All `x / y`: the least of the floors, the greatest of the ceilings.
///
/// `y` must not contain 0.
pub(crate) fn quotients(x: Ends, y: Ends) -> Ends
    requires nonzero { has_zero (range_of y) ≡ false }
    requires x_fits { IsWithin (2 ^ 127 - 1) (range_of x) }
    requires y_fits { IsWithin (2 ^ 127 - 1) (range_of y) }
    ensures { range_of result ≡ quotients (range_of x) (range_of y) }
{
    if y.low > 0 {
        quotients_above(x, y)
    } else {
        interval_domain::quotients(x, y)
    }
}
