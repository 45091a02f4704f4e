//! Ranges of integers, and the ranges of their sums, products and quotients, each end rounded outward.
ghost use Rattle.std.specs.Prelude.{◌≡◌, ◌≢◌, ◌^◌, ◌-◌, ◌≤◌, ◌<ℤ◌, ◌≤ℤ◌, ◌+ℤ◌, ◌-ℤ◌, ◌*ℤ◌, pos, neg_ℤ, false, unsigned_abs};
ghost use Rattle.std.specs.Int.{int_max, int_min};
ghost use Rattle.fixed.specs.Arithmetic.{floor_of};
ghost use Rattle.interval_domain.specs.Ranges.{IsWithin, around, between, has_zero, hull, less, negated, over, plus, quotients, scaled, times, up_over};
ghost use Rattle.interval_domain.specs.Views.{range_of, span_range};

use crate::ends::Ends;
use crate::span::Span;
use fixed::floor_div;

/// The raw values of an interval.
pub fn ends_of(span: Span) -> Ends
    ensures value { range_of result ≡ span_range span }
    ensures bound { IsWithin (2 ^ 63) (range_of result) }
{
    Ends {
        low: i128::from(span.lo.raw()),
        high: i128::from(span.hi.raw()),
    }
}

/// Whether 0 is in the range.
pub fn has_zero(x: Ends) -> bool
    ensures { result ≡ has_zero (range_of x) }
{
    x.low <= 0 && 0 <= x.high
}

// `a + b`.
//
// The result must fit.
fn added(a: i128, b: i128) -> i128
    requires { unsigned_abs (a +ℤ b) ≤ 2 ^ 127 - 1 }
    ensures { result ≡ a +ℤ b }
{
    a + b
}

// `a - b`.
//
// The result must fit.
fn subtracted(a: i128, b: i128) -> i128
    requires { unsigned_abs (a -ℤ b) ≤ 2 ^ 127 - 1 }
    ensures { result ≡ a -ℤ b }
{
    a - b
}

/// `-a`.
///
/// The result must fit.
pub fn negative(a: i128) -> i128
    requires { unsigned_abs a ≤ 2 ^ 127 - 1 }
    ensures { result ≡ neg_ℤ a }
{
    -a
}

/// All `x + y`.
///
/// The result must fit.
pub fn plus(x: Ends, y: Ends) -> Ends
    requires { IsWithin (2 ^ 127 - 1) (plus (range_of x) (range_of y)) }
    ensures { range_of result ≡ plus (range_of x) (range_of y) }
{
    Ends {
        low: added(x.low, y.low),
        high: added(x.high, y.high),
    }
}

/// All `-x`.
///
/// The result must fit.
pub fn negated(x: Ends) -> Ends
    requires { IsWithin (2 ^ 127 - 1) (range_of x) }
    ensures { range_of result ≡ negated (range_of x) }
{
    Ends {
        low: negative(x.high),
        high: negative(x.low),
    }
}

/// All `x - y`.
///
/// The result must fit.
pub fn less(x: Ends, y: Ends) -> Ends
    requires { IsWithin (2 ^ 127 - 1) (less (range_of x) (range_of y)) }
    ensures { range_of result ≡ less (range_of x) (range_of y) }
{
    Ends {
        low: subtracted(x.low, y.high),
        high: subtracted(x.high, y.low),
    }
}

// The lesser of two integers.
fn lesser(a: i128, b: i128) -> i128
    ensures { result ≡ int_min a b }
{
    a.min(b)
}

// The greater of two integers.
fn greater(a: i128, b: i128) -> i128
    ensures { result ≡ int_max a b }
{
    a.max(b)
}

/// The least range that contains both.
pub fn ends_hull(x: Ends, y: Ends) -> Ends
    ensures { range_of result ≡ hull (range_of x) (range_of y) }
{
    Ends {
        low: lesser(x.low, y.low),
        high: greater(x.high, y.high),
    }
}

// The least range that contains two integers.
fn ends_between(p: i128, q: i128) -> Ends
    ensures { range_of result ≡ between p q }
{
    Ends {
        low: lesser(p, q),
        high: greater(p, q),
    }
}

/// The least range that contains four integers.
pub fn ends_around(p: i128, q: i128, r: i128, s: i128) -> Ends
    ensures { range_of result ≡ around p q r s }
{
    ends_hull(ends_between(p, q), ends_between(r, s))
}

// `a b`.
//
// The result must fit.
fn product(a: i128, b: i128) -> i128
    requires { unsigned_abs (a *ℤ b) ≤ 2 ^ 127 - 1 }
    ensures { result ≡ a *ℤ b }
{
    a * b
}

// All `a y`.
//
// The products with the ends must fit.
fn multiples(a: i128, y: Ends) -> Ends
    requires low { unsigned_abs (a *ℤ y.low) ≤ 2 ^ 127 - 1 }
    requires high { unsigned_abs (a *ℤ y.high) ≤ 2 ^ 127 - 1 }
    ensures { range_of result ≡ between (a *ℤ y.low) (a *ℤ y.high) }
{
    ends_between(product(a, y.low), product(a, y.high))
}

/// All `x y`.
///
/// The result must fit.
pub fn times(x: Ends, y: Ends) -> Ends
    requires { IsWithin (2 ^ 127 - 1) (times (range_of x) (range_of y)) }
    ensures { range_of result ≡ times (range_of x) (range_of y) }
{
    ends_hull(multiples(x.low, y), multiples(x.high, y))
}

/// All `x c`, for `c` from 0.
///
/// The result must fit.
pub fn scaled(x: Ends, c: i128) -> Ends
    requires factor { pos 0 ≤ℤ c }
    requires fits { IsWithin (2 ^ 127 - 1) (scaled (range_of x) c) }
    ensures { range_of result ≡ scaled (range_of x) c }
{
    Ends {
        low: product(x.low, c),
        high: product(x.high, c),
    }
}

// The floor of `n / d`, for any `d` except 0.
fn floor(n: i128, d: i128) -> i128
    requires nonzero { d ≢ pos 0 }
    requires n_fits { unsigned_abs n ≤ 2 ^ 127 - 1 }
    requires d_fits { unsigned_abs d ≤ 2 ^ 127 - 1 }
    ensures value { result ≡ floor_of n d }
    ensures bound { unsigned_abs result ≤ unsigned_abs n }
{
    if d > 0 {
        floor_div(n, d)
    } else {
        floor_div(negative(n), negative(d))
    }
}

/// The ceiling of `n / d`, for any `d` except 0.
pub fn up_over(n: i128, d: i128) -> i128
    requires nonzero { d ≢ pos 0 }
    requires n_fits { unsigned_abs n ≤ 2 ^ 127 - 1 }
    requires d_fits { unsigned_abs d ≤ 2 ^ 127 - 1 }
    ensures { result ≡ up_over n d }
{
    negative(floor(negative(n), d))
}

/// All `x / d`, for `d` above 0: the floor of the least, the ceiling of the greatest.
pub fn over(x: Ends, d: i128) -> Ends
    requires positive { pos 0 <ℤ d }
    requires fits { IsWithin (2 ^ 127 - 1) (range_of x) }
    ensures { range_of result ≡ over (range_of x) d }
{
    Ends {
        low: floor_div(x.low, d),
        high: up_over(x.high, d),
    }
}

// The floors of `a / y` at the ends of `y`, which must not contain 0.
fn floors(a: i128, y: Ends) -> Ends
    requires nonzero { has_zero (range_of y) ≡ false }
    requires a_fits { unsigned_abs a ≤ 2 ^ 127 - 1 }
    requires y_fits { IsWithin (2 ^ 127 - 1) (range_of y) }
    ensures { range_of result ≡ between (floor_of a y.low) (floor_of a y.high) }
{
    ends_between(floor(a, y.low), floor(a, y.high))
}

// The ceilings of `a / y` at the ends of `y`, which must not contain 0.
fn ceilings(a: i128, y: Ends) -> Ends
    requires nonzero { has_zero (range_of y) ≡ false }
    requires a_fits { unsigned_abs a ≤ 2 ^ 127 - 1 }
    requires y_fits { IsWithin (2 ^ 127 - 1) (range_of y) }
    ensures { range_of result ≡ between (up_over a y.low) (up_over a y.high) }
{
    ends_between(up_over(a, y.low), up_over(a, y.high))
}

/// All `x / y`: the least of the floors, the greatest of the ceilings.
///
/// `y` must not contain 0.
pub fn quotients(x: Ends, y: Ends) -> Ends
    requires nonzero { has_zero (range_of y) ≡ false }
    requires x_fits { IsWithin (2 ^ 127 - 1) (range_of x) }
    requires y_fits { IsWithin (2 ^ 127 - 1) (range_of y) }
    ensures { range_of result ≡ quotients (range_of x) (range_of y) }
{
    let lows = ends_hull(floors(x.low, y), floors(x.high, y));
    let highs = ends_hull(ceilings(x.low, y), ceilings(x.high, y));
    Ends {
        low: lows.low,
        high: highs.high,
    }
}
