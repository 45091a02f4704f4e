//! Square roots: the distance between two roots is the distance between their squares over the sum of the roots.
ghost use Rattle.std.specs.Prelude.{◌≡◌, ◌^◌, ◌+◌, ◌<◌, ◌≤◌, ◌≤ℤ◌, ◌<ℤ◌, ◌*ℤ◌, pos, neg_ℤ, suc, unsigned_abs};
ghost use Rattle.std.specs.Int.{int_max};
ghost use Rattle.fixed.specs.Arithmetic.{floor_over, one};
ghost use Rattle.fixed.specs.Roots.{root};
ghost use Rattle.fixed.specs.Fractions.{bits_of};
ghost use Rattle.error_bounds.specs.Approximations.{exact_range, scale};
ghost use Rattle.interval_domain.specs.Ranges.{IsWithin, up_over};
ghost use Rattle.error_bounds.specs.Rules.{least_root, root_error, root_spread};
ghost use Rattle.interval_domain.specs.Views.{range_of, span_range};

use crate::approximations::Approximation;
use crate::products::{rounded_down, scale};
use fixed::{Frac, floor_div, isqrt};
use interval_domain::{Ends, Span, negative, up_over};

// The greater of an integer and 0.
fn from_zero(n: i128) -> i128
    ensures value { result ≡ int_max (pos 0) n }
    ensures sign { pos 0 ≤ℤ result }
    ensures bound { unsigned_abs result ≤ unsigned_abs n }
{
    if n < 0 { 0 } else { n }
}

// The least exact value in error units, or 0 if that is greater.
fn least_exact(x: &Approximation) -> i128
    ensures value { result ≡ int_max (pos 0) (exact_range x.now).low }
    ensures sign { pos 0 ≤ℤ result }
    ensures bound { unsigned_abs result ≤ 2 ^ 72 }
{
    from_zero(x.exact().low)
}

// `n` times the number 1.
fn times_one(frac: Frac, n: i128) -> i128
    requires low { pos 0 ≤ℤ n }
    requires high { unsigned_abs n ≤ 2 ^ 72 }
    ensures value { result ≡ n *ℤ one (bits_of frac) }
    ensures sign { pos 0 ≤ℤ result }
    ensures bound { unsigned_abs result ≤ 2 ^ 112 }
{
    n * i128::from(frac.one())
}

// The magnitude of the floor of `n` over 256.
fn over_256(n: i128) -> u128
    ensures { result ≡ unsigned_abs (floor_over n 256) }
{
    floor_div(n, 256).unsigned_abs()
}

// A number at most the root of every exact value, in units.
fn least_root(frac: Frac, x: &Approximation) -> u64
    ensures { result ≡ least_root (bits_of frac) x.now }
{
    isqrt(over_256(times_one(frac, least_exact(x))))
}

// The root of `apart`, in error units, rounded up.
fn root_above(frac: Frac, apart: i128) -> i128
    requires low { pos 0 ≤ℤ apart }
    requires high { apart ≤ℤ pos (2 ^ 62) }
    ensures value { result ≡ pos (suc (root (unsigned_abs (apart *ℤ pos (scale (bits_of frac)))))) }
    ensures bound { unsigned_abs result ≤ 2 ^ 64 }
{
    i128::from(isqrt((apart * scale(frac)).unsigned_abs())) + 1
}

// `apart` over `sum`, in error units, rounded up.
fn ratio_above(frac: Frac, apart: i128, sum: i128) -> i128
    requires low { pos 0 ≤ℤ apart }
    requires high { apart ≤ℤ pos (2 ^ 62) }
    requires positive { pos 0 <ℤ sum }
    ensures value { result ≡ up_over (apart *ℤ one (bits_of frac)) sum }
    ensures sign { pos 0 ≤ℤ result }
{
    up_over(times_one(frac, apart), sum)
}

// A bound of the distance between two roots whose squares differ by `apart` and whose sum is at least `sum`.
fn root_spread(frac: Frac, apart: i128, sum: u128) -> i128
    requires low { pos 0 ≤ℤ apart }
    requires high { apart ≤ℤ pos (2 ^ 62) }
    requires sum { sum < 2 ^ 127 }
    ensures value { result ≡ root_spread (bits_of frac) apart sum }
    ensures sign { pos 0 ≤ℤ result }
    ensures bound { unsigned_abs result ≤ 2 ^ 64 }
{
    let by_root = root_above(frac, apart);
    if sum == 0 {
        by_root
    } else {
        by_root.min(ratio_above(frac, apart, sum as i128))
    }
}

// A number at most the sum of a computed and an exact root, in units.
fn sum_of_roots(frac: Frac, q: Span, x: &Approximation) -> u128
    ensures value { result ≡ unsigned_abs q.lo + least_root (bits_of frac) x.now }
    ensures bound { result < 2 ^ 127 }
{
    u128::from(q.lo.raw().unsigned_abs()) + u128::from(least_root(frac, x))
}

// How far a computed root may be below the exact one.
fn least_distance(frac: Frac, sum: u128, error: Ends) -> i128
    requires sum { sum < 2 ^ 127 }
    requires error { IsWithin (2 ^ 62) (range_of error) }
    ensures value { result ≡ root_spread (bits_of frac) (int_max (pos 0) (neg_ℤ error.low)) sum }
    ensures sign { pos 0 ≤ℤ result }
    ensures bound { unsigned_abs result ≤ 2 ^ 64 }
{
    root_spread(frac, from_zero(negative(error.low)), sum)
}

// How far a computed root may be above the exact one, before it is rounded.
fn greatest_distance(frac: Frac, sum: u128, error: Ends) -> i128
    requires sum { sum < 2 ^ 127 }
    requires error { IsWithin (2 ^ 62) (range_of error) }
    ensures value { result ≡ root_spread (bits_of frac) (int_max (pos 0) error.high) sum }
    ensures sign { pos 0 ≤ℤ result }
    ensures bound { unsigned_abs result ≤ 2 ^ 64 }
{
    root_spread(frac, from_zero(error.high), sum)
}

// The errors of a root before it is rounded.
fn root_distances(frac: Frac, sum: u128, error: Ends) -> Ends
    requires sum { sum < 2 ^ 127 }
    requires error { IsWithin (2 ^ 62) (range_of error) }
    ensures low { result.low ≡ neg_ℤ (root_spread (bits_of frac) (int_max (pos 0) (neg_ℤ error.low)) sum) }
    ensures high { result.high ≡ root_spread (bits_of frac) (int_max (pos 0) error.high) sum }
    ensures bound { IsWithin (2 ^ 64) (range_of result) }
{
    Ends {
        low: negative(least_distance(frac, sum, error)),
        high: greatest_distance(frac, sum, error),
    }
}

/// The errors of the roots in the interval.
pub(crate) fn root_error(frac: Frac, q: &Span, x: &Approximation) -> Ends
    ensures { range_of result ≡ root_error (bits_of frac) (span_range q.now) x.now }
{
    rounded_down(root_distances(frac, sum_of_roots(frac, *q, x), x.errors()))
}
