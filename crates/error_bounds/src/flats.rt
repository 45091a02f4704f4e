//! Flat functions: any computed result may meet any exact result.
ghost use Rattle.std.specs.Prelude.{◌≡◌, ◌^◌, ◌*ℤ◌, ◌≤◌, ◌<ℤ◌, pos, unsigned_abs, ◌&&◌};
ghost use Rattle.fixed.specs.Arithmetic.{floor_of, is_zero};
ghost use Rattle.fixed.specs.Fractions.{bits_of};
ghost use Rattle.error_bounds.specs.Approximations.{scale};
ghost use Rattle.interval_domain.specs.Ranges.{IsWithin, turn_of};
ghost use Rattle.error_bounds.specs.Rules.{apart, flat_at, flats_of};
ghost use Rattle.interval_domain.specs.Views.{range_of, span_range};

use crate::products::scale;
use fixed::{FlatFunction, Frac, floor_div};
use interval_domain::{Ends, Span, ends_around, ends_of, has_zero, less, scaled};

/// The errors, if any of the computed values may meet any of the exact values, which are in error units.
pub(crate) fn apart(computed: &Span, exact: Ends) -> Ends
    requires { IsWithin (2 ^ 73) (range_of exact) }
    ensures { range_of result ≡ apart (span_range computed.now) (range_of exact) }
{
    less(scaled(ends_of(*computed), 256), exact)
}

/// Whether the range contains only 0.
pub(crate) fn is_zero_alone(x: Ends) -> bool
    ensures { result ≡ (is_zero x.low && is_zero x.high) }
{
    x.low == 0 && x.high == 0
}

// The greatest multiple of `unit` that is at most `n`.
fn multiple_below(n: i128, unit: i128) -> i128
    requires positive { pos 0 <ℤ unit }
    requires unit_bound { unsigned_abs unit ≤ 2 ^ 48 }
    requires bound { unsigned_abs n ≤ 2 ^ 72 }
    ensures value { result ≡ floor_of n unit *ℤ unit }
    ensures bound { unsigned_abs result ≤ 2 ^ 73 }
{
    floor_div(n, unit) * unit
}

// The value of a flat function at `n`, in error units.
fn flat_at(frac: Frac, function: FlatFunction, n: i128) -> i128
    requires { unsigned_abs n ≤ 2 ^ 72 }
    ensures value { result ≡ flat_at (scale (bits_of frac)) function n }
    ensures bound { unsigned_abs result ≤ 2 ^ 73 }
{
    let unit = scale(frac);
    match function {
        FlatFunction::Step => if n < 0 { 0 } else { unit },
        FlatFunction::Delta => if n == 0 { unit } else { 0 },
        FlatFunction::Floor => multiple_below(n, unit),
        FlatFunction::Ceiling => -multiple_below(-n, unit),
    }
}

// 0 if it is in the range, else the range's least integer.
fn turn_of(x: Ends) -> i128
    ensures { result ≡ turn_of (range_of x) }
{
    if has_zero(x) { 0 } else { x.low }
}

/// The values of a flat function at the numbers of a range, in error units.
pub(crate) fn flats_of(frac: Frac, function: FlatFunction, x: Ends) -> Ends
    requires { IsWithin (2 ^ 72) (range_of x) }
    ensures value { range_of result ≡ flats_of (scale (bits_of frac)) function (range_of x) }
    ensures bound { IsWithin (2 ^ 73) (range_of result) }
{
    let turn = turn_of(x);
    ends_around(
        flat_at(frac, function, x.low),
        flat_at(frac, function, turn),
        flat_at(frac, function, turn),
        flat_at(frac, function, x.high),
    )
}
