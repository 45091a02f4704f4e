//! Quotients: `x / y - X / Y = ((x - X) - x / y (y - Y)) / Y` for computed `x`, `y` and exact `X`, `Y`.
ghost use Rattle.std.specs.Prelude.{◌≡◌, ◌^◌, ◌+◌, pos, false, true};
ghost use Rattle.std.specs.Option.{option_map};
ghost use Rattle.fixed.specs.Arithmetic.{one};
ghost use Rattle.fixed.specs.Fractions.{bits_of};
ghost use Rattle.error_bounds.specs.Approximations.{exact_range};
ghost use Rattle.interval_domain.specs.Ranges.{IsWithin, has_zero, scaled, times};
ghost use Rattle.error_bounds.specs.Rules.{are_moderate, quotient_error, quotient_errors, quotient_numerator, up_to_next};
ghost use Rattle.interval_domain.specs.Views.{range_of, span_range};

use crate::approximations::Approximation;
use crate::corners::{products, quotients};
use crate::products::{are_moderate, rounded_down};
use fixed::Frac;
use interval_domain::{Ends, Span, has_zero, less, scaled};

// The range up to one unit above the interval.
fn up_to_next(q: Span) -> Ends
    ensures value { range_of result ≡ up_to_next (span_range q) }
    ensures bound { IsWithin (2 ^ 63) (range_of result) }
{
    Ends {
        low: i128::from(q.lo.raw()),
        high: i128::from(q.hi.raw()) + 1,
    }
}

// `x - X`, in units of the number 1.
fn scaled_errors(frac: Frac, x: &Approximation) -> Ends
    ensures value { range_of result ≡ scaled x.now.error (one (bits_of frac)) }
    ensures bound { IsWithin (2 ^ 102) (range_of result) }
{
    scaled(x.errors(), i128::from(frac.one()))
}

// Whether 128 bits have room for the errors of a quotient.
fn has_room(q: Span, y: &Approximation) -> bool
    ensures { result ≡ are_moderate (up_to_next (span_range q)) y.now.error }
{
    are_moderate(up_to_next(q), y.errors())
}

// `q (y - Y)`, for quotients `q` in the interval and up to one unit above it.
fn products_with_errors(q: Span, y: &Approximation) -> Ends
    requires { are_moderate (up_to_next (span_range q)) y.now.error ≡ true }
    ensures value { range_of result ≡ times (up_to_next (span_range q)) y.now.error }
    ensures bound { IsWithin (2 ^ 116) (range_of result) }
{
    products(up_to_next(q), y.errors())
}

// `(x - X) - q (y - Y)`, for quotients `q` in the interval and up to one unit above it.
fn quotient_numerator(frac: Frac, q: Span, x: &Approximation, y: &Approximation) -> Ends
    requires { are_moderate (up_to_next (span_range q)) y.now.error ≡ true }
    ensures value { range_of result ≡ quotient_numerator (bits_of frac) (span_range q) x.now y.now }
    ensures bound { IsWithin (2 ^ 102 + 2 ^ 116) (range_of result) }
{
    less(scaled_errors(frac, x), products_with_errors(q, y))
}

// The numerator in error units.
fn scaled_numerator(frac: Frac, q: Span, x: &Approximation, y: &Approximation) -> Ends
    requires { are_moderate (up_to_next (span_range q)) y.now.error ≡ true }
    ensures value { range_of result ≡ scaled (quotient_numerator (bits_of frac) (span_range q) x.now y.now) (pos 256) }
    ensures bound { IsWithin (2 ^ 125) (range_of result) }
{
    scaled(quotient_numerator(frac, q, x, y), 256)
}

// The errors of a quotient. No exact divisor may be 0.
fn quotient_error(frac: Frac, q: &Span, x: &Approximation, y: &Approximation) -> Ends
    requires divisors { has_zero (exact_range y.now) ≡ false }
    requires room { are_moderate (up_to_next (span_range q.now)) y.now.error ≡ true }
    ensures { range_of result ≡ quotient_error (bits_of frac) (span_range q.now) x.now y.now }
{
    rounded_down(quotients(scaled_numerator(frac, *q, x, y), y.exact()))
}

/// The errors of the quotients in the interval; `None` if an exact divisor may be 0, or 128 bits may be too few for them.
pub(crate) fn quotient_errors(
    frac: Frac,
    q: &Span,
    x: &Approximation,
    y: &Approximation,
) -> Option<Ends>
    ensures { option_map range_of result ≡ quotient_errors (bits_of frac) (span_range q.now) x.now y.now }
{
    if has_zero(y.exact()) || !has_room(*q, y) {
        None
    } else {
        Some(quotient_error(frac, q, x, y))
    }
}
