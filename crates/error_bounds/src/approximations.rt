//! Approximations: the range of the values that the program computes, and the range of their errors.
ghost use Rattle.std.specs.Prelude.{◌≡◌, ◌^◌, Some, true};
ghost use Rattle.error_bounds.specs.Approximations.{exact_range};
ghost use Rattle.interval_domain.specs.Ranges.{IsWithin};
ghost use Rattle.error_bounds.specs.Rules as rules;
ghost use Rattle.error_bounds.specs.Rules.{is_small, magnitude, within_limits};
ghost use Rattle.interval_domain.specs.Views.{range_of, span_range};

use fixed::{Constant, Fx};
use interval_domain::{Ends, Span, ends_of, less, scaled};
use std::marker::Model;

// No error is beyond 2^62 error units, which is 2^54 units of the computed value.
const LARGEST: i128 = 0x4000_0000_0000_0000;

/// The raw values that may be computed, and the errors that they may have, in units of 2^-(bits + 8).
#[derive(Drop)]
pub struct Approximation {
    computed: Span,
    error: Span,
}

impl Model for Approximation {
    ghost use Rattle.std.specs.Prelude.{◌^◌};
    ghost use Rattle.error_bounds.specs.Approximations as a;

    ghost Value = { a.Approximation };

    ghost use Rattle.interval_domain.specs.Ranges.{IsWithin};
    ghost use Rattle.interval_domain.specs.Views.{span_range};

    ghost view = { λ p. a.approximation (span_range p.computed) (span_range p.error) };

    ghost invariant = { λ p. IsWithin (2 ^ 62) (span_range p.error) };
}

impl Approximation {
    /// A number that is computed exactly.
    pub fn exactly(z: Fx) -> Approximation
        ensures { result ≡ rules.exactly z }
    {
        Approximation {
            computed: Span::single(z),
            error: Span::single(Fx::from_raw(0)),
        }
    }

    /// A constant that was read: its value, with the error of reading.
    pub fn as_read(constant: Constant) -> Approximation
        ensures { result ≡ rules.as_read constant }
    {
        Approximation {
            computed: Span::single(constant.value),
            error: error_of_reading(constant),
        }
    }

    /// A distance in a range: the exact distance is from the computed one to the next.
    pub fn distances(range: Span) -> Approximation
        ensures { result ≡ rules.distances (span_range range) }
    {
        Approximation {
            computed: range,
            error: Span {
                lo: Fx::from_raw(-256),
                hi: Fx::from_raw(0),
            },
        }
    }

    /// A copy.
    pub fn copied(&self) -> Approximation
        ensures { result ≡ self.now }
    {
        Approximation {
            computed: self.computed,
            error: self.error,
        }
    }

    /// The raw values that may be computed.
    pub fn computed(&self) -> Span
        ensures { span_range result ≡ self.now.computed }
    {
        self.computed
    }

    /// The greatest magnitude of an error, in error units.
    pub fn error_bound(&self) -> u64
        ensures { result ≡ magnitude self.now.error }
    {
        magnitude(self.errors()) as u64
    }

    // The raw values that may be computed, as ends.
    pub(crate) fn values(&self) -> Ends
        ensures value { range_of result ≡ self.now.computed }
        ensures bound { IsWithin (2 ^ 63) (range_of result) }
    {
        ends_of(self.computed())
    }

    // The errors.
    pub(crate) fn errors(&self) -> Ends
        ensures value { range_of result ≡ self.now.error }
        ensures bound { IsWithin (2 ^ 62) (range_of result) }
    {
        ends_of(self.error)
    }

    // The exact values, in error units.
    pub(crate) fn exact(&self) -> Ends
        ensures value { range_of result ≡ exact_range self.now }
        ensures bound { IsWithin (2 ^ 72) (range_of result) }
    {
        less(scaled(self.values(), 256), self.errors())
    }
}

// The error of reading a constant, which is between its two bounds.
fn error_of_reading(constant: Constant) -> Span
    ensures value { span_range result ≡ rules.error_of_reading constant }
    ensures bound { IsWithin (2 ^ 62) (span_range result) }
{
    let low = Fx::from_raw(i64::from(constant.low));
    let high = Fx::from_raw(i64::from(constant.high));
    if low.raw() <= high.raw() {
        Span { lo: low, hi: high }
    } else {
        Span { lo: high, hi: low }
    }
}

/// The greatest magnitude of an integer in the range.
pub(crate) fn magnitude(x: Ends) -> u128
    ensures { result ≡ magnitude (range_of x) }
{
    x.low.unsigned_abs().max(x.high.unsigned_abs())
}

// Whether no error in the range is beyond 2^62 error units.
fn is_small(error: Ends) -> bool
    ensures { result ≡ is_small (range_of error) }
{
    -LARGEST <= error.low && error.high <= LARGEST
}

// Errors that are small, which 64 bits hold.
fn narrowed(error: Ends) -> Span
    requires { is_small (range_of error) ≡ true }
    ensures value { span_range result ≡ range_of error }
    ensures bound { IsWithin (2 ^ 62) (span_range result) }
{
    Span {
        lo: Fx::from_raw(error.low as i64),
        hi: Fx::from_raw(error.high as i64),
    }
}

/// The approximation with these computed values and these errors, if the errors are small.
pub(crate) fn bounded(computed: Span, error: Ends) -> Option<Approximation>
    ensures { result ≡ within_limits (span_range computed) (Some (range_of error)) }
{
    if is_small(error) {
        let error = narrowed(error);
        Some(Approximation { computed, error })
    } else {
        None
    }
}
