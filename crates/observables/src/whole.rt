//! Signed integers of up to 512 bits.

ghost use Rattle.std.specs.Prelude.{◌≡◌, ℤ, pos, negsuc, ◌+ℤ◌, ◌*ℤ◌, ◌+◌, ◌*◌, ◌^◌, ◌<◌, unsigned_abs, FitsSigned};
ghost use Rattle.std.specs.Int.{w128};
ghost use Rattle.fixed.specs.Arithmetic.{floor_over};
ghost use Rattle.observables.specs.Limbs.{limbs_value, signed_value};

use crate::limbs::{difference, limbs_of, low_half, product, quotient, sum};
use std::marker::Model;

/// An integer from -2^512 to 2^512 - 1.
#[derive(Drop)]
pub(crate) struct Whole {
    // If `negative`, the limbs hold n and the integer is -(n + 1).
    negative: bool,
    limbs: [u64; 8],
}

impl Model for Whole {
    ghost Value = { ℤ };

    ghost view = { λ w. signed_value w.negative (limbs_value w.limbs) };
}

// `a - b - 1`.
fn difference_less_one(a: &[u64; 8], b: &[u64; 8]) -> Whole
    ensures { result ≡ pos (limbs_value a.now) +ℤ negsuc (limbs_value b.now) }
{
    let (limbs, negative) = difference(a, b, true);
    let limbs = if negative {
        difference(b, a, false).0
    } else {
        limbs
    };
    Whole { negative, limbs }
}

impl Whole {
    /// The integer `value`.
    pub(crate) fn of(value: i128) -> Whole
        ensures { result ≡ value }
    {
        let negative = value < 0;
        let size = if negative { -1 - value } else { value };
        Whole {
            negative,
            limbs: limbs_of(size as u128),
        }
    }

    /// The integer `value`, which isn't negative.
    pub(crate) fn of_natural(value: u128) -> Whole
        ensures { result ≡ pos value }
    {
        Whole {
            negative: false,
            limbs: limbs_of(value),
        }
    }

    /// The sum. The magnitudes of both summands together must be below 2^512.
    pub(crate) fn plus(&self, other: &Whole) -> Whole
        requires { unsigned_abs self.now + unsigned_abs other.now < 2 ^ 512 }
        ensures { result ≡ self.now +ℤ other.now }
    {
        if self.negative == other.negative {
            let (limbs, _) = sum(&self.limbs, &other.limbs, self.negative);
            Whole {
                negative: self.negative,
                limbs,
            }
        } else if self.negative {
            difference_less_one(&other.limbs, &self.limbs)
        } else {
            difference_less_one(&self.limbs, &other.limbs)
        }
    }

    /// The product. Its magnitude must be below 2^512.
    pub(crate) fn times(&self, factor: u64) -> Whole
        requires { unsigned_abs self.now * factor < 2 ^ 512 }
        ensures { result ≡ self.now *ℤ pos factor }
    {
        let negative = self.negative && factor > 0;
        let carry = if negative { factor - 1 } else { 0 };
        let (limbs, _) = product(&self.limbs, factor, carry);
        Whole { negative, limbs }
    }

    /// The quotient, rounded down. The divisor must not be 0.
    pub(crate) fn divided(&self, divisor: u64) -> Whole
        requires { 0 < divisor }
        ensures { result ≡ floor_over self.now divisor }
    {
        Whole {
            negative: self.negative,
            limbs: quotient(&self.limbs, divisor),
        }
    }

    /// The integer as an `i128`, which it must fit.
    pub(crate) fn narrow(&self) -> i128
        requires { FitsSigned w128 self.now }
        ensures { result ≡ self.now }
    {
        let low = low_half(&self.limbs) as i128;
        if self.negative { -1 - low } else { low }
    }
}
