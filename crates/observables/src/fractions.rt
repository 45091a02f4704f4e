//! Products with several factors, and fractions whose denominator is a product of factors.

ghost use Rattle.std.specs.Prelude.{◌≡◌, pos, ◌*ℤ◌, ◌+◌, ◌*◌, ◌^◌, ◌<◌, unsigned_abs, FitsSigned};
ghost use Rattle.std.specs.Int.{w128};
ghost use Rattle.fixed.specs.Arithmetic.{floor_over};
ghost use Rattle.fixed.specs.Rounding.{IsNearest, nearest_of};
ghost use Rattle.observables.specs.Products.{product_of};

use crate::whole::Whole;

/// The number times the product of the factors. No factor may be 0, and the magnitude of the result must be below
/// 2^512.
pub(crate) fn scaled(whole: &Whole, factors: &[u64]) -> Whole
    requires positive { 0 < product_of factors.now }
    requires room { unsigned_abs whole.now * product_of factors.now < 2 ^ 512 }
    ensures { result ≡ whole.now *ℤ pos (product_of factors.now) }
{
    let mut product = whole.times(1);
    for factor in factors {
        product = product.times(*factor);
    }
    product
}

// The number divided by twice the product of the divisors, rounded down. No divisor may be 0.
fn half_floored(whole: &Whole, divisors: &[u64]) -> Whole
    requires { 0 < product_of divisors.now }
    ensures { result ≡ floor_over whole.now (2 * product_of divisors.now) }
{
    let mut quotient = whole.divided(2);
    for divisor in divisors {
        quotient = quotient.divided(*divisor);
    }
    quotient
}

/// The integer nearest to the numerator divided by the product of the divisors; a tie rounds up.
///
/// No divisor may be 0. Twice the magnitude of the numerator, plus the product of the divisors, must be below 2^512.
/// The result must fit an `i128`.
pub(crate) fn nearest(numerator: &Whole, divisors: &[u64]) -> i128
    requires positive { 0 < product_of divisors.now }
    requires room { 2 * unsigned_abs numerator.now + product_of divisors.now < 2 ^ 512 }
    requires fits { FitsSigned w128 (nearest_of numerator.now (pos (product_of divisors.now))) }
    ensures value { result ≡ nearest_of numerator.now (pos (product_of divisors.now)) }
    ensures nearest { IsNearest numerator.now (pos (product_of divisors.now)) result }
{
    let denominator = scaled(&Whole::of_natural(1), divisors);
    let doubled = numerator.times(2).plus(&denominator);
    half_floored(&doubled, divisors).narrow()
}
