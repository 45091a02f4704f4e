//! Powers by squaring, as the program computes them.
ghost use Rattle.std.specs.Prelude.{◌≡◌};
ghost use Rattle.fixed.specs.Fractions.{bits_of};
ghost use Rattle.fixed.specs.Arithmetic.{one};
ghost use Rattle.derivative.specs.Exact.{on_one};
ghost use Rattle.error_bounds.specs.Approximate.{power_rule, power_within};
ghost use Rattle.error_bounds.specs.Rules.{exactly, operator_rule};
ghost use Rattle.fixed.specs.declared.operations.Operator.TheVariants as op;

use crate::approximations::Approximation;
use crate::operations::{apply, operate};
use fixed::{Frac, Fx, Operator, UnaryOperator};

// The approximation of the power `n` by squaring; of `x` itself if `n` is 0, which no formula has.
//
// `None` if it may be a fault or an error may be too large.
fn whole_power(frac: Frac, x: &Approximation, n: u16) -> Option<Approximation>
    ensures { result ≡ power_within n (bits_of frac) x.now n }
{
    if n <= 1 {
        return Some(x.copied());
    }
    let half = whole_power(frac, x, n / 2)?;
    let even = apply(frac, UnaryOperator::Square, &half)?;
    if n % 2 == 0 {
        Some(even)
    } else {
        operate(frac, Operator::Multiply, &even, x)
    }
}

// The approximation of one divided by the power `n`.
//
// `None` if it may be a fault or an error may be too large.
fn reciprocal(frac: Frac, x: &Approximation, n: u16) -> Option<Approximation>
    ensures { result ≡ on_one (operator_rule (bits_of frac) op.Divide (exactly (one (bits_of frac))))
        (power_within n (bits_of frac) x.now n) }
{
    let power = whole_power(frac, x, n)?;
    operate(
        frac,
        Operator::Divide,
        &Approximation::exactly(Fx::from_raw(frac.one())),
        &power,
    )
}

/// The approximation of the power `n`; for negative `n`, of one divided by the power `-n`.
///
/// `None` if it may be a fault or an error may be too large.
pub fn power(frac: Frac, x: &Approximation, n: i16) -> Option<Approximation>
    ensures { result ≡ power_rule (bits_of frac) n x.now }
{
    if n >= 0 {
        whole_power(frac, x, n.unsigned_abs())
    } else {
        reciprocal(frac, x, n.unsigned_abs())
    }
}
