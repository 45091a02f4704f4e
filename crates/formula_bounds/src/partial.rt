//! Operations on approximations that may be missing.
ghost use Rattle.std.specs.Prelude.{◌≡◌};
ghost use Rattle.fixed.specs.Fractions.{bits_of};
ghost use Rattle.error_bounds.specs.Approximate as a;
ghost use Rattle.error_bounds.specs.Approximate.{approximate};
ghost use Rattle.error_bounds.specs.Rules.{unary_rule};
ghost use Rattle.derivative.specs.Exact.{on_one};

use error_bounds::Approximation;
use fixed::{Frac, Operator, UnaryOperator};

/// An approximation; `None` if a fault may occur, or an error may be too large.
pub type Partial = Option<Approximation>;

/// A copy.
pub(crate) fn copied(x: &Partial) -> Partial
    ensures { result ≡ x.now }
{
    match x {
        Some(x) => Some(x.copied()),
        None => None,
    }
}

/// The approximation of the power `n`; `None` if the base has none.
pub(crate) fn power(frac: Frac, x: &Partial, n: i16) -> Partial
    ensures { result ≡ (approximate (bits_of frac)).power x.now n }
{
    match x {
        Some(x) => error_bounds::power(frac, x, n),
        None => None,
    }
}

/// The approximation of `y` if `x` isn't 0, else of `z`; `None` if `x` has none.
pub(crate) fn select(x: &Partial, y: &Partial, z: &Partial) -> Partial
    ensures { result ≡ a.selected x.now y.now z.now }
{
    match x {
        Some(x) => error_bounds::select(x, copied(y), copied(z)),
        None => None,
    }
}

/// The approximation of an operation; `None` if an operand has none.
pub(crate) fn operate(frac: Frac, operator: Operator, x: &Partial, y: &Partial) -> Partial
    ensures { result ≡ a.operation (bits_of frac) operator x.now y.now }
{
    match (x, y) {
        (Some(x), Some(y)) => error_bounds::operate(frac, operator, x, y),
        _ => None,
    }
}

/// The approximation of a unary operator's value; `None` if the operand has none.
pub(crate) fn apply(frac: Frac, operator: UnaryOperator, x: &Partial) -> Partial
    ensures { result ≡ on_one (unary_rule (bits_of frac) operator) x.now }
{
    match x {
        Some(x) => error_bounds::apply(frac, operator, x),
        None => None,
    }
}
