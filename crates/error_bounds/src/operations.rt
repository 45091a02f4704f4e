//! The rule of each operation of energies.
ghost use Rattle.std.specs.Prelude.{◌≡◌};
ghost use Rattle.std.specs.Option.{option_map};
ghost use Rattle.fixed.specs.Fractions.{bits_of};
ghost use Rattle.error_bounds.specs.Rules.{operator_errors, operator_rule, unary_errors, unary_rule};
ghost use Rattle.interval_domain.specs.Views.{range_of, span_range};

use crate::approximations::{Approximation, bounded};
use crate::flats::{apart, flats_of};
use crate::order::{absolute_error, maximum_error, minimum_error};
use crate::products::product_errors;
use crate::quotients::quotient_errors;
use crate::results::{operator_results, unary_results};
use crate::roots::root_error;
use fixed::{Frac, Function, Operator, UnaryOperator};
use interval_domain::{Ends, Span, less, negated, plus};

// The errors of an operator's results, which are in the interval `c`; `None` if there is no bound.
fn operator_errors(
    frac: Frac,
    operator: Operator,
    x: &Approximation,
    y: &Approximation,
    c: &Span,
) -> Option<Ends>
    ensures { option_map range_of result ≡ operator_errors (bits_of frac) operator x.now y.now (span_range c.now) }
{
    match operator {
        Operator::Add => Some(plus(x.errors(), y.errors())),
        Operator::Subtract => Some(less(x.errors(), y.errors())),
        Operator::Multiply => product_errors(frac, x, y),
        Operator::Divide => quotient_errors(frac, c, x, y),
        Operator::Minimum => Some(minimum_error(x, y)),
        Operator::Maximum => Some(maximum_error(x, y)),
    }
}

/// The approximation of an operator's value for `x` and `y`.
///
/// `None` if it may be a fault, an exact divisor may be 0 or an error may be too large.
pub fn operate(
    frac: Frac,
    operator: Operator,
    x: &Approximation,
    y: &Approximation,
) -> Option<Approximation>
    ensures { result ≡ operator_rule (bits_of frac) operator x.now y.now }
{
    let computed = operator_results(frac, operator, x.computed(), y.computed()).ok()?;
    let errors = operator_errors(frac, operator, x, y, &computed)?;
    bounded(computed, errors)
}

// The errors of a unary operator's results, which are in the interval `c`; `None` if there is no bound.
fn unary_errors(frac: Frac, operator: UnaryOperator, x: &Approximation, c: &Span) -> Option<Ends>
    ensures { option_map range_of result ≡ unary_errors (bits_of frac) operator x.now (span_range c.now) }
{
    match operator {
        UnaryOperator::Negate => Some(negated(x.errors())),
        UnaryOperator::Square => product_errors(frac, x, x),
        UnaryOperator::Apply(Function::SquareRoot) => Some(root_error(frac, c, x)),
        UnaryOperator::Apply(Function::Absolute) => Some(absolute_error(x)),
        UnaryOperator::Apply(Function::Flat(flat)) => {
            Some(apart(c, flats_of(frac, flat, x.exact())))
        }
    }
}

/// The approximation of a unary operator's value for `x`.
///
/// `None` if it may be a fault, or an error may be too large.
pub fn apply(frac: Frac, operator: UnaryOperator, x: &Approximation) -> Option<Approximation>
    ensures { result ≡ unary_rule (bits_of frac) operator x.now }
{
    let computed = unary_results(frac, operator, x.computed()).ok()?;
    let errors = unary_errors(frac, operator, x, &computed)?;
    bounded(computed, errors)
}
