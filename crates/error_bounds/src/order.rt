//! Minimum, maximum and absolute value: they change by at most the greatest change of an operand.
ghost use Rattle.std.specs.Prelude.{◌≡◌};
ghost use Rattle.error_bounds.specs.Rules.{absolute_error, errors_of_one, is_below, is_below_zero, is_from_zero, maximum_error, minimum_error};
ghost use Rattle.interval_domain.specs.Views.{range_of};

use crate::approximations::Approximation;
use interval_domain::{Ends, ends_hull, negated};

// Whether each computed and each exact value of `x` is at most each of `y`.
fn is_below(x: &Approximation, y: &Approximation) -> bool
    ensures { result ≡ is_below x.now y.now }
{
    let (values, others) = (x.values(), y.values());
    values.high <= others.low && x.exact().high <= y.exact().low
}

// The errors of `x` if it is the result, of `y` if that is the result, and of either if it may be either.
fn errors_of_one(first: bool, second: bool, x: &Approximation, y: &Approximation) -> Ends
    ensures { range_of result ≡ errors_of_one first second x.now y.now }
{
    if first {
        x.errors()
    } else if second {
        y.errors()
    } else {
        ends_hull(x.errors(), y.errors())
    }
}

/// The errors of the lesser of `x` and `y`.
pub(crate) fn minimum_error(x: &Approximation, y: &Approximation) -> Ends
    ensures { range_of result ≡ minimum_error x.now y.now }
{
    errors_of_one(is_below(x, y), is_below(y, x), x, y)
}

/// The errors of the greater of `x` and `y`.
pub(crate) fn maximum_error(x: &Approximation, y: &Approximation) -> Ends
    ensures { range_of result ≡ maximum_error x.now y.now }
{
    errors_of_one(is_below(y, x), is_below(x, y), x, y)
}

// Whether no computed and no exact value is negative.
fn is_from_zero(x: &Approximation) -> bool
    ensures { result ≡ is_from_zero x.now }
{
    0 <= x.values().low && 0 <= x.exact().low
}

// Whether each computed and each exact value is negative.
fn is_below_zero(x: &Approximation) -> bool
    ensures { result ≡ is_below_zero x.now }
{
    x.values().high <= -1 && x.exact().high <= -1
}

/// The errors of an absolute value.
pub(crate) fn absolute_error(x: &Approximation) -> Ends
    ensures { range_of result ≡ absolute_error x.now }
{
    let errors = x.errors();
    let turned = negated(errors);
    if is_from_zero(x) {
        errors
    } else if is_below_zero(x) {
        turned
    } else {
        ends_hull(errors, turned)
    }
}
