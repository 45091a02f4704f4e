//! Choices between two values: either may be computed, and either may be exact.
ghost use Rattle.std.specs.Prelude.{◌≡◌, ◌^◌};
ghost use Rattle.error_bounds.specs.Approximations.{exact_range};
ghost use Rattle.interval_domain.specs.Ranges as ranges;
ghost use Rattle.interval_domain.specs.Ranges.{IsWithin};
ghost use Rattle.error_bounds.specs.Rules.{either, either_of, is_not_zero, is_only_zero, is_undecided, select_rule};
ghost use Rattle.interval_domain.specs.Views.{range_of};

use crate::approximations::{Approximation, bounded};
use crate::flats::{apart, is_zero_alone};
use interval_domain::{Ends, ends_hull, has_zero, hull};

// The exact values of both, in error units.
fn exact_values(y: &Approximation, z: &Approximation) -> Ends
    ensures value { range_of result ≡ ranges.hull (exact_range y.now) (exact_range z.now) }
    ensures bound { IsWithin (2 ^ 73) (range_of result) }
{
    ends_hull(y.exact(), z.exact())
}

/// The approximation of a value that is `y` or `z`.
///
/// `None` if an error may be too large.
pub(crate) fn either(y: &Approximation, z: &Approximation) -> Option<Approximation>
    ensures { result ≡ either y.now z.now }
{
    let computed = hull(y.computed(), z.computed());
    let error = apart(&computed, exact_values(y, z));
    bounded(computed, error)
}

/// Whether neither the computed nor the exact value can be 0.
pub(crate) fn is_not_zero(x: &Approximation) -> bool
    ensures { result ≡ is_not_zero x.now }
{
    !has_zero(x.values()) && !has_zero(x.exact())
}

/// Whether both operands of a choice with this condition are needed: its value may be 0, and may not be.
pub fn is_undecided(x: &Approximation) -> bool
    ensures { result ≡ is_undecided x.now }
{
    !is_not_zero(x) && !is_only_zero(x)
}

/// Whether the computed and the exact value are 0.
pub(crate) fn is_only_zero(x: &Approximation) -> bool
    ensures { result ≡ is_only_zero x.now }
{
    is_zero_alone(x.values()) && is_zero_alone(x.errors())
}

// The approximation of a value that is `y` or `z`, if both have one.
fn either_of(y: Option<Approximation>, z: Option<Approximation>) -> Option<Approximation>
    ensures { result ≡ either_of y z }
{
    match (y, z) {
        (Some(y), Some(z)) => either(&y, &z),
        _ => None,
    }
}

/// The approximation of a value that is `y` if `x` isn't 0, else `z`.
///
/// `None` if a value that may be chosen has none, or if an error may be too large.
pub fn select(
    x: &Approximation,
    y: Option<Approximation>,
    z: Option<Approximation>,
) -> Option<Approximation>
    ensures { result ≡ select_rule x.now y z }
{
    if is_not_zero(x) {
        y
    } else if is_only_zero(x) {
        z
    } else {
        either_of(y, z)
    }
}
