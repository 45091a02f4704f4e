//! A bound on the part of a slope's error that no spelling of the formula avoids: that of rounding the distance down.
ghost use Rattle.std.specs.Prelude.{◌≡◌, ◌≤◌, ◌*◌, ◌^◌, IfOk};
ghost use Rattle.energy_program.specs.Programs.{Trees};
ghost use Rattle.fixed.specs.Fractions.{bits_of};
ghost use Rattle.formula_bounds.specs.Nodes.{formula_of};
ghost use Rattle.interval_domain.specs.Views.{span_range};
ghost use Rattle.error_bounds.specs.Rules.{magnitude};
ghost use Rattle.curves.specs.Grids as grids;

use crate::slices::PairFormula;
use error_bounds::Approximation;
use fixed::{Frac, Fx};
use formula_bounds::Partial;
use interval_domain::Span;
use std::alloc::{AllocError, Allocator};

// The greatest magnitude of a raw value in a range.
fn magnitude(range: Span) -> u64
    ensures value { result ≡ magnitude (span_range range) }
    ensures most { result ≤ 2 ^ 63 }
{
    range
        .lo
        .raw()
        .unsigned_abs()
        .max(range.hi.raw().unsigned_abs())
}

// The most that an exact value is in magnitude, in error units.
fn exact_bound(approximation: &Approximation) -> u128
    ensures value { result ≡ grids.exact_bound approximation.now }
    ensures most { result ≤ 2 ^ 72 }
{
    256 * u128::from(magnitude(approximation.computed())) + u128::from(approximation.error_bound())
}

// A number over 2^bits, rounded up.
fn over_one(frac: Frac, number: u128) -> u64
    requires { number ≤ 2 ^ 72 }
    ensures { result ≡ grids.up_over number (2 ^ bits_of frac) }
{
    let one = frac.one() as u128;
    ((number + (one - 1)) / one) as u64
}

// The change of a value over a distance of 2^-bits, if this is the approximation of its derivative.
fn change_of(frac: Frac, derivative: &Partial) -> Option<u64>
    ensures { result ≡ grids.change_of (bits_of frac) derivative.now }
{
    match derivative {
        Some(derivative) => Some(over_one(frac, exact_bound(derivative))),
        None => None,
    }
}

/// A bound on the change of a slope from a distance to one unit above it, in units of 2^-(bits + 8); `None` if the second
/// derivative has no approximation. The formula is the slope's.
pub(crate) fn grid_at<A: Allocator + Copy>(
    derived: &PairFormula<A>,
    at: Fx,
) -> Result<Option<u64>, AllocError>
    ensures { (slope : Trees) → derived.now.formula.now ≡ formula_of slope
        → IfOk result (λ g. g ≡ grids.grid_at (bits_of derived.now.frac) slope derived.now.others.now at) }
{
    let inputs = derived.inputs_on(Span::single(at))?;
    let entry = derived.formula.entry(derived.alloc, derived.frac, &inputs)?;
    Ok(change_of(derived.frac, &entry.slope))
}
