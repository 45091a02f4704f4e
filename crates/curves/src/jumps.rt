//! Whether a large bound is a jump: whether it is far above the bounds at distances nearby.
ghost use Rattle.std.specs.Prelude.{◌≡◌, ◌&&◌, ◌||◌, ◌+ℤ◌, ◌-ℤ◌, ◌≤ℤ◌, pos, IfOk};
ghost use Rattle.std.specs.Int.{int_max, int_min};
ghost use Rattle.energy_program.specs.Programs.{Trees};
ghost use Rattle.fixed.specs.Fractions.{bits_of};
ghost use Rattle.interval_domain.specs.Views.{span_range};
ghost use Rattle.formula_bounds.specs.Nodes.{formula_of};
ghost use Rattle.curves.specs.Slices as slices;
ghost use Rattle.curves.specs.Slices.{flag_of, in_column};
ghost use Rattle.curves.specs.declared.slices.Column.{Column};

use crate::slices::{Bounds, ColumnFlags, PairFormula};
use fixed::Fx;
use interval_domain::Span;
use std::alloc::{AllocError, Allocator};

// The bounds at each end of a part are those of this number of distances.
const DISTANCES: u32 = 16;
// The bounds beside a range are those at this number of distances from it.
const BESIDE: u32 = 1024;

// Whether a bound is above four times the greatest bound beside it.
fn is_local(bound: Option<u64>, beside: Option<u64>) -> bool
    ensures { result ≡ slices.is_local bound beside }
{
    match (bound, beside) {
        (Some(bound), Some(beside)) => 4 * u128::from(beside) < u128::from(bound),
        _ => false,
    }
}

// The distance that is `more` above another, or `high` if it is less.
fn up_to(high: Fx, at: Fx, more: u32) -> Fx
    ensures value { result ≡ int_min high (at +ℤ pos more) }
    ensures ordered { at ≤ℤ high → at ≤ℤ result }
{
    let above = i128::from(at.raw()) + i128::from(more);
    Fx::from_raw(i128::from(high.raw()).min(above) as i64)
}

// The distance that is `less` below another, or `low` if it is greater.
fn down_to(low: Fx, at: Fx, less: u32) -> Fx
    ensures value { result ≡ int_max low (at -ℤ pos less) }
    ensures ordered { low ≤ℤ at → result ≤ℤ at }
{
    let below = i128::from(at.raw()) - i128::from(less);
    Fx::from_raw(i128::from(low.raw()).max(below) as i64)
}

// The first 16 distances of a range.
fn front_of(range: &Span) -> Span
    ensures { span_range result ≡ slices.front_of (span_range range.now) }
{
    Span {
        lo: range.lo,
        hi: up_to(range.hi, range.lo, DISTANCES - 1),
    }
}

// The last 16 distances of a range.
fn back_of(range: &Span) -> Span
    ensures { span_range result ≡ slices.back_of (span_range range.now) }
{
    Span {
        lo: down_to(range.lo, range.hi, DISTANCES - 1),
        hi: range.hi,
    }
}

// Of each column, whether a bound is above four times the bound beside it.
fn are_local(bounds: &Bounds, beside: &Bounds) -> ColumnFlags
    ensures { (column : Column) → flag_of column result ≡ slices.is_local (in_column column bounds.now) (in_column column beside.now) }
{
    ColumnFlags {
        energy: is_local(bounds.energy, beside.energy),
        slope: is_local(bounds.slope, beside.slope),
    }
}

// Whether no column has the property.
fn is_none(flags: &ColumnFlags) -> bool
    ensures { result ≡ slices.is_none flags.now }
{
    !flags.energy && !flags.slope
}

// Of each column, whether it has both properties.
fn both(first: &ColumnFlags, second: &ColumnFlags) -> ColumnFlags
    ensures { (column : Column) → flag_of column result ≡ (flag_of column first.now && flag_of column second.now) }
{
    ColumnFlags {
        energy: first.energy && second.energy,
        slope: first.slope && second.slope,
    }
}

// Of each column, whether it has one of these properties.
fn either(first: &ColumnFlags, second: &ColumnFlags) -> ColumnFlags
    ensures { (column : Column) → flag_of column result ≡ (flag_of column first.now || flag_of column second.now) }
{
    ColumnFlags {
        energy: first.energy || second.energy,
        slope: first.slope || second.slope,
    }
}

impl<'a, A: Allocator + Copy> PairFormula<'a, A> {
    // Of each column, whether its bound on a range is above four times the greatest of the bounds beside it. Most bounds
    // aren't above four times the bound at the distance below, and then the bound at the distance above isn't needed.
    fn are_local_on(&self, domain: &Span, range: Span) -> Result<ColumnFlags, AllocError>
        ensures { (program : Trees) → self.now.formula.now ≡ formula_of program → IfOk result (λ f. (column : Column)
            → flag_of column f ≡ slices.is_local_on (bits_of self.now.frac) program self.now.others.now (span_range domain.now) column
            (span_range range)) }
    {
        let below = down_to(domain.lo, range.lo, BESIDE);
        let above = up_to(domain.hi, range.hi, BESIDE);
        let bounds = self.bounds_on(range)?;
        let below = self.bounds_at(below)?;
        let local = are_local(&bounds, &below);
        if is_none(&local) {
            return Ok(local);
        }
        let above = self.bounds_at(above)?;
        Ok(both(&local, &are_local(&bounds, &above)))
    }

    /// Of each column, whether it jumps in this range, if this is its worst part.
    pub(crate) fn jumps_over(&self, domain: &Span, range: &Span) -> Result<ColumnFlags, AllocError>
        ensures { (program : Trees) → self.now.formula.now ≡ formula_of program → IfOk result (λ f. (column : Column)
            → flag_of column f ≡ slices.jumps_over (bits_of self.now.frac) program self.now.others.now (span_range domain.now) column
            (span_range range.now)) }
    {
        let at_front = self.are_local_on(domain, front_of(range))?;
        let at_back = self.are_local_on(domain, back_of(range))?;
        Ok(either(&at_front, &at_back))
    }
}
