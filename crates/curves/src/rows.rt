//! Rows of a table: the potential at a distance as it is computed, and bounds on its errors up to the next row.
ghost use Rattle.std.specs.Prelude.{◌≡◌, ◌≢◌, ◌&&◌, false, ◌≤◌, ◌<◌, ◌*◌, ◌/◌, IfOk, IsTrue, length, pos, unsigned_abs, ◌+ℤ◌, ◌-ℤ◌, ◌≤ℤ◌, ◌<ℤ◌};
ghost use Rattle.std.specs.Int.{int_max};
ghost use Rattle.fixed.specs.Fractions.{bits_of};
ghost use Rattle.job.specs.Views.{job_value};
ghost use Rattle.kernel_lanes.specs.Lanes.{IsServed};
ghost use Rattle.interval_domain.specs.Views.{span_range};
ghost use Rattle.curve_lines.specs.Rows as rows;
ghost use Rattle.curves.specs.Slices.{AreWorstOver, bounds_view, flag_of, jumps_over};
ghost use Rattle.curves.specs.declared.slices.Column.{Column};
ghost use Rattle.curves.specs.declared.slices.Column.TheVariants as column;
ghost use Rattle.curves.specs.SoFar.{IsPlanned, job_of, program_of};
ghost use Rattle.curves.specs.Tables.{IsGridOf, IsRow, all_distances, distance_of, distances_of, others_of};

use crate::grids::grid_at;
use crate::pairs::Pair;
use crate::planned::PlannedTables;
use crate::slices::{Column, ColumnFlags, PairFormula, WorstPart, WorstParts};
use curve_lines::{Row, is_large};
use fixed::Fx;
use formula_bounds::Formula;
use interval_domain::Span;
use job::Job;
use kernel_lanes::Query;
use std::alloc::{AllocError, Allocator};

// Part i of `points` equal parts of a length, rounded down.
fn part_of(length: u64, points: u32, i: u32) -> u64
    requires some { 1 ≤ points }
    requires within { i ≤ points }
    ensures value { result ≡ length * i / points }
    ensures most { result ≤ length }
{
    (u128::from(length) * u128::from(i) / u128::from(points)) as u64
}

// The length from the core to the last distance below the cutoff, as a raw value.
fn length_of<A: Allocator>(job: &Job<A>) -> u64
    ensures value { result ≡ unsigned_abs (job.now.cutoff -ℤ job.now.core -ℤ pos 1) }
    ensures room { (job.now.core +ℤ pos result) <ℤ job.now.cutoff }
{
    (job.cutoff.raw() - job.core.raw() - 1) as u64
}

// The distance of row i.
fn distance_at<A: Allocator>(job: &Job<A>, points: u32, i: u32) -> Fx
    requires some { 1 ≤ points }
    requires within { i ≤ points }
    ensures value { result ≡ distance_of (job_value job.now) points i }
    ensures low { job.now.core ≤ℤ result }
    ensures sign { pos 0 ≤ℤ result }
    ensures high { result <ℤ job.now.cutoff }
{
    let part = part_of(length_of(job), points, i);
    Fx::from_raw(job.core.raw() + part as i64)
}

// The last distance before the next row's, or the row's own if that is greater.
fn last_before(distance: Fx, next: Fx) -> Fx
    requires { pos 0 ≤ℤ next }
    ensures value { result ≡ int_max distance (next -ℤ pos 1) }
    ensures ordered { distance ≤ℤ result }
{
    Fx::from_raw(distance.raw().max(next.raw() - 1))
}

// The distances that row i covers.
fn distances_at<A: Allocator>(job: &Job<A>, points: u32, i: u32) -> Span
    requires some { 1 ≤ points }
    requires within { i ≤ points }
    ensures { span_range result ≡ distances_of (job_value job.now) points i }
{
    let distance = distance_at(job, points, i);
    if i == points {
        return Span::single(distance);
    }
    let next = distance_at(job, points, i + 1);
    Span {
        lo: distance,
        hi: last_before(distance, next),
    }
}

// The distances of all rows.
fn all_distances<A: Allocator>(job: &Job<A>) -> Span
    ensures { span_range result ≡ all_distances (job_value job.now) }
{
    Span {
        lo: job.core,
        hi: Fx::from_raw(job.cutoff.raw() - 1),
    }
}

// Whether two ranges are the same.
fn is_same(x: Span, y: Span) -> bool
    ensures yes { IsTrue result → span_range x ≡ span_range y }
    ensures no { result ≡ false → span_range x ≢ span_range y }
{
    x.lo.raw() == y.lo.raw() && x.hi.raw() == y.hi.raw()
}

impl<'a, A: Allocator + Copy> PlannedTables<'a, A> {
    // A formula for a pair.
    fn formula_of<'b>(&self, formula: &'b Formula<A>, pair: &'b Pair<A>) -> PairFormula<'b, A>
        ensures formula { result.formula.now ≡ formula.now }
        ensures frac { result.frac ≡ self.now.job.now.frac }
        ensures others { result.others.now ≡ pair.now.others.items }
    {
        PairFormula {
            alloc: self.alloc,
            formula,
            frac: self.job.frac,
            others: &pair.others,
        }
    }

    // Bounds on the errors of the potential at the distances that row i covers, and the worst parts.
    fn worst_of(&self, pair: &Pair<A>, i: u32) -> Result<WorstParts, AllocError>
        requires is { IsPlanned self.now }
        requires within { i ≤ self.now.plan.now.points }
        ensures { IfOk result (λ w. AreWorstOver (bits_of self.now.job.now.frac) (program_of self.now) pair.now.others.items
            (distances_of (job_of self.now) self.now.plan.now.points i) (bounds_view w.energy.bound w.slope.bound)
            (span_range w.energy.range) (span_range w.slope.range)) }
    {
        let distances = distances_at(self.job, self.plan.points, i);
        let formula = self.formula_of(&self.potential.formula, pair);
        formula.bounds_over(distances)
    }

    // Of each column, whether it jumps in this range, if this is its worst part.
    fn jumps_in(&self, pair: &Pair<A>, range: Span) -> Result<ColumnFlags, AllocError>
        requires is { IsPlanned self.now }
        ensures { IfOk result (λ f. (column : Column) → flag_of column f ≡ jumps_over (bits_of self.now.job.now.frac) (program_of self.now)
            pair.now.others.items (all_distances (job_of self.now)) column (span_range range)) }
    {
        let domain = all_distances(self.job);
        let formula = self.formula_of(&self.potential.formula, pair);
        formula.jumps_over(&domain, &range)
    }

    // Whether the bound of a column's value is large and a jump.
    fn is_jump(
        &self,
        pair: &Pair<A>,
        column: Column,
        value: Fx,
        worst: WorstPart,
    ) -> Result<bool, AllocError>
        requires is { IsPlanned self.now }
        ensures { IfOk result (λ t. t ≡ (rows.is_large value worst.bound
            && jumps_over (bits_of self.now.job.now.frac) (program_of self.now) pair.now.others.items (all_distances (job_of self.now))
            column (span_range worst.range))) }
    {
        if is_large(value, worst.bound) {
            let jumps = self.jumps_in(pair, worst.range)?;
            Ok(jumps.of(column))
        } else {
            Ok(false)
        }
    }

    // Of each column, whether the bound of its value is large and a jump. Both columns often have the same worst part.
    fn jumps_of(
        &self,
        pair: &Pair<A>,
        energy: Fx,
        slope: Fx,
        worst: &WorstParts,
    ) -> Result<ColumnFlags, AllocError>
        requires is { IsPlanned self.now }
        ensures energy { IfOk result (λ f. f.energy ≡ (rows.is_large energy worst.now.energy.bound
            && jumps_over (bits_of self.now.job.now.frac) (program_of self.now) pair.now.others.items (all_distances (job_of self.now))
            column.Energy (span_range worst.now.energy.range))) }
        ensures slope { IfOk result (λ f. f.slope ≡ (rows.is_large slope worst.now.slope.bound
            && jumps_over (bits_of self.now.job.now.frac) (program_of self.now) pair.now.others.items (all_distances (job_of self.now))
            column.Slope (span_range worst.now.slope.range))) }
    {
        if is_large(energy, worst.energy.bound)
            && is_large(slope, worst.slope.bound)
            && is_same(worst.energy.range, worst.slope.range)
        {
            let jumps = self.jumps_in(pair, worst.energy.range)?;
            Ok(jumps)
        } else {
            let energy = self.is_jump(pair, Column::Energy, energy, worst.energy)?;
            let slope = self.is_jump(pair, Column::Slope, slope, worst.slope)?;
            Ok(ColumnFlags { energy, slope })
        }
    }

    // A bound on the change of a pair's slope from a distance to one unit above it, if the columns have the grid.
    fn grid_of(&self, pair: &Pair<A>, distance: Fx) -> Result<Option<u64>, AllocError>
        requires is { IsPlanned self.now }
        ensures { IfOk result (IsGridOf (job_of self.now) (program_of self.now) self.now.plan.now.columns pair.now.others.items distance) }
    {
        if self.plan.columns.has_grid() {
            let derived = self.formula_of(&self.potential.derived, pair);
            grid_at(&derived, distance)
        } else {
            Ok(None)
        }
    }

    // The request for a pair's value at a distance.
    fn query_of(&self, pair: &Pair<A>, r: Fx) -> Query
        requires is { IsPlanned self.now }
        requires first { pair.now.a < length self.now.job.now.types.items }
        requires second { pair.now.b < length self.now.job.now.types.items }
        requires low { self.now.job.now.core ≤ℤ r }
        requires high { r <ℤ self.now.job.now.cutoff }
        ensures value { result ≡ record { a = pair.now.a; b = pair.now.b; r = r } }
        ensures energy { IsServed self.now.potential.now.energy result }
        ensures slope { IsServed self.now.potential.now.slope.verified result }
    {
        Query {
            a: pair.a,
            b: pair.b,
            r,
        }
    }

    /// Row i of the table of a pair.
    pub(crate) fn row_at(&self, pair: &Pair<A>, i: u32) -> Result<Row, AllocError>
        requires is { IsPlanned self.now }
        requires within { i ≤ self.now.plan.now.points }
        requires first { pair.now.a < length self.now.job.now.types.items }
        requires second { pair.now.b < length self.now.job.now.types.items }
        requires others { pair.now.others.items ≡ others_of (job_of self.now) pair.now.a pair.now.b }
        ensures { IfOk result (IsRow (job_of self.now) (program_of self.now) self.now.plan.now pair.now.a pair.now.b i) }
    {
        let worst = self.worst_of(pair, i)?;
        let distance = distance_at(self.job, self.plan.points, i);
        let query = self.query_of(pair, distance);
        let energy = self.potential.energy_at(self.job, &query);
        let slope = self.potential.slope_at(self.job, &query);
        let jumps = self.jumps_of(pair, energy, slope, &worst)?;
        let slope_grid = self.grid_of(pair, distance)?;
        Ok(Row {
            distance,
            energy,
            energy_error: worst.energy.bound,
            energy_jumps: jumps.energy,
            slope,
            slope_error: worst.slope.bound,
            slope_jumps: jumps.slope,
            slope_grid,
        })
    }
}
