//! Bounds over ranges of distances: a range is cut into parts, and the worst part is halved until the bounds are close to
//! those at single distances.
ghost use Rattle.std.specs.Prelude.{◌≡◌, ◌∷◌, ◌++◌, ◌<◌, ◌-ℤ◌, false, drop, length, map, slice_get, slice_set, take, IfOk, Some};
ghost use Rattle.fixed.specs.Arithmetic.{is_zero};
ghost use Rattle.fixed.specs.Fractions.{bits_of};
ghost use Rattle.energy_program.specs.Programs.{Trees};
ghost use Rattle.interval_domain.specs.Ranges as ranges;
ghost use Rattle.interval_domain.specs.Views.{span_range};
ghost use Rattle.formula_bounds.specs.Nodes.{formula_of};
ghost use Rattle.formula_bounds.specs.Walks.{either_if_there, entries_of_program, outcomes_if_there};
ghost use Rattle.curves.specs.Slices as slices;
ghost use Rattle.curves.specs.Slices.{AreOfWorst, AreWorstOver, IsNext, IsToHalve, IsWorst, bounds_at, bounds_on, flag_of, halved_at, in_column, middle, part_on};
ghost use Rattle.curves.specs.declared.slices.Column.{Column};
ghost use Rattle.curves.specs.declared.slices.Column.TheVariants as column;

use error_bounds::{Approximation, Outcomes};
use fixed::{Constant, Frac, Fx};
use formula_bounds::{Entry, Formula, Partial};
use interval_domain::{Span, halves};
use std::alloc::{AllocError, Allocator};
use std::marker::Model;

// A range is halved at most this many times.
const HALVINGS: u32 = 256;
// A walk divides at most at this many choices.
const DIVISIONS: u32 = 3;

/// A column of bounds.
#[derive(Clone, Copy)]
pub(crate) enum Column {
    /// The bounds of the energy's errors.
    Energy,
    /// The bounds of the slope's errors.
    Slope,
}

/// Bounds on the magnitudes of the errors of an energy and of its slope, in units of 2^-(bits + 8); `None` if no bound is
/// found.
#[derive(Drop)]
pub(crate) struct Bounds {
    /// The bound of the energy.
    pub(crate) energy: Option<u64>,
    /// The bound of the slope.
    pub(crate) slope: Option<u64>,
}

impl Model for Bounds {
    ghost use Rattle.curves.specs.Slices as slices;

    ghost Value = { slices.BoundsView };

    ghost view = { λ b. slices.bounds_view b.energy b.slope };
}

impl Bounds {
    /// The bound in a column.
    pub(crate) fn of(&self, column: Column) -> Option<u64>
        ensures { result ≡ in_column column self.now }
    {
        match column {
            Column::Energy => self.energy,
            Column::Slope => self.slope,
        }
    }
}

// A part of a range of distances, and the bounds for all of its distances.
#[derive(Drop)]
struct Part {
    range: Span,
    bounds: Bounds,
}

impl Model for Part {
    ghost use Rattle.interval_domain.specs.Views.{span_range};
    ghost use Rattle.curves.specs.Slices as slices;

    ghost Value = { slices.Part };

    ghost view = { λ p. slices.part (span_range p.range) p.bounds };
}

impl Part {
    // A range with its bounds.
    fn new(range: Span, bounds: Bounds) -> Part
        ensures { result ≡ slices.part (span_range range) bounds }
    {
        Part { range, bounds }
    }

    // The distances.
    fn range(&self) -> Span
        ensures { span_range result ≡ self.now.range }
    {
        self.range
    }

    // The bound in a column.
    fn bound(&self, column: Column) -> Option<u64>
        ensures { result ≡ in_column column self.now.bounds }
    {
        self.bounds.of(column)
    }
}

/// The greatest bound of a column over the parts of a range, and the distances of the first part that has it.
#[derive(Clone, Copy)]
pub(crate) struct WorstPart {
    /// The bound, in units of 2^-(bits + 8); `None` if a part has none.
    pub(crate) bound: Option<u64>,
    /// The distances of the part.
    pub(crate) range: Span,
}

/// The worst parts of both columns.
#[derive(Clone, Copy)]
pub(crate) struct WorstParts {
    /// The one of the energy.
    pub(crate) energy: WorstPart,
    /// The one of the slope.
    pub(crate) slope: WorstPart,
}

/// Of each column, whether it has a property.
#[derive(Drop)]
pub(crate) struct ColumnFlags {
    /// Whether the energy has it.
    pub(crate) energy: bool,
    /// Whether the slope has it.
    pub(crate) slope: bool,
}

impl Model for ColumnFlags {
    ghost use Rattle.curves.specs.Slices as slices;

    ghost Value = { slices.ColumnFlagsView };

    ghost view = { λ f. slices.column_flags f.energy f.slope };
}

impl ColumnFlags {
    /// Whether a column has the property.
    pub(crate) fn of(&self, column: Column) -> bool
        ensures { result ≡ flag_of column self.now }
    {
        match column {
            Column::Energy => self.energy,
            Column::Slope => self.slope,
        }
    }
}

// The greatest magnitude of an error.
fn bound_of(approximation: &Partial) -> Option<u64>
    ensures { result ≡ slices.bound_of approximation.now }
{
    match approximation {
        Some(approximation) => Some(approximation.error_bound()),
        None => None,
    }
}

// The greater of two bounds, none unless both are found.
fn greater(x: Option<u64>, y: Option<u64>) -> Option<u64>
    ensures { result ≡ slices.greater_bound x y }
{
    match (x, y) {
        (Some(x), Some(y)) => Some(x.max(y)),
        _ => None,
    }
}

// The greater bounds of both columns.
fn greater_of_each(x: &Bounds, y: &Bounds) -> Bounds
    ensures { result ≡ slices.greater_bounds x.now y.now }
{
    Bounds {
        energy: greater(x.energy, y.energy),
        slope: greater(x.slope, y.slope),
    }
}

// The lesser of two bounds, or the one that is found.
fn lesser(x: Option<u64>, y: Option<u64>) -> Option<u64>
    ensures { result ≡ slices.lesser_bound x y }
{
    match (x, y) {
        (Some(x), Some(y)) => Some(x.min(y)),
        (Some(x), None) => Some(x),
        (None, y) => y,
    }
}

// The bounds of an entry.
fn bounds_of(entry: &Entry) -> Bounds
    ensures { result ≡ slices.bounds_of entry.now }
{
    Bounds {
        energy: bound_of(&entry.value),
        slope: bound_of(&entry.slope),
    }
}

// The approximation of a column in an entry.
fn in_entry(column: Column, entry: &Entry) -> &Partial
    ensures { result.now ≡ slices.in_entry column entry.now }
{
    match column {
        Column::Energy => &entry.value,
        Column::Slope => &entry.slope,
    }
}

// The outcomes of an approximation, if there is one.
fn outcomes_of(approximation: &Partial) -> Option<Outcomes>
    ensures { result ≡ outcomes_if_there approximation.now }
{
    match approximation {
        Some(approximation) => Some(Outcomes::of(approximation)),
        None => None,
    }
}

// The outcomes of either, if both are there.
fn either_of(x: Option<Outcomes>, y: Option<Outcomes>) -> Option<Outcomes>
    ensures { result ≡ either_if_there x y }
{
    match (x, y) {
        (Some(x), Some(y)) => Some(x.either(&y)),
        _ => None,
    }
}

// The bound of a column in any of these entries.
fn bound_of_all(column: Column, entries: &[Entry]) -> Option<u64>
    requires { 0 < length entries.now }
    ensures { result ≡ slices.bound_of_all (map (slices.in_entry column) entries.now) }
{
    let last = entries.len() - 1;
    let mut outcomes = outcomes_of(in_entry(column, &entries[last]));
    for index in (0..last).rev() {
        outcomes = either_of(outcomes_of(in_entry(column, &entries[index])), outcomes);
    }
    match outcomes {
        Some(outcomes) => bound_of(&outcomes.approximation()),
        None => None,
    }
}

// Whether a range with these ends has more than 16 distances.
fn is_wide(lo: Fx, hi: Fx) -> bool
    ensures { result ≡ slices.is_wide (ranges.range lo hi) }
{
    16 <= i128::from(hi.raw()) - i128::from(lo.raw())
}

// Whether the first bound is worse: it is greater, or there is none.
fn is_worse(x: Option<u64>, y: Option<u64>) -> bool
    ensures { result ≡ slices.is_worse x y }
{
    match (x, y) {
        (Some(x), Some(y)) => y < x,
        (None, Some(_)) => true,
        (_, None) => false,
    }
}

// Whether a bound is at most a sixteenth above the greatest bound at a tried distance, or there is none at one.
fn is_close(bound: Option<u64>, tried: Option<u64>) -> bool
    ensures { result ≡ slices.is_close bound tried }
{
    match (bound, tried) {
        (Some(bound), Some(tried)) => bound / 17 <= tried / 16,
        (_, None) => true,
        (None, Some(_)) => false,
    }
}

// Whether both bounds of a part are close to the bounds at a tried distance.
fn are_close(part: &Part, tried: &Bounds) -> bool
    ensures { result ≡ slices.are_close part.now.bounds tried.now }
{
    is_close(part.bounds.energy, tried.energy) && is_close(part.bounds.slope, tried.slope)
}

// Whether a column whose worst part is this one is done.
fn is_done(column: Column, worst: &Part, tried: &Bounds) -> bool
    ensures { result ≡ slices.is_done column worst.now tried.now }
{
    let range = worst.range();
    range.lo.raw() == range.hi.raw() || is_close(worst.bound(column), tried.of(column))
}

// The number of a column's worst part.
fn worst(column: Column, parts: &[Part]) -> usize
    requires { 0 < length parts.now }
    ensures { (part : slices.Part) × IsWorst column parts.now result part }
{
    let mut worst = 0;
    for i in 1..parts.len() {
        if is_worse(parts[i].bound(column), parts[worst].bound(column)) {
            worst = i;
        }
    }
    worst
}

// The number of a column's worst part, if the column isn't done.
fn to_halve(column: Column, parts: &[Part], tried: &Bounds) -> Option<usize>
    requires { 0 < length parts.now }
    ensures { IsToHalve column parts.now tried.now result }
{
    let worst = worst(column, parts);
    if is_done(column, &parts[worst], tried) {
        None
    } else {
        Some(worst)
    }
}

// The column whose turn it is after this many halvings, and the other one.
fn turn_of(halvings: u32) -> (Column, Column)
    ensures { result ≡ slices.turn_of halvings }
{
    if halvings % 2 == 0 {
        (Column::Energy, Column::Slope)
    } else {
        (Column::Slope, Column::Energy)
    }
}

// The number of the part that is halved after this many halvings; none if both columns are done.
fn next(halvings: u32, parts: &[Part], tried: &Bounds) -> Option<usize>
    requires { 0 < length parts.now }
    ensures { IsNext halvings parts.now tried.now result }
{
    let (first, second) = turn_of(halvings);
    match to_halve(first, parts, tried) {
        Some(part) => Some(part),
        None => to_halve(second, parts, tried),
    }
}

// Replaces the part with this number by two.
fn replace<A: Allocator>(
    parts: &mut Vec<Part, A>,
    number: usize,
    lower: Part,
    upper: Part,
) -> Result<(), AllocError>
    requires { number < length parts.old.items }
    ensures { IfOk result (λ _. parts.new.items ≡ take number (slice_set parts.old.items number upper)
        ++ (lower ∷ drop number (slice_set parts.old.items number upper))) }
{
    parts[number] = upper;
    parts.insert(number, lower)?;
    Ok(())
}

// The worst part of a column.
fn worst_of(column: Column, parts: &[Part]) -> WorstPart
    requires { 0 < length parts.now }
    ensures { AreOfWorst column parts.now result.bound (span_range result.range) }
{
    let part = &parts[worst(column, parts)];
    WorstPart {
        bound: part.bound(column),
        range: part.range(),
    }
}

// The worst parts of both columns.
fn worst_parts(parts: &[Part]) -> WorstParts
    requires { 0 < length parts.now }
    ensures energy { AreOfWorst column.Energy parts.now result.energy.bound (span_range result.energy.range) }
    ensures slope { AreOfWorst column.Slope parts.now result.slope.bound (span_range result.slope.range) }
{
    WorstParts {
        energy: worst_of(Column::Energy, parts),
        slope: worst_of(Column::Slope, parts),
    }
}

/// A formula, and the constants that its inputs besides the distance were read as.
#[derive(Drop)]
pub(crate) struct PairFormula<'a, A: Allocator> {
    pub(crate) alloc: A,
    pub(crate) formula: &'a Formula<A>,
    pub(crate) frac: Frac,
    pub(crate) others: &'a [Constant],
}

impl<'a, A: Allocator + Copy> PairFormula<'a, A> {
    /// The inputs with distances in the range, and the others as they were read.
    pub(crate) fn inputs_on(&self, range: Span) -> Result<Vec<Approximation, A>, AllocError>
        ensures { IfOk result (λ all. all.items ≡ slices.inputs_on self.now.others.now (span_range range)) }
    {
        let mut inputs = Vec::with_capacity(self.alloc, self.others.len() + 1)?;
        inputs.push(Approximation::distances(range))?;
        for other in self.others {
            inputs.push(Approximation::as_read(*other))?;
        }
        Ok(inputs)
    }

    // The bounds of one walk over the formula.
    fn plain_bounds(&self, inputs: &[Approximation]) -> Result<Bounds, AllocError>
        ensures { (program : Trees) → self.now.formula.now ≡ formula_of program
            → IfOk result (λ b. b ≡ slices.plain_bounds (bits_of self.now.frac) program inputs.now) }
    {
        Ok(bounds_of(&self.formula.entry(self.alloc, self.frac, inputs)?))
    }

    // The lesser of the bounds of one walk, and those of walks that divide.
    fn least_bounds(&self, inputs: &[Approximation]) -> Result<Bounds, AllocError>
        ensures { (program : Trees) → self.now.formula.now ≡ formula_of program
            → IfOk result (λ b. b ≡ slices.least_bounds (slices.plain_bounds (bits_of self.now.frac) program inputs.now)
            (entries_of_program (bits_of self.now.frac) inputs.now program 3)) }
    {
        let (plain, divided) = self
            .formula
            .entries_of_walks(self.alloc, self.frac, inputs, DIVISIONS)?;
        let plain = bounds_of(&plain);
        if divided.is_empty() {
            return Ok(plain);
        }
        Ok(Bounds {
            energy: lesser(plain.energy, bound_of_all(Column::Energy, &divided)),
            slope: lesser(plain.slope, bound_of_all(Column::Slope, &divided)),
        })
    }

    // The bounds of a range that isn't wide. A formula without choices has a single walk.
    fn narrow_bounds(&self, inputs: &[Approximation]) -> Result<Bounds, AllocError>
        ensures { (program : Trees) → self.now.formula.now ≡ formula_of program
            → IfOk result (λ b. b ≡ slices.least_bounds (slices.plain_bounds (bits_of self.now.frac) program inputs.now)
            (entries_of_program (bits_of self.now.frac) inputs.now program 3)) }
    {
        if self.formula.has_choice() {
            self.least_bounds(inputs)
        } else {
            self.plain_bounds(inputs)
        }
    }

    // The bounds on these inputs, of one walk if the range is wide.
    fn bounds_by(&self, inputs: &[Approximation], wide: bool) -> Result<Bounds, AllocError>
        ensures { (program : Trees) → self.now.formula.now ≡ formula_of program
            → IfOk result (λ b. b ≡ slices.bounds_by (bits_of self.now.frac) program inputs.now wide) }
    {
        if wide {
            self.plain_bounds(inputs)
        } else {
            self.narrow_bounds(inputs)
        }
    }

    /// The bounds for all distances in the range.
    pub(crate) fn bounds_on(&self, range: Span) -> Result<Bounds, AllocError>
        ensures { (program : Trees) → self.now.formula.now ≡ formula_of program
            → IfOk result (λ b. b ≡ bounds_on (bits_of self.now.frac) program self.now.others.now (span_range range)) }
    {
        let wide = is_wide(range.lo, range.hi);
        let inputs = self.inputs_on(range)?;
        self.bounds_by(&inputs, wide)
    }

    /// The bounds at a single distance.
    pub(crate) fn bounds_at(&self, at: Fx) -> Result<Bounds, AllocError>
        ensures { (program : Trees) → self.now.formula.now ≡ formula_of program
            → IfOk result (λ b. b ≡ bounds_at (bits_of self.now.frac) program self.now.others.now at) }
    {
        self.bounds_on(Span::single(at))
    }

    // A range as a part.
    fn part_on(&self, range: Span) -> Result<Part, AllocError>
        ensures { (program : Trees) → self.now.formula.now ≡ formula_of program
            → IfOk result (λ p. p ≡ part_on (bits_of self.now.frac) program self.now.others.now (span_range range)) }
    {
        Ok(Part::new(range, self.bounds_on(range)?))
    }

    // Halves the part with this number. The last distance of the lower half is tried.
    fn halve(
        &self,
        parts: &mut Vec<Part, A>,
        tried: Bounds,
        number: usize,
    ) -> Result<Bounds, AllocError>
        requires there { number < length parts.old.items }
        requires wide { (p : slices.Part) → slice_get parts.old.items number ≡ Some p → is_zero (p.range.high -ℤ p.range.low) ≡ false }
        ensures some { IfOk result (λ _. 0 < length parts.new.items) }
        ensures halved { (program : Trees) → self.now.formula.now ≡ formula_of program → IfOk result (λ b. (p : slices.Part)
            × (slice_get parts.old.items number ≡ Some p)
            × (parts.new.items ≡ halved_at (bits_of self.now.frac) program self.now.others.now parts.old.items number p)
            × (b ≡ slices.greater_bounds tried (bounds_at (bits_of self.now.frac) program self.now.others.now (middle p.range)))) }
    {
        let (lower, upper) = halves(parts[number].range());
        let last = self.bounds_at(lower.hi)?;
        let lower = self.part_on(lower)?;
        let upper = self.part_on(upper)?;
        replace(parts, number, lower, upper)?;
        Ok(greater_of_each(&tried, &last))
    }

    /// Bounds over a range of distances, which is halved until its bounds are close to those at single distances, and at
    /// most 256 times. Most ranges have bounds close to those at their first distance, and then those at their last
    /// distance aren't needed.
    pub(crate) fn bounds_over(&self, range: Span) -> Result<WorstParts, AllocError>
        ensures { (program : Trees) → self.now.formula.now ≡ formula_of program
            → IfOk result (λ w. AreWorstOver (bits_of self.now.frac) program self.now.others.now (span_range range)
            (slices.bounds_view w.energy.bound w.slope.bound) (span_range w.energy.range) (span_range w.slope.range)) }
    {
        let mut parts = Vec::new(self.alloc);
        parts.push(self.part_on(range)?)?;
        let first = self.bounds_at(range.lo)?;
        if are_close(&parts[0], &first) {
            return Ok(worst_parts(&parts));
        }
        let last = self.bounds_at(range.hi)?;
        let mut tried = greater_of_each(&first, &last);
        for halvings in 0..HALVINGS {
            match next(halvings, &parts, &tried) {
                Some(number) => tried = self.halve(&mut parts, tried, number)?,
                None => return Ok(worst_parts(&parts)),
            }
        }
        Ok(worst_parts(&parts))
    }
}
