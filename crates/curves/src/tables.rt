//! Tables of pairs of types: the lines of their heads, and the texts of their bodies.
ghost use Rattle.std.specs.Prelude.{◌≡◌, ◌<◌, ◌≤◌, ◌+◌, ◌++◌, ℕ, IfOk, IfErr, OnOk, length};
ghost use Rattle.job.specs.Views.{job_value};
ghost use Rattle.line_text.specs.Names.{name_text};
ghost use Rattle.potential.specs.Tables.{name_of_type};
ghost use Rattle.curves.specs.SoFar.{HasBody, IsPlanned, job_of, program_of};
ghost use Rattle.curves.specs.Tables.{IsTableBody, columns_text, names_text, others_of, pair_line, separator};

use crate::pairs::Pair;
use crate::planned::PlannedTables;
use curve_lines::{Body, CurveColumns};
use job::Job;
use line_text::Name;
use std::alloc::{AllocError, Allocator};
use verifier::Progress;

/// The text between two tables: two empty lines.
pub(crate) const BETWEEN_TABLES: &[u8] = b"\n\n";

// Appends the line of the names of the types.
fn put_names<A: Allocator>(
    text: &mut Vec<u8, A>,
    first: Name,
    second: Name,
) -> Result<(), AllocError>
    ensures { IfOk result (λ _. text.new.items ≡ text.old.items ++ names_text (name_text first) (name_text second)) }
{
    text.extend_from_slice(b"# ")?;
    text.extend_from_slice(first.as_bytes())?;
    text.extend_from_slice(b" ")?;
    text.extend_from_slice(second.as_bytes())?;
    text.extend_from_slice(b"\n")
}

// The names and units of the columns.
fn column_names(columns: CurveColumns) -> &'static [u8]
    ensures { result.now ≡ columns_text columns }
{
    match columns {
        CurveColumns::All { grid: false } => {
            b"# r/nm energy/(kJ/mol) energy-error slope/(kJ/mol/nm) slope-error\n"
        }
        CurveColumns::All { grid: true } => {
            b"# r/nm energy/(kJ/mol) energy-error slope/(kJ/mol/nm) slope-error slope-grid\n"
        }
        CurveColumns::Energy => b"# r/nm energy/(kJ/mol) energy-error\n",
        CurveColumns::Slope { grid: false } => b"# r/nm slope/(kJ/mol/nm) slope-error\n",
        CurveColumns::Slope { grid: true } => b"# r/nm slope/(kJ/mol/nm) slope-error slope-grid\n",
    }
}

// The name of the type with this number.
fn name_of<A: Allocator>(job: &Job<A>, number: u32) -> Name
    requires { number < length job.now.types.items }
    ensures { name_text result ≡ name_of_type (job_value job.now) number }
{
    job.types[number as usize].name
}

/// Appends the line of the names of the types with these numbers.
pub(crate) fn put_pair<A: Allocator>(
    text: &mut Vec<u8, A>,
    job: &Job<A>,
    first_type: u32,
    second_type: u32,
) -> Result<(), AllocError>
    requires first { first_type < length job.now.types.items }
    requires second { second_type < length job.now.types.items }
    ensures { IfOk result (λ _. text.new.items ≡ text.old.items ++ pair_line (job_value job.now) first_type second_type) }
{
    put_names(text, name_of(job, first_type), name_of(job, second_type))
}

/// The text before the tables of a type with itself: two empty lines, but none before the first table.
pub(crate) fn separator_of(first_type: u32) -> &'static [u8]
    ensures { result.now ≡ separator first_type }
{
    if first_type == 0 { b"" } else { BETWEEN_TABLES }
}

impl<'a, A: Allocator + Copy> PlannedTables<'a, A> {
    // The body of the table of a pair. Reports each row.
    fn body_of<W: Progress>(&self, pair: &Pair<A>, watch: &mut W) -> Result<Body<A>, AllocError>
        requires is { IsPlanned self.now }
        requires first { pair.now.a < length self.now.job.now.types.items }
        requires second { pair.now.b < length self.now.job.now.types.items }
        requires others { pair.now.others.items ≡ others_of (job_of self.now) pair.now.a pair.now.b }
        ensures body { IfOk result (HasBody (job_of self.now) (program_of self.now) self.now.plan.now pair.now.a pair.now.b) }
        ensures passed { OnOk result (W.passed watch.old watch.new (self.now.plan.now.points + 1)) }
        ensures stopped { IfErr result (λ _. (n : ℕ) × (n ≤ self.now.plan.now.points + 1) × W.passed watch.old watch.new n) }
    {
        let mut body = Body::new(self.alloc, self.job.frac, self.plan.columns);
        for i in 0..self.plan.points + 1 {
            let row = self.row_at(pair, i)?;
            body.add(&row)?;
            watch.pass(1);
        }
        Ok(body)
    }

    /// The text of the body of the table of two types. Reports each row.
    pub(crate) fn body_text<W: Progress>(
        &self,
        first_type: u32,
        second_type: u32,
        watch: &mut W,
    ) -> Result<Vec<u8, A>, AllocError>
        requires is { IsPlanned self.now }
        requires first { first_type < length self.now.job.now.types.items }
        requires second { second_type < length self.now.job.now.types.items }
        ensures body { IfOk result (λ text.
            IsTableBody (job_of self.now) (program_of self.now) self.now.plan.now first_type second_type text.items) }
        ensures passed { OnOk result (W.passed watch.old watch.new (self.now.plan.now.points + 1)) }
        ensures stopped { IfErr result (λ _. (n : ℕ) × (n ≤ self.now.plan.now.points + 1) × W.passed watch.old watch.new n) }
    {
        let pair = Pair::new(self.alloc, self.job, first_type, second_type)?;
        let body = self.body_of(&pair, watch)?;
        body.into_text()
    }

    /// The lines before the body of the table of two types, behind another text.
    pub(crate) fn head_of(
        &self,
        before: &[u8],
        first_type: u32,
        second_type: u32,
    ) -> Result<Vec<u8, A>, AllocError>
        requires first { first_type < length self.now.job.now.types.items }
        requires second { second_type < length self.now.job.now.types.items }
        ensures { IfOk result (λ head. head.items
            ≡ before.now ++ (pair_line (job_of self.now) first_type second_type ++ columns_text self.now.plan.now.columns)) }
    {
        let mut head = Vec::new(self.alloc);
        head.extend_from_slice(before)?;
        put_pair(&mut head, self.job, first_type, second_type)?;
        head.extend_from_slice(column_names(self.plan.columns))?;
        Ok(head)
    }
}
