//! Writing the tables of `curve`: for each pair of types, or for one pair. The tables of two types are written as soon as
//! both bodies are there, so no more than two bodies are in memory.
ghost use Rattle.std.specs.Prelude.{◌≡◌, ◌<◌, ◌+◌, ◌-◌, ◌*◌, ◌^◌, ◌++◌, ℕ, List, IfErr, OnOk, length};
ghost use Rattle.energy_program.specs.Programs.{Trees};
ghost use Rattle.fallible.specs.Out.{Appends, Output, Writes};
ghost use Rattle.job.specs.Views.{job_value};
ghost use Rattle.potential.specs.Progress.{slices_of};
ghost use Rattle.curves.specs.SoFar.{IsPlanned, PutsSome, PutsText, WroteTables, job_of, program_of};
ghost use Rattle.curves.specs.Tables.{AreBothTables, AreTablesOf, IsCurve, IsPairOf, IsTable, IsTableBody, between_tables, curve_parts, pair_line, table_count, table_text};
ghost use Rattle.curves.specs.Writing.{AreCut, AreCutOf, IsCurveUnwritten, StopsAt, WroteSome, rows_before};

use crate::faults::CurveFault;
use crate::planned::PlannedTables;
use crate::plans::CurvePlan;
use crate::potentials::Potential;
use crate::tables::{BETWEEN_TABLES, put_pair, separator_of};
use fallible::{Failure, Out, OutFault, write_both};
use job::Job;
use std::alloc::Allocator;
use verifier::Progress;

// The result of a write, which needs no memory.
fn without_memory(wrote: Result<(), OutFault>) -> Result<(), Failure<OutFault>>
    ensures { (before after : Output) (text : List ℕ) → Writes before after text wrote → PutsText text before after result }
{
    match wrote {
        Ok(()) => Ok(()),
        Err(fault) => Err(Failure::Refused(fault)),
    }
}

// Writes two tables, one after the other: each has these lines before its body, and this body.
fn write_two<O: Out>(
    out: &mut O,
    head: &[u8],
    body: &[u8],
    next_head: &[u8],
    next_body: &[u8],
) -> Result<(), OutFault>
    requires { (O.output out.old).failed < 2 ^ 64 - 1 }
    ensures { Writes (O.output out.old) (O.output out.new) ((head.now ++ body.now) ++ (next_head.now ++ next_body.now)) result }
{
    write_both(out, head, body)?;
    write_both(out, next_head, next_body)
}

impl<'a, A: Allocator + Copy> PlannedTables<'a, A> {
    // Writes a table after another text. The table has this body.
    fn put_table<O: Out>(
        &self,
        out: &mut O,
        before: &[u8],
        first_type: u32,
        second_type: u32,
        body: &[u8],
    ) -> Result<(), Failure<OutFault>>
        requires room { (O.output out.old).failed < 2 ^ 64 - 1 }
        requires first { first_type < length self.now.job.now.types.items }
        requires second { second_type < length self.now.job.now.types.items }
        ensures { PutsText (before.now ++ table_text (job_of self.now) self.now.plan.now first_type second_type body.now)
            (O.output out.old) (O.output out.new) result }
    {
        let head = self.head_of(before, first_type, second_type)?;
        without_memory(write_both(out, &head, body))
    }

    // Writes one table of two types in both orders, after two empty lines. The table has this body.
    fn put_in_one<O: Out>(
        &self,
        out: &mut O,
        first_type: u32,
        second_type: u32,
        body: &[u8],
    ) -> Result<(), Failure<OutFault>>
        requires room { (O.output out.old).failed < 2 ^ 64 - 1 }
        requires first { first_type < length self.now.job.now.types.items }
        requires second { second_type < length self.now.job.now.types.items }
        ensures { PutsText (between_tables ++ (pair_line (job_of self.now) first_type second_type
            ++ table_text (job_of self.now) self.now.plan.now second_type first_type body.now))
            (O.output out.old) (O.output out.new) result }
    {
        let mut before = Vec::new(self.alloc);
        before.extend_from_slice(BETWEEN_TABLES)?;
        put_pair(&mut before, self.job, first_type, second_type)?;
        self.put_table(out, &before, second_type, first_type, body)
    }

    // Writes the table of two types and the table of the same types in the other order, each after two empty lines.
    // They have these bodies.
    fn put_in_two<O: Out>(
        &self,
        out: &mut O,
        first_type: u32,
        second_type: u32,
        one_body: &[u8],
        other_body: &[u8],
    ) -> Result<(), Failure<OutFault>>
        requires room { (O.output out.old).failed < 2 ^ 64 - 1 }
        requires first { first_type < length self.now.job.now.types.items }
        requires second { second_type < length self.now.job.now.types.items }
        ensures { PutsText (between_tables ++ (table_text (job_of self.now) self.now.plan.now first_type second_type one_body.now
            ++ (between_tables ++ table_text (job_of self.now) self.now.plan.now second_type first_type other_body.now)))
            (O.output out.old) (O.output out.new) result }
    {
        let head = self.head_of(BETWEEN_TABLES, first_type, second_type)?;
        let next_head = self.head_of(BETWEEN_TABLES, second_type, first_type)?;
        without_memory(write_two(out, &head, one_body, &next_head, other_body))
    }

    // Writes the tables of two types, and of the same types in the other order, after two empty lines. They have these
    // bodies. One table has the names of both pairs if the bodies are the same.
    fn put_bodies<O: Out>(
        &self,
        out: &mut O,
        first_type: u32,
        second_type: u32,
        one_body: &[u8],
        other_body: &[u8],
    ) -> Result<(), Failure<OutFault>>
        requires room { (O.output out.old).failed < 2 ^ 64 - 1 }
        requires first { first_type < length self.now.job.now.types.items }
        requires second { second_type < length self.now.job.now.types.items }
        ensures { (program : Trees) → IsTableBody (job_of self.now) program self.now.plan.now first_type second_type one_body.now
            → IsTableBody (job_of self.now) program self.now.plan.now second_type first_type other_body.now
            → PutsSome (λ text. (tables : List ℕ) × AreBothTables (job_of self.now) program self.now.plan.now first_type second_type tables
            × (text ≡ between_tables ++ tables)) (O.output out.old) (O.output out.new) result }
    {
        if one_body == other_body {
            self.put_in_one(out, first_type, second_type, one_body)
        } else {
            self.put_in_two(out, first_type, second_type, one_body, other_body)
        }
    }

    // Writes the tables of two types, and of the same types in the other order, behind two empty lines. Reports each row.
    fn put_both<O: Out, W: Progress>(
        &self,
        out: &mut O,
        first_type: u32,
        second_type: u32,
        watch: &mut W,
    ) -> Result<(), Failure<OutFault>>
        requires room { (O.output out.old).failed < 2 ^ 64 - 1 }
        requires is { IsPlanned self.now }
        requires first { first_type < length self.now.job.now.types.items }
        requires second { second_type < length self.now.job.now.types.items }
        ensures tables { PutsSome (λ text. (tables : List ℕ)
            × AreBothTables (job_of self.now) (program_of self.now) self.now.plan.now first_type second_type tables
            × (text ≡ between_tables ++ tables))
            (O.output out.old) (O.output out.new) result }
        ensures passed { OnOk result (W.passed watch.old watch.new (2 * (self.now.plan.now.points + 1))) }
        ensures stopped { IfErr result (λ f. (n : ℕ)
            × StopsAt 0 (2 * (self.now.plan.now.points + 1)) f n × W.passed watch.old watch.new n) }
    {
        let one_body = self.body_text(first_type, second_type, watch)?;
        let other_body = self.body_text(second_type, first_type, watch)?;
        self.put_bodies(out, first_type, second_type, &one_body, &other_body)
    }

    // Writes the table of two types behind another text. Reports each row.
    fn put_one<O: Out, W: Progress>(
        &self,
        out: &mut O,
        before: &[u8],
        first_type: u32,
        second_type: u32,
        watch: &mut W,
    ) -> Result<(), Failure<OutFault>>
        requires room { (O.output out.old).failed < 2 ^ 64 - 1 }
        requires is { IsPlanned self.now }
        requires first { first_type < length self.now.job.now.types.items }
        requires second { second_type < length self.now.job.now.types.items }
        ensures table { PutsSome (λ text. (table : List ℕ)
            × IsTable (job_of self.now) (program_of self.now) self.now.plan.now first_type second_type table × (text ≡ before.now ++ table))
            (O.output out.old) (O.output out.new) result }
        ensures passed { OnOk result (W.passed watch.old watch.new (self.now.plan.now.points + 1)) }
        ensures stopped { IfErr result (λ f. (n : ℕ) × StopsAt 0 (self.now.plan.now.points + 1) f n × W.passed watch.old watch.new n) }
    {
        let body = self.body_text(first_type, second_type, watch)?;
        self.put_table(out, before, first_type, second_type, &body)
    }

    // Writes the tables of a type with itself and with the types after it, which follow those of the types before it.
    // Reports each row.
    fn put_tables_of<O: Out, W: Progress>(
        &self,
        out: &mut O,
        first_type: u32,
        watch: &mut W,
    ) -> Result<(), Failure<OutFault>>
        requires room { (O.output out.old).failed < 2 ^ 64 - 1 }
        requires is { IsPlanned self.now }
        requires within { first_type < length self.now.job.now.types.items }
        ensures tables { (origin : Output)
            → WroteTables (job_of self.now) (program_of self.now) self.now.plan.now first_type first_type origin (O.output out.old)
            → OnOk result (WroteTables (job_of self.now) (program_of self.now) self.now.plan.now (first_type + 1) (first_type + 1)
            origin (O.output out.new)) }
        ensures room { OnOk result ((O.output out.new).failed ≡ (O.output out.old).failed) }
        ensures passed { OnOk result (W.passed watch.old watch.new
            ((2 * (length self.now.job.now.types.items - first_type) - 1) * (self.now.plan.now.points + 1))) }
        ensures stopped { (origin : Output)
            → WroteTables (job_of self.now) (program_of self.now) self.now.plan.now first_type first_type origin (O.output out.old)
            → IfErr result (λ f. (n : ℕ)
            × AreCut (job_of self.now) (program_of self.now) self.now.plan.now origin (O.output out.new) f
            (rows_before (job_of self.now) self.now.plan.now first_type first_type + n)
            × W.passed watch.old watch.new n) }
    {
        self.put_one(out, separator_of(first_type), first_type, first_type, watch)?;
        for second_type in first_type + 1..self.job.types.len() as u32 {
            self.put_both(out, first_type, second_type, watch)?;
        }
        Ok(())
    }

    // Writes the tables of all pairs of types. Reports each row.
    fn put_every_table<O: Out, W: Progress>(
        &self,
        out: &mut O,
        watch: &mut W,
    ) -> Result<(), Failure<OutFault>>
        requires room { (O.output out.old).failed < 2 ^ 64 - 1 }
        requires is { IsPlanned self.now }
        ensures tables { OnOk result (WroteTables (job_of self.now) (program_of self.now) self.now.plan.now
            (length self.now.job.now.types.items) (length self.now.job.now.types.items) (O.output out.old) (O.output out.new)) }
        ensures passed { OnOk result (W.passed watch.old watch.new
            (length self.now.job.now.types.items * length self.now.job.now.types.items * (self.now.plan.now.points + 1))) }
        ensures stopped { IfErr result (λ f. (n : ℕ)
            × AreCut (job_of self.now) (program_of self.now) self.now.plan.now (O.output out.old) (O.output out.new) f n
            × W.passed watch.old watch.new n) }
    {
        for first_type in 0..self.job.types.len() as u32 {
            self.put_tables_of(out, first_type, watch)?;
        }
        Ok(())
    }

    // Writes the tables of the plan. Reports each row.
    fn put_planned<O: Out, W: Progress>(
        &self,
        out: &mut O,
        watch: &mut W,
    ) -> Result<(), Failure<OutFault>>
        requires room { (O.output out.old).failed < 2 ^ 64 - 1 }
        requires is { IsPlanned self.now }
        requires pair { IsPairOf (job_of self.now) self.now.plan.now.pair }
        ensures tables { OnOk result (WroteSome (AreTablesOf (job_of self.now) (program_of self.now) self.now.plan.now
            self.now.plan.now.pair) (Appends (O.output out.old) (O.output out.new))) }
        ensures passed { OnOk result (W.passed watch.old watch.new
            (table_count (job_of self.now) self.now.plan.now.pair * (self.now.plan.now.points + 1))) }
        ensures stopped { IfErr result (λ f. (n : ℕ)
            × AreCutOf (job_of self.now) (program_of self.now) self.now.plan.now self.now.plan.now.pair
            (O.output out.old) (O.output out.new) f n
            × W.passed watch.old watch.new n) }
    {
        match self.plan.pair {
            Some((first_type, second_type)) => self.put_one(
                out,
                b"",
                first_type,
                second_type,
                watch,
            ),
            None => self.put_every_table(out, watch),
        }
    }

    // Writes the tables of the plan, and returns the faults of a curve. Reports each row.
    fn put_curve<O: Out, W: Progress>(
        &self,
        out: &mut O,
        watch: &mut W,
    ) -> Result<(), CurveFault<A>>
        requires room { (O.output out.old).failed < 2 ^ 64 - 1 }
        requires is { IsPlanned self.now }
        requires pair { IsPairOf (job_of self.now) self.now.plan.now.pair }
        ensures wrote { OnOk result (WroteSome (IsCurve (job_of self.now) self.now.plan.now)
            (Appends (O.output out.old) (O.output out.new))) }
        ensures passed { OnOk result (W.passed watch.old watch.new
            (table_count (job_of self.now) self.now.plan.now.pair * (self.now.plan.now.points + 1))) }
        // The slices of both codes are reported before any row.
        ensures stopped { IfErr result (λ fault. (n : ℕ)
            × IsCurveUnwritten (job_of self.now) self.now.plan.now (O.output out.old) (O.output out.new) fault
            (2 * slices_of (job_of self.now) + n)
            × W.passed watch.old watch.new n) }
    {
        match self.put_planned(out, watch) {
            Ok(()) => Ok(()),
            Err(Failure::Refused(fault)) => Err(CurveFault::Out(fault)),
            Err(Failure::Memory) => Err(CurveFault::Memory),
        }
    }
}

/// Writes the text of a job's potential: a table for each pair of types, or for the pair of the plan, with `points + 1`
/// rows from the core to the cutoff. Two types have one table for both orders if its lines are the same in both.
///
/// Each row has a distance in nm and the plan's columns: the energy in kJ/mol, its slope in kJ/mol/nm, or both, as the
/// program computes them, and bounds on their distance from the formula over exact numbers, at all distances up to the
/// next row's.
///
/// The tables of two types are written as soon as they are made. The watcher gets a report of each part: the slices of
/// the slope's code and of the energy's code that the verifier accepts, and the rows.
///
/// The plan's pair has numbers of types of the job. Returns the errors of the job's energy and of its slope's code, as
/// `check` does, and then those of the energy's own code, whatever the columns. Then nothing is written. `Memory`: memory
/// ran out, and the tables before those of two types are written, each whole. `Out`: a write failed; the tables before
/// those of two types are written, each whole, and a prefix of the tables of these two.
pub fn write_curve<A: Allocator + Copy, O: Out, W: Progress>(
    alloc: A,
    job: &Job<A>,
    plan: &CurvePlan,
    out: &mut O,
    watch: &mut W,
) -> Result<(), CurveFault<A>>
    requires room { (O.output out.old).failed < 2 ^ 64 - 1 }
    requires pair { IsPairOf (job_value job.now) plan.now.pair }
    ensures wrote { OnOk result (WroteSome (IsCurve (job_value job.now) plan.now) (Appends (O.output out.old) (O.output out.new))) }
    // All parts are reported.
    ensures passed { OnOk result (W.passed watch.old watch.new (curve_parts (job_value job.now) plan.now)) }
    // Why not all tables were written, and the parts that are reported before.
    ensures stopped { IfErr result (λ fault. (n : ℕ)
        × IsCurveUnwritten (job_value job.now) plan.now (O.output out.old) (O.output out.new) fault n
        × W.passed watch.old watch.new n) }
{
    match Potential::new(alloc, job, watch) {
        Ok(potential) => {
            let tables = PlannedTables {
                alloc,
                job,
                potential: &potential,
                plan,
            };
            let wrote = tables.put_curve(out, watch);
            // A call: otherwise the prover follows the drop of each field.
            drop(potential);
            wrote
        }
        Err(Failure::Refused(fault)) => Err(CurveFault::Rejected(fault)),
        Err(Failure::Memory) => Err(CurveFault::Memory),
    }
}
