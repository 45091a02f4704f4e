//! The output of `curve`.

ghost use Rattle.std.specs.Prelude.{◌≡◌, ◌≤◌, ◌-◌, ◌<◌, ◌^◌, IfErr, IfOk};
ghost use Rattle.command_line.specs.Views.{curve_view, names_of};
ghost use Rattle.cli.specs.Actions.{tables_work};
ghost use Rattle.cli.specs.CurveTexts.{IsPairNamed, IsPlanOf, IsTypeNamed, LacksType, OfPlan, OfTables, columns_shown};
ghost use Rattle.cli.specs.Performed.{WritesTables};
ghost use Rattle.cli.specs.Progress.{Reports, ReportsTables};
ghost use Rattle.cli.specs.Refusals.{RefusesCurve, RefusesTypes, RefusesUnder};
ghost use Rattle.cli.specs.declared.faults.CommandFault.TheVariants as command;
ghost use Rattle.curves.specs.Tables.{IsPairOf, curve_parts, table_count};
ghost use Rattle.job.specs.Views.{job_value};

use crate::faults::CommandFault;
use crate::progress::{Counted, PartLines};
use crate::verdicts::slices_in;
use command_line::Curve;
use curve_lines::CurveColumns;
use curves::{CurveFault, CurvePlan, write_curve};
use fallible::Out;
use job::Job;
use std::alloc::Allocator;

/// Writes the tables of a job's potential that the arguments of `curve` request, as they are made.
///
/// Faults come in this order, and before any output: the job, the first name that no type of the job has, the job's
/// slope code, the code of the energy itself. With `--progress` it reports the parts on `err`.
pub(crate) fn curve_bytes<'a, A: Allocator + Copy, O: Out, E: Out>(
    alloc: A,
    job: &[u8],
    curve: &Curve<'a>,
    out: &mut O,
    err: &mut E,
) -> Result<(), CommandFault<'a, A>>
    requires { (O.output out.old).failed < 2 ^ 64 - 1 }
    ensures wrote { WritesTables (RefusesUnder job.now (RefusesCurve (curve_view curve.now))) (OfTables job.now (curve_view curve.now))
        (O.output out.old) (O.output out.new) result }
    ensures reports { Reports (tables_work curve.now.progress (OfTables job.now (curve_view curve.now))
        (O.output out.old) (O.output out.new)) (E.output err.old) (E.output err.new) result }
{
    let job = Job::read(alloc, job)?;
    let wrote = curve_of(alloc, &job, curve, out, err);
    drop(job);
    wrote
}

/// Writes the tables of the potential of a job.
fn curve_of<'a, A: Allocator + Copy, O: Out, E: Out>(
    alloc: A,
    job: &Job<A>,
    curve: &Curve<'a>,
    out: &mut O,
    err: &mut E,
) -> Result<(), CommandFault<'a, A>>
    requires { (O.output out.old).failed < 2 ^ 64 - 1 }
    ensures wrote { WritesTables (RefusesCurve (curve_view curve.now) (job_value job.now))
        (λ Holds. OfPlan (job_value job.now) (curve_view curve.now) (Holds (job_value job.now)))
        (O.output out.old) (O.output out.new) result }
    ensures reports { Reports (tables_work curve.now.progress
        (λ Holds. OfPlan (job_value job.now) (curve_view curve.now) (Holds (job_value job.now)))
        (O.output out.old) (O.output out.new)) (E.output err.old) (E.output err.new) result }
{
    let plan = plan_of(job, curve)?;
    let wrote = watched_curve(alloc, job, &plan, curve.progress, out, err);
    Ok(wrote?)
}

/// Writes the tables of the potential of a job according to a plan. With `progress` it reports the parts on `err`.
fn watched_curve<A: Allocator + Copy, O: Out, E: Out>(
    alloc: A,
    job: &Job<A>,
    plan: &CurvePlan,
    progress: bool,
    out: &mut O,
    err: &mut E,
) -> Result<(), CurveFault<A>>
    requires room { (O.output out.old).failed < 2 ^ 64 - 1 }
    requires pair { IsPairOf (job_value job.now) plan.now.pair }
    ensures { ReportsTables progress (job_value job.now) plan.now (O.output out.old) (O.output out.new)
        (E.output err.old) (E.output err.new) result }
{
    let mut watch = PartLines::new(err, Counted::Parts, parts_in(job, plan), progress);
    write_curve(alloc, job, plan, out, &mut watch)
}

/// The number of parts of a table: the slices of two codes, and the rows.
fn parts_in<A: Allocator>(job: &Job<A>, plan: &CurvePlan) -> u64
    ensures { result ≡ curve_parts (job_value job.now) plan.now }
{
    2 * slices_in(job) + tables_in(job, plan) * (u64::from(plan.points) + 1)
}

/// The number of tables: one if the plan has a pair of types, otherwise one for each pair.
fn tables_in<A: Allocator>(job: &Job<A>, plan: &CurvePlan) -> u64
    ensures value { result ≡ table_count (job_value job.now) plan.now.pair }
    ensures most { result ≤ 4096 }
{
    match plan.pair {
        Some(_) => 1,
        None => {
            let types = job.types.as_slice().len() as u64;
            types * types
        }
    }
}

/// The plan of the table that these arguments request.
fn plan_of<'a, A: Allocator>(
    job: &Job<A>,
    curve: &Curve<'a>,
) -> Result<CurvePlan, CommandFault<'a, A>>
    ensures is { IfOk result (IsPlanOf (job_value job.now) (curve_view curve.now)) }
    ensures refused { IfErr result (RefusesTypes (names_of curve.now.types) (job_value job.now)) }
{
    let pair = pair_of(job, curve.types)?;
    Ok(CurvePlan {
        points: curve.points,
        columns: columns_of(curve.energy, curve.slope, curve.grid),
        pair,
    })
}

/// The columns of a table: with only one flag of `--energy` and `--slope`, those of the energy or of the slope, otherwise
/// all; with `--grid` also the grid's, except beside only the energy.
fn columns_of(energy: bool, slope: bool, grid: bool) -> CurveColumns
    ensures { result ≡ columns_shown energy slope grid }
{
    match (energy, slope) {
        (true, false) => CurveColumns::Energy,
        (false, true) => CurveColumns::Slope { grid },
        _ => CurveColumns::All { grid },
    }
}

/// The numbers of the types with these names, if names are given.
fn pair_of<'a, A: Allocator>(
    job: &Job<A>,
    names: Option<(&'a str, &'a str)>,
) -> Result<Option<(u32, u32)>, CommandFault<'a, A>>
    ensures is { IfOk result (IsPairNamed (job_value job.now) (names_of names.entry)) }
    ensures refused { IfErr result (RefusesTypes (names_of names.entry) (job_value job.now)) }
{
    match names {
        None => Ok(None),
        Some((first, second)) => {
            let first = type_named(job, first)?;
            let second = type_named(job, second)?;
            Ok(Some((first, second)))
        }
    }
}

/// The number of the type with this name.
fn type_named<'a, A: Allocator>(job: &Job<A>, name: &'a str) -> Result<u32, CommandFault<'a, A>>
    ensures is { IfOk result (IsTypeNamed (job_value job.now) name.entry.now) }
    ensures refused { IfErr result (λ fault. (fault ≡ command.NoSuchType name.entry) × LacksType (job_value job.now) name.entry.now) }
{
    match job.type_of(name.as_bytes()) {
        Some(number) => Ok(number),
        None => Err(CommandFault::NoSuchType { name }),
    }
}
