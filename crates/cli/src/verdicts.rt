//! The output of `check`: the verdict on a job's slope code or on a listing.

ghost use Rattle.std.specs.Prelude.{◌≡◌, ◌≤◌, ◌-◌, ◌<◌, ◌^◌, IfErr, IfOk, Ok, string_bytes};
ghost use Rattle.potential.specs.Energies.{slope_code_of};
ghost use Rattle.potential.specs.Progress.{IsPassedBefore, slices_of};
ghost use Rattle.potential.specs.Verdicts.{HasNoKernel, HasNoSlopeKernel, IsAccepted, IsSlopeKernel};
ghost use Rattle.fallible.specs.Failures.{IfRefused};
ghost use Rattle.job.specs.JobText.{IsJobText, limits};
ghost use Rattle.job.specs.Values.{JobValue};
ghost use Rattle.job.specs.Views.{job_value};
ghost use Rattle.verifier.specs.Kernels.{Kernel};
ghost use Rattle.cli.specs.Actions.{AreSlices, OfJob, RejectsChecked, parts_work};
ghost use Rattle.cli.specs.Performed.{WritesLine, WritesText};
ghost use Rattle.cli.specs.Progress.{Reports, ReportsParts, word_for};
ghost use Rattle.cli.specs.declared.progress.Counted.TheVariants as counted;
ghost use Rattle.cli.specs.Refusals.{RefusesUnder, RefusesVerdict};
ghost use Rattle.command_line.specs.Views.{bytes_if};
ghost use Rattle.cli.specs.Verdicts.{IsJudged, IsVerdict, verdict_line};

use crate::faults::CommandFault;
use crate::progress::{Counted, PartLines};
use crate::writing::write_line;
use fallible::{Failure, Out};
use job::Job;
use kernel_code::{Code, read};
use potential::{EnergyFault, verdict, verified_slope};
use std::alloc::{AllocError, Allocator};
use verifier::Verified;

/// The line for accepted code: the instructions on its longest path, and the verifier's bound of its values.
#[tactic(auto, unfolding(crate::specs::Verdicts::verdict_line))]
fn verdict_line<A: Allocator + Copy>(
    alloc: A,
    steps: u32,
    bound: u64,
) -> Result<String<A>, AllocError>
    ensures { IfOk result (λ s. string_bytes s ≡ verdict_line steps bound) }
{
    format!(in alloc; "accepted: steps {steps}, bound {bound}\n")
}

/// Writes the line for accepted code with this number of instructions and this bound.
fn write_verdict<'a, A: Allocator + Copy, O: Out>(
    alloc: A,
    steps: u32,
    bound: u64,
    out: &mut O,
) -> Result<(), CommandFault<'a, A>>
    requires { (O.output out.old).failed < 2 ^ 64 - 1 }
    ensures { WritesLine (verdict_line steps bound) (O.output out.old) (O.output out.new) result }
{
    write_line(verdict_line(alloc, steps, bound), out)
}

/// Writes the verdict line of a listing under a job, or without a listing of the job's slope code, if the code is
/// accepted. A fault of the job, the listing, the energy or the code comes before any output. With `progress` it reports
/// the slices on `err`.
pub(crate) fn verdict_bytes<'a, A: Allocator + Copy, O: Out, E: Out>(
    alloc: A,
    job: &[u8],
    listing: Option<&[u8]>,
    progress: bool,
    out: &mut O,
    err: &mut E,
) -> Result<(), CommandFault<'a, A>>
    requires { (O.output out.old).failed < 2 ^ 64 - 1 }
    ensures wrote { WritesText (RefusesUnder job.now (RefusesVerdict (bytes_if listing.entry)))
        (IsVerdict job.now (bytes_if listing.entry)) (O.output out.old) (O.output out.new) result }
    ensures reports { Reports (parts_work progress (word_for counted.Slices) (AreSlices job.now)
        (λ done. OfJob job.now (λ j. RejectsChecked (bytes_if listing.entry) j done)))
        (E.output err.old) (E.output err.new) result }
{
    let known = verdict_read(alloc, job, listing, progress, err)?;
    write_verdict(alloc, known.0, known.1, out)
}

/// The steps and the bound of the code of a listing, or of the slope code, that is accepted under the job of a text.
fn verdict_read<'a, A: Allocator + Copy, E: Out>(
    alloc: A,
    job: &[u8],
    listing: Option<&[u8]>,
    progress: bool,
    err: &mut E,
) -> Result<(u32, u64), CommandFault<'a, A>>
    ensures is { IfOk result (λ known. (said : JobValue) × (k : Kernel) × IsJobText limits job.now said
        × IsJudged said (bytes_if listing.entry) k × (known.0 ≡ k.steps) × (known.1 ≡ k.bound)) }
    ensures refused { IfErr result (RefusesUnder job.now (RefusesVerdict (bytes_if listing.entry))) }
    ensures reports { Reports (parts_work progress (word_for counted.Slices) (AreSlices job.now)
        (λ done. OfJob job.now (λ j. RejectsChecked (bytes_if listing.entry) j done)))
        (E.output err.old) (E.output err.new) result }
{
    let job = Job::read(alloc, job)?;
    let known = verdict_under(alloc, &job, listing, progress, err);
    drop(job);
    known
}

/// The steps and the bound of the code of a listing, or of the slope code, that is accepted under a job.
fn verdict_under<'a, A: Allocator + Copy, E: Out>(
    alloc: A,
    job: &Job<A>,
    listing: Option<&[u8]>,
    progress: bool,
    err: &mut E,
) -> Result<(u32, u64), CommandFault<'a, A>>
    ensures is { IfOk result (λ known. (k : Kernel) × IsJudged (job_value job.now) (bytes_if listing.entry) k
        × (known.0 ≡ k.steps) × (known.1 ≡ k.bound)) }
    ensures refused { IfErr result (RefusesVerdict (bytes_if listing.entry) (job_value job.now)) }
    ensures reports { Reports (parts_work progress (word_for counted.Slices) (λ all. all ≡ slices_of (job_value job.now))
        (λ done. RejectsChecked (bytes_if listing.entry) (job_value job.now) done))
        (E.output err.old) (E.output err.new) result }
{
    match listing {
        None => Ok(known(judged_slope(alloc, job, progress, err)?)),
        Some(text) => {
            let code = read(alloc, text)?;
            let kernel = judged_code(alloc, job, code, progress, err)?;
            Ok(known(kernel))
        }
    }
}

/// The accepted slope code of a job. With `progress` it reports the slices on `err`.
fn judged_slope<A: Allocator + Copy, E: Out>(
    alloc: A,
    job: &Job<A>,
    progress: bool,
    err: &mut E,
) -> Result<Verified<A>, Failure<EnergyFault<A>>>
    ensures kernel { IfOk result (IsSlopeKernel (job_value job.now)) }
    ensures refused { IfErr result (λ failure. IfRefused failure (HasNoSlopeKernel (job_value job.now))) }
    ensures reports { ReportsParts progress (word_for counted.Slices) (slices_of (job_value job.now))
        (λ failure n. IsPassedBefore (job_value job.now) (slope_code_of (job_value job.now)) failure n)
        (E.output err.old) (E.output err.new) result }
{
    let mut watch = PartLines::new(err, Counted::Slices, slices_in(job), progress);
    verified_slope(alloc, job, &mut watch)
}

/// The number of slices of all ordered pairs of types.
pub(crate) fn slices_in<A: Allocator>(job: &Job<A>) -> u64
    ensures value { result ≡ slices_of (job_value job.now) }
    ensures most { result ≤ 268435456 }
{
    let types = job.types.as_slice().len() as u64;
    types * types * u64::from(job.slices)
}

/// The steps and the bound of accepted code.
fn known<A: Allocator>(kernel: Verified<A>) -> (u32, u64)
    ensures steps { result.0 ≡ kernel.steps }
    ensures bound { result.1 ≡ kernel.bound }
{
    (kernel.steps(), kernel.bound())
}

/// Code that is accepted under a job. With `progress` it reports the slices on `err`.
fn judged_code<A: Allocator + Copy, E: Out>(
    alloc: A,
    job: &Job<A>,
    code: Code<A>,
    progress: bool,
    err: &mut E,
) -> Result<Verified<A>, Failure<EnergyFault<A>>>
    ensures accepted { IfOk result (IsAccepted (job_value job.now) code) }
    ensures refused { IfErr result (λ failure. IfRefused failure (HasNoKernel (job_value job.now) code)) }
    ensures reports { ReportsParts progress (word_for counted.Slices) (slices_of (job_value job.now))
        (λ failure n. IsPassedBefore (job_value job.now) (Ok code) failure n) (E.output err.old) (E.output err.new) result }
{
    let mut watch = PartLines::new(err, Counted::Slices, slices_in(job), progress);
    verdict(alloc, job, code, &mut watch)
}
