//! Code that the verifier accepts under a job.

ghost use Rattle.std.specs.Prelude.{◌≡◌, ◌<◌, ℕ, length, option_map, IfOk, IfErr, Ok, OnOk};
ghost use Rattle.fallible.specs.Failures.{IfRefused};
ghost use Rattle.line_text.specs.Names.{name_text};
ghost use Rattle.job.specs.Views.{job_value};
ghost use Rattle.potential.specs.Energies.{slope_code_of};
ghost use Rattle.potential.specs.Progress.{IsPassedBefore, slices_of};
ghost use Rattle.potential.specs.Tables.{name_of_type};
ghost use Rattle.potential.specs.Verdicts.{HasNoKernel, HasNoSlopeKernel, IsAccepted, IsSlopeKernel, SpeaksOf, type_names};

use crate::energies::slope_code;
use crate::faults::EnergyFault;
use crate::tables::type_table;
use fallible::Failure;
use job::Job;
use kernel_code::Code;
use line_text::Name;
use std::alloc::Allocator;
use verifier::{Progress, Verified, VerifyFault, verify};

/// The names of the types with these numbers.
fn names_of<A: Allocator>(job: &Job<A>, first: u32, second: u32) -> (Name, Name)
    requires first { first < length job.now.types.items }
    requires second { second < length job.now.types.items }
    ensures first { name_text result.0 ≡ name_of_type (job_value job.now) first }
    ensures second { name_text result.1 ≡ name_of_type (job_value job.now) second }
{
    (
        job.types[first as usize].name,
        job.types[second as usize].name,
    )
}

/// The names of the two types that a fault mentions, or `None` if it mentions no types.
fn type_names<A: Allocator>(job: &Job<A>, fault: &VerifyFault) -> Option<(Name, Name)>
    requires { SpeaksOf (length job.now.types.items) fault.now }
    ensures { option_map (λ p. (name_text p.0, name_text p.1)) result ≡ type_names (job_value job.now) fault.now }
{
    match *fault {
        VerifyFault::Fault { first, second, .. } => Some(names_of(job, first, second)),
        VerifyFault::Undecided { first, second, .. } => Some(names_of(job, first, second)),
        VerifyFault::Malformed { .. } | VerifyFault::DepthOver64 { .. } => None,
    }
}

/// The code, accepted under the job's types, core, cutoff and slices. Reports each accepted slice to the watcher.
///
/// `Kernel`: the verifier rejects the code. `Memory`: memory ran out.
pub fn verdict<A: Allocator + Copy, W: Progress>(
    alloc: A,
    job: &Job<A>,
    code: Code<A>,
    watch: &mut W,
) -> Result<Verified<A>, Failure<EnergyFault<A>>>
    ensures accepted { IfOk result (IsAccepted (job_value job.now) code) }
    ensures refused { IfErr result (λ failure. IfRefused failure (HasNoKernel (job_value job.now) code)) }
    ensures passed { OnOk result (W.passed watch.old watch.new (slices_of (job_value job.now))) }
    ensures stopped { IfErr result (λ failure. (n : ℕ) × IsPassedBefore (job_value job.now) (Ok code) failure n
        × W.passed watch.old watch.new n) }
{
    match type_table(alloc, job) {
        Ok(table) => match verify(alloc, code, table, job.core, job.cutoff, job.slices, watch) {
            Ok(verified) => {
                // called for its postcondition: the bound is below 2^64
                let _bound = verified.bound();
                Ok(verified)
            }
            Err(Failure::Refused(fault)) => {
                let types = type_names(job, &fault);
                Err(Failure::Refused(EnergyFault::Kernel { fault, types }))
            }
            Err(Failure::Memory) => Err(Failure::Memory),
        },
        Err(_) => Err(Failure::Memory),
    }
}

/// The code of the derivative of the job's energy, accepted under the job's types, core, cutoff and slices. Reports
/// each accepted slice to the watcher.
///
/// Returns the errors of the energy, of its derivative and of its code, then `Kernel` if the verifier rejects the
/// code. `Memory`: memory ran out.
pub fn verified_slope<A: Allocator + Copy, W: Progress>(
    alloc: A,
    job: &Job<A>,
    watch: &mut W,
) -> Result<Verified<A>, Failure<EnergyFault<A>>>
    ensures kernel { IfOk result (IsSlopeKernel (job_value job.now)) }
    ensures refused { IfErr result (λ failure. IfRefused failure (HasNoSlopeKernel (job_value job.now))) }
    ensures passed { OnOk result (W.passed watch.old watch.new (slices_of (job_value job.now))) }
    ensures stopped { IfErr result (λ failure. (n : ℕ) × IsPassedBefore (job_value job.now) (slope_code_of (job_value job.now)) failure n
        × W.passed watch.old watch.new n) }
{
    match slope_code(alloc, job) {
        Ok(code) => verdict(alloc, job, code, watch),
        Err(failure) => Err(EnergyFault::of_energy(failure)),
    }
}
