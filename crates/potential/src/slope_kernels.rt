//! The derivative of a job's energy, computed by accepted code.

ghost use Rattle.std.specs.Prelude.{◌≡◌, ℕ, ℤ, ◌<◌, ◌≤ℤ◌, ◌<ℤ◌, true, length};
ghost use Rattle.fixed.specs.Fractions.{bits_of};
ghost use Rattle.energy_program.specs.Programs.{program_tree};
ghost use Rattle.kernel_code.specs.Tables.{inputs_of};
ghost use Rattle.derivative.specs.Slope.{slope_of};
ghost use Rattle.potential.specs.CodeSlopes.{GivesSlope};
ghost use Rattle.potential.specs.Magnitudes.{is_small};

use crate::faults::EnergyFault;
use crate::lane_kernels::LaneKernel;
use crate::slope_parts::SlopeParts;
use crate::verdicts::verdict;
use energy_program::Program;
use fallible::Failure;
use job::Job;
use std::alloc::Allocator;
use verifier::Progress;

/// An energy, and the accepted code of its derivative, prepared for lanes. For each pair of types in the table, and at
/// each distance from the core to below the cutoff, the code returns the derivative of the energy as written. The
/// derivative's magnitude is at most the verifier's bound.
#[derive(Drop)]
pub struct SlopeKernel<A: Allocator> {
    /// The energy as its text defines it.
    pub energy: Program<A>,
    /// The accepted code of the derivative.
    pub verified: LaneKernel<A>,
    pub ghost bounded: { (a b : ℕ) (r : ℤ) → a < length verified.table.rows → b < length verified.table.rows
        → verified.core ≤ℤ r → r <ℤ verified.cutoff
        → is_small verified.bound (slope_of (bits_of verified.table.frac) (inputs_of verified.table a b r) (program_tree energy)) ≡ true },
    pub ghost gives: { (a b : ℕ) (r : ℤ) → a < length verified.table.rows → b < length verified.table.rows
        → GivesSlope (bits_of verified.table.frac) (program_tree energy) verified.code (inputs_of verified.table a b r) },
}

impl<A: Allocator + Copy> SlopeKernel<A> {
    ghost use Rattle.std.specs.Prelude.{IfErr, IfOk, Ok, OnOk};
    ghost use Rattle.fallible.specs.Failures.{IfRefused};
    ghost use Rattle.job.specs.Views.{job_value};
    ghost use Rattle.potential.specs.Energies.{IsCompiled};
    ghost use Rattle.potential.specs.EnergyViews.{energy_view};
    ghost use Rattle.potential.specs.Progress.{IsPassedBefore, slices_of};
    ghost use Rattle.potential.specs.Verdicts.{HasNoKernel, IsAccepted};

    /// Has the verifier check the code of an energy's derivative under the job's types, core, cutoff and slices, and
    /// prepares the code for lanes. Reports each accepted slice to the watcher.
    ///
    /// `Kernel`: the verifier rejects the code. `Memory`: memory ran out.
    pub fn new<W: Progress>(
        alloc: A,
        job: &Job<A>,
        parts: SlopeParts<A>,
        watch: &mut W,
    ) -> Result<SlopeKernel<A>, Failure<EnergyFault<A>>>
        requires { IsCompiled (bits_of job.now.frac) (length job.now.parameters.items) (length job.now.globals.items) (energy_view parts) }
        ensures energy { IfOk result (λ k. k.energy ≡ parts.energy) }
        ensures accepted { IfOk result (λ k. IsAccepted (job_value job.now) parts.code k.verified) }
        ensures refused { IfErr result (λ failure. IfRefused failure (HasNoKernel (job_value job.now) parts.code)) }
        ensures passed { OnOk result (W.passed watch.old watch.new (slices_of (job_value job.now))) }
        ensures stopped { IfErr result (λ failure. (n : ℕ) × IsPassedBefore (job_value job.now) (Ok parts.code) failure n
            × W.passed watch.old watch.new n) }
    {
        let SlopeParts {
            energy,
            slope,
            code,
        } = parts;
        drop(slope);
        match verdict(alloc, job, code, watch) {
            Ok(verified) => match LaneKernel::new(alloc, verified) {
                Ok(verified) => Ok(SlopeKernel { energy, verified }),
                Err(_) => Err(Failure::Memory),
            },
            Err(failure) => Err(failure),
        }
    }
}
