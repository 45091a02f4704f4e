//! Accepted code of a job's energy itself.

ghost use Rattle.std.specs.Prelude.{◌≡◌, ℕ, length, IfErr, IfOk, Ok, OnOk};
ghost use Rattle.energy_program.specs.Programs.{program_tree, trees_of};
ghost use Rattle.fallible.specs.Failures.{IfRefused};
ghost use Rattle.job.specs.Views.{job_value};
ghost use Rattle.potential.specs.Energies.{energy_code_of, job_program};
ghost use Rattle.potential.specs.EnergyKernels.{GivesEnergy, HasEnergies, HasNoEnergyKernel, IsEnergyKernel};
ghost use Rattle.potential.specs.Progress.{IsPassedBefore, slices_of};
ghost use Rattle.potential.specs.Verdicts.{IsUnder};

use crate::faults::EnergyFault;
use crate::lane_kernels::LaneKernel;
use crate::verdicts::verdict;
use energy_program::Program;
use fallible::Failure;
use job::Job;
use kernel_compiler::compile;
use std::alloc::Allocator;
use verifier::Progress;

/// The code of a job's energy, accepted under the job and prepared for lanes. `program` is the program of the job's
/// energy. Reports each accepted slice to the watcher.
///
/// Returns the errors of `compile`, then `Kernel` if the verifier rejects the code. `Memory`: memory ran out.
pub fn energy_kernel<A: Allocator + Copy, W: Progress>(
    alloc: A,
    job: &Job<A>,
    program: &Program<A>,
    watch: &mut W,
) -> Result<LaneKernel<A>, Failure<EnergyFault<A>>>
    requires program { job_program (job_value job.now) ≡ Ok (trees_of program.now) }
    requires parameters { program.now.parameters ≡ length job.now.parameters.items }
    requires globals { program.now.globals ≡ length job.now.globals.items }
    // The energy's own code, with the verifier's answer under the job's slices.
    ensures kernel { IfOk result (IsEnergyKernel (job_value job.now)) }
    ensures under { IfOk result (IsUnder (job_value job.now)) }
    ensures gives { IfOk result (GivesEnergy (program_tree program.now)) }
    ensures has { IfOk result (HasEnergies (program_tree program.now)) }
    ensures refused { IfErr result (λ failure. IfRefused failure (HasNoEnergyKernel (job_value job.now))) }
    ensures passed { OnOk result (W.passed watch.old watch.new (slices_of (job_value job.now))) }
    ensures stopped { IfErr result (λ failure. (n : ℕ) × IsPassedBefore (job_value job.now) (energy_code_of (job_value job.now)) failure n
        × W.passed watch.old watch.new n) }
{
    match compile(alloc, job.frac, program) {
        Ok(code) => match verdict(alloc, job, code, watch) {
            Ok(verified) => match LaneKernel::new(alloc, verified) {
                Ok(kernel) => Ok(kernel),
                Err(_) => Err(Failure::Memory),
            },
            Err(failure) => Err(failure),
        },
        Err(failure) => Err(EnergyFault::of_energy(failure)),
    }
}
