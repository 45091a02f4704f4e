//! The start of a tested run.

ghost use Rattle.std.specs.Prelude.{◌≡◌, ◌<◌, length, map, true, Ok, Err, IfErr, IfOk};
ghost use Rattle.std.specs.List.{All};
ghost use Rattle.fixed.specs.Arithmetic.{in_range};
ghost use Rattle.fixed.specs.Fractions.{bits_of};
ghost use Rattle.job.specs.Views.{job_value, type_value};
ghost use Rattle.state.specs.StateViews.{state_view};
ghost use Rattle.potential.specs.Energies.{IsCompiled};
ghost use Rattle.integrator.specs.Starts.{mass_of};
ghost use Rattle.potential.specs.Tables.{table_of};
ghost use Rattle.integrator.specs.States.{counter_at};
ghost use Rattle.potential.specs.EnergyViews.{energy_view};
ghost use Rattle.fallible.specs.Failures.{Gives, IfRefused};
ghost use Rattle.run_laws.specs.Refusals.{start_refusal};
ghost use Rattle.run_laws.specs.Starts.{StartsAs, start_at, start_with};
ghost use Rattle.run_laws.specs.TestedStarts.{faults_view, start_view, tested, tested_faults, HasFaults, HaveFaults};

use crate::tested_run::faults::StartFault;
use crate::tested_run::kernels::CodeKernel;
use crate::tested_run::prepared::Prepared;
use fallible::Failure;
use integrator::{Direction, System, TypedAtoms, counter_after, typed_atoms};
use job::Job;
use potential::{SlopeParts, job_slope, type_table};
use state::State;
use std::alloc::{AllocError, Allocator};

/// The kernel of a job with this energy.
fn kernel<A: Allocator + Copy>(
    alloc: A,
    job: &Job<A>,
    parts: SlopeParts<A>,
) -> Result<CodeKernel<A>, AllocError>
    requires { IsCompiled (bits_of job.now.frac) (length job.now.parameters.items) (length job.now.globals.items) (energy_view parts) }
    ensures parts { IfOk result (λ k. k.parts ≡ parts) }
    ensures table { IfOk result (λ k. k.table ≡ table_of (job_value job.now)) }
{
    let table = type_table(alloc, job)?;
    Ok(CodeKernel { parts, table })
}

/// The start of a run of this job with this kernel.
fn prepare<A: Allocator + Copy>(
    job: &Job<A>,
    state: State<A>,
    kernel: CodeKernel<A>,
    atoms: TypedAtoms<A>,
    counter: i64,
) -> Prepared<A>
    requires table { kernel.table ≡ table_of (job_value job.now) }
    requires known { All (λ k. k < length job.now.types.items) atoms.types.items }
    requires masses { atoms.masses.items ≡ map (mass_of (map type_value job.now.types.items)) atoms.types.items }
    requires count { length atoms.types.items ≡ length state.atoms.items }
    ensures value { start_view result
        ≡ start_at tested (job_value job.now) (state_view state) (energy_view kernel.parts, atoms.types.items) counter }
    ensures faults { faults_view result ≡ tested_faults (job_value job.now) (energy_view kernel.parts) atoms.types.items }
    ensures step { result.state.step ≡ state.step }
{
    let system = System {
        frac: job.frac,
        ring: state.ring,
        core: job.core,
        cutoff: job.cutoff,
        time_step: job.time_step,
        types: atoms.types,
        masses: atoms.masses,
        kernel,
    };
    Prepared {
        state,
        system,
        counter,
    }
}

/// The start of a tested run of this job and state. The errors are the errors of `run_bytes_checked` from the energy to
/// `StepRange`, in the same order.
#[tactic(auto, unfolding(crate::specs::Starts::start_with))]
fn started<A: Allocator + Copy>(
    alloc: A,
    direction: Direction,
    steps: u64,
    job: &Job<A>,
    state: State<A>,
) -> Result<Prepared<A>, Failure<StartFault<A>>>
    ensures value { Gives start_view start_refusal result (start_with tested direction steps (job_value job.now) (state_view state)) }
    ensures faults { IfOk result (λ p. HasFaults (job_value job.now) (state_view state) (faults_view p)) }
    ensures fits { IfOk result (λ p. in_range (counter_at direction p.state.step steps) ≡ true) }
{
    let parts = match job_slope(alloc, job) {
        Ok(parts) => parts,
        Err(failure) => return Err(StartFault::of_energy(failure)),
    };
    let atoms = match typed_atoms(alloc, job, &state) {
        Ok(atoms) => atoms,
        Err(failure) => return Err(StartFault::of_system(failure)),
    };
    let Some(counter) = counter_after(direction, &state, steps) else {
        return Err(Failure::Refused(StartFault::StepRange));
    };
    let kernel = kernel(alloc, job, parts)?;
    Ok(prepare(job, state, kernel, atoms, counter))
}

/// The start of a tested run of these texts. The errors are the errors of `run_bytes_checked` up to `StepRange`, in the
/// same order.
pub(crate) fn start<A: Allocator + Copy>(
    alloc: A,
    direction: Direction,
    steps: u64,
    job: &[u8],
    state: &[u8],
) -> Result<Prepared<A>, Failure<StartFault<A>>>
    ensures found { IfOk result (λ p. StartsAs tested job.now state.now direction steps (Ok (start_view p))) }
    ensures refused { IfErr result (λ failure. IfRefused failure (λ f.
        StartsAs tested job.now state.now direction steps (Err (start_refusal f)))) }
    ensures faults { IfOk result (λ p. HaveFaults job.now state.now (faults_view p)) }
    ensures fits { IfOk result (λ p. in_range (counter_at direction p.state.step steps) ≡ true) }
{
    let job = match Job::read(alloc, job) {
        Ok(job) => job,
        Err(failure) => return Err(StartFault::of_job(failure)),
    };
    let state = match State::read(alloc, state) {
        Ok(state) => state,
        Err(failure) => return Err(StartFault::of_state(failure)),
    };
    started(alloc, direction, steps, &job, state)
}
