//! The system of a job and a state, if its slope code is accepted; and the atoms of another state, if the code is
//! accepted for them.

ghost use Rattle.std.specs.Prelude.{◌-◌, ◌*◌, ◌^◌, ◌<◌, ◌≤◌, IfOk, IfErr};
ghost use Rattle.std.specs.Bool.{OnFalse, OnTrue};
ghost use Rattle.fallible.specs.Failures.{IfRefused};
ghost use Rattle.job.specs.Views.{job_value};
ghost use Rattle.potential.specs.Energies.{job_tree};
ghost use Rattle.potential.specs.Verdicts.{IsSlopeKernel};
ghost use Rattle.state.specs.StateViews.{state_view};
ghost use Rattle.engine.specs.Engines.{HasNoEngine, IsEngineOf, IsOfState, SaysOnly};
ghost use Rattle.engine.specs.EngineViews.{AreAtomsOf, IsSystemOf, engine_view};
ghost use Rattle.frame_sums.specs.SafeSystems.{IsSafeSystem};

use crate::faults::{InputFault, refused_as};
use fallible::Failure;
use integrator::{System, TypedAtoms, typed_atoms};
use job::Job;
use potential::{EnergyFault, SlopeKernel, job_slope};
use state::State;
use std::alloc::Allocator;
use verifier::IgnoredProgress;

/// Whether the force on each of this many atoms fits 64 bits, given the verifier's bound on the derivative.
fn forces_fit(bound: u64, atoms: usize) -> bool
    ensures fits { OnTrue result (bound * (atoms - 1) < 2 ^ 63) }
    ensures far { OnFalse result (2 ^ 63 ≤ bound * (atoms - 1)) }
{
    let others = atoms.saturating_sub(1);
    let most = u128::from(bound) * (others as u128);
    most < 9_223_372_036_854_775_808
}

/// The system of a state's atoms under a job, or the engine's error. `ForceRange`: a force might not fit 64 bits.
pub(crate) fn accepted_system<A: Allocator + Copy>(
    alloc: A,
    job: &Job<A>,
    state: &State<A>,
) -> Result<System<SlopeKernel<A>, A>, Failure<InputFault<A>>>
    ensures safe { IfOk result IsSafeSystem }
    ensures system { IfOk result (IsSystemOf job.now state.now) }
    ensures says { IfOk result (λ _. SaysOnly (job_value job.now) (job_tree (job_value job.now))) }
    ensures of { IfOk result (λ system.
        IsEngineOf (job_value job.now) (state_view state.now) (engine_view job.now state.now system)) }
    ensures refused { IfErr result (λ failure.
        IfRefused failure (HasNoEngine (job_value job.now) (state_view state.now))) }
{
    let parts = match job_slope(alloc, job) {
        Ok(parts) => parts,
        Err(failure) => return Err(refused_as(
            failure,
            |f| InputFault::Energy(EnergyFault::Energy(f)),
        )),
    };
    let atoms = match typed_atoms(alloc, job, state) {
        Ok(atoms) => atoms,
        Err(failure) => return Err(refused_as(failure, |f| InputFault::System(f))),
    };
    let kernel = match SlopeKernel::new(alloc, job, parts, &mut IgnoredProgress) {
        Ok(kernel) => kernel,
        Err(failure) => return Err(refused_as(failure, |f| InputFault::Energy(f))),
    };
    if !forces_fit(kernel.verified.bound(), state.atoms.len()) {
        return Err(Failure::Refused(InputFault::ForceRange));
    }
    Ok(System {
        frac: job.frac,
        ring: state.ring,
        core: job.core,
        cutoff: job.cutoff,
        time_step: job.time_step,
        types: atoms.types,
        masses: atoms.masses,
        kernel,
    })
}

/// The types and masses of a state's atoms under a job whose slope code is accepted, or the engine's error.
/// `ForceRange`: a force might not fit 64 bits.
pub(crate) fn accepted_atoms<A: Allocator + Copy>(
    alloc: A,
    job: &Job<A>,
    kernel: &SlopeKernel<A>,
    state: &State<A>,
) -> Result<TypedAtoms<A>, Failure<InputFault<A>>>
    requires { IsSlopeKernel (job_value job.now) kernel.now.verified }
    ensures atoms { IfOk result (AreAtomsOf job.now state.now kernel.now.verified) }
    ensures refused { IfErr result (λ failure. IfRefused failure
        (λ f. IsOfState f × HasNoEngine (job_value job.now) (state_view state.now) f)) }
{
    let atoms = match typed_atoms(alloc, job, state) {
        Ok(atoms) => atoms,
        Err(failure) => return Err(refused_as(failure, |f| InputFault::System(f))),
    };
    if !forces_fit(kernel.verified.bound(), atoms.types.len()) {
        return Err(Failure::Refused(InputFault::ForceRange));
    }
    Ok(atoms)
}
