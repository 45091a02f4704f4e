//! A job's potential: the accepted code of its slope and of its energy, its formula, and the formula of its slope.
ghost use Rattle.std.specs.Prelude.{◌≡◌, ◌*◌, ℕ, IfOk, IfErr, OnOk, Some, Ok, length};
ghost use Rattle.fallible.specs.Failures.{IfRefused};
ghost use Rattle.fixed.specs.Fractions.{bits_of};
ghost use Rattle.derivative.specs.Derive.{slope_program};
ghost use Rattle.derivative.specs.Slope.{slope_of};
ghost use Rattle.energy_program.specs.Programs.{Trees, program_tree, trees_of};
ghost use Rattle.energy_program.specs.Value.{value_of};
ghost use Rattle.job.specs.Views.{job_value};
ghost use Rattle.kernel_code.specs.Tables.{inputs_of};
ghost use Rattle.kernel_lanes.specs.Lanes.{IsServed};
ghost use Rattle.potential.specs.Energies.{energy_code_of, job_program, slope_code_of};
ghost use Rattle.potential.specs.EnergyKernels.{HasNoEnergyKernel};
ghost use Rattle.potential.specs.Progress.{IsPassedBefore, slices_of};
ghost use Rattle.potential.specs.Tables.{table_of};
ghost use Rattle.potential.specs.Verdicts.{HasNoSlopeKernel, IsSlopeKernel};
ghost use Rattle.curves.specs.Potentials.{IsDerived, IsPotentialOf};
ghost use Rattle.curves.specs.Progress.{IsStoppedAfter};
ghost use Rattle.curves.specs.Tables.{HasNoCurve};

use derivative::derive;
use energy_program::Program;
use fallible::{Failure, pair};
use fixed::{Frac, Fx};
use formula_bounds::Formula;
use job::Job;
use kernel_lanes::Query;
use kernel_machine::Stack;
use potential::{EnergyFault, LaneKernel, SlopeKernel, energy_kernel, job_slope};
use std::alloc::{AllocError, Allocator};
use verifier::Progress;

/// A job's potential.
#[derive(Drop)]
pub(crate) struct Potential<A: Allocator> {
    /// The energy, and the accepted code of its slope.
    pub(crate) slope: SlopeKernel<A>,
    /// The accepted code of the energy itself.
    pub(crate) energy: LaneKernel<A>,
    /// The energy's formula.
    pub(crate) formula: Formula<A>,
    /// The slope's formula, for its own derivative.
    pub(crate) derived: Formula<A>,
}

// A job's energy, and the accepted code of its slope. Reports each accepted slice.
fn slope_kernel<A: Allocator + Copy, W: Progress>(
    alloc: A,
    job: &Job<A>,
    watch: &mut W,
) -> Result<SlopeKernel<A>, Failure<EnergyFault<A>>>
    ensures program { IfOk result (λ k. job_program (job_value job.now) ≡ Ok (trees_of k.energy)) }
    ensures parameters { IfOk result (λ k. k.energy.parameters ≡ length job.now.parameters.items) }
    ensures globals { IfOk result (λ k. k.energy.globals ≡ length job.now.globals.items) }
    ensures kernel { IfOk result (λ k. IsSlopeKernel (job_value job.now) k.verified) }
    ensures refused { IfErr result (λ failure. IfRefused failure (HasNoSlopeKernel (job_value job.now))) }
    ensures passed { OnOk result (W.passed watch.old watch.new (slices_of (job_value job.now))) }
    ensures stopped { IfErr result (λ failure. (n : ℕ) × IsPassedBefore (job_value job.now) (slope_code_of (job_value job.now)) failure n
        × W.passed watch.old watch.new n) }
{
    match job_slope(alloc, job) {
        Ok(parts) => match SlopeKernel::new(alloc, job, parts, watch) {
            Ok(kernel) => Ok(kernel),
            Err(failure) => Err(failure),
        },
        Err(failure) => Err(EnergyFault::of_energy(failure)),
    }
}

// The formula of the derivative of a program.
fn derived_formula<A: Allocator + Copy>(
    alloc: A,
    frac: Frac,
    program: &Program<A>,
) -> Result<Formula<A>, AllocError>
    requires { (slope : Trees) × (slope_program (bits_of frac) (trees_of program.now) ≡ Ok slope) }
    ensures { IfOk result (IsDerived (bits_of frac) (trees_of program.now)) }
{
    match derive(alloc, frac, program) {
        Ok(slope) => Formula::new(alloc, &slope),
        Err(Failure::Memory) => Err(AllocError),
        Err(Failure::Refused(_)) => unreachable!(),
    }
}

impl<A: Allocator + Copy> Potential<A> {
    // The potential with this slope. Reports each accepted slice of the energy's code. Calls drop what it owns: otherwise
    // the prover follows the drop of each field on each path.
    fn with_slope<W: Progress>(
        alloc: A,
        job: &Job<A>,
        slope: SlopeKernel<A>,
        watch: &mut W,
    ) -> Result<Potential<A>, Failure<EnergyFault<A>>>
        requires program { job_program (job_value job.now) ≡ Ok (trees_of slope.energy) }
        requires parameters { slope.energy.parameters ≡ length job.now.parameters.items }
        requires globals { slope.energy.globals ≡ length job.now.globals.items }
        requires kernel { IsSlopeKernel (job_value job.now) slope.verified }
        ensures is { IfOk result (IsPotentialOf (job_value job.now)) }
        ensures refused { IfErr result (λ failure. IfRefused failure (HasNoEnergyKernel (job_value job.now))) }
        ensures passed { OnOk result (W.passed watch.old watch.new (slices_of (job_value job.now))) }
        ensures stopped { IfErr result (λ failure. (n : ℕ)
            × IsPassedBefore (job_value job.now) (energy_code_of (job_value job.now)) failure n
            × W.passed watch.old watch.new n) }
    {
        let energy = match energy_kernel(alloc, job, &slope.energy, watch) {
            Ok(energy) => energy,
            Err(failure) => {
                drop(slope);
                return Err(failure);
            }
        };
        let formula = Formula::new(alloc, &slope.energy);
        let derived = derived_formula(alloc, job.frac, &slope.energy);
        match pair(formula, derived) {
            Ok((formula, derived)) => Ok(Potential {
                slope,
                energy,
                formula,
                derived,
            }),
            Err(_) => {
                drop(slope);
                drop(energy);
                Err(Failure::Memory)
            }
        }
    }

    /// The potential of a job. Reports each accepted slice of the slope's code, then of the energy's code.
    ///
    /// Returns the errors of the job's energy and of its slope's code, then those of the energy's own code. `Memory`:
    /// memory ran out.
    pub(crate) fn new<W: Progress>(
        alloc: A,
        job: &Job<A>,
        watch: &mut W,
    ) -> Result<Potential<A>, Failure<EnergyFault<A>>>
        ensures is { IfOk result (IsPotentialOf (job_value job.now)) }
        ensures refused { IfErr result (λ failure. IfRefused failure (HasNoCurve (job_value job.now))) }
        ensures passed { OnOk result (W.passed watch.old watch.new (2 * slices_of (job_value job.now))) }
        ensures stopped { IfErr result (λ failure. (n : ℕ)
            × IsStoppedAfter (job_value job.now) (2 * slices_of (job_value job.now)) failure n
            × W.passed watch.old watch.new n) }
    {
        let slope = match slope_kernel(alloc, job, watch) {
            Ok(slope) => slope,
            Err(failure) => return Err(failure),
        };
        match Potential::with_slope(alloc, job, slope, watch) {
            Ok(potential) => Ok(potential),
            Err(failure) => Err(failure),
        }
    }
}

impl<A: Allocator> Potential<A> {
    /// The energy for two types at a distance.
    pub(crate) fn energy_at(&self, job: &Job<A>, query: &Query) -> Fx
        requires is { IsPotentialOf (job_value job.now) self.now }
        requires served { IsServed self.now.energy query.now }
        ensures { value_of (bits_of job.now.frac) (inputs_of (table_of (job_value job.now)) query.now.a query.now.b query.now.r)
            (program_tree self.now.slope.energy) ≡ Some result }
    {
        self.energy.value(&mut Stack::new(), *query)
    }

    /// The slope for two types at a distance.
    pub(crate) fn slope_at(&self, job: &Job<A>, query: &Query) -> Fx
        requires is { IsPotentialOf (job_value job.now) self.now }
        requires served { IsServed self.now.slope.verified query.now }
        ensures { slope_of (bits_of job.now.frac) (inputs_of (table_of (job_value job.now)) query.now.a query.now.b query.now.r)
            (program_tree self.now.slope.energy) ≡ Some result }
    {
        self.slope.verified.value(&mut Stack::new(), *query)
    }
}
