//! Engines: a job and a state with slope code that the verifier accepts, and steps of the state.
//!
//! An engine is its course: it keeps its frames, its counter, the cells of its box and the scratch of its workers from
//! call to call. Contracts see the job, the types and the state; the engine's type states that the course is at the
//! state's frames (`IsEngine`). A call that makes steps writes the last frames to the state at its end.

ghost use Rattle.std.specs.Prelude.{◌≡◌, ◌<◌, ◌≤◌, length, is_none, false, None, IfOk, IfErr, OnOk};
ghost use Rattle.std.specs.Bool.{OnFalse, OnTrue};
ghost use Rattle.std.specs.List.{All};
ghost use Rattle.fallible.specs.Failures.{IfRefused};
ghost use Rattle.job.specs.Views.{job_value};
ghost use Rattle.potential.specs.Energies.{job_tree};
ghost use Rattle.state.specs.StateText.{IsState};
ghost use Rattle.state.specs.StateViews.{sides_view, state_view};
ghost use Rattle.engine.specs.Counting.{AllFit};
ghost use Rattle.engine.specs.Engines.{engine_dynamics, HasNoEngine, IsEngineOf, IsOfState, IsTyped, SaysOnly, Stopped, Advanced};
ghost use Rattle.engine.specs.EngineForces.{AreForcesOfEngine};
ghost use Rattle.engine.specs.Observers.{IsNextFrameOfEngine, IsObserverOf};
ghost use Rattle.engine.specs.EngineEnergies.{HasAcceptedEnergy, HasNoEnergy, IsEnergyOfEngine, engine_value};
ghost use Rattle.frame_sums.specs.FrameSums.{ArePairTotals};
ghost use Rattle.integrator.specs.States.{counter_after, current_frame, previous_frame};

use crate::courses::Course;
use crate::faults::InputFault;
use crate::observers::Observer;
use crate::systems::{accepted_atoms, accepted_system};
use fallible::Failure;
use fixed::Frac;
use frame_sums::{NoGate, Pool};
use integrator::{Direction, StepFault, Workers, counter_after};
use job::{Job, TimeStep};
use observables::PairTotals;
use potential::{EnergyFault, energy_kernel};
use ring_box::{Place3, RingBox, Vector};
use rounds::Gate;
use state::State;
use std::alloc::{AllocError, Allocator};
use std::marker::Model;
use std::thread::Threads;
use verifier::IgnoredProgress;

/// A job and a state that can be run. Only a failed allocation and the end of the step counter can stop its steps: for
/// each pair of types, and at each distance at which two atoms interact, the code returns the energy's derivative.
#[derive(Drop)]
pub struct Engine<A: Allocator + Copy> {
    alloc: A,
    job: Job<A>,
    state: State<A>,
    course: Course<A>,
}

impl<A: Allocator + Copy> Model for Engine<A> {
    ghost use Rattle.engine.specs.Engines.{EngineView};

    ghost Value = { EngineView };

    ghost use Rattle.engine.specs.EngineViews.{IsEngine, engine_view};

    ghost view = { λ e. engine_view e.job e.state e.course.system.system };

    ghost invariant = { λ e. IsEngine e.job e.state e.course };
}

impl<A: Allocator + Copy> Engine<A> {
    /// The engine with this job and this state, and the types that the job gives to the state's atoms.
    ///
    /// The errors come in this order: errors of the energy, of its derivative and of its code; `BitsDiffer` if the job
    /// and the state have different numbers of fraction bits; `UnknownType` for the lowest atom whose name is no
    /// type's; `CutoffTooLong` if some side is shorter than two cutoffs; `Kernel` if the verifier rejects the slope
    /// code; `ForceRange` if the verifier's bound on the derivative, times one less than the number of atoms, is 2^63
    /// or more. `Memory`: memory ran out.
    pub fn new(alloc: A, job: Job<A>, state: State<A>) -> Result<Engine<A>, Failure<InputFault<A>>>
        ensures engine { IfOk result (IsEngineOf (job_value job) (state_view state)) }
        ensures says { IfOk result (λ _. SaysOnly (job_value job) (job_tree (job_value job))) }
        ensures refused { IfErr result (λ failure. IfRefused failure (HasNoEngine (job_value job) (state_view state))) }
    {
        let system = accepted_system(alloc, &job, &state)?;
        let course = Course::new(alloc, system, &state)?;
        Ok(Engine {
            alloc,
            job,
            state,
            course,
        })
    }

    // ---- the current state of an engine

    /// The engine's current state, which has a text; initially the state passed to `new`. The engine has the types of
    /// the state's atoms under its job.
    pub fn state(&self) -> &State<A>
        ensures value { state_view result.now ≡ self.now.state }
        ensures fits { IsState self.now.state }
        ensures typed { IsTyped self.now }
    {
        &self.state
    }

    /// The time step of the engine's job.
    pub fn time_step(&self) -> TimeStep
        ensures { result ≡ self.now.job.time_step }
    {
        self.job.time_step
    }

    /// The fraction bits of the engine's numbers.
    pub fn frac(&self) -> Frac
        ensures { result ≡ self.now.job.frac }
    {
        self.job.frac
    }

    /// The step counter of the current frame.
    pub fn step(&self) -> i64
        ensures { result ≡ self.now.state.step }
    {
        self.state.step
    }

    /// The periodic box.
    pub fn ring(&self) -> RingBox
        ensures { sides_view result ≡ self.now.state.sides }
    {
        self.state.ring
    }

    /// The grid coordinates of each atom one step earlier.
    pub fn previous(&self) -> &[Place3]
        ensures { result.now ≡ previous_frame self.now.state.atoms }
    {
        &self.course.frames.previous
    }

    /// The grid coordinates of each atom.
    pub fn current(&self) -> &[Place3]
        ensures { result.now ≡ current_frame self.now.state.atoms }
    {
        &self.course.frames.current
    }

    /// The mass of each atom in 10^-5 u, in the order of the state's atoms.
    pub fn masses(&self) -> &[u32]
        ensures value { result.now ≡ (engine_dynamics self.now).masses }
        ensures atoms { length result.now ≡ length self.now.state.atoms }
        ensures few { length result.now ≤ 65536 }
        ensures light { All (λ m. m ≤ 100000000) result.now }
    {
        &self.course.system.system.masses
    }

    // ---- another state

    /// Takes another state under the same job, and keeps the accepted code.
    ///
    /// The errors are those of `new` that don't come from the job's energy, in the same order: `BitsDiffer`,
    /// `UnknownType`, `CutoffTooLong` and `ForceRange`. `Memory`: memory ran out. After an error the engine is
    /// unchanged.
    pub fn take(&mut self, state: State<A>) -> Result<(), Failure<InputFault<A>>>
        ensures engine { OnOk result (IsEngineOf self.old.job (state_view state) self.new) }
        ensures refused { IfErr result (λ failure. IfRefused failure
            (λ f. IsOfState f × HasNoEngine self.old.job (state_view state) f)) }
        ensures same { IfErr result (λ _. self.new ≡ self.old) }
    {
        let course = &self.course;
        let kernel = &course.system.system.kernel;
        let atoms = accepted_atoms(self.alloc, &self.job, kernel, &state)?;
        self.course.take(self.alloc, atoms, &state)?;
        self.state = state;
        Ok(())
    }

    // ---- sums over the pairs of the current frame

    /// An observer of the engine.
    ///
    /// `Energy`: the code of the energy itself would be too large. `Kernel`: the verifier rejects that code, though it
    /// accepts the slope code. `Memory`: memory ran out.
    pub fn observer(&self) -> Result<Observer<A>, Failure<EnergyFault<A>>>
        ensures observer { IfOk result (IsObserverOf self.now) }
        ensures refused { IfErr result (λ failure. IfRefused failure (HasNoEnergy self.now)) }
    {
        let program = &self.course.system.system.kernel.energy;
        match energy_kernel(self.alloc, &self.job, program, &mut IgnoredProgress) {
            Ok(kernel) => Ok(Observer { kernel }),
            Err(failure) => Err(failure),
        }
    }

    /// The energy and the other sums over the pairs of the current frame, in one pass over its pairs. The forces are
    /// found in the same pass, and kept for the next step forward. `AllocError`: memory ran out.
    pub fn observe(&mut self, observer: &Observer<A>) -> Result<PairTotals, AllocError>
        requires { IsObserverOf self.old observer.now }
        ensures totals { IfOk result
            (ArePairTotals (engine_dynamics self.old) (engine_value self.old) (current_frame self.old.state.atoms)) }
        ensures same { self.new ≡ self.old }
    {
        self.course.observe(self.alloc, &observer.kernel)
    }

    /// The energy of the current frame in 2^-bits kJ/mol. It is the exact sum of the job's energy over all interacting
    /// pairs, including atoms with the same position, at their distance, or at the core if the distance is less. The
    /// errors are as in `observer`.
    pub fn energy(&mut self) -> Result<i128, Failure<EnergyFault<A>>>
        ensures value { IfOk result (IsEnergyOfEngine self.old) }
        ensures accepted { IfOk result (λ _. HasAcceptedEnergy self.old) }
        ensures refused { IfErr result (λ failure. IfRefused failure (HasNoEnergy self.old)) }
        ensures same { self.new ≡ self.old }
    {
        let observer = self.observer()?;
        Ok(self.course.energy(&observer.kernel)?)
    }

    /// The frame after the current one, to which one step forward would move the atoms. Its forces are kept for that
    /// step. `AllocError`: memory ran out.
    pub fn next_frame(&mut self) -> Result<Vec<Place3, A>, AllocError>
        ensures next { IfOk result (λ frame. IsNextFrameOfEngine self.old frame.items) }
        ensures same { self.new ≡ self.old }
    {
        self.course.next_frame(self.alloc)
    }

    /// The forces on the atoms of the current frame, in their order and in 2^-bits kJ/mol/nm: on each atom the exact
    /// sum of its pair forces, which determines the next step. They are computed on the caller's thread. `AllocError`:
    /// memory ran out.
    pub fn forces(&mut self) -> Result<Vec<Vector<i64>, A>, AllocError>
        ensures forces { IfOk result (λ forces. AreForcesOfEngine self.old forces.items) }
        ensures same { self.new ≡ self.old }
    {
        self.course.forces(self.alloc)
    }

    // ---- steps

    /// Whether the step counter fits an i64 after n steps in a direction, and hence after each of them.
    pub fn fits(&self, direction: Direction, steps: u64) -> bool
        ensures each { OnTrue result (AllFit direction self.now.state.step steps) }
        ensures leaves { OnFalse result (counter_after direction self.now.state.step steps ≡ None) }
    {
        counter_after(direction, &self.state, steps).is_some()
    }

    /// Makes n steps in a direction on one thread. The step is Levesque and Verlet's (J. Stat. Phys. 72, 519, 1993),
    /// with the exact sums of the forces of all pairs and the energy's derivative as written.
    ///
    /// `StepRange` exactly if the step counter would leave an i64; then nothing is done. `Memory`: memory ran out, and
    /// the state is the one after `done` whole steps.
    pub fn steps_alone(&mut self, direction: Direction, steps: u64) -> Result<(), StepFault>
        ensures went { IfOk result (λ _. Advanced direction steps self.old self.new) }
        ensures stopped { IfErr result (Stopped direction steps self.old self.new) }
    {
        if !self.fits(direction, steps) {
            return Err(StepFault::StepRange);
        }
        let made = self.course.run_alone(self.alloc, direction, steps);
        self.course.arrive(&mut self.state);
        match made {
            Ok(()) => Ok(()),
            Err(done) => Err(StepFault::Memory { done }),
        }
    }
}

impl<A: Allocator + Copy + Send + Sync> Engine<A> {
    /// Makes n steps in a direction with a pool's workers, as `Course::run` does. If memory runs out, the error is the
    /// number of whole steps that were made.
    fn run<R: Threads + Sync, G: Gate + Sync>(
        &mut self,
        pool: &Pool<R, G>,
        direction: Direction,
        steps: u64,
        workers: Workers,
        hooked: bool,
    ) -> Result<(), u64>
        requires { is_none (counter_after direction self.old.state.step steps) ≡ false }
        ensures went { OnOk result (Advanced direction steps self.old self.new) }
        ensures stopped { IfErr result (λ done. (done < steps) × Advanced direction done self.old self.new) }
    {
        let made = self
            .course
            .run(self.alloc, pool, direction, steps, workers, hooked);
        self.course.arrive(&mut self.state);
        made
    }

    /// Makes n steps in a direction with a pool's workers, as `Course::run` does.
    fn run_in_range<R: Threads + Sync, G: Gate + Sync>(
        &mut self,
        pool: &Pool<R, G>,
        direction: Direction,
        steps: u64,
        workers: Workers,
        hooked: bool,
    ) -> Result<(), StepFault>
        ensures went { IfOk result (λ _. Advanced direction steps self.old self.new) }
        ensures stopped { IfErr result (Stopped direction steps self.old self.new) }
    {
        if !self.fits(direction, steps) {
            return Err(StepFault::StepRange);
        }
        self.run(pool, direction, steps, workers, hooked)
            .map_err(|done| StepFault::Memory { done })
    }

    /// Makes n steps in a direction with this number of workers; the caller's thread is the first. A single worker
    /// waits for no other. If memory runs out, the error is the number of whole steps that were made.
    pub fn steps_within<R: Threads + Sync>(
        &mut self,
        rt: &R,
        direction: Direction,
        steps: u64,
        workers: Workers,
    ) -> Result<(), u64>
        requires { is_none (counter_after direction self.old.state.step steps) ≡ false }
        ensures went { OnOk result (Advanced direction steps self.old self.new) }
        ensures stopped { IfErr result (λ done. (done < steps) × Advanced direction done self.old self.new) }
    {
        let pool = Pool { rt, gate: &NoGate };
        self.run(&pool, direction, steps, workers, false)
    }

    /// Makes n steps in a direction with this number of workers; the caller's thread is the first. States and errors
    /// are those of `steps_alone`, in whatever order the workers take their tiles and add their forces. If a worker's
    /// thread can't be started, the caller's thread runs it. A single worker waits for no other.
    pub fn make_steps<R: Threads + Sync>(
        &mut self,
        rt: &R,
        direction: Direction,
        steps: u64,
        workers: Workers,
    ) -> Result<(), StepFault>
        ensures went { IfOk result (λ _. Advanced direction steps self.old self.new) }
        ensures stopped { IfErr result (Stopped direction steps self.old self.new) }
    {
        let pool = Pool { rt, gate: &NoGate };
        self.run_in_range(&pool, direction, steps, workers, false)
    }

    /// Makes n steps as `make_steps` does. A worker calls the test hook `gate` before each tile that it has drawn. A
    /// single worker draws tiles, too.
    pub fn make_hooked_steps<R: Threads + Sync, G: Gate + Sync>(
        &mut self,
        rt: &R,
        direction: Direction,
        steps: u64,
        workers: Workers,
        gate: &G,
    ) -> Result<(), StepFault>
        ensures went { IfOk result (λ _. Advanced direction steps self.old self.new) }
        ensures stopped { IfErr result (Stopped direction steps self.old self.new) }
    {
        let pool = Pool { rt, gate };
        self.run_in_range(&pool, direction, steps, workers, true)
    }
}
