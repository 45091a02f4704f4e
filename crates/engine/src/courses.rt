//! Courses: two consecutive frames of a system, their counter, and steps.
//!
//! A course keeps the data of steps from call to call: the cells of the box, scratch for the workers, and the forces on
//! the atoms of the current frame, if they are known. An observation leaves them for the first step forward. A step back
//! leaves those that it used, since its middle frame becomes the current one.
//!
//! A step allocates before it moves an atom, so a failed allocation leaves the frames after whole steps. One worker
//! sums on the caller's thread (`run_alone`), without threads, tickets and atomic additions.

ghost use Rattle.std.specs.Prelude.{◌≡◌, ◌<◌, ◌^◌, length, Some};
ghost use Rattle.std.specs.Option.{ForSome};
ghost use lib.Signed.{mag};
ghost use Rattle.integrator.specs.Frames.{next_frame};
ghost use Rattle.frame_sums.specs.Rounds.{AreForces};
ghost use Rattle.frame_sums.specs.SafeSystems.{safe_dynamics};
ghost use Rattle.engine.specs.Counting.{middle_of};

use fallible::pair;
use frame_sums::{Crew, Pool, SafeSystem, forces_on};
use integrator::{Direction, Stepped, System, TypedAtoms, Workers, advance, frames_of};
use observables::PairTotals;
use potential::{LaneKernel, SlopeKernel};
use ring_box::{Place3, Vector};
use rounds::{Forces, Gate, Memory};
use state::State;
use std::alloc::{AllocError, Allocator};
use std::mem;
use std::thread::Threads;

/// Two consecutive frames of a system, and the data that its steps reuse.
#[derive(Drop)]
pub(crate) struct Course<A: Allocator + Copy> {
    pub(crate) system: SafeSystem<A>,
    pub(crate) frames: Stepped<A>,
    /// The counter of the current frame.
    step: i64,
    crew: Crew<A>,
    /// The sums of the forces on the atoms of the current frame, if they are known.
    forces: Option<Forces<A>>,
    ghost previous_atoms: { length frames.previous.items ≡ length system.system.masses.items },
    ghost current_atoms: { length frames.current.items ≡ length system.system.masses.items },
    ghost step_fits: { mag step < 2 ^ 63 },
    ghost kept: { ForSome forces (AreForces system.system frames.current.items) },
}

/// The frame whose forces a step in a direction needs.
fn middle<A: Allocator>(frames: &Stepped<A>, direction: Direction) -> &[Place3]
    ensures { result.now ≡ middle_of direction frames.now.previous.items frames.now.current.items }
{
    match direction {
        Direction::Forward => &frames.current,
        Direction::Back => &frames.previous,
    }
}

/// Replaces the frames `before` and `middle` by `middle` and the frame after both. `sums` are the forces on the atoms
/// at `middle`.
fn follow<A: Allocator + Copy>(
    system: &SafeSystem<A>,
    before: &mut Vec<Place3, A>,
    middle: &mut Vec<Place3, A>,
    sums: &[i64],
)
    requires before { length before.old.items ≡ length system.now.system.masses.items }
    requires middle { length middle.old.items ≡ length system.now.system.masses.items }
    requires sums { AreForces system.now.system middle.old.items sums.now }
    ensures next { next_frame (safe_dynamics system.now.system) before.old.items middle.old.items
        ≡ Some middle.new.items }
    ensures kept { before.new.items ≡ middle.old.items }
    ensures size { length middle.new.items ≡ length middle.old.items }
{
    system.advance(before, middle, sums);
    mem::swap(before, middle);
}

impl<A: Allocator + Copy> Course<A> {
    ghost use Rattle.std.specs.Prelude.{◌≡◌, length, is_none, false, Some, IfErr, IfOk, IfSome, OnOk};
    ghost use Rattle.integrator.specs.Frames.{next_frame};
    ghost use Rattle.integrator.specs.States.{counter_after, frames_of, moved_state};
    ghost use Rattle.state.specs.StateViews.{state_view};
    ghost use Rattle.frame_sums.specs.Rounds.{AreForces, AreForcesOn};
    ghost use Rattle.frame_sums.specs.FrameSums.{ArePairTotals};
    ghost use Rattle.frame_sums.specs.SafeEnergies.{IsEnergyOf, safe_value};
    ghost use Rattle.frame_sums.specs.SafeSystems.{HasAtoms, IsSafeSystem, IsSafeWith, safe_dynamics};
    ghost use Rattle.engine.specs.Counting.{AllFit, IsCodeOf};
    ghost use Rattle.engine.specs.Courses.{HasGone, HasRun, IsSameCourse, frames_in, middle_in};

    /// The course at the frames and the counter of a state. `AllocError`: memory ran out.
    pub fn new(
        alloc: A,
        system: System<SlopeKernel<A>, A>,
        state: &State<A>,
    ) -> Result<Course<A>, AllocError>
        requires safe { IsSafeSystem system }
        requires atoms { length state.now.atoms.items ≡ length system.masses.items }
        ensures system { IfOk result (λ c. c.system.system ≡ system) }
        ensures frames { IfOk result (λ c. frames_in c ≡ frames_of (state_view state.now)) }
        ensures step { IfOk result (λ c. c.step ≡ state.now.step) }
    {
        let system = SafeSystem::new(alloc, system);
        let frames = frames_of(alloc, state);
        let crew = Crew::new(alloc, Workers::new(1));
        let ((system, frames), crew) = pair(pair(system, frames), crew)?;
        Ok(Course {
            system,
            frames,
            step: state.step,
            crew,
            forces: None,
        })
    }

    /// Goes to the frames and the counter of another state, with its atoms and its box, and forgets the forces.
    /// `AllocError`: memory ran out, and the course is unchanged.
    pub fn take(
        &mut self,
        alloc: A,
        atoms: TypedAtoms<A>,
        state: &State<A>,
    ) -> Result<(), AllocError>
        requires typed { length atoms.types.items ≡ length state.now.atoms.items }
        requires massive { length atoms.masses.items ≡ length state.now.atoms.items }
        requires safe { IsSafeWith self.old.system.system state.now.ring atoms.types.items atoms.masses.items }
        ensures taken { OnOk result
            (HasAtoms self.old.system.system state.now.ring atoms.types.items atoms.masses.items self.new.system.system) }
        ensures frames { OnOk result (frames_in self.new ≡ frames_of (state_view state.now)) }
        ensures step { OnOk result (self.new.step ≡ state.now.step) }
        ensures same { IfErr result (λ _. IsSameCourse self.old self.new) }
    {
        let taken = frames_of(alloc, state)?;
        let Course {
            system,
            frames,
            step,
            forces,
            ..
        } = self;
        system.take(alloc, state.ring, atoms)?;
        *frames = taken;
        *step = state.step;
        *forces = None;
        Ok(())
    }

    /// Sets a state to the frames and the counter.
    pub fn arrive(&self, state: &mut State<A>)
        requires previous { length self.now.frames.previous.items ≡ length state.old.atoms.items }
        requires current { length self.now.frames.current.items ≡ length state.old.atoms.items }
        ensures value { state_view state.new ≡ moved_state (state_view state.old) (frames_in self.now) self.now.step }
        ensures ring { state.new.ring ≡ state.old.ring }
        ensures atoms { length state.new.atoms.items ≡ length state.old.atoms.items }
    {
        advance(state, &self.frames, self.step);
    }

    // ---- sums over the pairs of a frame

    /// Takes the forces that a step in a direction needs, if they are known.
    fn take_forces(&mut self, direction: Direction) -> Option<Forces<A>>
        ensures forces { IfSome result (AreForces self.old.system.system (middle_in direction self.old)) }
        ensures same { IsSameCourse self.old self.new }
    {
        let forces = self.forces.take();
        match direction {
            Direction::Forward => forces,
            Direction::Back => None,
        }
    }

    /// The forces that a step in a direction needs: those that are known, or new ones, summed on the caller's thread.
    fn forces_alone(&mut self, alloc: A, direction: Direction) -> Result<Forces<A>, Memory>
        ensures forces { IfOk result (AreForces self.old.system.system (middle_in direction self.old)) }
        ensures same { IsSameCourse self.old self.new }
    {
        if let Some(forces) = self.take_forces(direction) {
            return Ok(forces);
        }
        let middle = middle(&self.frames, direction);
        self.system.sums_alone(alloc, self.crew.first(), middle)
    }

    /// The energy and the other sums over the pairs of the current frame. Its forces are found in the same pass and kept
    /// for the next step forward. `AllocError`: memory ran out.
    pub fn observe(&mut self, alloc: A, kernel: &LaneKernel<A>) -> Result<PairTotals, AllocError>
        requires { IsCodeOf self.old.system.system kernel.now }
        ensures totals { IfOk result (ArePairTotals (safe_dynamics self.old.system.system)
            (safe_value self.old.system.system) self.old.frames.current.items) }
        ensures same { IsSameCourse self.old self.new }
    {
        let current = &self.frames.current;
        let (totals, forces) = self
            .system
            .observe(alloc, kernel, self.crew.first(), current)?;
        self.forces = Some(forces);
        Ok(totals)
    }

    /// The energy of the current frame. `AllocError`: memory ran out.
    pub fn energy(&mut self, kernel: &LaneKernel<A>) -> Result<i128, AllocError>
        requires { IsCodeOf self.old.system.system kernel.now }
        ensures energy { IfOk result (IsEnergyOf self.old.system.system self.old.frames.current.items) }
        ensures same { IsSameCourse self.old self.new }
    {
        self.system
            .energy(kernel, self.crew.first(), &self.frames.current)
    }

    /// The forces on the atoms of the current frame. They are kept for the next step forward. `AllocError`: memory ran
    /// out.
    pub fn forces(&mut self, alloc: A) -> Result<Vec<Vector<i64>, A>, AllocError>
        ensures forces { IfOk result (λ forces.
            AreForcesOn self.old.system.system self.old.frames.current.items forces.items) }
        ensures same { IsSameCourse self.old self.new }
    {
        let Ok(sums) = self.forces_alone(alloc, Direction::Forward) else {
            return Err(AllocError);
        };
        let forces = forces_on(alloc, sums.as_slice(), self.frames.current.len())?;
        self.forces = Some(sums);
        Ok(forces)
    }

    /// The frame after the current one. Its forces are kept for the next step forward. `AllocError`: memory ran out.
    pub fn next_frame(&mut self, alloc: A) -> Result<Vec<Place3, A>, AllocError>
        ensures next { IfOk result (λ frame.
            let c = self.old in
            next_frame (safe_dynamics c.system.system) c.frames.previous.items c.frames.current.items
            ≡ Some frame.items) }
        ensures same { IsSameCourse self.old self.new }
    {
        let mut frame = Vec::from_slice(alloc, &self.frames.previous)?;
        let Ok(sums) = self.forces_alone(alloc, Direction::Forward) else {
            return Err(AllocError);
        };
        self.system
            .advance(&mut frame, &self.frames.current, sums.as_slice());
        self.forces = Some(sums);
        Ok(frame)
    }

    // ---- steps

    /// Makes one step in a direction with the forces that it needs. A step back keeps them: its middle frame becomes the
    /// current one.
    fn make_step(&mut self, direction: Direction, forces: Forces<A>)
        requires forces { AreForces self.old.system.system (middle_in direction self.old) forces }
        requires fits { is_none (counter_after direction self.old.step 1) ≡ false }
        ensures { HasGone direction 1 self.old self.new }
    {
        match direction {
            Direction::Forward => {
                follow(
                    &self.system,
                    &mut self.frames.previous,
                    &mut self.frames.current,
                    forces.as_slice(),
                );
                self.forces = None;
                self.step += 1;
            }
            Direction::Back => {
                follow(
                    &self.system,
                    &mut self.frames.current,
                    &mut self.frames.previous,
                    forces.as_slice(),
                );
                self.forces = Some(forces);
                self.step -= 1;
            }
        }
    }

    /// Makes n steps in a direction, on the caller's thread. If memory runs out, the error is the number of steps made.
    pub fn run_alone(&mut self, alloc: A, direction: Direction, steps: u64) -> Result<(), u64>
        requires { AllFit direction self.old.step steps }
        ensures { HasRun direction steps self.old self.new result }
    {
        for done in 0..steps {
            match self.forces_alone(alloc, direction) {
                Ok(forces) => self.make_step(direction, forces),
                Err(_) => return Err(done),
            }
        }
        Ok(())
    }
}

impl<A: Allocator + Copy + Send + Sync> Course<A> {
    ghost use Rattle.std.specs.Prelude.{IfOk};
    ghost use Rattle.frame_sums.specs.Rounds.{AreForces};
    ghost use Rattle.engine.specs.Counting.{AllFit};
    ghost use Rattle.engine.specs.Courses.{HasRun, IsSameCourse, middle_in};

    /// The forces that a step in a direction needs: those that are known, or new ones, summed by a pool's workers.
    fn forces_pooled<R: Threads + Sync, G: Gate + Sync>(
        &mut self,
        alloc: A,
        pool: &Pool<R, G>,
        direction: Direction,
    ) -> Result<Forces<A>, Memory>
        ensures forces { IfOk result (AreForces self.old.system.system (middle_in direction self.old)) }
        ensures same { IsSameCourse self.old self.new }
    {
        if let Some(forces) = self.take_forces(direction) {
            return Ok(forces);
        }
        let middle = middle(&self.frames, direction);
        self.system.sums_pooled(alloc, pool, &mut self.crew, middle)
    }

    /// Makes n steps in a direction with a pool's workers. If memory runs out, the error is the number of steps made.
    fn run_by<R: Threads + Sync, G: Gate + Sync>(
        &mut self,
        alloc: A,
        pool: &Pool<R, G>,
        direction: Direction,
        steps: u64,
    ) -> Result<(), u64>
        requires { AllFit direction self.old.step steps }
        ensures { HasRun direction steps self.old self.new result }
    {
        for done in 0..steps {
            match self.forces_pooled(alloc, pool, direction) {
                Ok(forces) => self.make_step(direction, forces),
                Err(_) => return Err(done),
            }
        }
        Ok(())
    }

    /// Makes n steps in a direction with this number of workers. Each of them calls the pool's test hook before each tile,
    /// except that without `hooked` a single worker sums without a pool. If memory runs out, the error is the number of
    /// steps made.
    pub fn run<R: Threads + Sync, G: Gate + Sync>(
        &mut self,
        alloc: A,
        pool: &Pool<R, G>,
        direction: Direction,
        steps: u64,
        workers: Workers,
        hooked: bool,
    ) -> Result<(), u64>
        requires { AllFit direction self.old.step steps }
        ensures { HasRun direction steps self.old self.new result }
    {
        if workers.count() == 1 && !hooked {
            return self.run_alone(alloc, direction, steps);
        }
        if steps == 0 {
            return Ok(());
        }
        if self.crew.reach(alloc, workers).is_err() {
            return Err(0);
        }
        self.run_by(alloc, pool, direction, steps)
    }
}
