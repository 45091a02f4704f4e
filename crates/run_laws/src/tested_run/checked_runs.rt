//! Tested runs of states, and from bytes to bytes.

ghost use Rattle.std.specs.Prelude.{◌≡◌, ◌<◌, ◌+◌, length, true, Some, IfOk, OnOk, IfErr, ℕ, List, MatchResult};
ghost use Rattle.std.specs.List.{All};
ghost use Rattle.fallible.specs.Failures.{IfRefused};
ghost use Rattle.fallible.specs.Out.{Appends, CanCountFailure};
ghost use Rattle.state.specs.StateViews.{state_view};
ghost use Rattle.fixed.specs.Arithmetic.{in_range};
ghost use Rattle.integrator.specs.States.{counter_at, frames_of, moved_state};
ghost use Rattle.integrator.specs.Frames.{frames, opposite, steps_in};
ghost use Rattle.integrator.specs.Systems.{dynamics_of};
ghost use Rattle.run_laws.specs.Refusals.{IsRefusal, IsStop, IsTestedUnwritten, IsResourceFault};
ghost use Rattle.run_laws.specs.Runs.{IsAfter, IsRun, Ran, Wrote};
ghost use Rattle.run_laws.specs.Starts.{plain};
ghost use Rattle.run_laws.specs.Stops.{faults_of, forced_counter, StopsAt};
ghost use Rattle.run_laws.specs.TestedStarts.{faults_view, start_view, tested};

use crate::tested_run::faults::{KernelFault, TestedFault, TestedRunFault};
use crate::tested_run::prepared::Prepared;
use crate::tested_run::slopes::TestedSlope;
use crate::tested_run::starts::start;
use crate::tested_run::steps::make_steps;
use crate::tested_run::stops::Stop;
use crate::tested_run::sums::NO_FORCE;
use fallible::{Failure, Out};
use integrator::{Direction, Stepped, System, advance, frames_of};
use ring_box::{Place3, Vector};
use state::State;
use std::alloc::Allocator;

/// Makes n steps from two frames in a direction.
fn step_frames<K: TestedSlope + Drop, A: Allocator>(
    system: &System<K, A>,
    direction: Direction,
    steps: u64,
    previous: &mut Vec<Place3, A>,
    current: &mut Vec<Place3, A>,
    sums: &mut [Vector<i128>],
) -> Result<(), Stop>
    requires previous { length previous.old.items ≡ length system.now.masses.items }
    requires current { length current.old.items ≡ length system.now.masses.items }
    requires sums { length sums.old ≡ length system.now.masses.items }
    requires known { All (λ t. t < K.types system.now.kernel) system.now.types.items }
    ensures value { OnOk result (steps_in direction (dynamics_of K.slope system.now) steps
        (frames previous.old.items current.old.items) ≡ Some (frames previous.new.items current.new.items)) }
    ensures previous { length previous.new.items ≡ length previous.old.items }
    ensures current { length current.new.items ≡ length current.old.items }
    ensures fault { IfErr result (λ s. StopsAt direction (dynamics_of K.slope system.now)
        (faults_of K.fault system.now) steps (frames previous.old.items current.old.items) s.done (s.pair.low, s.pair.high) s.pair.fault) }
{
    match direction {
        Direction::Forward => make_steps(system, steps, previous, current, sums),
        Direction::Back => make_steps(system, steps, current, previous, sums),
    }
}

/// The frames of this state's atoms after n steps in a direction.
fn frames_after<K: TestedSlope + Drop, A: Allocator + Copy>(
    alloc: A,
    system: &System<K, A>,
    direction: Direction,
    steps: u64,
    state: &State<A>,
) -> Result<Stepped<A>, Failure<Stop>>
    requires atoms { length state.now.atoms.items ≡ length system.now.masses.items }
    requires known { All (λ t. t < K.types system.now.kernel) system.now.types.items }
    ensures value { IfOk result (λ t. steps_in direction (dynamics_of K.slope system.now) steps
        (frames_of (state_view state.now)) ≡ Some (frames t.previous.items t.current.items)) }
    ensures previous { IfOk result (λ t. length t.previous.items ≡ length state.now.atoms.items) }
    ensures current { IfOk result (λ t. length t.current.items ≡ length state.now.atoms.items) }
    ensures stops { IfErr result (λ failure. IfRefused failure
        (λ s. StopsAt direction (dynamics_of K.slope system.now) (faults_of K.fault system.now) steps
        (frames_of (state_view state.now)) s.done (s.pair.low, s.pair.high) s.pair.fault)) }
{
    let mut frames = frames_of(alloc, state)?;
    let mut sums = vec![in alloc; NO_FORCE; state.atoms.len()]?;
    match step_frames(
        system,
        direction,
        steps,
        &mut frames.previous,
        &mut frames.current,
        &mut sums,
    ) {
        Ok(()) => Ok(frames),
        Err(stop) => Err(Failure::Refused(stop)),
    }
}

fn narrow(counter: i128) -> i64
    requires { in_range counter ≡ true }
    ensures { result ≡ counter }
{
    counter as i64
}

/// The counter of the frame whose forces are needed after `done` whole steps.
fn forced_counter(direction: Direction, step: i64, steps: u64, done: u64) -> i64
    requires fits { in_range (counter_at direction step steps) ≡ true }
    requires early { done < steps }
    ensures { result ≡ forced_counter direction step done }
{
    match direction {
        Direction::Forward => narrow(i128::from(step) + i128::from(done)),
        Direction::Back => narrow(i128::from(step) - i128::from(done) - 1),
    }
}

/// The error of a run that stopped, with atoms counted from 1.
fn kernel_fault<A: Allocator>(
    direction: Direction,
    state: &State<A>,
    steps: u64,
    stop: Stop,
) -> KernelFault
    requires fits { in_range (counter_at direction state.now.step steps) ≡ true }
    requires early { stop.done < steps }
    ensures { result ≡ record {
      step = forced_counter direction state.now.step stop.done;
      low = stop.pair.low + 1;
      high = stop.pair.high + 1;
      pc = stop.pair.fault.pc;
      fault = stop.pair.fault.fault;
    } }
{
    KernelFault {
        step: forced_counter(direction, state.step, steps, stop.done),
        low: stop.pair.low as u64 + 1,
        high: stop.pair.high as u64 + 1,
        pc: stop.pair.fault.pc,
        fault: stop.pair.fault.fault,
    }
}

/// The frames at the end of a run.
fn run_frames<A: Allocator + Copy>(
    alloc: A,
    direction: Direction,
    steps: u64,
    prepared: &Prepared<A>,
) -> Result<Stepped<A>, Failure<KernelFault>>
    requires { in_range (counter_at direction prepared.now.state.step steps) ≡ true }
    ensures value { IfOk result (λ t. steps_in direction (start_view prepared.now).dynamics steps
        (frames_of (start_view prepared.now).state) ≡ Some (frames t.previous.items t.current.items)) }
    ensures previous { IfOk result (λ t. length t.previous.items ≡ length prepared.now.state.atoms.items) }
    ensures current { IfOk result (λ t. length t.current.items ≡ length prepared.now.state.atoms.items) }
    ensures stop { IfErr result (λ failure. IfRefused failure
        (IsStop direction steps (start_view prepared.now) (faults_view prepared.now))) }
{
    let Prepared { state, system, .. } = prepared;
    match frames_after(alloc, system, direction, steps, state) {
        Ok(stepped) => Ok(stepped),
        Err(Failure::Memory) => Err(Failure::Memory),
        Err(Failure::Refused(stop)) => Err(Failure::Refused(kernel_fault(
            direction, state, steps, stop,
        ))),
    }
}

/// The state at the end of a run with these frames.
fn arrived<A: Allocator>(prepared: Prepared<A>, stepped: &Stepped<A>) -> State<A>
    requires previous { length stepped.now.previous.items ≡ length prepared.state.atoms.items }
    requires current { length stepped.now.current.items ≡ length prepared.state.atoms.items }
    ensures { state_view result ≡ moved_state (state_view prepared.state)
        (frames stepped.now.previous.items stepped.now.current.items) prepared.counter }
{
    let Prepared {
        mut state,
        counter,
        ..
    } = prepared;
    advance(&mut state, stepped, counter);
    state
}

/// Runs n steps in a direction.
fn run<A: Allocator + Copy>(
    alloc: A,
    direction: Direction,
    steps: u64,
    prepared: Prepared<A>,
) -> Result<State<A>, Failure<KernelFault>>
    requires { in_range (counter_at direction prepared.state.step steps) ≡ true }
    ensures value { IfOk result (λ s. Ran direction steps (start_view prepared) (state_view s)) }
    ensures stop { IfErr result (λ failure. IfRefused failure (IsStop direction steps (start_view prepared) (faults_view prepared))) }
{
    let stepped = run_frames(alloc, direction, steps, &prepared)?;
    Ok(arrived(prepared, &stepped))
}

/// The state after the steps from these texts.
fn state_after<A: Allocator + Copy>(
    alloc: A,
    job: &[u8],
    state: &[u8],
    steps: u64,
    direction: Direction,
) -> Result<State<A>, Failure<TestedFault<A>>>
    ensures value { IfOk result (λ s. IsAfter tested job.now state.now direction steps (state_view s)) }
    ensures refused { IfErr result (λ failure. IfRefused failure (IsRefusal job.now state.now direction steps)) }
{
    let prepared = match start(alloc, direction, steps, job, state) {
        Ok(prepared) => prepared,
        Err(failure) => return Err(TestedFault::of_start(failure)),
    };
    match run(alloc, direction, steps, prepared) {
        Ok(after) => Ok(after),
        Err(failure) => Err(TestedFault::of_kernel(failure)),
    }
}

/// Runs a state n steps in a direction on one thread, with every operation tested, and writes the new state.
///
/// `job` and `state` are the bytes of a job and of a state. The step is Levesque
/// and Verlet's (J. Stat. Phys. 72, 519, 1993). The forces come from the energy's derivative as written and are summed
/// exactly over all pairs. The derivative comes from its code, with each instruction tested; if a run of the code
/// returns no value, there is no force. The same number of steps in the other direction from the written bytes gives
/// the starting bytes again.
///
/// The errors come in this order: errors of the job, of the state, of the energy; `BitsDiffer` if the job and the state
/// have different numbers of fraction bits; `UnknownType` for the lowest atom whose name is no type's; `CutoffTooLong`
/// if some side is shorter than two cutoffs; `StepRange` if the counter would leave an i64; `Kernel` for the first pair
/// without a force in the first frame that has such a pair. `Memory`: memory ran out. Each of these errors leaves the
/// output unchanged. `Out` comes only if a write failed, after a beginning of the new state's text.
pub fn run_bytes_checked<A: Allocator + Copy, O: Out>(
    alloc: A,
    job: &[u8],
    state: &[u8],
    steps: u64,
    direction: Direction,
    out: &mut O,
) -> Result<(), TestedRunFault<A>>
    requires count { CanCountFailure (O.output out.old) }
    // The text of the state after the steps is written.
    ensures ran { OnOk result (Wrote tested job.now state.now direction steps (O.output out.old) (O.output out.new)) }
    // After an error the output is unchanged, except that a failed output holds a beginning of the text.
    ensures refused { IfErr result (IsTestedUnwritten job.now state.now direction steps (O.output out.old) (O.output out.new)) }
    // If the texts have a run, it is written unless memory runs out or the output fails.
    ensures only { (text : List ℕ) → IsRun tested job.now state.now direction steps text
        → MatchResult result (λ _. Appends (O.output out.old) (O.output out.new) text) IsResourceFault }
    // A tested run is also a run with the plain derivative.
    ensures same { (text : List ℕ) → IsRun tested job.now state.now direction steps text
        → IsRun plain job.now state.now direction steps text }
    // n steps in the other direction from the written text give the starting text.
    ensures returns { (text : List ℕ) → IsRun tested job.now state.now direction steps text
        → IsRun tested job.now text (opposite direction) steps state.now }
{
    let after = state_after(alloc, job, state, steps, direction)?;
    after.write(out)?;
    Ok(())
}
