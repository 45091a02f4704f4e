//! Replays of streams of states.

ghost use Rattle.std.specs.Prelude.{◌≡◌, ◌<◌, ◌-◌, ◌^◌, List, ℕ, IfErr, IfOk, OnOk};
ghost use Rattle.std.specs.Bool.{OnFalse, OnTrue};
ghost use Rattle.engine.specs.Engines.{IsEngineOf};
ghost use Rattle.job.specs.JobText.{IsJobText, limits};
ghost use Rattle.state.specs.Sources.{with_text};
ghost use Rattle.state.specs.StateViews.{state_view};
ghost use Rattle.streams.specs.OnTheWay.{IsAt, OfState};
ghost use Rattle.streams.specs.Plans.{IsReplayed, replay_plan_view};
ghost use Rattle.streams.specs.Segments.{Compares, FailsRun, FailsSegment, ReplaysSegment, RunReported};
ghost use Rattle.streams.specs.Watched.{ReplaysStream};
ghost use Rattle.streams.specs.declared.faults.StreamFault.TheVariants as stream;

use crate::differences::{Difference, first_difference};
use crate::faults::{StreamFault, state_fault};
use crate::plans::ReplayPlan;
use crate::segments::{segment_line, way};
use crate::streams::take;
use engine::{Engine, InputFault, open};
use fallible::{Out, write_all};
use integrator::{SystemFault, Workers};
use runs::{Watch, watched_steps};
use state::{Lines, State, next_text};
use std::alloc::Allocator;
use std::thread::Threads;

impl ReplayPlan {
    /// Whether the segment with this number, from 0, and these counters is to be replayed.
    fn replays(&self, number: u64, from: i64, to: i64) -> bool
        ensures is { OnTrue result (IsReplayed (replay_plan_view self.now) number from to) }
        ensures not { OnFalse result (IsReplayed (replay_plan_view self.now) number from to → ⊥) }
    {
        number % self.parts == self.part - 1
            && self.from <= from
            && from <= self.to
            && self.from <= to
            && to <= self.to
    }
}

/// Replays a stream of states under a job: from each state but the last it makes the steps to the counter of the next
/// state, forward or back, compares, and writes a line of the segment. `Ok`: all replayed segments are the same. If all
/// segments are replayed, the stream is of one run. Calls a watcher after each hundredth of the steps of a segment, before
/// its line.
///
/// `job` is the bytes of a job. The stream must have at least one state; it is read as it comes, and two states are in
/// memory at most. Segments that `plan` leaves out are read, but not run, and have no line.
///
/// Errors: `Rejected` for errors of the job, its energy or its code, before any line; `State` for errors of a state or
/// of its fit to the job, with its number from 1, before the line of the segment to it; `CannotRead` if the stream can't
/// be read on, or after 2^64 - 1 states; `Out` if a write failed, after a beginning of a line; `Memory`; `Differ` with
/// the number of segments that differ, after the lines of all segments. The lines of all segments before the error are
/// written.
pub fn replay_states<
    R: Threads + Sync,
    A: Allocator + Copy + Send + Sync,
    L: Lines,
    W: Watch,
    O: Out,
>(
    rt: &R,
    alloc: A,
    job: &[u8],
    lines: &mut L,
    plan: &ReplayPlan,
    watch: &mut W,
    out: &mut O,
) -> Result<(), StreamFault<InputFault<A>>>
    requires count { (O.output out.old).failed < 2 ^ 64 - 1 }
    ensures { ReplaysStream (replay_plan_view plan.now) job.now (L.left lines.old) (O.output out.old) (O.output out.new)
        (W.told watch.old watch.new) result }
{
    let mut text = Vec::new(alloc);
    next_text(lines, &mut text)?;
    let mut engine = open(alloc, job, &text)?;
    replay_each(rt, &mut engine, &mut text, lines, plan, watch, out)
}

/// Replays the segments from the state of an engine, whose text is `text`, on.
fn replay_each<R: Threads + Sync, A: Allocator + Copy + Send + Sync, L: Lines, W: Watch, O: Out>(
    rt: &R,
    engine: &mut Engine<A>,
    text: &mut Vec<u8, A>,
    lines: &mut L,
    plan: &ReplayPlan,
    watch: &mut W,
    out: &mut O,
) -> Result<(), StreamFault<InputFault<A>>>
    requires at { IsAt engine.old.job text.old.items engine.old }
    requires count { (O.output out.old).failed < 2 ^ 64 - 1 }
    ensures { (job : List ℕ) → IsJobText limits job engine.old.job
        → ReplaysStream (replay_plan_view plan.now) job (with_text text.old.items (L.left lines.old)) (O.output out.old)
        (O.output out.new) (W.told watch.old watch.new) result }
{
    let mut number = 0;
    let mut differing = 0;
    loop {
        next_text(lines, text)?;
        if text.is_empty() {
            return all_the_same(differing);
        }
        if replay_next(rt, engine, text, number, plan, watch, out)? {
            differing += 1;
        }
        number += 1;
        if number == u64::MAX - 1 {
            return Err(StreamFault::CannotRead);
        }
    }
}

/// The result of a replay of a whole stream, of which this many segments differ.
fn all_the_same<R>(differing: u64) -> Result<(), StreamFault<R>>
    ensures same { OnOk result (differing ≡ 0) }
    ensures differ { IfErr result (λ fault. (fault ≡ stream.Differ differing) × (0 < differing)) }
{
    if differing > 0 {
        return Err(StreamFault::Differ(differing));
    }
    Ok(())
}

/// Replays the segment with this number, from the state of an engine to the state of a text, if it is to be replayed.
/// The engine takes the state of the text. `Ok`: whether the segment was replayed and differs.
fn replay_next<R: Threads + Sync, A: Allocator + Copy + Send + Sync, W: Watch, O: Out>(
    rt: &R,
    engine: &mut Engine<A>,
    text: &[u8],
    number: u64,
    plan: &ReplayPlan,
    watch: &mut W,
    out: &mut O,
) -> Result<bool, StreamFault<InputFault<A>>>
    requires at { IsEngineOf engine.old.job engine.old.state engine.old }
    requires number { number < 2 ^ 64 - 2 }
    requires count { (O.output out.old).failed < 2 ^ 64 - 1 }
    ensures replayed { IfOk result (λ differs. OfState text.now (ReplaysSegment (replay_plan_view plan.now) number engine.old
        (O.output out.old) (O.output out.new) (W.told watch.old watch.new) differs)) }
    ensures at { OnOk result (IsAt engine.old.job text.now engine.new) }
    ensures fails { IfErr result (FailsSegment (replay_plan_view plan.now) number engine.old text.now
        (O.output out.old) (O.output out.new) (W.told watch.old watch.new)) }
{
    let alloc = *engine.state().atoms.allocator();
    let state = match State::read(alloc, text) {
        Ok(state) => state,
        Err(failure) => return Err(state_fault(number + 2, failure)),
    };
    let from = engine.step();
    let to = state.step;
    if !plan.replays(number, from, to) {
        take(engine, state, number + 2)?;
        return Ok(false);
    }
    let difference = compare(rt, engine, state, number + 2, plan.workers, watch, out)?;
    match write_all(out, segment_line(from, to, difference).as_slice()) {
        Ok(()) => Ok(difference.is_some()),
        Err(fault) => Err(StreamFault::Out(fault)),
    }
}

/// Makes the steps to the counter of the state with this number, from 1, compares, and takes the state. A state with
/// another number of fraction bits is rejected before any step.
fn compare<R: Threads + Sync, A: Allocator + Copy + Send + Sync, W: Watch, O: Out>(
    rt: &R,
    engine: &mut Engine<A>,
    state: State<A>,
    number: u64,
    workers: Workers,
    watch: &mut W,
    out: &O,
) -> Result<Option<Difference>, StreamFault<InputFault<A>>>
    requires { IsEngineOf engine.old.job engine.old.state engine.old }
    ensures compared { IfOk result (Compares engine.old (state_view state)) }
    ensures at { OnOk result (IsEngineOf engine.old.job (state_view state) engine.new) }
    ensures reported { OnOk result (RunReported engine.old.state.step (state_view state).step (O.output out.now)
        (W.told watch.old watch.new)) }
    ensures fails { IfErr result (FailsRun engine.old (state_view state) number (O.output out.now)
        (W.told watch.old watch.new)) }
{
    if state.frac != engine.frac() {
        return Err(StreamFault::State {
            number,
            fault: InputFault::System(SystemFault::BitsDiffer),
        });
    }
    let (direction, steps) = way(engine.step(), state.step);
    let difference = match watched_steps(rt, engine, direction, steps, workers, watch, out) {
        Ok(()) => first_difference(engine.state(), &state),
        Err(_) => return Err(StreamFault::Memory),
    };
    match difference {
        None => Ok(None),
        Some(difference) => {
            take(engine, state, number)?;
            Ok(Some(difference))
        }
    }
}
