//! Streams of states, shown one after another.

ghost use Rattle.std.specs.Prelude.{◌<◌, ◌-◌, ◌^◌, List, ℕ, IfErr, OnOk};
ghost use Rattle.engine.specs.Engines.{IsEngineOf};
ghost use Rattle.job.specs.JobText.{IsJobText, limits};
ghost use Rattle.runs.specs.Readiness.{IsReady};
ghost use Rattle.state.specs.Sources.{with_text};
ghost use Rattle.state.specs.StateViews.{state_view};
ghost use Rattle.streams.specs.OnTheWay.{HasNoState, IsAt};
ghost use Rattle.streams.specs.Segments.{IsNotTaken};
ghost use Rattle.streams.specs.Streams.{WritesStream, shown_by};

use crate::faults::{StreamFault, numbered_fault, state_fault};
use engine::{Engine, InputFault, open};
use fallible::Out;
use runs::{KeptObserver, Show};
use state::{Lines, State, next_text};
use std::alloc::Allocator;

/// Shows each state of a stream under a job by a text, in their order. The stream is read as it comes: a state's text
/// is written before the next state is read, and two states are in memory at most.
///
/// `job` is the bytes of a job. The stream must have at least one state. States may have other atoms, boxes or numbers
/// of fraction bits; each is judged for itself, as `open` judges it. The code is verified once, for the first state.
///
/// Errors: `Rejected` for errors of the job, its energy or its code, then from `KeptObserver::new`, before any text; `State`
/// for errors of a state or of its fit to the job, with its number from 1; `CannotRead` if the stream can't be read on,
/// or after 2^64 - 1 states; `Out` if a write failed, after a beginning of a text; `Memory`. `Differ` never comes. The
/// texts of all states before the error are written.
pub fn show_states<A: Allocator + Copy, S: Show<A>, L: Lines, O: Out>(
    alloc: A,
    job: &[u8],
    lines: &mut L,
    show: &S,
    out: &mut O,
) -> Result<(), StreamFault<InputFault<A>>>
    requires count { (O.output out.old).failed < 2 ^ 64 - 1 }
    ensures { WritesStream (shown_by (S.shows show.now) job.now) job.now (L.left lines.old) (O.output out.old)
        (O.output out.new) result }
{
    let mut text = Vec::new(alloc);
    next_text(lines, &mut text)?;
    let mut engine = open(alloc, job, &text)?;
    let observer = KeptObserver::new(show, &engine)?;
    show_each(&mut engine, &observer, &mut text, lines, show, out)
}

/// Shows the state of an engine, whose text is `text`, and then each state of the stream.
fn show_each<A: Allocator + Copy, S: Show<A>, L: Lines, O: Out>(
    engine: &mut Engine<A>,
    observer: &KeptObserver<A>,
    text: &mut Vec<u8, A>,
    lines: &mut L,
    show: &S,
    out: &mut O,
) -> Result<(), StreamFault<InputFault<A>>>
    requires at { IsAt engine.old.job text.old.items engine.old }
    requires ready { IsReady (S.shows show.now).observes observer.now engine.old }
    requires count { (O.output out.old).failed < 2 ^ 64 - 1 }
    ensures { (job : List ℕ) → IsJobText limits job engine.old.job → WritesStream (shown_by (S.shows show.now) job) job
        (with_text text.old.items (L.left lines.old)) (O.output out.old) (O.output out.new) result }
{
    let mut shown = 0;
    loop {
        show.show(engine, observer, shown, out)?;
        shown += 1;
        if shown == u64::MAX {
            return Err(StreamFault::CannotRead);
        }
        next_text(lines, text)?;
        if text.is_empty() {
            return Ok(());
        }
        take_state(engine, text, shown + 1)?;
    }
}

/// Takes the state of a text into the engine. Errors are those of the state with this number, from 1.
fn take_state<A: Allocator + Copy>(
    engine: &mut Engine<A>,
    text: &[u8],
    number: u64,
) -> Result<(), StreamFault<InputFault<A>>>
    ensures taken { OnOk result (IsAt engine.old.job text.now engine.new) }
    ensures refused { IfErr result (HasNoState engine.old.job text.now number) }
{
    let alloc = *engine.state().atoms.allocator();
    match State::read(alloc, text) {
        Ok(state) => take(engine, state, number),
        Err(failure) => Err(state_fault(number, failure)),
    }
}

/// Takes the state with this number, from 1, into the engine.
pub(crate) fn take<A: Allocator + Copy>(
    engine: &mut Engine<A>,
    state: State<A>,
    number: u64,
) -> Result<(), StreamFault<InputFault<A>>>
    ensures taken { OnOk result (IsEngineOf engine.old.job (state_view state) engine.new) }
    ensures refused { IfErr result (IsNotTaken engine.old.job (state_view state) number) }
{
    match engine.take(state) {
        Ok(()) => Ok(()),
        Err(failure) => Err(numbered_fault(number, failure)),
    }
}
