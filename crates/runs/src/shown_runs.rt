//! Runs from bytes to bytes.
//!
//! `run_shown` is every run: of whole states, frames or table rows, watched or not. `run_bytes` is the run that writes
//! the state after all steps and that nobody watches; its contract is the main theorem.

ghost use Rattle.std.specs.Prelude.{◌<◌, ◌-◌, ◌^◌, ℕ, List, OnOk, IfErr};
ghost use Rattle.integrator.specs.Frames.{opposite};
ghost use Rattle.engine.specs.Engines.{AreSafe, IsEngineOfTexts};
ghost use Rattle.engine.specs.RunSpecification.{IsLevesqueVerletRun, WroteLevesqueVerletRun};
ghost use Rattle.runs.specs.Shown.{RunsShown};
ghost use Rattle.runs.specs.Unwritten.{IsRunUnwritten, IsResourceFault};

use crate::faults::RunFault;
use crate::kept_observers::KeptObserver;
use crate::plans::Plan;
use crate::showing::Show;
use crate::visits::visit;
use crate::watching::{Unwatched, Watch};
use crate::whole_states::StateTexts;
use engine::{Engine, InputFault, open};
use fallible::Out;
use integrator::{Direction, Workers};
use std::alloc::Allocator;
use std::thread::Threads;

/// The bytes of a job and of a state.
#[derive(Clone, Copy)]
pub struct RunTexts<'a> {
    /// The bytes of the job.
    pub job: &'a [u8],
    /// The bytes of the state at which the run starts.
    pub state: &'a [u8],
}

/// Shows the states of a plan in the run of an engine. The errors are those of `run_shown`, except that the job and the
/// state are accepted.
fn show_run<R: Threads + Sync, A: Allocator + Copy + Send + Sync, S: Show<A>, W: Watch, O: Out>(
    rt: &R,
    engine: &mut Engine<A>,
    plan: &Plan,
    show: &S,
    watch: &mut W,
    out: &mut O,
) -> Result<(), RunFault<InputFault<A>>>
    requires count { (O.output out.old).failed < 2 ^ 64 - 1 }
    ensures { (job state : List ℕ) → IsEngineOfTexts job state engine.old → RunsShown (S.shows show.now) job state plan.now
        (O.output out.old) (O.output out.new) (W.told watch.old watch.new) result }
{
    let observer = KeptObserver::new(show, engine)?;
    visit(rt, engine, &observer, plan, show, watch, out)
}

/// Runs a state according to a plan, and writes the texts of the states that the plan shows, one after another. Calls a
/// watcher after each hundredth of the steps up to the last text.
///
/// For every accepted job and state, all plans, all numbers of workers and every order of the workers' claims and
/// additions, each text shows the state after that many Levesque-Verlet steps (J. Stat. Phys. 72, 519, 1993), which
/// `run_bytes` would write. Steps after the last text are not made.
///
/// The errors come in this order: `Rejected` with errors of the job, the state and `Engine::new`, then of `KeptObserver::new`,
/// or `Memory` if memory ran out in these; `Steps` with `StepRange` exactly if the counter would leave an i64 within the
/// steps; with these no text is written, and the watcher isn't called. `Steps` with `Memory` if memory ran out after
/// `done` steps: the texts up to there are written whole, possibly without the text after exactly `done` steps, and never
/// the last one. `Out` comes only if a write failed, after whole texts and a beginning of the next.
pub fn run_shown<
    R: Threads + Sync,
    A: Allocator + Copy + Send + Sync,
    S: Show<A>,
    W: Watch,
    O: Out,
>(
    rt: &R,
    alloc: A,
    texts: &RunTexts,
    plan: &Plan,
    show: &S,
    watch: &mut W,
    out: &mut O,
) -> Result<(), RunFault<InputFault<A>>>
    requires count { (O.output out.old).failed < 2 ^ 64 - 1 }
    ensures { RunsShown (S.shows show.now) texts.now.job.now texts.now.state.now plan.now (O.output out.old) (O.output out.new)
        (W.told watch.old watch.new) result }
{
    let mut engine = open(alloc, texts.job, texts.state)?;
    show_run(rt, &mut engine, plan, show, watch, out)
}

/// Runs a state n steps in a direction with this number of workers, and writes the new state.
///
/// `job` and `state` are the bytes of a job and of a state. For every accepted job
/// and state, all numbers of steps and of workers and every order of the workers' claims and additions, the frames are
/// made by n Levesque-Verlet steps (J. Stat. Phys. 72, 519, 1993), with the energy's derivative as written and exact
/// sums over all pairs. The same number of steps in the other direction from the written bytes gives the starting bytes
/// again. The verifier accepts the slope code (`Engine::new`), so that no instruction faults and each pair takes at
/// most the certified steps (`potential::LaneKernel::values`); a kernel fault can't occur here.
///
/// The errors come in this order: `Rejected` with errors of the job, the state and `Engine::new`, or `Memory` if memory
/// ran out before there was an engine; `Steps` if the counter would leave an i64, or if memory ran out after some of the
/// steps. With these no text is written. `Out` comes only if a write failed, after a beginning of the new state's text.
pub fn run_bytes<R: Threads + Sync, A: Allocator + Copy + Send + Sync, O: Out>(
    rt: &R,
    alloc: A,
    job: &[u8],
    state: &[u8],
    steps: u64,
    direction: Direction,
    workers: Workers,
    out: &mut O,
) -> Result<(), RunFault<InputFault<A>>>
    requires count { (O.output out.old).failed < 2 ^ 64 - 1 }
    // No instruction of the slope code faults, and no pair takes more instructions than the certified number.
    ensures safe { OnOk result (AreSafe job.now state.now) }
    // The text of the state after the steps is written, according to the run specification.
    ensures writes_run_text { OnOk result (WroteLevesqueVerletRun job.now state.now direction steps
        (O.output out.old) (O.output out.new)) }
    // After an error the output is unchanged, except that a failed output holds a beginning of the text.
    ensures refused { IfErr result (IsRunUnwritten job.now state.now direction steps
        (O.output out.old) (O.output out.new)) }
    // If the texts have a run and are accepted (`AreSafe`), the only errors are that memory ran out or the output
    // failed.
    ensures only { (text : List ℕ) → IsLevesqueVerletRun job.now state.now direction steps text
        → AreSafe job.now state.now → IfErr result IsResourceFault }
    // n steps in the other direction from the written text give the starting text.
    ensures leads_back { (text : List ℕ) → IsLevesqueVerletRun job.now state.now direction steps text
        → IsLevesqueVerletRun job.now text (opposite direction) steps state.now }
{
    run_shown(
        rt,
        alloc,
        &RunTexts { job, state },
        &Plan::of_end(direction, steps, workers),
        &StateTexts,
        &mut Unwatched,
        out,
    )
}
