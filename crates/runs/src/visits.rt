//! Visits: the states of a run that a plan shows, each by a text.

ghost use Rattle.std.specs.Prelude.{◌≤◌, ◌-◌, ℕ, suc, OnOk, IfErr};
ghost use Rattle.engine.specs.Counting.{AllFit};
ghost use Rattle.engine.specs.Engines.{Advanced};
ghost use Rattle.fallible.specs.Out.{CanCountFailure};
ghost use Rattle.runs.specs.Plans.{last_text, steps_made, steps_to};
ghost use Rattle.runs.specs.Readiness.{IsReady};
ghost use Rattle.runs.specs.Shown.{FitsPlan, HasShown, IsStopped, IsWayUnshown, LeavesEngine};
ghost use Rattle.runs.specs.Visits.{IsTextOnWay};
ghost use Rattle.runs.specs.Watching.{hundredths_behind, reports_at};

use crate::faults::{RunFault, text_fault};
use crate::kept_observers::KeptObserver;
use crate::plans::Plan;
use crate::showing::Show;
use crate::stretches::{Stretch, advance};
use crate::watching::Watch;
use engine::{Engine, InputFault};
use fallible::Out;
use integrator::StepFault;
use std::alloc::Allocator;
use std::thread::Threads;

/// Makes the steps to the state that the text with this number shows, after `before` earlier steps.
///
/// `Err`: memory ran out after this many steps, including the earlier ones.
fn advance_to<R: Threads + Sync, A: Allocator + Copy + Send + Sync, W: Watch, O: Out>(
    rt: &R,
    engine: &mut Engine<A>,
    plan: &Plan,
    number: u64,
    before: u64,
    watch: &mut W,
    out: &O,
) -> Result<(), u64>
    requires number { number ≤ last_text plan.now }
    requires before { before ≤ steps_to plan.now number }
    requires fits { AllFit plan.now.direction engine.old.state.step (steps_to plan.now number - before) }
    ensures went { OnOk result (Advanced plan.now.direction (steps_to plan.now number - before) engine.old engine.new) }
    ensures told { OnOk result (W.told watch.old watch.new (reports_at (O.output out.now) (steps_made plan.now)
        (hundredths_behind (steps_made plan.now) before (steps_to plan.now number - before)))) }
    ensures stopped { IfErr result (λ done. (made : ℕ)
        × IsStopped plan.now.direction before (steps_to plan.now number - before) made engine.old engine.new done
        × W.told watch.old watch.new (reports_at (O.output out.now) (steps_made plan.now)
        (hundredths_behind (steps_made plan.now) before made))) }
{
    let stretch = Stretch {
        direction: plan.direction(),
        before,
        steps: plan.steps_to(number) - before,
        all_steps: plan.made(),
        workers: plan.workers(),
    };
    advance(rt, engine, &stretch, watch, out)
}

/// Shows the states of an engine that the plan shows, in order. The errors are those of `visit`.
fn show_each<R: Threads + Sync, A: Allocator + Copy + Send + Sync, S: Show<A>, W: Watch, O: Out>(
    rt: &R,
    engine: &mut Engine<A>,
    observer: &KeptObserver<A>,
    plan: &Plan,
    show: &S,
    watch: &mut W,
    out: &mut O,
) -> Result<(), RunFault<InputFault<A>>>
    requires ready { IsReady (S.shows show.now).observes observer.now engine.old }
    requires fits { AllFit plan.now.direction engine.old.state.step plan.now.steps }
    requires room { CanCountFailure (O.output out.old) }
    ensures went { OnOk result (Advanced plan.now.direction (steps_made plan.now) engine.old engine.new) }
    ensures shown { OnOk result (HasShown (IsTextOnWay (S.shows show.now) plan.now engine.old) plan.now
        (suc (last_text plan.now)) (steps_made plan.now) (O.output out.old) (O.output out.new)
        (W.told watch.old watch.new)) }
    ensures unshown { IfErr result (IsWayUnshown (S.shows show.now) plan.now engine.old
        (O.output out.old) (O.output out.new) (W.told watch.old watch.new)) }
    ensures leaves { IfErr result (LeavesEngine plan.now engine.old engine.new) }
    ensures ready { IsReady (S.shows show.now).observes observer.now engine.new }
{
    let last = plan.last_text();
    let mut number = 0;
    let mut before = 0;
    loop {
        if let Err(done) = advance_to(rt, engine, plan, number, before, watch, out) {
            return Err(RunFault::Steps(StepFault::Memory { done }));
        }
        before = plan.steps_to(number);
        if let Err(fault) = show.show(engine, observer, number, out) {
            return Err(text_fault(before, fault));
        }
        if number == last {
            return Ok(());
        }
        number += 1;
    }
}

/// Makes the steps of a plan up to its last text, and shows the states on the way. Calls a watcher after each hundredth
/// of these steps, before the text of the state that they lead to.
///
/// `Steps` with `StepRange` exactly if the counter would leave an i64 within all steps of the plan; then nothing is
/// done. `Steps` with `Memory`: memory ran out after `done` steps; the states up to there are shown, possibly without
/// the state after exactly `done` steps, and never the last one. `Out`: a write failed, after whole texts and a
/// beginning of the next.
///
/// The engine is then at the state after the steps that were made, and the observer still belongs to it.
pub(crate) fn visit<
    R: Threads + Sync,
    A: Allocator + Copy + Send + Sync,
    S: Show<A>,
    W: Watch,
    O: Out,
>(
    rt: &R,
    engine: &mut Engine<A>,
    observer: &KeptObserver<A>,
    plan: &Plan,
    show: &S,
    watch: &mut W,
    out: &mut O,
) -> Result<(), RunFault<InputFault<A>>>
    requires ready { IsReady (S.shows show.now).observes observer.now engine.old }
    requires count { CanCountFailure (O.output out.old) }
    // The counter fits after all steps, all texts are written, and progress is reported.
    ensures fits { OnOk result (FitsPlan plan.now engine.old) }
    ensures shown { OnOk result (HasShown (IsTextOnWay (S.shows show.now) plan.now engine.old) plan.now
        (suc (last_text plan.now)) (steps_made plan.now) (O.output out.old) (O.output out.new)
        (W.told watch.old watch.new)) }
    // Otherwise the fault, with the texts and reports before it.
    ensures unshown { IfErr result (IsWayUnshown (S.shows show.now) plan.now engine.old
        (O.output out.old) (O.output out.new) (W.told watch.old watch.new)) }
    // The engine is left after the steps that were made, and its states can be shown on, in the same way.
    ensures went { OnOk result (Advanced plan.now.direction (steps_made plan.now) engine.old engine.new) }
    ensures leaves { IfErr result (LeavesEngine plan.now engine.old engine.new) }
    ensures ready { IsReady (S.shows show.now).observes observer.now engine.new }
{
    if !engine.fits(plan.direction(), plan.steps()) {
        return Err(RunFault::Steps(StepFault::StepRange));
    }
    show_each(rt, engine, observer, plan, show, watch, out)
}
