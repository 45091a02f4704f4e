//! Steps of a run, from one report of progress to the next.

ghost use Rattle.std.specs.Prelude.{◌≡◌, ◌≤◌, ◌<◌, ◌+◌, ◌*◌, ◌^◌, ℕ, is_none, false, OnOk, IfErr};
ghost use Rattle.engine.specs.Counting.{AllFit};
ghost use Rattle.engine.specs.Engines.{Advanced};
ghost use Rattle.integrator.specs.States.{counter_after};
ghost use Rattle.runs.specs.Shown.{IsStopped};
ghost use Rattle.runs.specs.Watching.{IsNextHundredth, hundredths, hundredths_behind, reports_at};

use crate::watching::Watch;
use engine::Engine;
use fallible::Out;
use integrator::{Direction, Workers};
use std::alloc::Allocator;
use std::thread::Threads;

/// A stretch of a run: some of its steps, one after another.
#[derive(Clone, Copy)]
pub(crate) struct Stretch {
    pub direction: Direction,
    /// The number of steps of the run before the stretch.
    pub before: u64,
    /// The number of steps of the stretch.
    pub steps: u64,
    /// The number of all steps of the run.
    pub all_steps: u64,
    pub workers: Workers,
    pub ghost within: { before + steps ≤ all_steps },
}

/// Makes n steps, after `before` earlier ones.
///
/// `Err`: memory ran out after this many steps, including the earlier ones, and before the last.
fn go_on<R: Threads + Sync, A: Allocator + Copy + Send + Sync>(
    rt: &R,
    engine: &mut Engine<A>,
    direction: Direction,
    steps: u64,
    workers: Workers,
    before: u64,
) -> Result<(), u64>
    requires fits { is_none (counter_after direction engine.old.state.step steps) ≡ false }
    requires range { before + steps < 2 ^ 64 }
    ensures went { OnOk result (Advanced direction steps engine.old engine.new) }
    ensures stopped { IfErr result (λ done. (made : ℕ) × IsStopped direction before steps made engine.old engine.new done) }
{
    match engine.steps_within(rt, direction, steps, workers) {
        Ok(()) => Ok(()),
        Err(done) => Err(before + done),
    }
}

/// The number of further steps that complete the next hundredth of all steps; `done` steps are made.
pub fn until_hundredth(done: u64, all: u64) -> u64
    requires { done < all }
    ensures { IsNextHundredth all done result }
{
    let next = u128::from(done) * 100 / u128::from(all) + 1;
    (next * u128::from(all)).div_ceil(100) as u64 - done
}

/// Makes the steps of a stretch of a run, and calls the watcher after each hundredth of the run's steps.
///
/// `Err`: memory ran out after this many steps, including those before the stretch, and before the stretch's last. The
/// engine has made those of the stretch.
pub(crate) fn advance<R: Threads + Sync, A: Allocator + Copy + Send + Sync, W: Watch, O: Out>(
    rt: &R,
    engine: &mut Engine<A>,
    stretch: &Stretch,
    watch: &mut W,
    out: &O,
) -> Result<(), u64>
    requires { AllFit stretch.now.direction engine.old.state.step stretch.now.steps }
    ensures went { OnOk result (Advanced stretch.now.direction stretch.now.steps engine.old engine.new) }
    ensures told { OnOk result (W.told watch.old watch.new (reports_at (O.output out.now) stretch.now.all_steps
        (hundredths_behind stretch.now.all_steps stretch.now.before stretch.now.steps))) }
    ensures stopped { IfErr result (λ done. (made : ℕ)
        × IsStopped stretch.now.direction stretch.now.before stretch.now.steps made engine.old engine.new done
        × W.told watch.old watch.new (reports_at (O.output out.now) stretch.now.all_steps
        (hundredths_behind stretch.now.all_steps stretch.now.before made))) }
{
    let (direction, all, workers) = (stretch.direction, stretch.all_steps, stretch.workers);
    if !watch.watches() {
        return go_on(
            rt,
            engine,
            direction,
            stretch.steps,
            workers,
            stretch.before,
        );
    }
    let mut made = 0;
    while made < stretch.steps {
        let done = stretch.before + made;
        let next = until_hundredth(done, all);
        let more = next.min(stretch.steps - made);
        go_on(rt, engine, direction, more, workers, done)?;
        made += more;
        if more == next {
            watch.tell(done + more, all, out);
        }
    }
    Ok(())
}

/// Makes n steps in a direction, and calls the watcher after each hundredth of them.
///
/// `Err`: memory ran out after this many steps, before the last; the watcher was called up to there.
pub fn watched_steps<R: Threads + Sync, A: Allocator + Copy + Send + Sync, W: Watch, O: Out>(
    rt: &R,
    engine: &mut Engine<A>,
    direction: Direction,
    steps: u64,
    workers: Workers,
    watch: &mut W,
    out: &O,
) -> Result<(), u64>
    requires { AllFit direction engine.old.state.step steps }
    ensures went { OnOk result (Advanced direction steps engine.old engine.new) }
    ensures told { OnOk result (W.told watch.old watch.new (reports_at (O.output out.now) steps (hundredths steps))) }
    ensures stopped { IfErr result (λ done. (made : ℕ) × IsStopped direction 0 steps made engine.old engine.new done
        × W.told watch.old watch.new (reports_at (O.output out.now) steps (hundredths_behind steps 0 made))) }
{
    let stretch = Stretch {
        direction,
        before: 0,
        steps,
        all_steps: steps,
        workers,
    };
    advance(rt, engine, &stretch, watch, out)
}
