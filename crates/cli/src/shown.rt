//! The commands that show states of a run: `run`, `back`, `trajectory`, `states` and `observe`.

ghost use Rattle.std.specs.Prelude.{◌≡◌, ◌<◌, ◌-◌, ◌^◌};
ghost use Rattle.command_line.specs.Views.{command_view, visits_view};
ghost use Rattle.command_line.specs.declared.commands.Command.{Command};
ghost use Rattle.cli.specs.Actions.{action_of, visits_action, visits_work, work_of};
ghost use Rattle.cli.specs.Performed.{Performs, ShowsFiles};
ghost use Rattle.cli.specs.Progress.{Reports, ReportsSteps};
ghost use Rattle.cli.specs.StreamTexts.{columns_of};
ghost use Rattle.runs.specs.Shown.{RunsShown};

use crate::faults::CommandFault;
use crate::files::{Files, read_two};
use crate::progress::ProgressLines;
use command_line::{Run, Table, Visits};
use engine::InputFault;
use fallible::Out;
use integrator::Workers;
use observables::Columns;
use runs::{Plan, RunFault, RunTexts, Show, StateTexts, run_shown};
use std::alloc::Allocator;
use std::thread::Threads;

/// A run whose states are shown.
#[derive(Drop)]
struct ShownRun<'a> {
    /// The arguments of the run.
    run: Run<'a>,
    /// The steps, and which of the states are shown.
    plan: Plan,
}

/// The columns of a table: integers if `--exact` is given, otherwise decimals; if `--tensor` is given, also those of the
/// pressure tensor.
pub(crate) fn columns_of(table: Table) -> Columns
    ensures { result ≡ columns_of table }
{
    match (table.exact, table.tensor) {
        (false, false) => Columns::Decimals,
        (false, true) => Columns::DecimalsAndTensor,
        (true, false) => Columns::WholeNumbers,
        (true, true) => Columns::WholeNumbersAndTensor,
    }
}

/// Makes the steps of `run` or `back`, and prints the state after them. With `--progress` it reports each hundredth of
/// the steps.
pub(crate) fn perform_run<
    'a,
    R: Threads + Sync,
    A: Allocator + Copy + Send + Sync,
    F: Files,
    O: Out,
    E: Out,
>(
    rt: &R,
    alloc: A,
    run: &Run<'a>,
    files: &mut F,
    out: &mut O,
    err: &mut E,
) -> Result<(), CommandFault<'a, A>>
    requires { (O.output out.old).failed < 2 ^ 64 - 1 }
    ensures performs { Performs (F.held files.old) (F.requested files.old) (F.requested files.new)
        (action_of (command_view (Command.Run run.now))) (O.output out.old) (O.output out.new) result }
    ensures reports { Reports (work_of (F.held files.old) (O.output out.old) (O.output out.new) (command_view (Command.Run run.now)))
        (E.output err.old) (E.output err.new) result }
{
    let plan = Plan::of_end(run.direction, run.steps, Workers::new(run.workers));
    let shown = ShownRun { run: *run, plan };
    perform_shown(rt, alloc, &shown, &StateTexts, files, out, err)
}

/// Makes the steps of a run, and shows the states after 0, k, 2k, .. steps. With `--progress` it reports each hundredth
/// of the steps up to the last shown state.
pub(crate) fn perform_visits<
    'a,
    R: Threads + Sync,
    A: Allocator + Copy + Send + Sync,
    S: Show<A>,
    F: Files,
    O: Out,
    E: Out,
>(
    rt: &R,
    alloc: A,
    v: &Visits<'a>,
    show: &S,
    files: &mut F,
    out: &mut O,
    err: &mut E,
) -> Result<(), CommandFault<'a, A>>
    requires { (O.output out.old).failed < 2 ^ 64 - 1 }
    ensures performs { Performs (F.held files.old) (F.requested files.old) (F.requested files.new)
        (visits_action (S.shows show.now) (visits_view v.now)) (O.output out.old) (O.output out.new) result }
    ensures reports { Reports (visits_work (visits_view v.now)) (E.output err.old) (E.output err.new) result }
{
    let run = v.run;
    let plan = Plan::of_visits(run.direction, run.steps, v.every, Workers::new(run.workers));
    perform_shown(rt, alloc, &ShownRun { run, plan }, show, files, out, err)
}

/// Reads the job and then the state, and shows the states of a plan. It reports progress of the steps up to the last
/// shown state, if progress is wanted.
fn perform_shown<
    'a,
    R: Threads + Sync,
    A: Allocator + Copy + Send + Sync,
    S: Show<A>,
    F: Files,
    O: Out,
    E: Out,
>(
    rt: &R,
    alloc: A,
    shown: &ShownRun<'a>,
    show: &S,
    files: &mut F,
    out: &mut O,
    err: &mut E,
) -> Result<(), CommandFault<'a, A>>
    requires { (O.output out.old).failed < 2 ^ 64 - 1 }
    ensures { ShowsFiles (F.held files.old) (F.requested files.old) (F.requested files.new) shown.now.run.job.now
        shown.now.run.state.now (S.shows show.now) shown.now.run.progress shown.now.plan
        (O.output out.old) (O.output out.new) (E.output err.old) (E.output err.new) result }
{
    let (job, state) = read_two(alloc, shown.run.job, shown.run.state, files)?;
    let texts = RunTexts {
        job: job.as_slice(),
        state: state.as_slice(),
    };
    show_texts(rt, alloc, &texts, shown, show, out, err)?;
    Ok(())
}

/// Shows the states of a plan in a run of these texts, of a job and a state, and reports progress if it is wanted.
fn show_texts<'a, R: Threads + Sync, A: Allocator + Copy + Send + Sync, S: Show<A>, O: Out, E: Out>(
    rt: &R,
    alloc: A,
    texts: &RunTexts,
    shown: &ShownRun<'a>,
    show: &S,
    out: &mut O,
    err: &mut E,
) -> Result<(), RunFault<InputFault<A>>>
    requires { (O.output out.old).failed < 2 ^ 64 - 1 }
    ensures { RunsShown (S.shows show.now) texts.now.job.now texts.now.state.now shown.now.plan (O.output out.old) (O.output out.new)
        (ReportsSteps shown.now.run.progress (E.output err.old) (E.output err.new)) result }
{
    let progress = shown.run.progress;
    let mut watch = ProgressLines { err, progress };
    run_shown(rt, alloc, texts, &shown.plan, show, &mut watch, out)
}
