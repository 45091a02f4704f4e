//! The commands that read a stream of states: `replay`, and the commands with `--each`.

ghost use Rattle.std.specs.Prelude.{◌≡◌, ◌-◌, ◌<◌, ◌^◌};
ghost use Rattle.std.specs.Result.{result_map_both};
ghost use Rattle.command_line.specs.Views.{command_view, replay_view};
ghost use Rattle.command_line.specs.declared.commands.Command.{Command};
ghost use Rattle.cli.specs.Actions.{action_of, stream_action, work_of};
ghost use Rattle.cli.specs.Failures.{fault_of_stream};
ghost use Rattle.cli.specs.Performed.{Performs};
ghost use Rattle.cli.specs.Progress.{Reports, ReportsSteps};
ghost use Rattle.cli.specs.StreamTexts.{plan_of_replay, shown_quantity};
ghost use Rattle.streams.specs.Plans.{replay_plan_view};
ghost use Rattle.streams.specs.Replays.{replayed_by};
ghost use Rattle.streams.specs.Streams.{WritesStream, shown_by};
ghost use Rattle.streams.specs.Watched.{IsWatched};

use crate::faults::CommandFault;
use crate::files::{Files, open, read};
use crate::progress::ProgressLines;
use crate::shown::columns_of;
use command_line::{Each, EachOutput, Replay};
use engine::InputFault;
use fallible::Out;
use integrator::Workers;
use runs::{FrameTexts, Rows, Show};
use state::Lines;
use std::alloc::Allocator;
use std::thread::Threads;
use streams::{Quantity, QuantityTexts, ReplayPlan, StreamFault, replay_states, show_states};

/// Reads the job, opens the stream, and prints a line for each replayed segment as it is done. With `--progress` it
/// reports each hundredth of the steps of a segment.
pub(crate) fn perform_replay<
    'a,
    R: Threads + Sync,
    A: Allocator + Copy + Send + Sync,
    F: Files,
    O: Out,
    E: Out,
>(
    rt: &R,
    alloc: A,
    replay: &Replay<'a>,
    files: &mut F,
    out: &mut O,
    err: &mut E,
) -> Result<(), CommandFault<'a, A>>
    requires { (O.output out.old).failed < 2 ^ 64 - 1 }
    ensures performs { Performs (F.held files.old) (F.requested files.old) (F.requested files.new)
        (action_of (command_view (Command.Replay replay.now))) (O.output out.old) (O.output out.new) result }
    ensures reports { Reports (work_of (F.held files.old) (O.output out.old) (O.output out.new) (command_view (Command.Replay replay.now)))
        (E.output err.old) (E.output err.new) result }
{
    let job = read(alloc, replay.job, files)?;
    let mut lines = open(replay.states, files)?;
    let replayed = replay_lines(rt, alloc, &job, &mut lines, replay, out, err);
    stream_result(replayed, replay.states)
}

/// Replays the stream that a source reads under a job as the arguments of `replay` name it, and prints a line for each
/// replayed segment. It reports progress if it is wanted.
fn replay_lines<R: Threads + Sync, A: Allocator + Copy + Send + Sync, L: Lines, O: Out, E: Out>(
    rt: &R,
    alloc: A,
    job: &[u8],
    lines: &mut L,
    replay: &Replay<'_>,
    out: &mut O,
    err: &mut E,
) -> Result<(), StreamFault<InputFault<A>>>
    requires { (O.output out.old).failed < 2 ^ 64 - 1 }
    ensures writes { WritesStream (replayed_by (plan_of_replay (replay_view replay.now)) job.now) job.now (L.left lines.old)
        (O.output out.old) (O.output out.new) result }
    ensures watched { IsWatched (plan_of_replay (replay_view replay.now)) job.now (L.left lines.old) (O.output out.old)
        (O.output out.new) (ReportsSteps replay.now.progress (E.output err.old) (E.output err.new)) result }
{
    let plan = plan_of(replay);
    let mut watch = ProgressLines {
        err,
        progress: replay.progress,
    };
    replay_states(rt, alloc, job, lines, &plan, &mut watch, out)
}

/// The plan of a replay that these arguments name.
fn plan_of(replay: &Replay<'_>) -> ReplayPlan
    ensures { replay_plan_view result ≡ plan_of_replay (replay_view replay.now) }
{
    ReplayPlan {
        part: replay.part,
        parts: replay.parts,
        from: replay.from,
        to: replay.to,
        workers: Workers::new(replay.workers),
    }
}

/// Reads the job, opens the stream, and prints a text for each of its states as it comes.
pub(crate) fn perform_each<'a, A: Allocator + Copy, F: Files, O: Out>(
    alloc: A,
    each: Each<'a>,
    files: &mut F,
    out: &mut O,
) -> Result<(), CommandFault<'a, A>>
    requires { (O.output out.old).failed < 2 ^ 64 - 1 }
    ensures { Performs (F.held files.old) (F.requested files.old) (F.requested files.new)
        (action_of (command_view (Command.Each each.entry))) (O.output out.old) (O.output out.new) result }
{
    match each.shown {
        EachOutput::Frame => show_by(alloc, &each, &FrameTexts, files, out),
        EachOutput::Row { table } => {
            let columns = columns_of(table);
            show_by(alloc, &each, &Rows { columns }, files, out)
        }
        EachOutput::Measured { quantity } => {
            let quantity = shown_quantity(quantity);
            show_by(alloc, &each, &QuantityTexts { alloc, quantity }, files, out)
        }
    }
}

/// The quantity of each state that the arguments name.
pub(crate) fn shown_quantity(quantity: command_line::Quantity) -> Quantity
    ensures { result ≡ shown_quantity quantity }
{
    match quantity {
        command_line::Quantity::Energy => Quantity::Energy,
        command_line::Quantity::Forces => Quantity::Forces,
        command_line::Quantity::Velocities => Quantity::Velocities,
    }
}

/// Reads the job, opens the stream, and shows each of its states.
fn show_by<'a, A: Allocator + Copy, S: Show<A>, F: Files, O: Out>(
    alloc: A,
    each: &Each<'a>,
    show: &S,
    files: &mut F,
    out: &mut O,
) -> Result<(), CommandFault<'a, A>>
    requires { (O.output out.old).failed < 2 ^ 64 - 1 }
    ensures { Performs (F.held files.old) (F.requested files.old) (F.requested files.new)
        (stream_action (shown_by (S.shows show.now)) each.now.job.now each.now.states.now)
        (O.output out.old) (O.output out.new) result }
{
    let job = read(alloc, each.job, files)?;
    let mut lines = open(each.states, files)?;
    let shown = show_states(alloc, &job, &mut lines, show, out);
    stream_result(shown, each.states)
}

/// The result of writing the output of the stream at this path, as the command's.
fn stream_result<'a, A: Allocator>(
    wrote: Result<(), StreamFault<InputFault<A>>>,
    path: &'a str,
) -> Result<(), CommandFault<'a, A>>
    ensures { result ≡ result_map_both (λ x. x) (fault_of_stream path.entry) wrote }
{
    match wrote {
        Ok(()) => Ok(()),
        Err(fault) => Err(CommandFault::of_stream(fault, path)),
    }
}
