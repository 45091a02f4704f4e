//! Laws of the program, for all arguments and files.

ghost use Rattle.cli.specs.CommandLaws.{OneRunsAreNotRefused, PrintedRunsReturn, ReplayedStreamsAreOneRun};

use streams::{one_runs_are_replayed, replays_are_one, same_streams_are_one_run};

/// Running back returns the original file: `back` accepts the output of `run` and prints the state file that the run
/// started from, unless memory runs out or its output fails. The roles of `run` and `back` may be exchanged.
pub fn printed_runs_return()
    ensures { PrintedRunsReturn }
{}

/// If `replay` accepts each part of a stream, the stream is of one run. `replay` accepts each part of a stream of one run
/// whose states are accepted, unless memory runs out or its output fails.
pub fn replays_find_one_run()
    ensures found { ReplayedStreamsAreOneRun }
    ensures accepted { OneRunsAreNotRefused }
{
    replays_are_one();
    same_streams_are_one_run();
    one_runs_are_replayed();
}
