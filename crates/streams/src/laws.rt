//! Laws of replays.

ghost use Rattle.streams.specs.OneRun.{DifferingAreNoRun, LinesAreOne, OneRunsAreReplayed, ReplaysAreOne, SameStreamsAreOneRun, ShownStatesAreReplayed, StatesAreOne};

/// A stream has at most one replay with a plan: its lines, and the number of segments that differ. All replays of a
/// stream have the same states, and a segment has at most one line.
pub fn replays_are_one()
    ensures states { StatesAreOne }
    ensures line { LinesAreOne }
    ensures lines { ReplaysAreOne }
{}

/// If replays of all parts of a stream find no segment that differs, the stream is of one run: each of its states but
/// the first is the run of the state before it.
pub fn same_streams_are_one_run()
    ensures { SameStreamsAreOneRun }
{}

/// A replay finds no difference in a stream of one run whose states are accepted, as in the states that a run shows. If
/// it finds one, the stream isn't of one run.
pub fn one_runs_are_replayed()
    ensures same { OneRunsAreReplayed }
    ensures shown { ShownStatesAreReplayed }
    ensures differ { DifferingAreNoRun }
{}
