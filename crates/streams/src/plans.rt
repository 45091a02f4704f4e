//! What is replayed of a stream.

ghost use Rattle.std.specs.Prelude.{◌≤◌};

use integrator::Workers;

/// Which segments of a stream are replayed, and with how many workers. Segments are numbered from 0.
#[derive(Clone, Copy)]
pub struct ReplayPlan {
    /// From 1 to `parts`: the first segment that is replayed, and then every `parts`-th.
    pub part: u64,
    /// The number of parts that all segments are divided into, from 1.
    pub parts: u64,
    /// The least counter of a segment that is replayed.
    pub from: i64,
    /// The greatest.
    pub to: i64,
    /// The number of workers.
    pub workers: Workers,
    pub ghost first: { 1 ≤ part },
    pub ghost within: { part ≤ parts },
}
