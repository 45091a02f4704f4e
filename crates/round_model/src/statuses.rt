//! The progress of each worker, as a round keeps it.

ghost use Rattle.std.specs.Prelude.{◌≡◌, ◌+◌, ◌<◌, ◌≤◌, ◌++◌, length, drop, slice_get, Some, IfOk};
ghost use Rattle.rounds.specs.Tiles.{additions_of, tile_of, pairs_at};
ghost use Rattle.rounds.specs.Interleaving.Stage.{doing};
ghost use Rattle.round_model.specs.Statuses.{later, stage_of, task_at, IsTask, IsWorkerStatus};

use rounds::{PairAdd, RoundFault, Work};

/// The progress of a worker.
#[derive(Clone, Copy)]
pub(crate) enum WorkerStatus {
    /// The worker has no addition left to make, and may claim.
    Resting,
    /// The worker has additions left to make.
    Adding(Task),
    /// The worker has stopped.
    Stopped,
}

/// The rest of a worker's tile: the additions of the current pair from `part` on, then all additions of the pairs from
/// `next` on.
#[derive(Clone, Copy)]
pub(crate) struct Task {
    pub(crate) tile: u64,
    pub(crate) next: u64,
    pub(crate) add: PairAdd,
    pub(crate) part: usize,
}

impl Task {
    // The next addition.
    pub(crate) fn addition(&self) -> (usize, u64)
        requires { self.now.part < 6 }
        ensures { slice_get (additions_of (Some self.now.add)) self.now.part ≡ Some result }
    {
        self.add.addition(self.part)
    }

    // The worker's progress once it has made that addition.
    pub(crate) fn after<W: Work>(self, work: &W) -> WorkerStatus
        requires { IsTask (W.atoms work.now) (W.plan work.now) self }
        ensures stage { stage_of (W.plan work.now) result
            ≡ doing (drop (self.part + 1) (additions_of (Some self.add)) ++ later (W.plan work.now) self) }
        ensures status { IsWorkerStatus (W.atoms work.now) (W.plan work.now) result }
    {
        let part = self.part + 1;
        if part < PairAdd::PARTS {
            WorkerStatus::Adding(Task {
                tile: self.tile,
                next: self.next,
                add: self.add,
                part,
            })
        } else {
            status_from(work, self.tile, self.next)
        }
    }
}

// The rest of a worker's tile, or `None` if no addition is left. Errors: `NoSuchWorker` if no worker has this number,
// `Stopped` if the worker has stopped.
pub(crate) fn task_of(statuses: &[WorkerStatus], worker: u32) -> Result<Option<Task>, RoundFault>
    ensures task { result ≡ task_at (slice_get statuses.now worker) }
    ensures worker { IfOk result (λ o. worker < length statuses.now) }
{
    match statuses.get(worker as usize) {
        None => Err(RoundFault::NoSuchWorker),
        Some(WorkerStatus::Stopped) => Err(RoundFault::Stopped),
        Some(WorkerStatus::Resting) => Ok(None),
        Some(WorkerStatus::Adding(task)) => Ok(Some(*task)),
    }
}

// The worker's progress at the first interacting pair of the tile from the pair `first` on.
pub(crate) fn status_from<W: Work>(work: &W, tile: u64, first: u64) -> WorkerStatus
    requires tile { tile < length (W.plan work.now) }
    requires first { first ≤ length (pairs_at (W.plan work.now) tile) }
    ensures stage { stage_of (W.plan work.now) result
        ≡ doing (tile_of (drop first (pairs_at (W.plan work.now) tile))) }
    ensures status { IsWorkerStatus (W.atoms work.now) (W.plan work.now) result }
{
    for k in first..work.pairs(tile) {
        match work.pair(tile, k) {
            Some(add) => {
                return WorkerStatus::Adding(Task {
                    tile,
                    next: k + 1,
                    add,
                    part: 0,
                });
            }
            None => {}
        }
    }
    WorkerStatus::Resting
}
