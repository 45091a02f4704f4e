//! A record of the tiles that a pool draws and of the pairs that it visits, and work that keeps it.

ghost use Rattle.std.specs.Prelude.{◌<◌};

use rounds::{Gate, PairAdd, PairAdds, RowWork, Work, next_from_pairs};
use std::sync::atomic::{AtomicU64, Ordering};
use std::thread::yield_now;

/// The number of times that a waiting worker checks for the others, and yields to them, before it gives up.
const TURNS: u32 = 10_000_000;

/// A test hook (`Gate`) that records the tiles it lets through; the work records the visits to its pairs. There are at
/// most 64 tiles. Each tile is held at the hook until the tiles that meet have passed it, and each visit until a pair
/// of each of these tiles was visited.
#[derive(Drop)]
pub(crate) struct Record {
    // a bit for each tile that meets the others
    met: u64,
    // a bit for each tile that passed the hook, and for each of which a pair was visited
    drawn: AtomicU64,
    seen: AtomicU64,
    // the bits of the workers at the tiles that they drew
    drawers: AtomicU64,
    // the number of tiles that passed the hook
    passed: AtomicU64,
    /// The number of pairs that were visited singly.
    pub(crate) visits: AtomicU64,
    // the number of pairs that were visited singly before their tile passed the hook, and of batches that were
    // requested with the scratch of a worker that didn't draw the tile
    early: AtomicU64,
    /// The number of waits that were given up.
    pub(crate) late: AtomicU64,
}

/// The bit of one of eight workers at one of eight tiles, 0 if there is no such worker or tile.
fn mark(worker: u32, tile: u64) -> u64 {
    if worker < 8 && tile < 8 {
        1 << (8 * tile as u32 + worker)
    } else {
        0
    }
}

impl Record {
    /// An empty record, at which the first `tiles` tiles wait for one another.
    pub(crate) fn new(tiles: u32) -> Record
        requires { tiles < 64 }
    {
        Record {
            met: (1 << tiles) - 1,
            drawn: AtomicU64::new(0),
            seen: AtomicU64::new(0),
            drawers: AtomicU64::new(0),
            passed: AtomicU64::new(0),
            visits: AtomicU64::new(0),
            early: AtomicU64::new(0),
            late: AtomicU64::new(0),
        }
    }

    /// Whether these are the numbers of visited pairs and of tiles that passed the hook, no visit was early or with a
    /// foreign scratch, and no wait was given up.
    pub(crate) fn has_counted(&self, visits: u64, passed: u64) -> bool {
        self.visits.load(Ordering::SeqCst) == visits
            && self.passed.load(Ordering::SeqCst) == passed
            && self.early.load(Ordering::SeqCst) == 0
            && self.late.load(Ordering::SeqCst) == 0
    }

    /// Adds the tile to these tiles, and waits until those that meet are among them.
    fn meet(&self, tiles: &AtomicU64, tile: u64) {
        let own = if tile < 64 { 1 << tile } else { 0 };
        tiles.fetch_or(own, Ordering::SeqCst);
        for _ in 0..TURNS {
            if tiles.load(Ordering::SeqCst) & self.met == self.met {
                return;
            }
            yield_now();
        }
        self.late.fetch_add(1, Ordering::SeqCst);
    }
}

impl Gate for Record {
    fn before_tile(&self, worker: u32, tile: u64) {
        self.passed.fetch_add(1, Ordering::SeqCst);
        self.drawers.fetch_or(mark(worker, tile), Ordering::SeqCst);
        self.meet(&self.drawn, tile);
    }
}

/// Wraps work and records the visits to its pairs. With numbered scratches it passes batches on.
#[derive(Drop)]
pub(crate) struct Recorded<'a, W: Work + Drop> {
    work: W,
    record: &'a Record,
}

impl<'a, W: Work + Drop> Recorded<'a, W> {
    ghost use Rattle.std.specs.Prelude.{◌≡◌};

    /// Work that keeps this record.
    pub(crate) fn new(work: W, record: &'a Record) -> Self
        ensures { result.work ≡ work }
    {
        Recorded { work, record }
    }
}

impl<'a, W: Work + Drop> Work for Recorded<'a, W> {
    ghost plan = { λ w. W.plan w.work };

    ghost atoms = { λ w. W.atoms w.work };

    fn tiles(&self) -> u64 {
        self.work.tiles()
    }

    fn pairs(&self, tile: u64) -> u64 {
        self.work.pairs(tile)
    }

    fn pair(&self, tile: u64, k: u64) -> Option<PairAdd> {
        let record = self.record;
        record.visits.fetch_add(1, Ordering::SeqCst);
        if tile >= 64 || record.drawn.load(Ordering::SeqCst) & (1 << tile) == 0 {
            record.early.fetch_add(1, Ordering::SeqCst);
        }
        record.meet(&record.seen, tile);
        self.work.pair(tile, k)
    }
}

impl<'a, W: Work + Drop> RowWork<PairAdds> for Recorded<'a, W> {
    ghost held = { λ s. s.items };

    fn next_adds(&self, scratch: &mut PairAdds, tile: u64, k: u64) -> u64 {
        next_from_pairs(self, tile, k, scratch)
    }

    fn count(&self, scratch: &PairAdds) -> usize {
        scratch.as_slice().len()
    }

    fn add_at(&self, scratch: &PairAdds, l: usize) -> PairAdd {
        scratch.as_slice()[l]
    }
}

/// The scratch of a worker, with the worker's number.
#[derive(Drop)]
pub(crate) struct Numbered {
    worker: u32,
    adds: PairAdds,
}

impl Numbered {
    /// An empty scratch of a worker.
    pub(crate) fn new(worker: u32) -> Numbered {
        Numbered {
            worker,
            adds: PairAdds::new(),
        }
    }
}

impl<'a, W: RowWork<PairAdds> + Drop> RowWork<Numbered> for Recorded<'a, W> {
    ghost held = { λ s. W.held s.adds };

    fn next_adds(&self, scratch: &mut Numbered, tile: u64, k: u64) -> u64 {
        if self.record.drawers.load(Ordering::SeqCst) & mark(scratch.worker, tile) == 0 {
            self.record.early.fetch_add(1, Ordering::SeqCst);
        }
        self.work.next_adds(&mut scratch.adds, tile, k)
    }

    fn count(&self, scratch: &Numbered) -> usize {
        self.work.count(&scratch.adds)
    }

    fn add_at(&self, scratch: &Numbered, l: usize) -> PairAdd {
        self.work.add_at(&scratch.adds, l)
    }
}
