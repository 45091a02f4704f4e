//! A test hook (`Gate`) at which all workers meet, forward and back.

use crate::fixtures::{clusters, engine_over, text_of};
use engine::Engine;
use integrator::{Direction, Workers};
use rounds::Gate;
use std::alloc::Global;
use std::sync::atomic::{AtomicU64, Ordering};
use std::test::*;
use std::thread::{Threads, yield_now};

/// The number of times that a waiting worker checks for the others, and yields to them, before it gives up.
const TURNS: u64 = 10_000_000;

/// Holds each worker at its first tile until all workers have entered one. Counts the tiles, and the workers that gave
/// up waiting; after one gave up, none is held any more.
#[derive(Drop)]
struct Meeting {
    all: u64,
    entered: AtomicU64,
    tiles: AtomicU64,
    late: AtomicU64,
}

impl Meeting {
    /// The test hook for this number of workers.
    fn of(workers: Workers) -> Meeting {
        let count = workers.count();
        Meeting {
            all: if count < 64 {
                (1 << count) - 1
            } else {
                u64::MAX
            },
            entered: AtomicU64::new(0),
            tiles: AtomicU64::new(0),
            late: AtomicU64::new(0),
        }
    }

    /// The number of tiles; `None` if a worker gave up waiting.
    fn tiles_if_met(&self) -> Option<u64> {
        if self.late.load(Ordering::SeqCst) > 0 {
            return None;
        }
        Some(self.tiles.load(Ordering::SeqCst))
    }
}

impl Gate for Meeting {
    fn before_tile(&self, worker: u32, _tile: u64) {
        self.tiles.fetch_add(1, Ordering::SeqCst);
        let own = if worker < 64 { 1 << worker } else { 0 };
        self.entered.fetch_or(own, Ordering::SeqCst);
        if self.late.load(Ordering::SeqCst) > 0 {
            return;
        }
        for _ in 0..TURNS {
            if self.entered.load(Ordering::SeqCst) == self.all {
                return;
            }
            yield_now();
        }
        self.late.fetch_add(1, Ordering::SeqCst);
    }
}

/// The number of tiles in two steps of this state's engine, by workers that meet there. `None` unless the state after
/// them equals the state after two steps on one thread.
fn tiles_of<R: Threads + Sync + AllocGlobal>(
    rt: &R,
    direction: Direction,
    workers: Workers,
    state: &[u8],
) -> Option<u64> {
    let gate = Meeting::of(workers);
    let alone = after(rt, direction, None, &gate, state)?;
    let together = after(rt, direction, Some(workers), &gate, state)?;
    if alone == together {
        gate.tiles_if_met()
    } else {
        None
    }
}

/// The state after two steps of this state's engine, by these workers or on one thread. One engine for each call:
/// functions that own two are slow to prove.
fn after<R: Threads + Sync + AllocGlobal>(
    rt: &R,
    direction: Direction,
    workers: Option<Workers>,
    gate: &Meeting,
    state: &[u8],
) -> Option<Vec<u8>> {
    match engine_over(rt.alloc(), state) {
        Some(mut engine) => text_after(rt, direction, workers, gate, &mut engine),
        None => None,
    }
}

/// The state after two steps of this engine, by these workers or on one thread.
fn text_after<R: Threads + Sync + AllocGlobal>(
    rt: &R,
    direction: Direction,
    workers: Option<Workers>,
    gate: &Meeting,
    engine: &mut Engine<Global>,
) -> Option<Vec<u8>> {
    let went = match workers {
        Some(workers) => engine.make_hooked_steps(rt, direction, 2, workers, gate),
        None => engine.steps_alone(direction, 2),
    };
    if went.is_ok() {
        text_of(rt.alloc(), engine)
    } else {
        None
    }
}

/// Whether each of two steps there and of two steps back visits each tile once.
fn visit_all<R: Threads + Sync + AllocGlobal>(rt: &R, workers: Workers, state: &[u8]) -> bool {
    tiles_of(rt, Direction::Forward, workers, state) == Some(2 * 896)
        && tiles_of(rt, Direction::Back, workers, state) == Some(2 * 896)
}

// A box of 3.6 nm has four cells of 0.9 nm along each side, 64 in all. Each has 26 neighbours, so there are 64 + 64 *
// 26 / 2 = 896 tiles, and a step visits each. Every cell holds an atom, so 832 tiles have pairs, enough for 64 workers.
#[test]
fn all_workers_in_tiles_at_once(rt: HostRuntime) -> Result<(), Fail> {
    let start = clusters(rt.alloc())?;
    for count in [1, 2, 5, 64] {
        assert!(rt;
            visit_all(&rt, Workers::new(count), &start),
            "{count} workers"
        );
    }
    Ok(())
}
