//! Pools of workers that sum the forces of a frame. The first worker is the caller's thread, and each other worker has
//! its own.
//!
//! A crew has 1 to 64 workers by its type. At most one worker runs per tile with pairs, but at least one in all
//! (`busy_tiles`); counting the tiles before each step costs less than starting a few threads. The count is taken in a
//! separate call (`sums`), so that the prover knows that the lent slice of scratches keeps its length. If a worker's
//! thread can't be started, the caller's thread runs the worker after the others (`rounds`), and the sums are the
//! same. The command's default is one worker, not the number of processors, so that its effect depends only on its
//! arguments and no thread starts unrequested.

ghost use Rattle.std.specs.Prelude.{◌<◌, ◌≤◌, ◌^◌, length, IfOk, OnOk};
ghost use Rattle.rounds.specs.Totals.{AreTotals};
ghost use Rattle.rounds.specs.Tiles.{tiles_of};
ghost use Rattle.pair_lists.specs.PairLists.{lists_of};
ghost use Rattle.frame_sums.specs.Rounds.{plan_of};

use crate::frame_pairs::FramePairs;
use crate::rows::Scratch;
use integrator::Workers;
use potential::LaneRows;
use rounds::{Forces, Gate, Memory, forces};
use std::alloc::{AllocError, Allocator};
use std::thread::Threads;

/// A test hook (`Gate`) that lets each tile pass.
#[derive(Clone, Copy)]
pub struct NoGate;

impl Gate for NoGate {
    fn before_tile(&self, _worker: u32, _tile: u64) {}
}

/// The thread team: how many workers are to sum, 1 to 64, and scratch for at least that many.
#[derive(Drop)]
pub struct Crew<A: Allocator> {
    pub(crate) scratches: Vec<Scratch<A>, A>,
    pub(crate) workers: usize,
    ghost some: { 0 < workers },
    ghost few: { workers ≤ 64 },
    ghost enough: { workers ≤ length scratches.items },
}

/// Adds scratch until each of `workers` workers has one. `AllocError`: memory ran out.
fn make_up<A: Allocator + Copy>(
    alloc: A,
    scratches: &mut Vec<Scratch<A>, A>,
    workers: usize,
) -> Result<(), AllocError>
    ensures made { OnOk result (workers ≤ length scratches.new.items) }
    ensures kept { length scratches.old.items ≤ length scratches.new.items }
{
    let missing = workers.saturating_sub(scratches.len());
    scratches.reserve_exact(missing)?;
    for _ in 0..missing {
        let rows = LaneRows::new(alloc)?;
        scratches.push_reserved(Scratch::with_rows(rows));
    }
    Ok(())
}

impl<A: Allocator + Copy> Crew<A> {
    /// Scratch for this many workers. `AllocError`: memory ran out.
    pub fn new(alloc: A, workers: Workers) -> Result<Crew<A>, AllocError> {
        let workers = workers.count() as usize;
        let mut scratches = Vec::new(alloc);
        make_up(alloc, &mut scratches, workers)?;
        Ok(Crew { scratches, workers })
    }

    /// Sets the number of workers. Existing scratch is kept, and missing scratch is added. `AllocError`: memory ran
    /// out, and the number is as before.
    pub fn reach(&mut self, alloc: A, workers: Workers) -> Result<(), AllocError> {
        let workers = workers.count() as usize;
        make_up(alloc, &mut self.scratches, workers)?;
        self.workers = workers;
        Ok(())
    }
}

impl<A: Allocator> Crew<A> {
    /// The scratch of the first worker, the caller's thread.
    pub fn first(&mut self) -> &mut Scratch<A> {
        &mut self.scratches[0]
    }
}

/// The runtime that starts workers, the first of which is the caller's thread, and the test hook that each calls before
/// each tile that it has drawn.
#[derive(Drop)]
pub struct Pool<'a, R, G> {
    pub rt: &'a R,
    pub gate: &'a G,
}

/// The number of non-empty tiles, clamped to 1..=most: the workers worth starting. By the clause `tiles`, tiles and
/// workers together fit 64 bits.
fn busy_tiles<A: Allocator + Copy>(work: &FramePairs<'_, A>, most: usize) -> usize
    requires { 0 < most }
    ensures some { 0 < result }
    ensures few { result ≤ most }
    ensures tiles { length (lists_of work.now.system.now.lists) < 2 ^ 63 }
{
    let lists = &work.system.lists;
    let mut busy = 0;
    for tile in 0..lists.tiles() {
        if busy == most {
            return busy;
        }
        if lists.pairs(tile) > 0 {
            busy += 1;
        }
    }
    busy.max(1)
}

impl<'a, R: Threads + Sync, G: Gate + Sync> Pool<'a, R, G> {
    /// The sums of the forces of a frame's pairs, computed by this many workers, but at most one per non-empty tile,
    /// and at least one. `Memory`: memory ran out.
    pub(crate) fn sums<A: Allocator + Copy + Sync, B: Allocator + Send>(
        &self,
        alloc: A,
        work: &FramePairs<'_, A>,
        scratches: &mut [Scratch<B>],
        workers: usize,
    ) -> Result<Forces<A>, Memory>
        requires some { 0 < workers }
        requires few { workers ≤ 64 }
        requires enough { workers ≤ length scratches.old }
        ensures { IfOk result (AreTotals (tiles_of (plan_of work.now.system.now.system work.now.frame.now
            (lists_of work.now.system.now.lists)))
            (length work.now.frame.now)) }
    {
        let busy = busy_tiles(work, workers);
        forces(
            self.rt,
            alloc,
            work,
            &mut scratches[..busy],
            work.frame.len() as u32,
            self.gate,
        )
    }
}
