//! Thread pools: that they visit each pair once, and that workers run at the same time.

ghost use Rattle.std.specs.Prelude.{◌≡◌, ◌*◌, ◌<◌, ◌≤◌, length, All, IfOk};
ghost use Rattle.rounds.specs.Tiles.{IsPairOf};

use crate::listed::{Listed, add};
use crate::recorded::{Numbered, Record, Recorded};
use rounds::{Forces, Memory, PairAdds, RowWork, Work, forces};
use std::alloc::{AllocError, Allocator, Global};
use std::sync::atomic::Ordering;
use std::test::Fail;
use std::thread::Threads;

/// Whether one worker for each scratch compute these sums of the forces on two or three atoms.
pub(crate) fn come_to<R: Threads + Sync, A: Allocator + Copy, S: Send, W: RowWork<S> + Sync>(
    rt: &R,
    alloc: A,
    work: &W,
    scratches: &mut [S],
    gate: &Record,
    sums: &[i64],
) -> Result<bool, Memory>
    requires some { 0 < length scratches.old }
    requires atoms { 3 * W.atoms work.now ≤ length sums.now }
{
    if work.tiles() > 64 || scratches.len() > 64 || sums.len() > 9 {
        return Ok(false);
    }
    let together = forces(rt, alloc, work, scratches, sums.len() as u32 / 3, gate)?;
    Ok(together.as_slice() == sums)
}

/// Adds the forces that the scratch holds on one thread, if the sums have room for them.
fn add_held<S, W: RowWork<S>>(alone: &mut Forces<Global>, work: &W, scratch: &S, atoms: u32)
    requires pairs { All (IsPairOf (W.atoms work.now)) (W.held scratch.now) }
    requires atoms { W.atoms work.now ≤ atoms }
{
    for l in 0..work.count(scratch) {
        if 3 * atoms as usize <= alone.as_slice().len() {
            alone.add(&work.add_at(scratch, l));
        }
    }
}

/// Adds the forces of a tile's pairs on one thread, if the sums have room for them.
fn add_tile<S, W: RowWork<S>>(
    alone: &mut Forces<Global>,
    work: &W,
    scratch: &mut S,
    tile: u64,
    atoms: u32,
)
    requires tile { tile < length (W.plan work.now) }
    requires atoms { W.atoms work.now ≤ atoms }
{
    let pairs = work.pairs(tile);
    let mut k = 0;
    for _ in 0..pairs {
        if k < pairs {
            k = work.next_adds(scratch, tile, k);
            add_held(alone, work, scratch, atoms);
        }
    }
}

/// Whether one thread computes these sums.
fn comes_to<S, W: RowWork<S>>(
    alloc: Global,
    work: &W,
    scratch: &mut S,
    atoms: u32,
    sums: &[i64],
) -> bool
    requires { W.atoms work.now ≤ atoms }
{
    let Ok(mut alone) = Forces::none(alloc, atoms) else {
        return false;
    };
    for tile in 0..work.tiles() {
        add_tile(&mut alone, work, scratch, tile, atoms);
    }
    alone.as_slice() == sums
}

/// `tiles` tiles of `pairs` pairs, which push the atoms 0 and 1 apart.
fn pushes(alloc: Global, tiles: u32, pairs: usize) -> Result<Listed, AllocError>
    ensures { IfOk result (λ w. w.atoms ≡ 2) }
{
    let mut all = Vec::new(alloc);
    for _ in 0..tiles {
        all.push(vec![in alloc; add(0, 1, [1, 2, 3]); pairs]?)?;
    }
    Ok(Listed {
        atoms: 2,
        tiles: all,
    })
}

/// Empty scratches of this many workers.
fn empty(alloc: Global, workers: usize) -> Result<Vec<PairAdds>, AllocError>
    ensures { IfOk result (λ v. length v.items ≡ workers) }
{
    let mut all = Vec::new(alloc);
    for _ in 0..workers {
        all.push(PairAdds::new())?;
    }
    Ok(all)
}

/// Empty scratches of this many workers, numbered from 0.
fn numbered(alloc: Global, workers: u32) -> Result<Vec<Numbered>, AllocError>
    ensures { IfOk result (λ v. length v.items ≡ workers) }
{
    let mut all = Vec::new(alloc);
    for worker in 0..workers {
        all.push(Numbered::new(worker))?;
    }
    Ok(all)
}

/// The sums of six tiles of 188 such pairs.
const SIX_TILES: [i64; 6] = [1128, 2256, 3384, -1128, -2256, -3384];

/// Whether this many workers visit each pair of six tiles once, and pass the hook once for each tile, before they visit
/// a pair of the tile.
fn visit_each_once<R: Threads + Sync + AllocGlobal>(rt: &R, workers: usize) -> Result<bool, Memory>
    requires some { 0 < workers }
    requires few { workers ≤ 64 }
{
    let record = Record::new(0);
    let work = Recorded::new(pushes(rt.alloc(), 6, 188)?, &record);
    let mut scratches = empty(rt.alloc(), workers)?;
    let scratches = scratches.as_mut_slice();
    let same = come_to(rt, rt.alloc(), &work, scratches, &record, &SIX_TILES)?;
    Ok(same && record.has_counted(1128, 6))
}

#[test]
fn visits_each_pair_once_behind_the_gate(rt: HostRuntime) -> Result<(), Fail> {
    for workers in [1, 2, 3, 64] {
        assert!(rt; visit_each_once(&rt, workers)?);
    }
    Ok(())
}

#[test]
fn asks_for_rows_alone(rt: HostRuntime) -> Result<(), Fail> {
    assert!(rt; alone_asks_for_rows(rt.alloc())?);
    for workers in [1u32, 2, 3, 64] {
        assert!(rt; ask_for_rows(&rt, workers)?);
    }
    Ok(())
}

/// Whether one thread visits no pair singly.
fn alone_asks_for_rows(alloc: Global) -> Result<bool, AllocError> {
    let record = Record::new(0);
    let work = Recorded::new(pushes(alloc, 6, 188)?, &record);
    let same = comes_to(alloc, &work, &mut Numbered::new(0), 2, &SIX_TILES);
    Ok(same && record.visits.load(Ordering::SeqCst) == 0)
}

/// Whether this many workers visit no pair singly.
fn ask_for_rows<R: Threads + Sync + AllocGlobal>(rt: &R, workers: u32) -> Result<bool, Memory>
    requires some { 0 < workers }
    requires few { workers ≤ 64 }
{
    let record = Record::new(0);
    let work = Recorded::new(pushes(rt.alloc(), 6, 188)?, &record);
    let mut scratches = numbered(rt.alloc(), workers)?;
    let scratches = scratches.as_mut_slice();
    let same = come_to(rt, rt.alloc(), &work, scratches, &record, &SIX_TILES)?;
    Ok(same && record.visits.load(Ordering::SeqCst) == 0)
}

/// Whether this many workers, each in a tile of its own, are in pairs at the same time.
fn are_at_once<R: Threads + Sync + AllocGlobal>(rt: &R, workers: u32) -> Result<bool, Memory>
    requires some { 0 < workers }
    requires few { workers < 64 }
{
    let record = Record::new(workers);
    let work = Recorded::new(pushes(rt.alloc(), workers, 1)?, &record);
    let mut scratches = empty(rt.alloc(), workers as usize)?;
    let scratches = scratches.as_mut_slice();
    let t = i64::from(workers);
    let sums = [t, 2 * t, 3 * t, -t, -2 * t, -3 * t];
    let same = come_to(rt, rt.alloc(), &work, scratches, &Record::new(0), &sums)?;
    Ok(same && record.late.load(Ordering::SeqCst) == 0)
}

#[test]
fn workers_are_in_pairs_at_once(rt: HostRuntime) -> Result<(), Fail> {
    for workers in [2u32, 4, 5, 63] {
        assert!(rt; are_at_once(&rt, workers)?);
    }
    Ok(())
}

// Each worker uses the scratch with its own number: 0 on the caller's thread, then in order.
#[test]
fn tells_the_gate_who_draws(rt: HostRuntime) -> Result<(), Fail> {
    let record = Record::new(8);
    let work = Recorded::new(pushes(rt.alloc(), 8, 1)?, &record);
    let mut scratches = numbered(rt.alloc(), 8)?;
    let scratches = scratches.as_mut_slice();
    let sums = [8, 16, 24, -8, -16, -24];
    let same = come_to(&rt, rt.alloc(), &work, scratches, &record, &sums)?;
    assert!(rt; same && record.has_counted(0, 8));
    Ok(())
}
