//! The whole pool: its threads, its table, and its result.
//!
//! `thread::join` starts threads in a recursion: each worker's seat moves into its thread and comes back with the
//! worker's history. So all workers run at once, the caller's thread is worker 0, and there is no list of threads to
//! keep. If a thread can't be started, the caller's thread runs that worker after the others; the worker finds the
//! tickets that are left, mostly none, and stops. So each pair is still visited once, and the sums needn't be repeated.
ghost use Rattle.std.specs.Prelude.{◌≡◌, ℕ, ◌+◌, ◌*◌, ◌%◌, ◌^◌, ◌<◌, ◌≤◌, [], ◌++◌, length, take, drop, IfOk, vec_len, vec_capacity, slice_index};
ghost use Rattle.std.specs.Mem.Slots.{slots_items, slots_len, IsFull};
ghost use denote.Param.Send.{IsSend, IsSync};
ghost use Rattle.rounds.specs.Tiles.{tiles_of};
ghost use Rattle.rounds.specs.Workers.{Each, HasStopped, fresh};
ghost use Rattle.rounds.specs.Rule.{alone, first_of, fresh_workers, IsFor, IsSized};
ghost use Rattle.rounds.specs.Totals.{AreTotals, AreWords};

use crate::driving::{Gate, drive};
use crate::faults::Memory;
use crate::rule::{FirstWorker, PoolSeat, PoolTable, Setting};
use crate::sums::Forces;
use crate::work::{RowWork, Work};
use atomic_table::{Closed, Table};
use std::alloc::Allocator;
use std::snapshot::Snapshot;
use std::thread::{Threads, join};

// The first worker of the seat's view, in a seat of its own.
fn split_first<W: Work>(table: &PoolTable<W>, seat: &mut PoolSeat) -> PoolSeat
    requires table { seat.old.table_id ≡ table.now.table_id }
    requires sized { IsSized table.now.table_id table.now.key.atoms table.now.key.workers
        (length (W.plan table.now.key.work.value)) }
    ensures table { seat.new.table_id ≡ seat.old.table_id }
    ensures others { seat.new.me ≡ (drop 1 seat.old.me.0, seat.old.me.1) }
    ensures first_table { result.table_id ≡ seat.old.table_id }
    ensures first { result.me ≡ (take 1 seat.old.me.0, []) }
{
    table.split_seat::<FirstWorker>(seat)
}

// Appends the workers of another seat to the workers of this seat.
fn join_last<W: Work>(table: &PoolTable<W>, seat: &mut PoolSeat, other: PoolSeat)
    requires table { seat.old.table_id ≡ table.now.table_id }
    requires sized { IsSized table.now.table_id table.now.key.atoms table.now.key.workers
        (length (W.plan table.now.key.work.value)) }
    requires other { other.table_id ≡ table.now.table_id }
    requires free { other.me.1 ≡ [] }
    ensures table { seat.new.table_id ≡ seat.old.table_id }
    ensures all { seat.new.me ≡ (seat.old.me.0 ++ other.me.0, seat.old.me.1) }
{
    table.join_seat::<FirstWorker>(seat, other);
}

// Runs one worker for each scratch: the last in a thread of its own if one can be started, the others recursively here.
// If no thread can be started, the last runs here after the others.
fn run_all<R: Threads + Sync, S: Send, W: RowWork<S> + Sync, G: Gate + Sync>(
    rt: &R,
    table: &PoolTable<W>,
    mut seat: PoolSeat,
    scratches: &mut [S],
    count: u32,
    work: &W,
    gate: &G,
) -> PoolSeat
    requires table { seat.table_id ≡ table.now.table_id }
    requires made { IsFor W.plan W.atoms table.now.table_id table.now.key.work.value
        table.now.key.atoms table.now.key.workers work.now }
    requires count { 0 < count }
    requires scratches { length scratches.old ≡ count }
    requires fresh { seat.me ≡ (fresh_workers count, []) }
    ensures table { result.table_id ≡ seat.table_id }
    ensures count { (result.me.1 ≡ []) × (length result.me.0 ≡ count) }
    ensures stopped { Each (HasStopped (tiles_of (W.plan work.now))) result.me.0 }
{
    if count == 1 {
        return drive(table, seat, &mut scratches[0], 0, work, gate);
    }
    let last = count - 1;
    let (scratches, own) = scratches.split_at_mut(last as usize);
    let other = split_first(table, &mut seat);
    let (other, mut seat) = join(
        rt,
        move || -> PoolSeat
            requires { IsSend S.row × (other.table_id ≡ table.now.table_id)
                × IsFor W.plan W.atoms table.now.table_id table.now.key.work.value
                table.now.key.atoms table.now.key.workers work.now
                × (other.me ≡ alone (fresh last))
                × (length own.now ≡ 1) }
            ensures { (result.table_id ≡ other.table_id)
                × (result.me ≡ alone (first_of result.me.0))
                × HasStopped (tiles_of (W.plan work.entry.now)) (first_of result.me.0) }
        { drive(table, other, &mut own[0], last, work, gate) },
        move || -> PoolSeat
            requires { IsSync R.row × IsSend S.row × IsSync W.row × IsSync G.row
                × (seat.table_id ≡ table.now.table_id)
                × IsFor W.plan W.atoms table.now.table_id table.now.key.work.value
                table.now.key.atoms table.now.key.workers work.now
                × (0 < last) × (seat.me ≡ (fresh_workers last, []))
                × (length scratches.now ≡ last) }
            ensures { (result.table_id ≡ seat.table_id)
                × (result.me.1 ≡ []) × (length result.me.0 ≡ last)
                × Each (HasStopped (tiles_of (W.plan work.entry.now))) result.me.0 }
        { run_all(rt, table, seat, scratches, last, work, gate) },
    );
    join_last(table, &mut seat, other);
    seat
}

// The words after the first, read as signed numbers.
fn read_words<A: Allocator + Copy>(
    closed: &Closed<(), A>,
    mut sums: Vec<i64, A>,
    count: usize,
) -> Vec<i64, A>
    requires words { IsFull closed.now.words × (slots_len closed.now.words ≡ count + 1) }
    requires room { (vec_len sums ≡ 0) × (count ≤ vec_capacity sums) }
    ensures { AreWords (λ k. slice_index (slots_items closed.now.words) (1 + k)) count
        result.items }
{
    for k in 0..count {
        sums.push_reserved(closed.word(1 + k).cast_signed());
    }
    sums
}

/// The sum of all forces on each component of each atom: the sum over all tiles, modulo 2^64 and read as a signed
/// number, for every number of workers and every interleaving of their steps. `Memory` if an allocation fails.
///
/// There is one worker for each scratch. The caller's thread is worker 0, and each other worker has a thread, which is
/// joined. If a thread can't be started, the caller's thread runs its worker after the others, so each pair is visited
/// once. All memory is allocated before the first worker starts. Each worker takes a thread and a frame of the caller's
/// stack, so a program must bound their number.
///
/// The caller ensures that there is at least one scratch and fewer than 2^32, that the work has at most this many
/// atoms, and that tiles and workers together are fewer than 2^64.
pub fn forces<
    R: Threads + Sync,
    A: Allocator + Copy,
    S: Send,
    W: RowWork<S> + Sync,
    G: Gate + Sync,
>(
    rt: &R,
    alloc: A,
    work: &W,
    scratches: &mut [S],
    atoms: u32,
    gate: &G,
) -> Result<Forces<A>, Memory>
    requires workers { 0 < length scratches.old }
    requires few { length scratches.old < 2 ^ 32 }
    requires atoms { W.atoms work.now ≤ atoms }
    requires tiles { length (W.plan work.now) + length scratches.old < 2 ^ 64 }
    ensures totals { IfOk result (AreTotals (tiles_of (W.plan work.now)) atoms) }
{
    let count = 3 * atoms as usize;
    let workers = scratches.len() as u32;
    let sums = Vec::with_capacity(alloc, count)?;
    let words = vec![in alloc; 0u64; count + 1]?;
    let setting = Setting {
        work: Snapshot::of(work),
        atoms: u64::from(atoms),
        workers: u64::from(workers),
    };
    let (table, seat) = Table::of_words(alloc, words.as_slice(), &setting)?;
    drop(words);
    let seat = run_all(rt, &table.shared, seat, scratches, workers, work, gate);
    let closed = table.close_with(seat);
    let sums = read_words(&closed, sums, count);
    closed.free();
    Ok(Forces { sums })
}
