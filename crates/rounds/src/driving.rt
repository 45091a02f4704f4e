//! One worker, from its first ticket to the one that stops it.
//!
//! A worker adds forces in batches of interacting pairs (`RowWork::next_adds`), so that the forces of a batch can be
//! computed together. The worker adds the forces from the scratch memory in which they were computed.
ghost use Rattle.std.specs.Prelude.{◌≡◌, ◌<◌, ◌≤◌, length};
ghost use Rattle.rounds.specs.Tiles.{tiles_of, tile_of, pairs_at};
ghost use Rattle.rounds.specs.Workers.{HasDrawn, HasStopped, fresh, added};
ghost use Rattle.rounds.specs.Rule.{alone, first_of, IsFor};

use crate::rule::{PoolSeat, PoolTable};
use crate::steps::{claim, deposit_pairs};
use crate::work::RowWork;

/// A test hook that each worker calls before each tile that it has drawn.
pub trait Gate {
    /// Called once for each tile drawn, by the worker that drew it, after its claim and before the tile's first pair is
    /// visited.
    fn before_tile(&self, worker: u32, tile: u64);
}

// Makes all additions of the tile that was drawn.
fn deposit_tile<S, W: RowWork<S>>(
    table: &PoolTable<W>,
    seat: &mut PoolSeat,
    scratch: &mut S,
    work: &W,
    tile: u64,
)
    requires table { seat.old.table_id ≡ table.now.table_id }
    requires made { IsFor W.plan W.atoms table.now.table_id table.now.key.work.value
        table.now.key.atoms table.now.key.workers work.now }
    requires tile { tile < length (W.plan work.now) }
    requires alone { seat.old.me ≡ alone (first_of seat.old.me.0) }
    requires drawn { HasDrawn (tiles_of (W.plan work.now)) (first_of seat.old.me.0) tile }
    ensures table { seat.new.table_id ≡ seat.old.table_id }
    ensures added { seat.new.me
        ≡ alone (added (first_of seat.old.me.0) (tile_of (pairs_at (W.plan work.now) tile))) }
{
    let pairs = work.pairs(tile);
    let mut k = 0;
    while k < pairs {
        k = work.next_adds(scratch, tile, k);
        deposit_pairs(table, seat, work, scratch);
    }
}

/// Draws tiles and makes their additions, each by one step on the table, until a ticket is past the last tile. Returns
/// the seat, whose view holds only this worker, stopped: it has made all additions of its tiles, in order, and no
/// others. It doesn't allocate, and waits for no other thread.
///
/// The caller ensures that the table is made for this work and for enough atoms, that the seat belongs to the table,
/// and that it represents only this worker, which has drawn no ticket yet.
pub fn drive<S, W: RowWork<S>, G: Gate>(
    table: &PoolTable<W>,
    mut seat: PoolSeat,
    scratch: &mut S,
    worker: u32,
    work: &W,
    gate: &G,
) -> PoolSeat
    requires table { seat.table_id ≡ table.now.table_id }
    requires made { IsFor W.plan W.atoms table.now.table_id table.now.key.work.value
        table.now.key.atoms table.now.key.workers work.now }
    requires fresh { seat.me ≡ alone (fresh worker) }
    ensures table { result.table_id ≡ seat.table_id }
    ensures alone { result.me ≡ alone (first_of result.me.0) }
    ensures number { (first_of result.me.0).number ≡ worker }
    ensures stopped { HasStopped (tiles_of (W.plan work.now)) (first_of result.me.0) }
{
    let tiles = work.tiles();
    let mut tile = claim(table, &mut seat);
    while tile < tiles {
        gate.before_tile(worker, tile);
        deposit_tile(table, &mut seat, scratch, work, tile);
        tile = claim(table, &mut seat);
    }
    seat
}
