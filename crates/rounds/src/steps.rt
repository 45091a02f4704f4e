//! The two steps on the table, each a single `fetch_add`.
ghost use Rattle.std.specs.Prelude.{◌≡◌, ◌+◌, ◌*◌, ◌<◌, List, [], ◌∷◌, ◌++◌, length, take, Some, All};
ghost use Rattle.rounds.specs.Tiles.{Addition, tiles_of, additions_of, additions_of_all, IsPairOf};
ghost use Rattle.rounds.specs.Workers.{Each, IsReady, HasPending, drew, added};
ghost use Rattle.rounds.specs.Rule.{alone, first_of, IsSized};

use crate::rule::{Claim, Deposit, PoolSeat, PoolTable};
use crate::work::{PairAdd, RowWork, Work};

// Draws a ticket: adds 1 to word 0 and returns its old value.
pub(crate) fn claim<W: Work>(table: &PoolTable<W>, seat: &mut PoolSeat) -> u64
    requires table { seat.old.table_id ≡ table.now.table_id }
    requires sized { IsSized table.now.table_id table.now.key.atoms table.now.key.workers
        (length (W.plan table.now.key.work.value)) }
    requires alone { seat.old.me ≡ alone (first_of seat.old.me.0) }
    requires ready { IsReady (tiles_of (W.plan table.now.key.work.value)) (first_of seat.old.me.0) }
    ensures table { seat.new.table_id ≡ seat.old.table_id }
    ensures drew { seat.new.me ≡ alone (drew (first_of seat.old.me.0) result) }
    ensures later { Each (λ t. t < result) (first_of seat.old.me.0).tickets }
{
    table.fetch_add::<Claim>(seat, 0, 1)
}

// Makes the next addition that the worker owes: adds `amount` to the word of `entry`.
pub(crate) fn deposit<W: Work>(table: &PoolTable<W>, seat: &mut PoolSeat, entry: usize, amount: u64)
    requires table { seat.old.table_id ≡ table.now.table_id }
    requires sized { IsSized table.now.table_id table.now.key.atoms table.now.key.workers
        (length (W.plan table.now.key.work.value)) }
    requires entry { entry < 3 * table.now.key.atoms }
    requires alone { seat.old.me ≡ alone (first_of seat.old.me.0) }
    requires next { (rest : List Addition) × HasPending (tiles_of (W.plan table.now.key.work.value))
        (first_of seat.old.me.0) ((entry, amount) ∷ rest) }
    ensures table { seat.new.table_id ≡ seat.old.table_id }
    ensures added { seat.new.me ≡ alone (added (first_of seat.old.me.0) ((entry, amount) ∷ [])) }
{
    table.fetch_add::<Deposit>(seat, 1 + entry, amount);
}

// Makes the six additions of an interacting pair.
pub(crate) fn deposit_pair<W: Work>(table: &PoolTable<W>, seat: &mut PoolSeat, add: &PairAdd)
    requires table { seat.old.table_id ≡ table.now.table_id }
    requires sized { IsSized table.now.table_id table.now.key.atoms table.now.key.workers
        (length (W.plan table.now.key.work.value)) }
    requires atoms { IsPairOf table.now.key.atoms add.now }
    requires alone { seat.old.me ≡ alone (first_of seat.old.me.0) }
    requires next { (rest : List Addition) × HasPending (tiles_of (W.plan table.now.key.work.value))
        (first_of seat.old.me.0) (additions_of (Some add.now) ++ rest) }
    ensures table { seat.new.table_id ≡ seat.old.table_id }
    ensures added { seat.new.me ≡ alone (added (first_of seat.old.me.0) (additions_of (Some add.now))) }
{
    for part in 0..PairAdd::PARTS {
        let (entry, amount) = add.addition(part);
        deposit(table, seat, entry, amount);
    }
}

// Makes the additions of the forces that the scratch holds, one after the other.
pub(crate) fn deposit_pairs<S, W: RowWork<S>>(
    table: &PoolTable<W>,
    seat: &mut PoolSeat,
    work: &W,
    scratch: &S,
)
    requires table { seat.old.table_id ≡ table.now.table_id }
    requires sized { IsSized table.now.table_id table.now.key.atoms table.now.key.workers
        (length (W.plan table.now.key.work.value)) }
    requires atoms { All (IsPairOf table.now.key.atoms) (W.held scratch.now) }
    requires alone { seat.old.me ≡ alone (first_of seat.old.me.0) }
    requires next { (rest : List Addition) × HasPending (tiles_of (W.plan table.now.key.work.value))
        (first_of seat.old.me.0) (additions_of_all (W.held scratch.now) ++ rest) }
    ensures table { seat.new.table_id ≡ seat.old.table_id }
    ensures added { seat.new.me ≡ alone (added (first_of seat.old.me.0) (additions_of_all (W.held scratch.now))) }
{
    for k in 0..work.count(scratch) {
        deposit_pair(table, seat, &work.add_at(scratch, k));
    }
}
