//! The forces of a batch of pairs, as scratch memory of work that computes them one by one.

ghost use Rattle.std.specs.Prelude.{◌≡◌, ◌+◌, ◌<◌, ◌≤◌, ◌==◌, [], ◌∷◌, ◌++◌, length, All};
ghost use Rattle.rounds.specs.Tiles.{pairs_at, AreNextActing, IsPairOf};

use crate::work::{PairAdd, Work};
use std::marker::Model;

/// At most 128 forces, in order. Contracts see the list of them. Unlike the kit's `ArrayVec`, `clear` writes no zeros.
#[derive(Drop)]
pub struct PairAdds {
    adds: [PairAdd; 128],
    count: usize,
}

impl Model for PairAdds {
    ghost use Rattle.std.specs.Prelude.{◌≡◌, ◌≤◌, length, take};
    ghost use Rattle.rounds.specs.Tiles.{Batch};

    ghost Value = { Batch };

    ghost view = { λ b. record { items = take b.count b.adds } };

    ghost invariant = { λ b. (b.count ≤ 128) × (length b.adds ≡ 128) };
}

impl PairAdds {
    /// No forces.
    pub fn new() -> PairAdds
        ensures { result.items ≡ [] }
    {
        let none = PairAdd {
            low: 0,
            high: 0,
            force: [0; 3],
        };
        PairAdds {
            adds: [none; 128],
            count: 0,
        }
    }

    /// Drops all forces.
    #[inline]
    pub fn clear(&mut self)
        ensures { self.new.items ≡ [] }
    {
        self.count = 0;
    }

    /// Appends a force. There must be room.
    #[inline]
    pub fn push(&mut self, add: PairAdd)
        requires { length self.old.items < 128 }
        ensures items { self.new.items ≡ self.old.items ++ add ∷ [] }
        ensures len { length self.new.items ≡ length self.old.items + 1 }
    {
        self.adds[self.count] = add;
        self.count += 1;
    }

    /// Whether there is no room left.
    #[inline]
    pub fn is_full(&self) -> bool
        ensures value { result ≡ (length self.now.items == 128) }
        ensures fits { length self.now.items ≤ 128 }
    {
        self.count == 128
    }

    /// The forces, in order.
    #[inline]
    pub fn as_slice(&self) -> &[PairAdd]
        ensures value { result.now ≡ self.now.items }
        ensures fits { length result.now ≤ 128 }
    {
        &self.adds[..self.count]
    }
}

/// Replaces `adds` by the forces of the next interacting pairs of a tile from the pair `k` on, in order, at most 128.
/// Returns the number of the pair with which the next call continues. `RowWork::next_adds` is a call of this function
/// for work that computes each force separately. The caller ensures that there is such a tile, and that it has more
/// than `k` pairs.
pub fn next_from_pairs<W: Work>(work: &W, tile: u64, k: u64, adds: &mut PairAdds) -> u64
    requires tile { tile < length (W.plan work.now) }
    requires start { k < length (pairs_at (W.plan work.now) tile) }
    ensures next { AreNextActing (pairs_at (W.plan work.now) tile) k adds.new.items result }
    ensures atoms { All (IsPairOf (W.atoms work.now)) adds.new.items }
{
    adds.clear();
    let pairs = work.pairs(tile);
    for number in k..pairs {
        if adds.is_full() {
            return number;
        }
        match work.pair(tile, number) {
            Some(add) => adds.push(add),
            None => {}
        }
    }
    pairs
}
