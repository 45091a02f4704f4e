//! Lists of pairs of atoms in one block of memory.

ghost use Rattle.std.specs.Prelude.{◌≡◌, ◌<◌, ◌^◌, [], ◌++◌, length, map, slice_index_or, OnErr, OnOk, IsPermutation};
ghost use Rattle.pair_lists.specs.Lists.{closed_from};

use ring_box::AtomPair;
use std::alloc::{AllocError, Allocator};
use std::marker::Model;

/// Lists of pairs of atoms, and pairs behind them that are in no list yet. Contracts see both.
#[derive(Drop)]
pub(crate) struct ListedPairs<A: Allocator> {
    pairs: Vec<AtomPair, A>,
    // the index of each list's first pair, and the index after its last
    bounds: Vec<(usize, usize), A>,
    closed: usize,
}

impl<A: Allocator> Model for ListedPairs<A> {
    ghost use Rattle.std.specs.Prelude.{◌≤◌, drop, length, map, All};
    ghost use Rattle.pair_lists.specs.Lists.{ListsAndRest, part_of};

    ghost Value = { ListsAndRest };

    ghost view = { λ l. record {
      lists = map (λ s. part_of s.0 s.1 (map (λ p. (p.low, p.high)) l.pairs.items)) l.bounds.items;
      rest = drop l.closed (map (λ p. (p.low, p.high)) l.pairs.items);
    } };

    ghost invariant = { λ l. (l.closed ≤ length l.pairs.items)
        × All (λ s. (s.0 ≤ s.1) × (s.1 ≤ length l.pairs.items)) l.bounds.items };
}

impl<A: Allocator> ListedPairs<A> {
    /// No lists.
    pub(crate) fn new(alloc: A) -> ListedPairs<A>
    where
        A: Copy,
        ensures lists { result.lists ≡ [] }
        ensures rest { result.rest ≡ [] }
    {
        ListedPairs {
            pairs: Vec::new(alloc),
            bounds: Vec::new(alloc),
            closed: 0,
        }
    }

    /// Drops all lists, and keeps their memory.
    pub(crate) fn clear(&mut self)
        ensures lists { self.new.lists ≡ [] }
        ensures rest { self.new.rest ≡ [] }
    {
        self.pairs.clear();
        self.bounds.clear();
        self.closed = 0;
    }

    /// Appends pairs that are in no list yet. `AllocError`: memory ran out, and nothing has changed.
    pub(crate) fn append(&mut self, pairs: &[AtomPair]) -> Result<(), AllocError>
        ensures rest { OnOk result (self.new.rest ≡ self.old.rest ++ map (λ p. (p.low, p.high)) pairs.now) }
        ensures lists { self.new.lists ≡ self.old.lists }
        ensures err { OnErr result (self.new ≡ self.old) }
    {
        self.pairs.extend_from_slice(pairs)
    }

    /// Makes a list of the pairs that are in none yet, if they are at least this many. `AllocError`: memory ran out, and
    /// nothing has changed.
    pub(crate) fn close_from(&mut self, least: usize) -> Result<(), AllocError>
        ensures ok { OnOk result (self.new ≡ closed_from least self.old) }
        ensures err { OnErr result (self.new ≡ self.old) }
    {
        let end = self.pairs.len();
        if end - self.closed < least {
            return Ok(());
        }
        self.bounds.push((self.closed, end))?;
        self.closed = end;
        Ok(())
    }

    /// Changes the order of the lists: they are divided into this many parts, which take turns. So workers that draw one
    /// list after the other are in distant parts of the box, and rarely add forces to the same atoms.
    pub(crate) fn spread(&mut self, parts: usize)
        ensures lists { IsPermutation self.old.lists self.new.lists }
        ensures rest { self.new.rest ≡ self.old.rest }
    {
        let part = self.pairs.len() / parts.max(1) + 1;
        self.bounds.sort_unstable_by_key(|bounds| bounds.0 % part);
    }

    /// The number of lists.
    pub(crate) fn len(&self) -> u64
        ensures value { result ≡ length self.now.lists }
        ensures few { result < 2 ^ 63 }
    {
        self.bounds.len() as u64
    }

    /// The list with this number. The caller ensures that there is one.
    pub(crate) fn list(&self, number: u64) -> &[AtomPair]
        requires { number < length self.now.lists }
        ensures { map (λ p. (p.low, p.high)) result.now ≡ slice_index_or self.now.lists number [] }
    {
        let (start, end) = self.bounds[number as usize];
        &self.pairs[start..end]
    }
}
