//! A list of pairs, and the test of an atom with a row of others: it lists the pairs that the coarse test doesn't rule
//! out.
//!
//! The masks of up to four blocks are joined, so that 64 lanes are walked at once: a processor mispredicts the end of a
//! walk, and with one walk for each block an interacting pair costs 4 percent more. Pairs are written before the test
//! for room. A row is cut only before 64 lanes whose pairs don't fit: each list has a fixed cost, so few lists are best.

ghost use Rattle.std.specs.Prelude.{◌≡◌, ◌+◌, ◌*◌, ◌^◌, ◌<◌, ◌≤◌, ◌++◌, ℕ, IsTrue, false, length, map, slice_index, take, All};
ghost use Rattle.place_blocks.specs.Blocks.{AreUpperHalves};
ghost use Rattle.ring_box.specs.Places.{places_of};
ghost use Rattle.cell_tiles.specs.Cells.{AreInBlocks};
ghost use Rattle.cell_tiles.specs.Near.{ArePairsIn, IsMarkBelow, acting_in, lanes_of, named};
ghost use Rattle.cell_tiles.specs.Tiles.{pair_of, pairs_with};

use crate::lanes::{bits_of, near_lanes, next_lane};
use crate::marks::Marks;
use crate::near::FrameInBox;
use crate::pairs::in_order;
use place_blocks::{Block, UpperHalves};
use ring_box::AtomPair;
use std::marker::Model;

/// At most 128 pairs of atoms, in order. Contracts see the list of them. Up to 64 more are written before it is known
/// whether there is room for them; hence 192 slots.
#[derive(Drop)]
pub(crate) struct PairList {
    pairs: [AtomPair; 192],
    count: usize,
}

impl Model for PairList {
    ghost use Rattle.std.specs.Prelude.{ℕ, List, ◌≤◌, map, take};

    ghost Value = { List (ℕ × ℕ) };

    ghost view = { λ n. map (λ p. (p.low, p.high)) (take n.count n.pairs) };

    ghost invariant = { λ n. n.count ≤ 128 };
}

impl PairList {
    ghost use Rattle.std.specs.Prelude.{[]};

    /// An empty list.
    pub(crate) fn new() -> PairList
        ensures { result ≡ [] }
    {
        PairList {
            pairs: [AtomPair { low: 0, high: 0 }; 192],
            count: 0,
        }
    }

    /// The pairs, in order.
    pub(crate) fn as_slice(&self) -> &[AtomPair]
        ensures value { map (λ p. (p.low, p.high)) result.now ≡ self.now }
        ensures few { length result.now ≤ 128 }
    {
        &self.pairs[..self.count]
    }

    /// Empties the list.
    pub(crate) fn clear(&mut self)
        ensures { self.new ≡ [] }
    {
        self.count = 0;
    }

    /// The number of pairs, at most 128.
    #[inline(always)]
    pub(crate) fn len(&self) -> usize
        ensures value { result ≡ length self.now }
        ensures few { result ≤ 128 }
    {
        self.as_slice().len()
    }

    /// Replaces the list by the pairs of at most 128 marks; a mark's second number indexes `others`.
    pub(crate) fn resolve(&mut self, marks: &Marks, others: &[u32])
        requires few { length marks.now ≤ 128 }
        requires below { All (IsMarkBelow (length others.now)) marks.now }
        ensures { self.new ≡ named others.now marks.now }
    {
        let count = marks.len();
        for e in 0..count {
            let (atom, index) = marks.at(e);
            self.pairs[e] = in_order(atom, others[index]);
        }
        self.count = count;
    }

    /// Appends the pairs of an atom with each other atom (of up to 64) whose bit in `marked` is set. If there is no room
    /// for all of them, the result is false, and the list is unchanged.
    #[tactic(auto, using(crate::proofs::LaneLemmas::lane_below))]
    #[inline(always)]
    fn add_marked(&mut self, atom: u32, others: &[u32], marked: u64) -> bool
        requires few { length others.now ≤ 64 }
        requires marked { marked < 2 ^ length others.now }
        ensures added { IsTrue result → self.new ≡ self.old ++ map (λ j. pair_of atom (slice_index others.now j)) (lanes_of marked) }
        ensures same { result ≡ false → self.new ≡ self.old }
        ensures room { length self.old + length others.now ≤ 128 → IsTrue result }
    {
        let mut count = self.count;
        let mut left = marked;
        while left != 0 {
            let (lane, rest) = next_lane(left);
            self.pairs[count] = in_order(atom, others[lane]);
            count += 1;
            left = rest;
        }
        if count > 128 {
            return false;
        }
        self.count = count;
        true
    }

    /// Appends the pairs of an atom with the others that may interact with it. The others have the lanes of up to four
    /// blocks, from the lane `first` on. If there is no room for all of them, the result is false, and the list is
    /// unchanged.
    #[inline(always)]
    fn add_blocks(
        &mut self,
        frame: &FrameInBox,
        atom: u32,
        halves: UpperHalves,
        blocks: &[Block],
        first: usize,
        others: &[u32],
    ) -> bool
        requires few { length blocks.now ≤ 4 }
        requires some { 0 < length others.now }
        requires lanes { first + length others.now ≤ 16 * length blocks.now }
        requires halves { AreUpperHalves halves (places_of frame.now.places.now atom) }
        requires beside { AreInBlocks frame.now.places.now blocks.now first others.now }
        requires pairs { ArePairsIn frame.now (pairs_with atom others.now) }
        ensures acting { IsTrue result → acting_in frame.now self.new
            ≡ acting_in frame.now self.old ++ acting_in frame.now (pairs_with atom others.now) }
        ensures same { result ≡ false → self.new ≡ self.old }
        ensures room { length self.old + length others.now ≤ 128 → IsTrue result }
        ensures listed { ArePairsIn frame.now self.old → ArePairsIn frame.now self.new }
        ensures few { length self.new ≤ length self.old + length others.now }
    {
        let near = near_lanes(&frame.coarse, blocks, halves);
        self.add_marked(atom, others, bits_of(near, first, others.len()))
    }

    /// Appends the pairs of an atom with the others that may interact with it, up to four blocks at once, as long as
    /// there is room. Returns the number of others that were examined. The others have the lanes of these blocks, from
    /// the lane `first` on.
    #[tactic(auto, using(crate::proofs::ListLemmas::part_passed))]
    pub(crate) fn add_row(
        &mut self,
        frame: &FrameInBox,
        atom: u32,
        halves: UpperHalves,
        blocks: &[Block],
        first: usize,
        others: &[u32],
    ) -> usize
        requires long { first + length others.now ≤ 16 * length blocks.now }
        requires halves { AreUpperHalves halves (places_of frame.now.places.now atom) }
        requires beside { AreInBlocks frame.now.places.now blocks.now first others.now }
        requires pairs { ArePairsIn frame.now (pairs_with atom others.now) }
        ensures acting { acting_in frame.now self.new
            ≡ acting_in frame.now self.old ++ acting_in frame.now (take result (pairs_with atom others.now)) }
        ensures listed { ArePairsIn frame.now self.old → ArePairsIn frame.now self.new }
        ensures within { result ≤ length others.now }
        ensures onward { 0 < length others.now → length self.old ≤ 64 → 0 < result }
        ensures few { length self.new ≤ length self.old + result }
    {
        let mut seen = 0;
        while seen < others.len() {
            let lane = (first + seen) % 16;
            let end = others.len().min(seen + (64 - lane));
            let reached = &blocks[(first + seen) / 16..(first + end).div_ceil(16)];
            if !self.add_blocks(frame, atom, halves, reached, lane, &others[seen..end]) {
                return seen;
            }
            seen = end;
        }
        seen
    }
}
