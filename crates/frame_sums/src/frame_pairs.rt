//! The pairs of a frame, tile by tile, as the work of a round.
//!
//! A batch of up to 128 pairs is computed in stages, each for all pairs before the next. Interacting pairs are first
//! stored contiguously (`FoundPairs`), without a branch to mispredict. The pairs of a kept list are tried until a batch
//! is full, so only the last batch of a list may have fewer. Then come their lines and distances, their slopes in lanes
//! (`run_lanes` for flat code, `run_paths` for code with jumps), and the forces, which the scratch keeps. Estimates of separations and
//! lengths in floating point, made for the distances, also serve the forces. If no pair interacts, no code runs; with
//! one type of atoms, no type is looked up. The contract of a batch mentions only the plan (`AreNextActing`), so the
//! sums are the same as pair by pair.

ghost use Rattle.std.specs.Prelude.{◌≡◌, ◌<◌, ◌≤◌, length, map, All};
ghost use Rattle.pair_lists.specs.PairLists.{IsPrepared, list_at, lists_of};
ghost use Rattle.rounds.specs.Tiles.{pairs_at, AreNextActing};
ghost use Rattle.frame_sums.specs.Rounds.{plan_of};
ghost use Rattle.frame_sums.specs.Rows.{AreNextFound, IsFound, add_found};

use crate::rows::Scratch;
use crate::safe_systems::SafeSystem;
use crate::sums_over_pairs::SumOverPairs;
use cell_tiles::NearPairs;
use ring_box::{FoundPairs, Place3};
use rounds::{PairAdd, RowWork, Work};
use std::alloc::Allocator;

/// The pairs of the frame that was prepared last.
#[derive(Drop)]
pub(crate) struct FramePairs<'a, A: Allocator + Copy> {
    pub system: &'a SafeSystem<A>,
    pub frame: &'a [Place3],
    pub ghost prepared: { IsPrepared system.now.lists frame.now },
    pub ghost atoms: { length frame.now ≡ length system.now.system.types.items },
}

impl<'a, A: Allocator + Copy> Work for FramePairs<'a, A> {
    ghost plan = { λ w. plan_of w.system.now.system w.frame.now (lists_of w.system.now.lists) };

    ghost atoms = { λ w. length w.frame.now };

    fn tiles(&self) -> u64 {
        self.system.lists.tiles()
    }

    fn pairs(&self, tile: u64) -> u64 {
        self.system.lists.pairs(tile)
    }

    fn pair(&self, tile: u64, k: u64) -> Option<PairAdd> {
        let pair = self.system.lists.pair(tile, k);
        self.system.pair_add(self.frame, pair.low, pair.high)
    }
}

impl<'a, A: Allocator + Copy> FramePairs<'a, A> {
    /// Finds the next interacting pairs, and returns the number of the pair to continue with.
    pub fn find(&self, tile: u64, k: u64, near: &mut NearPairs, found: &mut FoundPairs) -> u64
        requires tile { tile < length (lists_of self.now.system.now.lists) }
        requires start { k < length (list_at self.now.system.now.lists tile) }
        ensures sieved { AreNextFound self.now.system.now.system self.now.frame.now
            (list_at self.now.system.now.lists tile) k found.new.pairs result }
        ensures next { AreNextActing
            (pairs_at (plan_of self.now.system.now.system self.now.frame.now (lists_of self.now.system.now.lists)) tile)
            k (map (add_found self.now.system.now.system) found.new.pairs) result }
        ensures measured { found.new.measured ≡ length found.new.pairs }
        ensures found { All (IsFound self.now.system.now.system (length self.now.frame.now)) found.new.pairs }
        ensures few { length found.new.pairs ≤ 128 }
    {
        let reach = self.system.reach();
        let lists = &self.system.lists;
        if lists.are_kept() {
            let tried = self
                .system
                .find_batch(&reach, self.frame, lists.kept_from(tile, k), found);
            return k + tried as u64;
        }
        let next = lists.near_from(self.frame, tile, k, near);
        self.system
            .find_batch(&reach, self.frame, near.as_slice(), found);
        next
    }
}

// There are two allocators: the work's is only shared by threads, and the scratch's only moves to one.
impl<'a, A: Allocator + Copy, B: Allocator> RowWork<Scratch<B>> for FramePairs<'a, A> {
    ghost use Rattle.frame_sums.specs.Rows.{adds_from};

    ghost held = { λ s. adds_from 0 s.found.pairs s.forces };

    // Computes geometry, then derivatives, then forces for a batch of pairs.
    fn next_adds(&self, scratch: &mut Scratch<B>, tile: u64, k: u64) -> u64 {
        self.find_row(true, tile, k, scratch)
    }

    #[inline(always)]
    fn count(&self, scratch: &Scratch<B>) -> usize {
        scratch.found.len()
    }

    #[inline(always)]
    fn add_at(&self, scratch: &Scratch<B>, l: usize) -> PairAdd {
        scratch.add_at(l)
    }
}

// ---- sums

impl<'a, A: Allocator + Copy> FramePairs<'a, A> {
    ghost use Rattle.std.specs.Prelude.{◌+◌, ◌^◌, ◌++◌, [], IsTrue, List};
    ghost use Rattle.frame_sums.specs.Rows.{AreFoundForces, found_in, pairs_found};
    ghost use Rattle.ring_box.specs.declared.found_pairs.FoundPair.{FoundPair};

    /// Finds the next interacting pairs, with their forces if they are needed, and returns the number of the pair to
    /// continue with.
    #[inline(always)]
    fn find_row<B: Allocator>(
        &self,
        forces: bool,
        tile: u64,
        k: u64,
        scratch: &mut Scratch<B>,
    ) -> u64
        requires tile { tile < length (lists_of self.now.system.now.lists) }
        requires start { k < length (list_at self.now.system.now.lists tile) }
        ensures sieved { AreNextFound self.now.system.now.system self.now.frame.now
            (list_at self.now.system.now.lists tile) k scratch.new.found.pairs result }
        ensures next { AreNextActing
            (pairs_at (plan_of self.now.system.now.system self.now.frame.now (lists_of self.now.system.now.lists)) tile)
            k (map (add_found self.now.system.now.system) scratch.new.found.pairs) result }
        ensures measured { scratch.new.found.measured ≡ length scratch.new.found.pairs }
        ensures found { All (IsFound self.now.system.now.system (length self.now.frame.now)) scratch.new.found.pairs }
        ensures few { length scratch.new.found.pairs ≤ 128 }
        ensures forces { IsTrue forces → AreFoundForces self.now.system.now.system scratch.new.found.pairs scratch.new.forces }
    {
        let next = self.find(tile, k, &mut scratch.near, &mut scratch.found);
        if forces {
            self.system.forces(scratch);
        }
        next
    }

    /// Adds the pairs of a tile to a sum.
    fn add_tile<B: Allocator, S, T: SumOverPairs<A, S>>(
        &self,
        rule: &T,
        scratch: &mut Scratch<B>,
        tile: u64,
        sum: &mut S,
    )
        requires own { T.is_for rule.now self.now.system.now.system }
        requires tile { tile < length (lists_of self.now.system.now.lists) }
        requires room { (done : List FoundPair) × T.is_sum rule.now self.now.system.now.system done sum.old
            × (length done + length (found_in self.now.system.now.system self.now.frame.now
            (list_at self.now.system.now.lists tile)) < 2 ^ 32) }
        ensures { (done : List FoundPair) → T.is_sum rule.now self.now.system.now.system done sum.old
            → T.is_sum rule.now self.now.system.now.system (done ++ found_in self.now.system.now.system
            self.now.frame.now (list_at self.now.system.now.lists tile)) sum.new }
    {
        let pairs = self.pairs(tile);
        let mut k = 0;
        while k < pairs {
            k = self.find_row(T::needs_forces(), tile, k, scratch);
            rule.add_batch(self.system, scratch, sum);
        }
    }

    /// Adds all pairs of the frame to the sum over no pairs, on the caller's thread.
    pub fn add_all<B: Allocator, S, T: SumOverPairs<A, S>>(
        &self,
        rule: &T,
        scratch: &mut Scratch<B>,
        sum: &mut S,
    )
        requires own { T.is_for rule.now self.now.system.now.system }
        requires none { T.is_sum rule.now self.now.system.now.system [] sum.old }
        ensures { T.is_sum rule.now self.now.system.now.system
            (pairs_found self.now.system.now.system self.now.frame.now (lists_of self.now.system.now.lists)) sum.new }
    {
        for tile in 0..self.tiles() {
            self.add_tile(rule, scratch, tile, sum);
        }
    }
}
