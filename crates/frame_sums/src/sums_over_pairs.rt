//! Sums over the interacting pairs of a frame: energy, virial and nearest pair, forces, or several together.
//!
//! A rule (`SumOverPairs`) adds a batch of pairs to its sum, and one loop over tiles and batches serves all rules
//! (`FramePairs::add_all`). A rule defines its sum over a list of pairs (`is_sum`), so the loop needs no law of the
//! sum: adding a batch turns the sum of some pairs into the sum of these pairs followed by the batch. The pairs are
//! listed tile by tile, in the same order until the next frame is prepared.

ghost use Rattle.std.specs.Prelude.{◌≡◌, ◌+◌, ◌^◌, ◌<◌, ◌≤◌, ◌++◌, Bool, IsTrue, List, length, All};
ghost use Rattle.integrator.specs.declared.systems.System.{System};
ghost use Rattle.potential.specs.declared.slope_kernels.SlopeKernel.{SlopeKernel};
ghost use Rattle.ring_box.specs.declared.found_pairs.FoundPair.{FoundPair};
ghost use Rattle.frame_sums.specs.Rows.{AreFoundForces, IsFound};

use crate::rows::Scratch;
use crate::safe_systems::SafeSystem;
use std::alloc::Allocator;

/// A rule for a sum `S` over the interacting pairs of a frame.
///
/// `S` is a parameter of the trait and no associated type, as the scratch of `RowWork` is.
pub(crate) trait SumOverPairs<A: Allocator + Copy, S> {
    /// Whether the rule is for frames of this system.
    ghost is_for: { Self → System (SlopeKernel A) A → Type 0 };

    /// Whether this is the sum over these pairs of atoms of the system.
    ghost is_sum: { Self → System (SlopeKernel A) A → List FoundPair → S → Type 0 };

    /// Whether the rule needs the forces of the pairs.
    ghost needs: { Bool };

    /// Whether the rule needs the forces of the pairs. Otherwise no derivative is computed.
    fn needs_forces() -> bool
        ensures { result ≡ needs };

    /// Adds the pairs of a batch, with their forces if the rule needs them. Pairs and forces are those in `scratch`,
    /// whose other parts may be overwritten. The sum has had fewer than 2^32 pairs in all.
    fn add_batch<B: Allocator>(&self, system: &SafeSystem<A>, scratch: &mut Scratch<B>, sum: &mut S)
        requires own { is_for self.now system.now.system }
        requires measured { scratch.old.found.measured ≡ length scratch.old.found.pairs }
        requires found { All (IsFound system.now.system (length system.now.system.types.items))
            scratch.old.found.pairs }
        requires few { length scratch.old.found.pairs ≤ 128 }
        requires forces { IsTrue needs → AreFoundForces system.now.system scratch.old.found.pairs scratch.old.forces }
        requires room { (done : List FoundPair) × is_sum self.now system.now.system done sum.old
            × (length done + length scratch.old.found.pairs < 2 ^ 32) }
        ensures sum { (done : List FoundPair) → is_sum self.now system.now.system done sum.old
            → is_sum self.now system.now.system (done ++ scratch.old.found.pairs) sum.new }
        ensures found { scratch.new.found ≡ scratch.old.found }
        ensures same { scratch.new.forces ≡ scratch.old.forces };
}

/// Two rules, whose sums are computed together.
#[derive(Drop)]
pub(crate) struct Both<'a, T, U> {
    pub first: &'a T,
    pub second: &'a U,
}

impl<'a, A: Allocator + Copy, S, T: SumOverPairs<A, S>, Z, U: SumOverPairs<A, Z>> SumOverPairs<
    A,
    (S, Z),
> for Both<'a, T, U> {
    ghost use Rattle.std.specs.Prelude.{◌||◌};

    ghost is_for = { λ b s. T.is_for b.first.now s × U.is_for b.second.now s };

    ghost is_sum = { λ b s pairs sums. T.is_sum b.first.now s pairs sums.0 × U.is_sum b.second.now s pairs sums.1 };

    ghost needs = { T.needs || U.needs };

    #[inline(always)]
    fn needs_forces() -> bool {
        T::needs_forces() || U::needs_forces()
    }

    #[inline(always)]
    fn add_batch<B: Allocator>(
        &self,
        system: &SafeSystem<A>,
        scratch: &mut Scratch<B>,
        sum: &mut (S, Z),
    ) {
        self.first.add_batch(system, scratch, &mut sum.0);
        self.second.add_batch(system, scratch, &mut sum.1);
    }
}
