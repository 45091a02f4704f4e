//! Interacting pairs in batches of at most 128, and a worker's scratch memory for them.
//!
//! Scratch (352 kB) outlives a step, and changes no result. A team (`Crew`) has it on the heap.

ghost use Rattle.std.specs.Prelude.{◌≡◌, ◌<◌, ◌^◌, neg_ℤ, unsigned_abs};
ghost use Rattle.frame_sums.specs.Rounds.{pair_add};

use cell_tiles::NearPairs;
use fixed::Fx;
use kernel_lanes::Query;
use potential::LaneRows;
use ring_box::{FoundPairs, PairForces, Vector};
use rounds::PairAdd;
use std::alloc::Allocator;

/// The force of a pair as the round adds it.
#[inline(always)]
pub(crate) fn added(low: u32, high: u32, force: Vector<i64>) -> PairAdd
    ensures { result ≡ pair_add low high force }
{
    PairAdd {
        low,
        high,
        force: [force.x, force.y, force.z],
    }
}

/// The negative of a derivative.
#[inline(always)]
pub(crate) fn opposite(slope: Fx) -> Fx
    requires { unsigned_abs slope < 2 ^ 63 }
    ensures value { result ≡ neg_ℤ slope }
    ensures bound { unsigned_abs result < 2 ^ 63 }
{
    Fx::from_raw(-slope.raw())
}

/// A worker's scratch for a batch: pairs that may interact, the pairs found to interact, their queries, the derivatives
/// for the queries, the pairs' forces, and memory for runs in lanes.
#[derive(Drop)]
pub struct Scratch<A: Allocator> {
    pub near: NearPairs,
    pub found: FoundPairs,
    pub queries: [Query; 128],
    pub slopes: [Fx; 128],
    pub forces: PairForces,
    pub rows: LaneRows<A>,
}

impl<A: Allocator> Scratch<A> {
    ghost use Rattle.std.specs.Prelude.{Some, length, slice_get};
    ghost use Rattle.frame_sums.specs.Rows.{adds_from};

    /// The force of the pair with the index `l`, as the round adds it.
    #[inline(always)]
    pub(crate) fn add_at(&self, l: usize) -> PairAdd
        requires { l < length (adds_from 0 self.now.found.pairs self.now.forces) }
        ensures { slice_get (adds_from 0 self.now.found.pairs self.now.forces) l ≡ Some result }
    {
        let (low, high) = self.found.atoms(l);
        added(low, high, self.forces.force(l))
    }

    /// Scratch with this memory for runs in lanes. The caller stores the result on the heap at once: it is 25 kB.
    #[inline(never)]
    pub(crate) fn with_rows(rows: LaneRows<A>) -> Scratch<A> {
        Scratch {
            near: NearPairs::new(),
            found: FoundPairs::new(),
            queries: [Query {
                a: 0,
                b: 0,
                r: Fx::from_raw(0),
            }; 128],
            slopes: [Fx::from_raw(0); 128],
            forces: PairForces::new(),
            rows,
        }
    }
}
