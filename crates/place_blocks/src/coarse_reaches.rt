//! The coarse test: which atoms of a block may interact with an atom, or with any atom of a cell, judging only by
//! coarse coordinates.
//!
//! The test misses no interacting pair; that it lets few others pass only matters for speed. It costs the same for all
//! sixteen atoms, so an atom out of reach adds no cost.

ghost use Rattle.std.specs.Prelude.{ℕ, ◌≡◌, ◌-◌, ◌/◌, ◌^◌, ◌<◌, ◌≤◌, min, slice_index};
ghost use Rattle.place_blocks.specs.Blocks.{IsCut, coarse_square, least_gap};
ghost use Rattle.place_blocks.specs.Lanes.{HasLanes};

use crate::blocks::Block;
use crate::lanes::{
    at_most, flipped, least, less_or_zero, less_round, low_square, sum, upper_product,
};
use crate::upper_halves::{CellSpan, UpperHalves};
use ring_box::{Reach, RingBox, upper_limit};
use std::simd::prelude::*;

/// The coarse reach of a pair force: the sides of a box in units of 10^-5 nm times a power of 2, at most 16 bits each,
/// and the greatest square, in the square of that unit, at which the test lets a pair pass.
#[derive(Clone, Copy)]
pub struct CoarseReach {
    pub x: u16,
    pub y: u16,
    pub z: u16,
    pub limit: u32,
}

/// The least difference between each lane's coarse coordinate and any of the span, round the box.
#[inline(always)]
fn gaps(x: u16x16, first: u16, width: u16) -> u16x16
    ensures value { HasLanes result (λ k. least_gap (slice_index x k) first width) }
    ensures small { (k : ℕ) → k < 16 → slice_index result k < 2 ^ 15 }
{
    let behind = less_round(x, first);
    least(less_or_zero(behind, width), flipped(behind))
}

/// The square of the coarse length of each lane's gap to the span, on a side of this coarse length.
#[inline(always)]
fn gap_squares(x: u16x16, first: u16, width: u16, side: u16) -> u32x16
    ensures value { HasLanes result (λ k. coarse_square (least_gap (slice_index x k) first width) side) }
    ensures small { (k : ℕ) → k < 16 → slice_index result k < 2 ^ 30 }
{
    low_square(upper_product(gaps(x, first, width), side))
}

/// The number of lower bits to cut so that a number has at most 16 left.
#[tactic(auto, using(crate::proofs::BlockLemmas::bits_few, crate::proofs::BlockLemmas::bits_some))]
fn bits_to_cut(n: u32) -> u32
    requires { n < 2 ^ 24 }
    ensures cut { IsCut n result }
    ensures few { result ≤ 8 }
{
    if n < 65_536 {
        0
    } else {
        16 - n.leading_zeros()
    }
}

/// The length of a side without its lower `cut` bits.
fn upper_bits(side: u32, cut: u32) -> u16
    requires few { cut ≤ 8 }
    requires fits { side / 2 ^ cut < 2 ^ 16 }
    ensures { result ≡ side / 2 ^ cut }
{
    (side >> cut) as u16
}

impl CoarseReach {
    ghost use Rattle.std.specs.Prelude.{ℕ, ◌<◌, ◌^◌};
    ghost use Rattle.ring_box.specs.Acting.{Reach};
    ghost use Rattle.place_blocks.specs.Blocks.{AreNearBits, IsCoarseReach, IsFinest, LeavesOut, LeavesOutOfSpan, coarse_square_of, own_span};
    ghost use Rattle.ring_box.specs.declared.boxes.RingBox.{RingBox};

    /// The coarse reach in a box, with the finest unit in which the longest side has at most 16 bits.
    pub fn new(ring: &RingBox, reach: &Reach) -> CoarseReach
        ensures reach { IsCoarseReach reach.now ring.now result }
        ensures finest { IsFinest reach.now ring.now result }
    {
        let cut = bits_to_cut(ring.x.get().max(ring.y.get()).max(ring.z.get()));
        CoarseReach {
            x: upper_bits(ring.x.get(), cut),
            y: upper_bits(ring.y.get(), cut),
            z: upper_bits(ring.z.get(), cut),
            limit: upper_limit(reach.limit(), 64 + 2 * cut),
        }
    }

    /// The squares of the least coarse distances between each lane's atom and the span.
    #[inline(always)]
    fn squares(&self, block: &Block, span: &CellSpan) -> u32x16
        ensures value { HasLanes result (coarse_square_of self.now span.now block.now) }
        ensures small { (k : ℕ) → k < 16 → slice_index result k < 2 ^ 32 - 1 }
    {
        let x = gap_squares(
            u16x16::from_array(block.x),
            span.first.x,
            span.width.x,
            self.x,
        );
        let y = gap_squares(
            u16x16::from_array(block.y),
            span.first.y,
            span.width.y,
            self.y,
        );
        let z = gap_squares(
            u16x16::from_array(block.z),
            span.first.z,
            span.width.z,
            self.z,
        );
        sum(x, y, z)
    }

    /// A mask with a bit for each lane of the block whose atom may interact with an atom in the span. An atom whose bit
    /// is 0 interacts with none.
    #[inline(always)]
    pub fn near_cell(&self, block: &Block, span: &CellSpan) -> u64
        ensures bits { AreNearBits self.now span.now block.now result }
        ensures bound { result < 2 ^ 16 }
        ensures left_out { (d : Reach) (b : RingBox) → IsCoarseReach d b self.now → LeavesOutOfSpan d b block.now span.now result }
    {
        at_most(self.squares(block, span), self.limit)
    }

    /// A mask with a bit for each lane of the block whose atom may interact with an atom at these coarse coordinates.
    /// An atom whose bit is 0 doesn't.
    #[inline(always)]
    pub fn near(&self, block: &Block, halves: UpperHalves) -> u64
        ensures bits { AreNearBits self.now (own_span halves) block.now result }
        ensures bound { result < 2 ^ 16 }
        ensures left_out { (d : Reach) (b : RingBox) → IsCoarseReach d b self.now → LeavesOut d b block.now halves result }
    {
        let width = UpperHalves { x: 1, y: 1, z: 1 };
        self.near_cell(
            block,
            &CellSpan {
                first: halves,
                width,
            },
        )
    }
}
