//! Masks of up to 64 bits, one bit for each lane of up to four blocks.

ghost use Rattle.std.specs.Prelude.{◌≡◌, ℕ, ◌+◌, ◌*◌, ◌/◌, ◌%◌, ◌^◌, ◌<◌, ◌≤◌, ◌∷◌, length};
ghost use Rattle.std.specs.Int.{bit_at};
ghost use Rattle.place_blocks.specs.Blocks.{IsCoarseReach};
ghost use Rattle.ring_box.specs.Acting.{Reach};
ghost use Rattle.ring_box.specs.declared.boxes.RingBox.{RingBox};
ghost use Rattle.cell_tiles.specs.Cells.{LeavesOutOfFirst};
ghost use Rattle.cell_tiles.specs.Near.{lanes_of};

use place_blocks::{Block, CoarseReach, UpperHalves};

/// The lowest lane whose bit is set, and the mask without that bit.
#[inline(always)]
pub(crate) fn next_lane(bits: u64) -> (usize, u64)
    requires some { 0 < bits }
    ensures lanes { lanes_of bits ≡ result.0 ∷ lanes_of result.1 }
    ensures set { bit_at bits result.0 ≡ 1 }
    ensures before { (k : ℕ) → k < result.0 → bit_at bits k ≡ 0 }
    ensures gone { (k : ℕ) → k ≤ result.0 → bit_at result.1 k ≡ 0 }
    ensures behind { (k : ℕ) → result.0 < k → bit_at result.1 k ≡ bit_at bits k }
    ensures less { result.1 < bits }
{
    (bits.trailing_zeros() as usize, bits & (bits - 1))
}

/// The bits of `count` lanes from the lane `first` on, shifted to the lowest lanes.
#[tactic(auto, using(crate::proofs::LaneLemmas::part_is, crate::proofs::LaneLemmas::part_bound, crate::proofs::LaneLemmas::part_each))]
#[inline(always)]
pub(crate) fn bits_of(bits: u64, first: usize, count: usize) -> u64
    requires some { 0 < count }
    requires within { first + count ≤ 64 }
    ensures value { result ≡ bits / 2 ^ first % 2 ^ count }
    ensures bound { result < 2 ^ count }
    ensures each { (k : ℕ) → k < count → bit_at result k ≡ bit_at bits (first + k) }
{
    (bits >> first) & (u64::MAX >> (64 - count))
}

/// A mask with a bit for each lane of up to four blocks, the first block lowest, whose atom may interact with an atom
/// at these coarse coordinates. An atom whose bit is 0 doesn't.
#[inline(always)]
pub(crate) fn near_lanes(coarse: &CoarseReach, blocks: &[Block], halves: UpperHalves) -> u64
    requires { length blocks.now ≤ 4 }
    ensures bound { result < 2 ^ (16 * length blocks.now) }
    ensures left_out { (d : Reach) (b : RingBox) → IsCoarseReach d b coarse.now
        → LeavesOutOfFirst d b blocks.now (length blocks.now) halves result }
{
    let mut near = 0;
    for (i, block) in blocks.iter().enumerate() {
        near |= coarse.near(block, halves) << (16 * i);
    }
    near
}
