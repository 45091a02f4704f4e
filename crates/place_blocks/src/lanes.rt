//! Vectors of sixteen lanes: the operations of the coarse test, each with a contract for its lanes.

ghost use Rattle.std.specs.Prelude.{◌≡◌, ℕ, ◌+◌, ◌-◌, ◌*◌, ◌/◌, ◌%◌, ◌^◌, ◌<◌, min, nat_le, slice_index, if◌then◌else◌};
ghost use Rattle.std.specs.Int.{bit_at};
ghost use Rattle.place_blocks.specs.Blocks.{behind};
ghost use Rattle.place_blocks.specs.Lanes.{HasLanes};

use std::simd::prelude::*;

/// Each lane minus `b`, modulo 2^16.
#[inline(always)]
pub(crate) fn less_round(a: u16x16, b: u16) -> u16x16
    ensures { HasLanes result (λ k. behind (slice_index a k) b) }
{
    a - u16x16::splat(b)
}

/// Each lane minus `b`, or 0 if that is negative.
#[inline(always)]
pub(crate) fn less_or_zero(a: u16x16, b: u16) -> u16x16
    ensures { HasLanes result (λ k. slice_index a k - b) }
{
    a.saturating_sub(u16x16::splat(b))
}

/// The smaller of two lanes.
#[inline(always)]
pub(crate) fn least(a: u16x16, b: u16x16) -> u16x16
    ensures { HasLanes result (λ k. min (slice_index a k) (slice_index b k)) }
{
    a.simd_min(b)
}

/// Each lane with all bits inverted.
#[inline(always)]
pub(crate) fn flipped(a: u16x16) -> u16x16
    ensures { HasLanes result (λ k. 2 ^ 16 - 1 - slice_index a k) }
{
    !a
}

/// The number `w` in each lane, as a factor for lanes of 15 bits.
///
/// It is combined with the lanes' top bits, which are 0. Otherwise the compiler widens the constant factor ahead of a
/// loop over blocks and multiplies 32 bits by 32 instead of 16 by 16, which takes half as long again per block.
#[inline(always)]
fn factor(a: u16x16, w: u16) -> u16x16
    requires { (k : ℕ) → k < 16 → slice_index a k < 2 ^ 15 }
    ensures { HasLanes result (λ k. w) }
{
    u16x16::splat(w) | (a >> u16x16::splat(15))
}

/// The upper half of the product of each lane with `w`; the lanes have at most 15 bits.
#[inline(always)]
pub(crate) fn upper_product(a: u16x16, w: u16) -> u16x16
    requires { (k : ℕ) → k < 16 → slice_index a k < 2 ^ 15 }
    ensures { HasLanes result (λ k. slice_index a k * w % 2 ^ 32 / 2 ^ 16) }
{
    let product = a.cast::<u32>() * factor(a, w).cast::<u32>();
    (product >> u32x16::splat(16)).cast::<u16>()
}

/// The square of each lane's lower 15 bits.
#[inline(always)]
pub(crate) fn low_square(a: u16x16) -> u32x16
    ensures { HasLanes result (λ k. slice_index a k % 2 ^ 15 * (slice_index a k % 2 ^ 15) % 2 ^ 32) }
{
    let low = (a & u16x16::splat(32_767)).cast::<u32>();
    low * low
}

/// The sum of three lanes, modulo 2^32.
#[inline(always)]
pub(crate) fn sum(a: u32x16, b: u32x16, c: u32x16) -> u32x16
    ensures { HasLanes result (λ k. ((slice_index a k + slice_index b k) % 2 ^ 32 + slice_index c k) % 2 ^ 32) }
{
    a + b + c
}

/// A mask with a bit for each lane that is at most `limit`.
#[tactic(auto, using(crate::proofs::LaneLemmas::bit_is))]
#[inline(always)]
pub(crate) fn at_most(a: u32x16, limit: u32) -> u64
    ensures bits { (k : ℕ) → k < 16 → bit_at result k ≡ (if nat_le (slice_index a k) limit then 1 else 0) }
    ensures bound { result < 2 ^ 16 }
{
    a.simd_le(u32x16::splat(limit)).to_bitmask()
}
