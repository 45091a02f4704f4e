//! Components of forces in floating point, for four pairs at once.
//!
//! A force of the size g acts along a line of the length L; a component is the floor of g a / L, where a is a component
//! of the line. The float c = g / (length - 1/2) x is nearer to g a / L than the ratio times 1/2 and a few parts in
//! 2^53 of L. So c decides the floor unless it is nearer to an integer.

ghost use Rattle.std.specs.Prelude.{◌≡◌, ℕ, pos, ◌+◌, ◌-◌, ◌*◌, ◌%◌, ◌^◌, ◌<◌, ◌≤◌, neg_ℤ, slice_index, slice_index_or, FitsSigned, IfSome, IsSome, unsigned_abs};
ghost use Rattle.std.specs.Int.{cast_unsigned, w64};
ghost use Rattle.std.specs.Float.Ieee.{binary64, of_bits};
ghost use Rattle.float_filters.specs.Floors.{HasFloats, IsFull, IsSet, lane};
ghost use Rattle.float_filters.specs.Forces.{AreComponents, AreForceFloors, AreZeroForcesSure, HasLine, IsSize, IsSlack, ratio_of};
ghost use Rattle.float_filters.specs.Near.{IsNearRoot};
ghost use Rattle.fixed.specs.Roots.{root};

use crate::floor_lanes::{MIDDLE, floors, integers};
use crate::lengths::SMALL;
use crate::vectors::{are_all_set, both, half_less, magnitudes, minus, products, quotients, times};
use std::simd::prelude::*;

// 2^51.
const BIAS: u64 = 0x8_0000_0000_0000;

// 2^52 - 1, the bits below the exponent's field, and the pattern of 2^52.
const LOW: u64 = 0xF_FFFF_FFFF_FFFF;

const PATTERN: u64 = 0x4330_0000_0000_0000;

/// The bits of four integers.
#[inline(always)]
fn unsigned(z: [i64; 4]) -> u64x4
    ensures value { (k : ℕ) → k < 4 → slice_index result k ≡ cast_unsigned w64 (slice_index_or z k (pos 0)) }
    ensures fits { (k : ℕ) → k < 4 → FitsSigned w64 (slice_index_or z k (pos 0)) }
{
    u64x4::from_array([
        z[0].cast_unsigned(),
        z[1].cast_unsigned(),
        z[2].cast_unsigned(),
        z[3].cast_unsigned(),
    ])
}

/// 2^51 minus each lane, modulo 2^64.
#[inline(always)]
fn below_bias(bits: u64x4) -> u64x4
    ensures { (k : ℕ) → k < 4 → slice_index result k ≡ (2 ^ 51 + (2 ^ 64 - slice_index bits k)) % 2 ^ 64 }
{
    u64x4::splat(BIAS) - bits
}

/// The lanes that are below 2^52.
#[inline(always)]
fn are_low(n: u64x4) -> Mask<i64, 4>
    ensures set { (k : ℕ) → k < 4 → IsSet result k → slice_index n k < 2 ^ 52 }
    ensures full { (k : ℕ) → k < 4 → slice_index n k < 2 ^ 52 → IsFull result k }
{
    (n & u64x4::splat(!LOW)).simd_eq(u64x4::splat(0))
}

/// 2^52 plus each lane as a float, for lanes below 2^52.
#[inline(always)]
fn raised(n: u64x4) -> f64x4
    ensures { (k : ℕ) → k < 4 → slice_index n k < 2 ^ 52 → lane result k ≡ of_bits binary64 (1075 * 2 ^ 52 + slice_index n k) }
{
    f64x4::from_bits((n & u64x4::splat(LOW)) | u64x4::splat(PATTERN))
}

/// Minus four integers as floats, and a mask of the lanes in which they are exact: integers between -2^51 and 2^51.
#[inline(always)]
pub(crate) fn opposites(z: [i64; 4]) -> (f64x4, Mask<i64, 4>)
    ensures sizes { (k : ℕ) → k < 4 → IsSet result.1 k → IsSize (neg_ℤ (slice_index_or z k (pos 0))) (lane result.0 k) }
    ensures small { (k : ℕ) → k < 4 → IsSet result.1 k → unsigned_abs (slice_index_or z k (pos 0)) ≤ 2 ^ 51 }
    ensures zeros { (k : ℕ) → k < 4 → slice_index_or z k (pos 0) ≡ pos 0 → IsFull result.1 k }
{
    let n = below_bias(unsigned(z));
    (minus(raised(n), MIDDLE), are_low(n))
}

/// The sizes over the lengths less 1/2.
#[inline(always)]
fn ratios(sizes: f64x4, lengths: f64x4) -> f64x4
    ensures { HasFloats result (λ k. ratio_of (lane sizes k) (lane lengths k)) }
{
    quotients(sizes, minus(lengths, 0.5))
}

/// The slack of forces along lines whose squared lengths are below a limit, from a float near the root of the limit.
pub fn force_slack(reach: f64) -> f64
    ensures { (limit s : ℕ) → s ≤ limit → 0 < limit → limit < 2 ^ 128 → IsNearRoot 5 reach limit 1 → IsSlack (root s) result }
{
    0.75 + reach * SMALL
}

/// Floats that hold the components of four forces, rounded down, each plus 3 * 2^51, and a mask of the lanes in which
/// all three are right.
#[derive(Drop)]
pub struct ForceFloors {
    pub x: f64x4,
    pub y: f64x4,
    pub z: f64x4,
    pub sure: Mask<i64, 4>,
}

/// The components of four forces of these sizes along lines with these lengths and components. The slack is about
/// 3/4 and 2^-49 of the greatest length. A lane whose size is 0 is set if its floats stand for a line.
#[inline(always)]
pub fn force_floors(
    sizes: f64x4,
    lengths: f64x4,
    x: f64x4,
    y: f64x4,
    z: f64x4,
    slack: f64,
) -> ForceFloors
    ensures x { AreForceFloors sizes lengths x slack result.x result.sure }
    ensures y { AreForceFloors sizes lengths y slack result.y result.sure }
    ensures z { AreForceFloors sizes lengths z slack result.z result.sure }
    ensures zeros { AreZeroForcesSure sizes lengths x y z slack result.sure }
{
    let ratios = ratios(sizes, lengths);
    let margins = times(magnitudes(ratios), slack);
    let room = half_less(margins);
    let least = minus(margins, 0.5);
    let (x, sure_x) = floors(products(ratios, x), room, least);
    let (y, sure_y) = floors(products(ratios, y), room, least);
    let (z, sure_z) = floors(products(ratios, z), room, least);
    ForceFloors {
        x,
        y,
        z,
        sure: both(both(sure_x, sure_y), sure_z),
    }
}

/// The components of four forces, one lane for each pair.
#[derive(Clone, Copy)]
pub struct FourForces {
    pub x: [i64; 4],
    pub y: [i64; 4],
    pub z: [i64; 4],
}

/// The forces of minus four slopes along lines with these lengths and components, rounded down; none if a component
/// isn't sure. The slack is that of `force_slack`.
///
/// A slope of 0 along a line is sure. A slope of 2^51 or more in magnitude never is. Otherwise the contract leaves
/// open when there are none; this only decides how often the exact form runs.
#[inline(always)]
pub fn forces(
    slopes: [i64; 4],
    lengths: f64x4,
    x: f64x4,
    y: f64x4,
    z: f64x4,
    slack: f64,
) -> Option<FourForces>
    ensures x { IfSome result (λ v. AreComponents slopes lengths x slack v.x) }
    ensures y { IfSome result (λ v. AreComponents slopes lengths y slack v.y) }
    ensures z { IfSome result (λ v. AreComponents slopes lengths z slack v.z) }
    ensures zeros { ((k : ℕ) → k < 4 → (slice_index_or slopes k (pos 0) ≡ pos 0) × HasLine lengths x y z slack k) → IsSome result }
{
    let (sizes, exact) = opposites(slopes);
    let found = force_floors(sizes, lengths, x, y, z, slack);
    if are_all_set(both(found.sure, exact)) {
        Some(FourForces {
            x: integers(found.x),
            y: integers(found.y),
            z: integers(found.z),
        })
    } else {
        None
    }
}
