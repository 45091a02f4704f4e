//! Lengths of lines, and distances in other units, as floats.

ghost use Rattle.std.specs.Prelude.{ℕ, ◌+◌, ◌*◌, ◌^◌, ◌≤◌, ◌<◌, ◌≡◌, length, slice_index_or};
ghost use Rattle.std.specs.Float.Ieee.{nan};
ghost use Rattle.float_filters.specs.Near.{IsNear, IsNearRoot};

use crate::conversions::{exact_u32, near_u128};
use std::simd::prelude::*;

// 2^-49.
pub(crate) const SMALL: f64 = 1.0 / 562949953421312.0;

/// The float next to `n / d`. Both numbers are positive.
#[inline(always)]
pub fn near_ratio(n: u32, d: u32) -> f64
    requires dividend { 0 < n }
    requires divisor { 0 < d }
    ensures { IsNear 1 result n d }
{
    exact_u32(n) / exact_u32(d)
}

/// A float near the root of a number below 2^200, if the argument is near the number with five roundings.
#[inline(always)]
pub fn near_length(square: f64) -> f64
    ensures { (s : ℕ) → s ≤ 2 ^ 200 → IsNear 5 square s 1 → IsNearRoot 7 result s 1 }
{
    square.sqrt()
}

/// Writes floats near the roots of the first `count` numbers.
pub fn near_lengths(squares: &[f64; 128], count: usize, lengths: &mut [f64; 128])
    requires { count ≤ 128 }
    ensures { (l s : ℕ) → l < count → s ≤ 2 ^ 200 → IsNear 5 (slice_index_or squares.now l nan) s 1
        → IsNearRoot 7 (slice_index_or lengths.new l nan) s 1 }
{
    for l in 0..count {
        lengths[l] = near_length(squares[l]);
    }
}

/// The products of four lengths and a factor.
#[inline(always)]
pub fn near_products(lengths: f64x4, factor: f64) -> f64x4
    ensures { (l s n d : ℕ) → l < 4 → s ≤ 2 ^ 112 → 0 < n → n ≤ 2 ^ 32 → 0 < d → d ≤ 2 ^ 32
        → IsNearRoot 7 (slice_index_or lengths l nan) s 1 → IsNear 1 factor n d
        → IsNearRoot 11 (slice_index_or result l nan) (s * (n * n)) (d * d) }
{
    lengths * f64x4::splat(factor)
}

/// A float near the root of a limit.
pub fn near_reach(limit: u128) -> f64
    ensures { IsNearRoot 5 result limit 1 }
{
    near_u128(limit).sqrt()
}

/// The least distance of a product from an integer, in units of the product, that decides the product's floor: near
/// 2^-49 of the product of the reach and the factor.
pub fn near_margin(reach: f64, factor: f64) -> f64
    ensures { (s n d : ℕ) → s ≤ 2 ^ 128 → 0 < n → n ≤ 2 ^ 32 → 0 < d → d ≤ 2 ^ 32
        → IsNearRoot 5 reach s 1 → IsNear 1 factor n d → IsNearRoot 11 result (s * (n * n)) (d * d * 2 ^ 98) }
{
    reach * factor * SMALL
}

/// Four numbers of a row, from the index `l` on.
#[inline(always)]
pub fn four(row: &[f64; 128], l: usize) -> f64x4
    requires { l + 4 ≤ 128 }
    ensures { (k : ℕ) → k < 4 → slice_index_or result k nan ≡ slice_index_or row.now (l + k) nan }
{
    f64x4::from_array([row[l], row[l + 1], row[l + 2], row[l + 3]])
}
