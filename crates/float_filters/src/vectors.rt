//! Vectors of four floats: the operations of the filters, each with a contract for its lanes.

ghost use Rattle.std.specs.Prelude.{ℕ, ◌<◌, IsTrue, T};
ghost use Rattle.std.specs.Float.Ieee.{binary64, add, div, le, lt, mul, sub};
ghost use Rattle.float_filters.specs.Floors.{HasFloats, IsFull, IsSet, half, lane};
ghost use Rattle.float_filters.specs.Forces.{magnitude};

use std::simd::prelude::*;

/// Each lane plus `y`.
#[inline(always)]
pub(crate) fn plus(x: f64x4, y: f64) -> f64x4
    ensures { HasFloats result (λ k. add binary64 (lane x k) y) }
{
    x + f64x4::splat(y)
}

/// Each lane minus `y`.
#[inline(always)]
pub(crate) fn minus(x: f64x4, y: f64) -> f64x4
    ensures { HasFloats result (λ k. sub binary64 (lane x k) y) }
{
    x - f64x4::splat(y)
}

/// The differences of lanes.
#[inline(always)]
pub(crate) fn differences(x: f64x4, y: f64x4) -> f64x4
    ensures { HasFloats result (λ k. sub binary64 (lane x k) (lane y k)) }
{
    x - y
}

/// 1/2 minus each lane.
#[inline(always)]
pub(crate) fn half_less(x: f64x4) -> f64x4
    ensures { HasFloats result (λ k. sub binary64 half (lane x k)) }
{
    f64x4::splat(0.5) - x
}

/// Each lane times `y`.
#[inline(always)]
pub(crate) fn times(x: f64x4, y: f64) -> f64x4
    ensures { HasFloats result (λ k. mul binary64 (lane x k) y) }
{
    x * f64x4::splat(y)
}

/// The products of lanes.
#[inline(always)]
pub(crate) fn products(x: f64x4, y: f64x4) -> f64x4
    ensures { HasFloats result (λ k. mul binary64 (lane x k) (lane y k)) }
{
    x * y
}

/// The quotients of lanes.
#[inline(always)]
pub(crate) fn quotients(x: f64x4, y: f64x4) -> f64x4
    ensures { HasFloats result (λ k. div binary64 (lane x k) (lane y k)) }
{
    x / y
}

/// Each lane, or its negative if the lane is less than 0.
#[inline(always)]
pub(crate) fn magnitudes(x: f64x4) -> f64x4
    ensures { HasFloats result (λ k. magnitude (lane x k)) }
{
    x.simd_lt(f64x4::splat(0.0)).select(-x, x)
}

/// The lanes in which `x` is less than `y`.
#[inline(always)]
pub(crate) fn less(x: f64x4, y: f64x4) -> Mask<i64, 4>
    ensures set { (k : ℕ) → k < 4 → IsSet result k → T (lt (lane x k) (lane y k)) }
    ensures full { (k : ℕ) → k < 4 → T (lt (lane x k) (lane y k)) → IsFull result k }
{
    x.simd_lt(y)
}

/// The lanes in which `x` is at most `y`.
#[inline(always)]
pub(crate) fn at_most(x: f64x4, y: f64x4) -> Mask<i64, 4>
    ensures set { (k : ℕ) → k < 4 → IsSet result k → T (le (lane x k) (lane y k)) }
    ensures full { (k : ℕ) → k < 4 → T (le (lane x k) (lane y k)) → IsFull result k }
{
    x.simd_le(y)
}

/// The lanes that are at least `y`.
#[inline(always)]
pub(crate) fn are_at_least(x: f64x4, y: f64) -> Mask<i64, 4>
    ensures { (k : ℕ) → k < 4 → IsSet result k → T (le y (lane x k)) }
{
    x.simd_ge(f64x4::splat(y))
}

/// The lanes that are set in both masks.
#[inline(always)]
pub fn both(m: Mask<i64, 4>, n: Mask<i64, 4>) -> Mask<i64, 4>
    ensures set { (k : ℕ) → k < 4 → IsSet result k → IsSet m k × IsSet n k }
    ensures full { (k : ℕ) → k < 4 → IsFull m k → IsFull n k → IsFull result k }
{
    m & n
}

/// Whether all lanes are set.
#[inline(always)]
pub fn are_all_set(m: Mask<i64, 4>) -> bool
    ensures set { IsTrue result → (k : ℕ) → k < 4 → IsSet m k }
    ensures full { ((k : ℕ) → k < 4 → IsFull m k) → IsTrue result }
{
    m.all()
}
