//! Separations and the sums of their squares as floats.

ghost use Rattle.std.specs.Prelude.{ℕ, ℤ, pos, ◌+◌, ◌*◌, ◌^◌, ◌≤◌, ◌<◌, ◌*ℤ◌, unsigned_abs};
ghost use Rattle.float_filters.specs.Near.{IsNear, IsNearInteger};

use crate::conversions::{exact_i32, exact_u32};

/// A float near `n side`, with one rounding. The side is positive.
#[inline(always)]
pub fn near_separation(n: i32, side: u32) -> f64
    requires { 0 < side }
    ensures { IsNearInteger 1 result (n *ℤ pos side) }
{
    exact_i32(n) * exact_u32(side)
}

/// A float near the sum of the squares of three integers, if the arguments are near them with one rounding each.
#[inline(always)]
pub fn near_square(x: f64, y: f64, z: f64) -> f64
    ensures { (a b c : ℤ) → unsigned_abs a ≤ 2 ^ 90 → unsigned_abs b ≤ 2 ^ 90 → unsigned_abs c ≤ 2 ^ 90
        → IsNearInteger 1 x a → IsNearInteger 1 y b → IsNearInteger 1 z c
        → IsNear 5 result (unsigned_abs a * unsigned_abs a + unsigned_abs b * unsigned_abs b + unsigned_abs c * unsigned_abs c) 1 }
{
    x * x + y * y + z * z
}
