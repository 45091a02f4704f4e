//! Integers as floats, exactly or next to them.

ghost use Rattle.std.specs.Prelude.{◌≤◌, ◌^◌};
ghost use Rattle.float_filters.specs.Near.{IsNear, IsNearInteger};

use std::num::nearest_u64_to_f64;

/// An integer as a float, exactly.
#[inline(always)]
pub fn exact_i32(integer: i32) -> f64
    ensures { IsNearInteger 0 result integer }
{
    integer as f64
}

/// A natural number as a float, exactly.
#[inline(always)]
pub fn exact_u32(natural: u32) -> f64
    ensures { IsNear 0 result natural 1 }
{
    natural as f64
}

/// A number up to 2^53 as a float, exactly.
#[inline(always)]
pub fn exact_u64(number: u64) -> f64
    requires { number ≤ 2 ^ 53 }
    ensures { IsNear 0 result number 1 }
{
    number as f64
}

/// The float next to `n`.
pub fn near_u64(n: u64) -> f64
    ensures { IsNear 1 result n 1 }
{
    nearest_u64_to_f64(n)
}

/// A float near `n`, with three roundings.
pub fn near_u128(n: u128) -> f64
    ensures { IsNear 3 result n 1 }
{
    near_u64((n >> 64) as u64) * 18446744073709551616.0
        + near_u64((n & 0xFFFF_FFFF_FFFF_FFFF) as u64)
}
