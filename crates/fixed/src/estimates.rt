//! Estimates in floating point. No contract bounds their error: each caller tests the estimate exactly and corrects it,
//! so an error costs only time.
ghost use Rattle.std.specs.Prelude.{◌<◌};

use std::num::{
    f64_from_bits_with_nan, f64_to_bits_with_nan, nearest_u64_to_f64, saturating_f64_to_u64,
};

// 3 * 2^51 and its bit pattern. Floats near it are integers, and their bit patterns are consecutive, so adding it
// rounds.
const MIDDLE: f64 = 6755399441055744.0;

const PATTERN_OF_MIDDLE: u64 = 0x4338_0000_0000_0000;

// About `n`.
fn near_natural(n: u128) -> f64 {
    let high = nearest_u64_to_f64((n >> 64) as u64);
    let low = nearest_u64_to_f64((n & 0xFFFF_FFFF_FFFF_FFFF) as u64);
    high * 18446744073709551616.0 + low
}

/// `n` as a float, for `n` between -2^51 and 2^51.
///
/// The float is put together from its bits. The library's `nearest_i64_to_f64` also handles the sign, which took 26
/// instructions more for each interacting pair.
#[inline(always)]
pub fn near_float(n: i64) -> f64 {
    let above = n.cast_unsigned().wrapping_add(0x8_0000_0000_0000) % 0x10_0000_0000_0000;
    f64_from_bits_with_nan(0x4330_0000_0000_0000 + above) - MIDDLE
}

/// About the floor of `x`, for `x` between -2^51 and 2^51.
#[inline(always)]
pub fn floor_estimate(x: f64) -> i64 {
    f64_to_bits_with_nan(x - 0.5 + MIDDLE)
        .wrapping_sub(PATTERN_OF_MIDDLE)
        .cast_signed()
}

// About the square root of `n`, and at least 1.
pub(crate) fn root_estimate(n: u128) -> u64
    ensures { 0 < result }
{
    let root = near_natural(n).sqrt();
    let estimate = if root < 2251799813685248.0 {
        floor_estimate(root).unsigned_abs()
    } else {
        saturating_f64_to_u64(root)
    };
    estimate.max(1)
}

// About `n / d`.
pub(crate) fn quotient_estimate(n: u128, d: u64) -> u64 {
    saturating_f64_to_u64(near_natural(n) / nearest_u64_to_f64(d))
}
