//! Certified floors of four floats: estimates by adding 3 * 2^51, and a mask of the lanes whose estimate is the floor.
//!
//! Between 2^52 and 2^53 the floats are the integers, so adding 3 * 2^51 to `p - 1/2` rounds to an integer. The
//! part that the rounding took off is the distance of `p - 1/2` from that integer. This part is at most 1/2, and a float
//! itself, so the subtraction that finds it is exact.

ghost use Rattle.std.specs.Prelude.{◌≡◌, ℕ, pos, ◌+◌, ◌-◌, ◌*◌, ◌%◌, ◌^◌, ◌<◌, ◌≤◌, ◌-ℤ◌, slice_index, slice_index_or};
ghost use Rattle.std.specs.Float.{NotNan};
ghost use Rattle.float_filters.specs.Floors.{AreCertified, AreZerosSure, IsInteger, lane};

use crate::vectors::{at_most, both, differences, less, minus, plus};
use std::simd::prelude::*;

// 3 * 2^51 and its bit pattern. Floats near it are integers, and their bit patterns are consecutive.
pub(crate) const MIDDLE: f64 = 6755399441055744.0;

const PATTERN_OF_MIDDLE: u64 = 0x4338_0000_0000_0000;

/// Floats that hold integers next to the floors of four numbers, each plus 3 * 2^51, and a mask.
///
/// In a lane that is set, `p - 1/2`, rounded, minus the integer is at least `least` and less than `room`. So the
/// integer is the floor of each number that is nearer to `p` than the bounds are to -1/2 and 1/2; `p` is at most 2^50
/// in magnitude. A lane is not set if `p` or a bound is a NaN; it is set if `p` is 0 and -1/2 is within the bounds.
#[inline(always)]
pub fn floors(p: f64x4, room: f64x4, least: f64x4) -> (f64x4, Mask<i64, 4>)
    ensures certified { AreCertified p room least result.0 result.1 }
    ensures zeros { AreZerosSure p room least result.1 }
{
    let u = minus(p, 0.5);
    let t = plus(u, MIDDLE);
    let e = differences(u, minus(t, MIDDLE));
    (t, both(less(e, room), at_most(least, e)))
}

/// The bit patterns of four floats, counted from the pattern of `MIDDLE`.
#[inline(always)]
fn patterns(t: f64x4) -> u64x4
    requires { (k : ℕ) → k < 4 → NotNan (lane t k) }
    ensures { (k : ℕ) → k < 4 → (n : ℕ) → IsInteger (lane t k) n → slice_index result k ≡ (n + (2 ^ 64 - 3 * 2 ^ 51)) % 2 ^ 64 }
{
    t.to_bits() - u64x4::splat(PATTERN_OF_MIDDLE)
}

/// The integer whose bit pattern is counted from the pattern of `MIDDLE`.
#[inline(always)]
fn signed(bits: u64) -> i64
    ensures { (n : ℕ) → 2 ^ 52 ≤ n → n < 2 ^ 53 → bits ≡ (n + (2 ^ 64 - 3 * 2 ^ 51)) % 2 ^ 64 → result ≡ pos n -ℤ pos (3 * 2 ^ 51) }
{
    bits.cast_signed()
}

/// The integers that four floats hold, minus 3 * 2^51.
#[inline(always)]
pub fn integers(t: f64x4) -> [i64; 4]
    requires { (k : ℕ) → k < 4 → NotNan (lane t k) }
    ensures { (k : ℕ) → k < 4 → (n : ℕ) → IsInteger (lane t k) n → slice_index_or result k (pos 0) ≡ pos n -ℤ pos (3 * 2 ^ 51) }
{
    let bits = patterns(t).to_array();
    [
        signed(bits[0]),
        signed(bits[1]),
        signed(bits[2]),
        signed(bits[3]),
    ]
}
