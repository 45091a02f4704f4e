//! Quotients of integers, rounded down, in floating point, for four at once.
//!
//! Dividend and divisor are exact floats, so that one rounding separates the float from the quotient. Rounding keeps
//! the order. So if an integer below 2^52 is less than the float, it is less than the quotient, and if it is greater
//! than the float, it is greater than the quotient.

ghost use Rattle.std.specs.Prelude.{◌≡◌, ℕ, pos, ◌+◌, ◌<◌, ◌≤◌, ◌^◌, Ok, IfSome, IsTrue, slice_index_or};
ghost use Rattle.fixed.specs.Arithmetic.{quotient_of};
ghost use Rattle.float_filters.specs.Floors.{HasFloats, IsDifference, IsInteger, IsSet, lane, positive_part};
ghost use Rattle.float_filters.specs.Near.{IsNear};
ghost use Rattle.float_filters.specs.Quotients.{IsStrictFloor, IsWhole, scaled_quotient, shift_of};

use crate::conversions::exact_u64;
use crate::floor_lanes::{MIDDLE, integers};
use crate::force_lanes::opposites;
use crate::vectors::{are_all_set, are_at_least, both, less, minus, plus, quotients, times};
use std::simd::prelude::*;

/// 2^`bits` as a float, exactly.
#[inline(always)]
fn power(bits: u32) -> f64
    requires { bits ≤ 53 }
    ensures { IsNear 0 result (2 ^ bits) 1 }
{
    exact_u64(1 << bits)
}

/// Whether `b` is a positive integer, as a fixed-point number with `bits` fraction bits.
#[inline(always)]
pub fn is_whole(bits: u32, b: i64) -> bool
    requires { bits ≤ 53 }
    ensures { IsTrue result → IsWhole bits b }
{
    b > 0 && b.cast_unsigned() % (1 << bits) == 0
}

/// The shift of dividends: 1/2 if the divisors are whole, otherwise 0.
#[inline(always)]
fn shift(whole: bool) -> f64
    ensures { IsDifference result (shift_of whole) 0 2 }
{
    if whole { 0.5 } else { 0.0 }
}

/// The quotients of lanes of `a`, less `shift` and times `one`, and lanes of `b`.
#[inline(always)]
fn scaled_quotients(a: f64x4, b: f64x4, shift: f64, one: f64) -> f64x4
    ensures { HasFloats result (λ k. scaled_quotient (lane a k) (lane b k) shift one) }
{
    quotients(times(minus(a, shift), one), b)
}

/// The lanes that are integers between 2^52 and 2^53.
#[inline(always)]
fn are_integers(t: f64x4) -> Mask<i64, 4>
    ensures { (k : ℕ) → k < 4 → IsSet result k → IsInteger (lane t k) (positive_part (lane t k)) }
{
    let below = less(t, f64x4::splat(9007199254740992.0));
    both(are_at_least(t, 4503599627370496.0), below)
}

/// Floats that hold integers, each plus 3 * 2^51, and a mask of the lanes in which the integer is less than `p`, and
/// the next integer is greater.
#[inline(always)]
fn strict_floors(p: f64x4) -> (f64x4, Mask<i64, 4>)
    ensures { (k : ℕ) → k < 4 → IsSet result.1 k → IsStrictFloor (lane p k) (lane result.0 k) }
{
    let t = plus(minus(p, 0.5), MIDDLE);
    let n = minus(t, MIDDLE);
    let between = both(less(n, p), less(p, plus(n, 1.0)));
    (t, both(between, are_integers(t)))
}

/// The quotients of fixed-point numbers with `bits` fraction bits, rounded down; none unless floats decide all four.
/// `whole` says that the divisors are positive integers (`is_whole`).
///
/// A quotient is decided if dividend and divisor are between -2^51 and 2^51, the float isn't an integer, and it is
/// less than about 2^51 in magnitude. If the divisors are whole, dividends plus half of the last bit have the same
/// quotients, and none of them is an integer. All this only decides how often the exact form runs.
#[inline(always)]
pub fn quotient_floors(bits: u32, a: [i64; 4], b: [i64; 4], whole: bool) -> Option<[i64; 4]>
    requires few { bits ≤ 53 }
    requires whole { IsTrue whole → (k : ℕ) → k < 4 → IsWhole bits (slice_index_or b k (pos 0)) }
    ensures { IfSome result (λ v. (k : ℕ) → k < 4
        → quotient_of bits (slice_index_or a k (pos 0)) (slice_index_or b k (pos 0)) ≡ Ok (slice_index_or v k (pos 0))) }
{
    let (dividends, exact_a) = opposites(a);
    let (divisors, exact_b) = opposites(b);
    let found = scaled_quotients(dividends, divisors, shift(whole), power(bits));
    let (floors, sure) = strict_floors(found);
    if are_all_set(both(both(exact_a, exact_b), sure)) {
        Some(integers(floors))
    } else {
        None
    }
}
