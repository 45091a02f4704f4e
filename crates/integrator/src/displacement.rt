//! The displacement of one coordinate, and the step of a grid coordinate modulo 2^32.
//! Powers of two are cancelled before the multiplication, so that the product fits 128 bits at each number of fraction
//! bits. The quotient is estimated in floating point, and divided exactly only if the estimate fails its test.

ghost use Rattle.std.specs.Prelude.{◌≡◌, ◌≤◌, ◌<◌, ◌*◌, ◌^◌, pos, ◌*ℤ◌, ◌<ℤ◌, unsigned_abs};
ghost use Rattle.integrator.specs.Displacement.{displacement_of, factor_above, factor_below, next_place_of};

use crate::nearest::{nearest_estimate, nearest_from};
use fixed::{Frac, near_float};
use job::TimeStep;
use ring_box::{Side, place_at};

/// The factor `dt² 10^4 2^32 / 2^bits` of a displacement, except powers of two that `inertia` has in the divisor.
fn factor(frac: Frac, time_step: TimeStep) -> i64
    ensures value { result ≡ pos (time_step * time_step * 10000 * factor_above frac) }
    ensures bound { unsigned_abs result ≤ 256 * 10 ^ 10 }
{
    let femtoseconds = i64::from(time_step.femtoseconds());
    let factor = femtoseconds * femtoseconds * 10_000;
    match frac {
        Frac::F24 => factor * 256,
        Frac::F32 | Frac::F40 => factor,
    }
}

/// The dividend of a displacement: a force in 2^-bits kJ/mol/nm times the factor of the time step.
fn impulse(force: i128, factor: i64) -> i128
    requires force { unsigned_abs force ≤ 2 ^ 80 }
    requires factor { unsigned_abs factor ≤ 256 * 10 ^ 10 }
    ensures value { result ≡ force *ℤ factor }
    ensures bound { unsigned_abs result < 2 ^ 122 }
{
    force * i128::from(factor)
}

/// A mass in 10^-5 u, at most 100,000,000; at 40 bits times 256. It is the factor of `inertia` that all axes share.
#[inline(always)]
fn weight(frac: Frac, mass: u32) -> i64
    requires { mass ≤ 100000000 }
    ensures value { result ≡ pos (mass * factor_below frac) }
{
    match frac {
        Frac::F24 | Frac::F32 => i64::from(mass),
        Frac::F40 => i64::from(mass) * 256,
    }
}

/// The divisor of a displacement: a mass in 10^-5 u, 1 to 100,000,000, times a side in 10^-5 nm; at 40 bits also times
/// 256.
#[inline(always)]
fn inertia(frac: Frac, mass: u32, side: Side) -> i64
    requires positive { 0 < mass }
    requires bound { mass ≤ 100000000 }
    ensures value { result ≡ pos (mass * side * factor_below frac) }
    ensures positive { pos 0 <ℤ result }
    ensures bound { unsigned_abs result < 2 ^ 60 }
{
    weight(frac, mass) * i64::from(side.get())
}

// About the integer nearest to the quotient of a dividend, below 2^75 in magnitude, and the inertia. Both are divided
// by 2^24 first. The mass comes before the side, so that its part is computed once for all axes.
#[inline(always)]
fn estimate(frac: Frac, dividend: i128, mass: u32, side: Side) -> Option<i64> {
    let unit = match frac {
        Frac::F24 | Frac::F32 => 1.0 / 16777216.0,
        Frac::F40 => 256.0 / 16777216.0,
    };
    let weight = near_float(i64::from(mass)) * unit;
    let inertia = weight * near_float(i64::from(side.get()));
    let high = ((dividend >> 24).cast_unsigned() & 0xFFFF_FFFF_FFFF_FFFF) as u64;
    nearest_estimate(near_float(high.cast_signed()) / inertia)
}

/// The displacement of an atom by a force in one step, in grid units. `force` is in 2^-`bits` kJ/mol/nm, `mass` in
/// 10^-5 u (1 to 100,000,000).
#[inline(always)]
pub(crate) fn displacement(
    frac: Frac,
    force: i128,
    time_step: TimeStep,
    mass: u32,
    side: Side,
) -> i128
    requires force { unsigned_abs force ≤ 2 ^ 80 }
    requires positive { 0 < mass }
    requires mass { mass ≤ 100000000 }
    ensures value { result ≡ displacement_of frac force time_step mass side }
    ensures bound { unsigned_abs result < 2 ^ 123 }
{
    let dividend = impulse(force, factor(frac, time_step));
    let divisor = inertia(frac, mass, side);
    let estimate = estimate(frac, dividend, mass, side);
    nearest_from(dividend, divisor, estimate)
}

/// The grid coordinate after `before` and `middle`; `displacement` is the displacement at `middle`. The same rule with
/// the result and `middle` gives `before` again, so the step can be reversed.
pub(crate) fn next_place(before: u32, middle: u32, displacement: i128) -> u32
    requires { unsigned_abs displacement < 2 ^ 123 }
    ensures value { result ≡ next_place_of before middle displacement }
    ensures back { next_place_of result middle displacement ≡ before }
{
    place_at(2 * i128::from(middle) - i128::from(before) + displacement)
}
