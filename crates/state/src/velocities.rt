//! Displacements in one time step, rounded to grid units.

ghost use Rattle.std.specs.Prelude.{◌≡◌, ◌<◌, ◌*◌, ◌^◌, pos, ◌-ℤ◌, ◌*ℤ◌, ◌<ℤ◌, unsigned_abs};
ghost use Rattle.state.specs.Velocities.{IsPlaceBefore, IsWay, place_before, places_moved};

use fixed::round_div;
use job::TimeStep;
use ring_box::{Side, place_at};

/// The displacement of a velocity in a time step, in 10^-7 nm / 2^32. The velocity is in 10^-4 nm/ps.
fn way(velocity: i64, time_step: TimeStep) -> i128
    ensures value { result ≡ velocity *ℤ pos (time_step * 2 ^ 32) }
    ensures bound { unsigned_abs result < 2 ^ 106 }
{
    i128::from(velocity) * i128::from(u64::from(time_step.femtoseconds()) * 4_294_967_296)
}

/// A side in 10^-7 nm.
fn length(side: Side) -> i128
    ensures value { result ≡ pos (100 * side) }
    ensures positive { pos 0 <ℤ result }
    ensures bound { unsigned_abs result < 2 ^ 32 }
{
    100 * i128::from(side.get())
}

/// The number of grid units nearest to the displacement of an atom along a side in one time step. `velocity` is in
/// 10^-4 nm/ps. A tie would round up, but never occurs: the dividend is a multiple of 2^32, and 2^26 doesn't divide
/// `100 L`.
fn places_moved(velocity: i64, time_step: TimeStep, side: Side) -> i128
    ensures value { result ≡ places_moved velocity time_step side }
    ensures nearest { IsWay velocity time_step side result }
    ensures bound { unsigned_abs result < 2 ^ 107 }
{
    round_div(way(velocity, time_step), length(side))
}

// The coordinate before the displacement, not yet reduced into the box.
fn behind(current: u32, moved: i128) -> i128
    requires { unsigned_abs moved < 2 ^ 107 }
    ensures { result ≡ pos current -ℤ moved }
{
    i128::from(current) - moved
}

/// The grid coordinate from which an atom of this velocity reaches `current` in one time step, reduced into the
/// periodic box.
pub(crate) fn place_before(current: u32, velocity: i64, time_step: TimeStep, side: Side) -> u32
    ensures value { result ≡ place_before current velocity time_step side }
    ensures before { IsPlaceBefore current velocity time_step side result }
{
    place_at(behind(current, places_moved(velocity, time_step, side)))
}
