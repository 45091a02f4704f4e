//! Separations of two atoms, exact and in floating point.

ghost use Rattle.std.specs.Prelude.{ℤ, pos, ◌≡◌, ◌≤◌, ◌<◌, ◌+◌, ◌*◌, ◌*ℤ◌, ◌^◌, unsigned_abs};
ghost use Rattle.float_filters.specs.Floors.{lane};
ghost use Rattle.float_filters.specs.Near.{IsNear, IsNearInteger};
ghost use Rattle.ring_box.specs.Distances.{square, x_separation, y_separation, z_separation};
ghost use Rattle.ring_box.specs.Places.{difference};

use crate::boxes::RingBox;
use crate::places::diff;
use crate::sides::Side;
use crate::vectors::Place3;
use fixed::floor_estimate;
use float_filters::{exact_u32, near_separation, near_square};
use std::simd::prelude::*;

/// The separation of two atoms along each axis by the minimum image, in units of 10^-5 nm over 2^32.
#[derive(Clone, Copy)]
pub(crate) struct Separation {
    pub x: i64,
    pub y: i64,
    pub z: i64,

    // half of the longest side
    ghost x_bound: { unsigned_abs x ≤ 2 ^ 31 * 16000000 },
    ghost y_bound: { unsigned_abs y ≤ 2 ^ 31 * 16000000 },
    ghost z_bound: { unsigned_abs z ≤ 2 ^ 31 * 16000000 },
}

/// The separation of two atoms along each axis by the minimum image, in grid units.
#[derive(Clone, Copy)]
pub(crate) struct GridSeparation {
    pub x: i32,
    pub y: i32,
    pub z: i32,
}

/// The separation of two atoms in grid units.
#[inline(always)]
pub(crate) fn grid_separation(p: Place3, q: Place3) -> GridSeparation
    ensures x { result.x ≡ difference p.x q.x }
    ensures y { result.y ≡ difference p.y q.y }
    ensures z { result.z ≡ difference p.z q.z }
{
    GridSeparation {
        x: diff(p.x, q.x),
        y: diff(p.y, q.y),
        z: diff(p.z, q.z),
    }
}

/// A number of grid units along a side, in units of 10^-5 nm over 2^32.
fn scaled(units: i32, side: Side) -> i64
    ensures value { result ≡ units *ℤ pos side }
    ensures bound { unsigned_abs result ≤ 2 ^ 31 * 16000000 }
{
    i64::from(units) * i64::from(side.get())
}

fn square(a: i64) -> u128
    ensures { result ≡ square a }
{
    let length = i128::from(a);
    (length * length) as u128
}

impl RingBox {
    /// A separation in units of 10^-5 nm over 2^32.
    pub(crate) fn scaled(&self, grid: GridSeparation) -> Separation
        ensures x { result.x ≡ grid.x *ℤ pos self.now.x }
        ensures y { result.y ≡ grid.y *ℤ pos self.now.y }
        ensures z { result.z ≡ grid.z *ℤ pos self.now.z }
    {
        Separation {
            x: scaled(grid.x, self.x),
            y: scaled(grid.y, self.y),
            z: scaled(grid.z, self.z),
        }
    }

    pub(crate) fn separation(&self, p: Place3, q: Place3) -> Separation
        ensures x { result.x ≡ x_separation self.now p q }
        ensures y { result.y ≡ y_separation self.now p q }
        ensures z { result.z ≡ z_separation self.now p q }
    {
        self.scaled(grid_separation(p, q))
    }
}

/// Floats near the components of a separation.
#[derive(Clone, Copy)]
pub(crate) struct FloatSeparation {
    pub x: f64,
    pub y: f64,
    pub z: f64,
}

/// A float near a number of grid units along a side, in units of 10^-5 nm over 2^32.
#[inline(always)]
fn float_scaled(units: i32, side: Side) -> f64
    ensures near { IsNearInteger 1 result (units *ℤ pos side) }
    ensures bound { unsigned_abs (units *ℤ pos side) ≤ 2 ^ 90 }
{
    near_separation(units, side.get())
}

/// Floats near two numbers of grid units along sides, in units of 10^-5 nm over 2^32.
#[inline(always)]
fn float_scaled_two(x: i32, x_side: Side, y: i32, y_side: Side) -> [f64; 2]
    ensures x { IsNearInteger 1 (lane result 0) (x *ℤ pos x_side) }
    ensures y { IsNearInteger 1 (lane result 1) (y *ℤ pos y_side) }
    ensures x_bound { unsigned_abs (x *ℤ pos x_side) ≤ 2 ^ 90 }
    ensures y_bound { unsigned_abs (y *ℤ pos y_side) ≤ 2 ^ 90 }
{
    let units = i32x2::from_array([x, y]).cast::<f64>();
    let sides = f64x2::from_array([exact_u32(x_side.get()), exact_u32(y_side.get())]);
    (units * sides).to_array()
}

impl RingBox {
    ghost use Rattle.ring_box.specs.FloatSeparations.{AreShort, IsNearSeparation};

    /// A separation in floating point.
    #[inline(always)]
    pub(crate) fn float_scaled(&self, grid: GridSeparation) -> FloatSeparation
        ensures near { IsNearSeparation (grid.x *ℤ pos self.now.x) (grid.y *ℤ pos self.now.y) (grid.z *ℤ pos self.now.z) result }
        ensures bound { AreShort (grid.x *ℤ pos self.now.x) (grid.y *ℤ pos self.now.y) (grid.z *ℤ pos self.now.z) }
    {
        let xy = float_scaled_two(grid.x, self.x, grid.y, self.y);
        FloatSeparation {
            x: xy[0],
            y: xy[1],
            z: float_scaled(grid.z, self.z),
        }
    }

    /// A floating-point estimate of the length of the separation, rounded down.
    #[inline(always)]
    pub(crate) fn root_estimate(&self, p: Place3, q: Place3) -> u64 {
        let FloatSeparation { x, y, z } = self.float_scaled(grid_separation(p, q));
        floor_estimate((x * x + y * y + z * z).sqrt()).cast_unsigned()
    }
}

impl FloatSeparation {
    ghost use Rattle.ring_box.specs.FloatSeparations.{IsNearSeparation, squares_of};

    /// A float near the square of a separation of at most 2^31 sides along each axis.
    #[inline(always)]
    pub(crate) fn square(self) -> f64
        ensures { (a b c : ℤ) → unsigned_abs a ≤ 2 ^ 90 → unsigned_abs b ≤ 2 ^ 90 → unsigned_abs c ≤ 2 ^ 90 → IsNearSeparation a b c self
            → IsNear 5 result (squares_of a b c) 1 }
    {
        near_square(self.x, self.y, self.z)
    }
}

impl Separation {
    pub(crate) fn square(self) -> u128
        ensures value { result ≡ square self.x + square self.y + square self.z }
        ensures bound { result < 2 ^ 112 }
    {
        square(self.x) + square(self.y) + square(self.z)
    }
}
