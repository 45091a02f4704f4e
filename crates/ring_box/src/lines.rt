//! The line through two atoms, and forces along it. Roots and quotients are estimated in floating point, then tested.

ghost use Rattle.std.specs.Prelude.{ℕ, ◌≡◌, ◌≤◌, ◌<◌, ◌+◌, ◌*◌, ◌^◌, pos, ◌*ℤ◌, unsigned_abs};
ghost use Rattle.ring_box.specs.Acting.{length_of};
ghost use Rattle.ring_box.specs.Distances.{square};
ghost use Rattle.ring_box.specs.Forces.{IsWithin, component_of, line_force_of};

use crate::separations::Separation;
use crate::vectors::Vector;
use fixed::{floor_div, floor_estimate, floor_from, is_root, isqrt, near_float};

/// The line through two atoms: its components along the axes, and its length rounded down, which no component exceeds.
#[derive(Clone, Copy)]
pub(crate) struct PairLine {
    pub x: i64,
    pub y: i64,
    pub z: i64,
    pub length: u64,

    ghost positive: { 0 < length },
    ghost short: { length < 2 ^ 63 },
    ghost x_within: { unsigned_abs x ≤ length },
    ghost y_within: { unsigned_abs y ≤ length },
    ghost z_within: { unsigned_abs z ≤ length },
}

/// The length of a line with the square `s`, rounded down, for an estimate that failed the test. Atoms at one position
/// have no line: a length of 1 with components of 0 gives them no force.
#[tactic(auto, using(crate::proofs::ForceLemmas::root_positive))]
#[cold]
#[inline(never)]
fn length_of(s: u128) -> u64
    ensures value { result ≡ length_of s }
    ensures positive { 0 < result }
    ensures longest { (a : ℕ) → a * a ≤ s → a ≤ result }
{
    if s == 0 { 1 } else { isqrt(s) }
}

/// The length of a line with the square `s`. `estimate` is tested first, and is usually right.
#[tactic(auto, using(crate::proofs::ForceLemmas::near_length))]
#[inline(always)]
pub(crate) fn length_near(s: u128, estimate: u64) -> u64
    ensures value { result ≡ length_of s }
    ensures positive { 0 < result }
    ensures longest { (a : ℕ) → a * a ≤ s → a ≤ result }
{
    if 0 < estimate && is_root(s, estimate) {
        estimate
    } else {
        length_of(s)
    }
}

impl Separation {
    /// The line of this separation, which has the square `s`; its length is 1 if both atoms are at one position.
    /// `estimate` is an estimate of the length.
    #[tactic(auto, using(crate::proofs::DistanceLemmas::length_short))]
    #[inline(always)]
    pub(crate) fn line_near(self, s: u128, estimate: u64) -> PairLine
        requires square { s ≡ square self.x + square self.y + square self.z }
        requires bound { s < 2 ^ 112 }
        ensures x { result.x ≡ self.x }
        ensures y { result.y ≡ self.y }
        ensures z { result.z ≡ self.z }
        ensures length { result.length ≡ length_of s }
    {
        PairLine {
            x: self.x,
            y: self.y,
            z: self.z,
            length: length_near(s, estimate),
        }
    }
}

#[tactic(auto, using(crate::proofs::ForceLemmas::product_small))]
fn product(g: i128, a: i64) -> i128
    requires { unsigned_abs g ≤ 2 ^ 63 }
    ensures { result ≡ g *ℤ a }
{
    g * i128::from(a)
}

#[tactic(auto, using(crate::proofs::ForceLemmas::result_within))]
fn component(g: i128, a: i64, d: u64) -> i128
    requires size { unsigned_abs g ≤ 2 ^ 63 }
    requires positive { 0 < d }
    requires within { unsigned_abs a ≤ d }
    ensures value { result ≡ component_of g a d }
    ensures bound { unsigned_abs result ≤ unsigned_abs g }
{
    floor_div(product(g, a), i128::from(d))
}

impl PairLine {
    /// A force of the size `g` along the line, each component rounded down.
    pub(crate) fn force(self, g: i128) -> Vector<i128>
        requires { unsigned_abs g ≤ 2 ^ 63 }
        ensures value { result ≡ line_force_of g self.x self.y self.z self.length }
        ensures bound { IsWithin (unsigned_abs g) result }
    {
        Vector {
            x: component(g, self.x, self.length),
            y: component(g, self.y, self.length),
            z: component(g, self.z, self.length),
        }
    }

    /// An estimate of the force of the size `g` along the line.
    #[inline(always)]
    pub(crate) fn force_estimate(self, g: i64) -> Vector<i64> {
        let ratio = near_float(g) / near_float(self.length.cast_signed());
        Vector {
            x: floor_estimate(ratio * near_float(self.x)),
            y: floor_estimate(ratio * near_float(self.y)),
            z: floor_estimate(ratio * near_float(self.z)),
        }
    }

    /// A force of the size `g` along the line, each component rounded down; `g` isn't the least i64. `estimate` is
    /// tested first, and is usually exact.
    #[inline(always)]
    pub(crate) fn force_near(self, g: i64, estimate: Vector<i64>) -> Vector<i64>
        requires { unsigned_abs g < 2 ^ 63 }
        ensures value { result ≡ line_force_of g self.x self.y self.z self.length }
        ensures bound { IsWithin (unsigned_abs g) result }
    {
        Vector {
            x: small_component(g, self.x, self.length, estimate.x),
            y: small_component(g, self.y, self.length, estimate.y),
            z: small_component(g, self.z, self.length, estimate.z),
        }
    }
}

/// The component of a force of the size `g` along `a` on a line of the length `d`. `estimate` is tested first, and is
/// usually right.
#[tactic(auto, using(crate::proofs::ForceLemmas::result_within))]
#[inline(always)]
fn small_component(g: i64, a: i64, d: u64, estimate: i64) -> i64
    requires size { unsigned_abs g < 2 ^ 63 }
    requires positive { 0 < d }
    requires short { d < 2 ^ 63 }
    requires within { unsigned_abs a ≤ d }
    ensures value { result ≡ component_of g a d }
    ensures bound { unsigned_abs result ≤ unsigned_abs g }
{
    floor_from(g, a, d as i64, estimate)
}
