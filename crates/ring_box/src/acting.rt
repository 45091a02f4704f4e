//! The force of a pair in two halves: the geometry of an interacting pair (`RingBox::acting`), then the force that a
//! slope gives along its line (`ActingPair::force`).
//!
//! The halves are separate so that the slopes of many pairs can be computed together in between; `halves_are_whole`
//! proves that both give the pair's force. Atoms at one position have a line of length 1 with components of 0, so that
//! they need no case of their own. Most pairs that don't interact are rejected earlier: sixteen atoms at once by their
//! coarse coordinates (crate `place_blocks`), and a whole cell by its ends (`RingBox::is_cell_far`).

ghost use Rattle.std.specs.Prelude.{ℕ, ◌≡◌, ◌≤◌, ◌<◌, ◌+◌, ◌-◌, ◌*◌, ◌/◌, ◌^◌, ℤ, IsTrue, min, unsigned_abs};
ghost use Rattle.ring_box.specs.Places.{difference};
ghost use Rattle.ring_box.specs.Acting.{IsInCell, IsReach, Reach, HalvesAreWhole, acting_of, force_of, length_of};
ghost use Rattle.ring_box.specs.Distances.{square};
ghost use Rattle.ring_box.specs.Forces.{IsWithin};
ghost use Rattle.ring_box.specs.declared.boxes.RingBox.{RingBox};
ghost use Rattle.ring_box.specs.declared.vectors.Place3.{Place3};

use crate::boxes::RingBox;
use crate::distances::distance_by_root;
use crate::forces::outside_core;
use crate::lines::PairLine;
use crate::reaches::Reach;
use crate::sides::Side;
use crate::vectors::{CellBits, CellNumbers, Place3, Vector};
use fixed::Fx;
use std::marker::Model;

/// An interacting pair: the line through both atoms, and the distance at which their force is evaluated.
#[derive(Clone, Copy)]
pub struct ActingPair {
    pub(crate) x: i64,
    pub(crate) y: i64,
    pub(crate) z: i64,
    pub(crate) length: u64,
    pub(crate) distance: Fx,
}

impl Model for ActingPair {
    ghost use Rattle.ring_box.specs.Acting.{ActingPair, IsActingPair};

    ghost Value = { ActingPair };

    ghost view = { λ p. record { x = p.x; y = p.y; z = p.z; length = p.length; distance = p.distance } };

    ghost inverse = { λ p. record { x = p.x; y = p.y; z = p.z; length = p.length; distance = p.distance } };

    ghost invariant = { λ p. IsActingPair (record { x = p.x; y = p.y; z = p.z; length = p.length; distance = p.distance }) };
}

impl Default for ActingPair {
    ghost use Rattle.std.specs.Prelude.{◌≡◌, pos};

    ghost is_default = { λ p. p ≡ record { x = pos 0; y = pos 0; z = pos 0; length = 1; distance = pos 0 } };

    /// A pair of atoms at one position.
    fn default() -> ActingPair {
        ActingPair {
            x: 0,
            y: 0,
            z: 0,
            length: 1,
            distance: Fx::from_raw(0),
        }
    }
}

impl ActingPair {
    ghost use Rattle.std.specs.Prelude.{◌≡◌, ◌<◌, ◌^◌, unsigned_abs};
    ghost use Rattle.ring_box.specs.Acting.{force_of};
    ghost use Rattle.ring_box.specs.Forces.{IsWithin};

    /// The distance in nm at which the force is evaluated: at least the core, below the cutoff.
    pub fn distance(self) -> Fx
        ensures { result ≡ self.distance }
    {
        self.distance
    }

    /// The force on the first atom in kJ/mol/nm, given minus dU/dr at that distance; the force on the second atom is
    /// its negative. `minus_slope` isn't the least i64.
    pub fn force(self, minus_slope: Fx) -> Vector<i64>
        requires { unsigned_abs minus_slope < 2 ^ 63 }
        ensures value { result ≡ force_of self minus_slope }
        ensures bound { IsWithin (unsigned_abs minus_slope) result }
    {
        let line = PairLine {
            x: self.x,
            y: self.y,
            z: self.z,
            length: self.length,
        };
        let g = minus_slope.raw();
        line.force_near(g, line.force_estimate(g))
    }
}

/// A coarse length of `places` grid units on this side, rounded down, in units of 2^40 times 10^-5 nm / 2^32 (about
/// 0.0026 nm).
#[tactic(auto, using(crate::proofs::DistanceLemmas::coarse_below))]
fn coarse_length(places: u32, side: Side) -> u32
    requires { places ≤ 2 ^ 31 }
    ensures below { result * 2 ^ 40 ≤ places * side }
    ensures bound { result ≤ 31250 }
{
    ((places >> 16) * (side.get() >> 9)) >> 15
}

/// A limit of squares without its lower `cut` bits; `u32::MAX` if more than 32 bits are left.
#[inline]
pub fn upper_limit(limit: u128, cut: u32) -> u32
    requires { cut ≤ 80 }
    ensures { result ≡ min (limit / 2 ^ cut) (2 ^ 32 - 1) }
{
    match u32::try_from(limit >> cut) {
        Ok(limit) => limit,
        Err(_) => u32::MAX,
    }
}

/// Whether the squares of three coarse lengths show that the lengths' sum of squares is at least the limit.
#[tactic(auto, using(crate::proofs::DistanceLemmas::far_is))]
fn are_far(x: u32, y: u32, z: u32, limit: u128) -> bool
    requires x { x ≤ 31250 }
    requires y { y ≤ 31250 }
    requires z { z ≤ 31250 }
    ensures { (a b c : ℕ) → IsTrue result → x * 2 ^ 40 ≤ a → y * 2 ^ 40 ≤ b → z * 2 ^ 40 ≤ c → limit ≤ a * a + b * b + c * c }
{
    x * x + y * y + z * z > upper_limit(limit, 80)
}

impl RingBox {
    ghost use Rattle.std.specs.Prelude.{◌≡◌, ◌≤ℤ◌, ◌<ℤ◌, IfSome};
    ghost use Rattle.ring_box.specs.Acting.{acting_of};

    /// The line and the distance of two atoms at `p` and `q`; `None` if the distance isn't below the cutoff: the pair
    /// doesn't interact.
    #[tactic(auto, using(crate::proofs::ActingLemmas::idle))]
    pub fn acting(&self, reach: &Reach, p: Place3, q: Place3) -> Option<ActingPair>
        ensures value { result ≡ acting_of reach.now self.now p q }
        ensures low { IfSome result (λ a. reach.now.core ≤ℤ a.distance) }
        ensures high { IfSome result (λ a. a.distance <ℤ reach.now.cutoff) }
    {
        let separation = self.separation(p, q);
        let s = separation.square();
        if s >= reach.limit() {
            return None;
        }
        let line = separation.line_near(s, self.root_estimate(p, q));
        Some(ActingPair {
            x: separation.x,
            y: separation.y,
            z: separation.z,
            length: line.length,
            distance: reach.distance(s, line.length),
        })
    }
}

/// The least number of grid units between `x` and any coordinate of a cell, the shorter way round; 0 if `x` is in the
/// cell. The side is cut into 2^b cells.
#[tactic(auto, using(crate::proofs::GapLemmas::gap_is))]
fn gap(x: u32, b: u32, cell: u32) -> u32
    requires positive { 1 ≤ b }
    requires bound { b ≤ 4 }
    requires cell { cell < 2 ^ b }
    ensures between { (y : ℕ) → IsInCell b cell y → result ≤ unsigned_abs (difference x y) }
    ensures half { result ≤ 2 ^ 31 }
{
    let width = 1u32 << (32 - b);
    let behind = x.wrapping_sub(cell << (32 - b));
    if behind < width {
        return 0;
    }
    (behind - (width - 1)).min(behind.wrapping_neg())
}

impl RingBox {
    ghost use Rattle.std.specs.Prelude.{IsTrue};
    ghost use Rattle.ring_box.specs.Acting.{AreCellNumbers, IsOutOfReach};

    /// Whether the ends of a cell show that none of its atoms interacts with an atom at `p`. The sides are cut into
    /// 2^bits cells, 1 to 4 bits each; `cell` has the cell's indices along them.
    pub fn is_cell_far(&self, reach: &Reach, p: Place3, bits: CellBits, cell: CellNumbers) -> bool
        requires { AreCellNumbers bits cell }
        ensures { IsTrue result → IsOutOfReach reach.now self.now bits cell p }
    {
        are_far(
            coarse_length(gap(p.x, bits.x, cell.x), self.x),
            coarse_length(gap(p.y, bits.y, cell.y), self.y),
            coarse_length(gap(p.z, bits.z, cell.z), self.z),
            reach.limit(),
        )
    }
}

/// Law: both halves of a pair's force are the force that `RingBox::pair_force` returns.
#[tactic(auto, using(crate::proofs::ActingLemmas::halves))]
pub fn halves_are_whole()
    ensures { (d : Reach) (b : RingBox) (minus_slope : ℤ → ℤ) (p q : Place3) → HalvesAreWhole d b minus_slope p q }
{}
