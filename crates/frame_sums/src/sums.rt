//! Sums over pairs, one pair at a time.

ghost use Rattle.std.specs.Prelude.{◌≡◌, ◌-◌, ◌<◌, ◌≤◌, ◌^◌, ◌*ℤ◌, ◌≤ℤ◌, length, map, pos, unsigned_abs};
ghost use Rattle.ring_box.specs.Acting.{limit_of};
ghost use Rattle.ring_box.specs.Axes.{along, by_axis};
ghost use Rattle.ring_box.specs.Forces.{IsWithin};
ghost use Rattle.ring_box.specs.Places.{difference};
ghost use Rattle.rounds.specs.Tiles.{IsPairOf};
ghost use Rattle.integrator.specs.Forces.{plus};
ghost use Rattle.observables.specs.Bounds.{AreAllWithin, AreBounded};
ghost use Rattle.frame_sums.specs.Rows.{add_found};
ghost use Rattle.frame_sums.specs.PairSums.{core_pair_at, force_in, no_sums, plus_sums, plus_tensors, sums_of, virial_between};
ghost use Rattle.frame_sums.specs.Sums.{lesser};

use crate::rows::Scratch;
use crate::safe_systems::SafeSystem;
use crate::sums_over_pairs::SumOverPairs;
use fixed::{Frac, Fx};
use observables::PairSums;
use ring_box::{Place3, RingBox, Vector, diff};
use rounds::PairAdd;
use std::alloc::Allocator;

/// A frame in its box: the coordinates of each atom, the fraction bits of a distance, and the core in nm.
#[derive(Clone, Copy)]
pub(crate) struct BoxFrame<'a> {
    pub frac: Frac,
    pub ring: &'a RingBox,
    pub core: Fx,
    /// Of the squares of separations, in units of (10^-5 nm / 2^32)^2, those below this are nearer than the core.
    pub core_limit: u128,
    pub places: &'a [Place3],
    pub ghost positive: { pos 0 ≤ℤ core },
    pub ghost limit: { core_limit ≡ limit_of frac core },
}

/// A component of a force times the grid units from `y` to `x`.
fn moment(component: i64, x: u32, y: u32) -> i128
    ensures value { result ≡ component *ℤ difference x y }
    ensures bound { unsigned_abs result ≤ 2 ^ 94 }
{
    i128::from(component) * i128::from(diff(x, y))
}

/// A component of a force times the grid units from `q` to `p` along each axis.
fn moments(component: i64, p: Place3, q: Place3) -> Vector<i128>
    ensures value { result ≡ by_axis (λ axis. component *ℤ difference (along axis p) (along axis q)) }
    ensures bound { IsWithin (2 ^ 94) result }
{
    Vector {
        x: moment(component, p.x, q.x),
        y: moment(component, p.y, q.y),
        z: moment(component, p.z, q.z),
    }
}

/// The virial of a pair of atoms at `p` and `q`.
fn virial_between(add: &PairAdd, p: Place3, q: Place3) -> Vector<Vector<i128>>
    ensures value { result ≡ virial_between (force_in add.now.force) p q }
    ensures bound { AreAllWithin (2 ^ 94) result }
{
    Vector {
        x: moments(add.force[0], p, q),
        y: moments(add.force[1], p, q),
        z: moments(add.force[2], p, q),
    }
}

/// The sum of two vectors.
fn plus(a: Vector<i128>, b: Vector<i128>) -> Vector<i128>
    requires a { IsWithin (2 ^ 126) a }
    requires b { IsWithin (2 ^ 94) b }
    ensures { result ≡ plus a b }
{
    Vector {
        x: a.x + b.x,
        y: a.y + b.y,
        z: a.z + b.z,
    }
}

/// The sum of two tensors.
fn plus_tensors(a: Vector<Vector<i128>>, b: Vector<Vector<i128>>) -> Vector<Vector<i128>>
    requires a { AreAllWithin (2 ^ 126) a }
    requires b { AreAllWithin (2 ^ 94) b }
    ensures { result ≡ plus_tensors a b }
{
    Vector {
        x: plus(a.x, b.x),
        y: plus(a.y, b.y),
        z: plus(a.z, b.z),
    }
}

/// The lesser of two squares, either of which may be missing.
fn lesser(nearest: Option<u128>, other: Option<u128>) -> Option<u128>
    ensures { result ≡ lesser nearest other }
{
    match (nearest, other) {
        (Some(least), Some(square)) => Some(least.min(square)),
        (Some(least), None) => Some(least),
        (None, other) => other,
    }
}

/// The sums over no pairs.
pub(crate) fn no_sums() -> PairSums
    ensures value { result ≡ no_sums }
    ensures bounded { AreBounded 0 result }
{
    let zero = Vector { x: 0, y: 0, z: 0 };
    PairSums {
        virial: Vector {
            x: zero,
            y: zero,
            z: zero,
        },
        nearest: None,
        core_pairs: 0,
    }
}

/// The sums over pairs and one more pair.
fn plus_sums(sums: PairSums, one: PairSums) -> PairSums
    requires sums { AreBounded (2 ^ 32 - 2) sums }
    requires one { AreBounded 1 one }
    ensures { result ≡ plus_sums sums one }
{
    PairSums {
        virial: plus_tensors(sums.virial, one.virial),
        nearest: lesser(sums.nearest, one.nearest),
        core_pairs: sums.core_pairs + one.core_pairs,
    }
}

impl<'a> BoxFrame<'a> {
    /// 1 if the square of a pair's separation is that of a pair nearer than the core, otherwise 0.
    fn core_pair_at(&self, square: u128) -> u32
        ensures value { result ≡ core_pair_at self.now.frac self.now.core square }
        ensures bound { result ≤ 1 }
    {
        u32::from(square < self.core_limit)
    }

    /// The sums over one pair.
    fn sums_of(&self, add: &PairAdd) -> PairSums
        requires { IsPairOf (length self.now.places.now) add.now }
        ensures value { result
            ≡ sums_of self.now.frac self.now.ring.now self.now.core self.now.places.now add.now }
        ensures bounded { AreBounded 1 result }
    {
        let p = self.places[add.low as usize];
        let q = self.places[add.high as usize];
        let square = self.ring.square(p, q);
        PairSums {
            virial: virial_between(add, p, q),
            nearest: Some(square),
            core_pairs: self.core_pair_at(square),
        }
    }
}

impl<'a, A: Allocator + Copy> SumOverPairs<A, PairSums> for BoxFrame<'a> {
    ghost use Rattle.std.specs.Prelude.{true};
    ghost use Rattle.frame_sums.specs.PairSums.{AreSumsOfPairs};

    ghost is_for = { λ f s. length f.places.now ≡ length s.types.items };

    ghost is_sum = { λ f s pairs sums. AreSumsOfPairs f.frac f.ring.now f.core f.places.now (map (add_found s) pairs) sums };

    ghost needs = { true };

    #[inline(always)]
    fn needs_forces() -> bool
        ensures { result ≡ true }
    {
        true
    }

    fn add_batch<B: Allocator>(
        &self,
        _system: &SafeSystem<A>,
        scratch: &mut Scratch<B>,
        sum: &mut PairSums,
    ) {
        for k in 0..scratch.found.len() {
            *sum = plus_sums(*sum, self.sums_of(&scratch.add_at(k)));
        }
    }
}
