//! Batches of interacting pairs, stored contiguously, so that each stage runs for all pairs of a batch before the next
//! stage.

ghost use Rattle.std.specs.Prelude.{◌≡◌, ◌+◌, ◌<◌, ◌≤◌, ◌^◌, IsTrue, Some, length, map, neg_ℤ, slice_get, unsigned_abs};
ghost use Rattle.ring_box.specs.FoundPairs.{scaled};

use crate::acting::ActingPair;
use crate::boxes::RingBox;
use crate::float_reaches::FloatReach;
use crate::float_rows::{four_raw, put_four};
use crate::lines::length_near;
use crate::pair_forces::PairForces;
use crate::pairs::AtomPair;
use crate::reaches::Reach;
use crate::separations::{GridSeparation, grid_separation};
use crate::sides::Side;
use crate::vectors::{Place3, Vector};
use fixed::{Frac, Fx, floor_estimate};
use float_filters::{FourForces, force_slack, forces, four, near_lengths};
use std::marker::Model;

/// An interacting pair: the indices of both atoms in a frame, and the geometry of the pair.
#[derive(Clone, Copy, Default)]
pub struct FoundPair {
    pub low: u32,
    pub high: u32,
    pub acting: ActingPair,
}

/// Two atoms by their indices, and their separation in grid units.
#[derive(Clone, Copy)]
pub(crate) struct GridPair {
    pub low: u32,
    pub high: u32,
    pub grid: GridSeparation,
}

// ---- exact arithmetic

fn both(a: bool, b: bool) -> bool
    ensures { IsTrue result → IsTrue a × IsTrue b }
{
    a && b
}

impl Reach {
    ghost use Rattle.ring_box.specs.FoundPairs.{AreApart, AreFourMeasured, AreInReach, AreNearLengths, AreTaken, IsBelowLimit, IsMeasured};

    /// The distance at which the force of a pair is evaluated, and whether its atoms are at different positions. `length`
    /// is an estimate of the length of its line.
    fn exact_distance(&self, ring: &RingBox, pair: GridPair, length: f64) -> (Fx, bool)
        requires { IsBelowLimit self.now (scaled ring.now pair) }
        ensures { IsMeasured self.now (scaled ring.now pair) result.1 result.0 }
    {
        let s = ring.scaled(pair.grid).square();
        let estimate = floor_estimate(length).cast_unsigned();
        (self.distance(s, length_near(s, estimate)), s != 0)
    }

    /// Writes the distances of at most four of the first `count` pairs, from the index `first` on, in exact arithmetic.
    /// Returns whether the atoms of each are at different positions. `lengths` are estimates of the lengths of their
    /// lines.
    #[cold]
    #[inline(never)]
    fn find_exact_distances(
        &self,
        ring: &RingBox,
        pairs: &[GridPair; 128],
        lengths: &[f64; 128],
        first: usize,
        count: usize,
        distances: &mut [i64; 128],
    ) -> bool
        requires room { first + 4 ≤ 128 }
        requires pairs { AreInReach self.now count (map (scaled ring.now) pairs.now) }
        ensures { AreFourMeasured self.now count (map (scaled ring.now) pairs.now) first result distances.old distances.new }
    {
        let mut apart = true;
        for l in first..count.min(first + 4) {
            let (distance, is_apart) = self.exact_distance(ring, pairs[l], lengths[l]);
            distances[l] = distance.raw();
            apart = both(apart, is_apart);
        }
        apart
    }

    /// Writes the distances at which the forces of the first `count` pairs are evaluated, given floats near the lengths
    /// of their lines. Returns whether the atoms of each pair are at different positions.
    fn find_distances(
        &self,
        ring: &RingBox,
        pairs: &[GridPair; 128],
        lengths: &[f64; 128],
        count: usize,
        distances: &mut [i64; 128],
    ) -> bool
        requires pairs { AreInReach self.now count (map (scaled ring.now) pairs.now) }
        requires lengths { AreNearLengths count (map (scaled ring.now) pairs.now) lengths.now }
        ensures taken { AreTaken self.now count (map (scaled ring.now) pairs.now) distances.new }
        ensures apart { IsTrue result → AreApart count (map (scaled ring.now) pairs.now) }
    {
        let filter = self.filter();
        let mut apart = true;
        for i in 0..(count + 3) / 4 {
            match filter.distances(four(lengths, 4 * i)) {
                Some(found) => put_four(distances, 4 * i, found),
                None => {
                    let are_apart = self.find_exact_distances(
                        ring,
                        pairs,
                        lengths,
                        4 * i,
                        count,
                        distances,
                    );
                    apart = both(apart, are_apart);
                }
            }
        }
        apart
    }
}

/// The negative of a derivative, as an integer.
fn opposite(slope: Fx) -> i64
    requires { unsigned_abs slope < 2 ^ 63 }
    ensures value { result ≡ neg_ℤ slope }
    ensures bound { unsigned_abs result < 2 ^ 63 }
{
    -slope.raw()
}

impl GridPair {
    ghost use Rattle.ring_box.specs.FoundPairs.{line_force_on};

    /// The force on the first atom, given the derivative dU/dr, in exact arithmetic. `length` is an estimate of the
    /// length of the line.
    fn exact_force(self, ring: &RingBox, slope: Fx, length: f64) -> Vector<i64>
        requires { unsigned_abs slope < 2 ^ 63 }
        ensures { result ≡ line_force_on (scaled ring.now self) (neg_ℤ slope) }
    {
        let estimate = floor_estimate(length).cast_unsigned();
        let separation = ring.scaled(self.grid);
        let line = separation.line_near(separation.square(), estimate);
        let g = opposite(slope);
        line.force_near(g, line.force_estimate(g))
    }
}

// ---- lanes

/// Pairs that are tried, one lane for each: their separations in grid units, and floats near them and their squares.
#[derive(Drop)]
pub(crate) struct PairLanes {
    pub pairs: [GridPair; 128],
    pub x: [f64; 128],
    pub y: [f64; 128],
    pub z: [f64; 128],
    pub squares: [f64; 128],
}

impl PairLanes {
    ghost use Rattle.std.specs.Prelude.{◌++◌, All};
    ghost use Rattle.ring_box.specs.FloatReaches.{IsNearReach};
    ghost use Rattle.ring_box.specs.FoundPairs.{AreLanesHeld, found_among, found_in};

    /// Appends the interacting pairs of a list of pairs of atoms to the first `count` lanes, which leave room for the
    /// whole list. Returns the number of pairs. Each pair is written, and only counted if it interacts, so that there is
    /// no branch to mispredict.
    #[inline(always)]
    fn append(
        &mut self,
        count: usize,
        ring: &RingBox,
        reach: &Reach,
        float_reach: FloatReach,
        frame: &[Place3],
        near: &[AtomPair],
    ) -> usize
        requires inside { All (λ p. (p.low < length frame.now) × (p.high < length frame.now)) near.now }
        requires reach { IsNearReach reach.now float_reach }
        requires held { AreLanesHeld reach.now ring.now count self.old }
        requires room { count + length near.now ≤ 128 }
        ensures held { AreLanesHeld reach.now ring.now result self.new }
        ensures found { found_in reach.now ring.now result self.new
            ≡ found_in reach.now ring.now count self.old ++ found_among reach.now ring.now frame.now near.now }
    {
        let PairLanes {
            pairs,
            x,
            y,
            z,
            squares,
        } = self;
        let mut l = count;
        for k in 0..near.len() {
            let AtomPair { low, high } = near[k];
            let p = frame[low as usize];
            let q = frame[high as usize];
            let grid = grid_separation(p, q);
            let floats = ring.float_scaled(grid);
            let square = floats.square();
            pairs[l] = GridPair { low, high, grid };
            x[l] = floats.x;
            y[l] = floats.y;
            z[l] = floats.z;
            squares[l] = square;
            l += usize::from(reach.reaches(float_reach, square, ring, &pairs[l].grid));
        }
        l
    }
}

// ---- found pairs

/// A batch of at most 128 interacting pairs. Each stage runs for the whole batch: `fill` collects pairs, `measure`
/// finds their distances, and once the derivatives are known, `forces` finds the forces.
///
/// Floating-point arithmetic decides each stage's result if its rounding errors can't change the result; otherwise
/// exact integer arithmetic does.
#[derive(Drop)]
pub struct FoundPairs {
    reach: Reach,
    near: FloatReach,
    // the box in which the pairs were found
    ring: RingBox,
    count: usize,
    lanes: PairLanes,
    lengths: [f64; 128],
    measured: usize,
    // whether no measured pair has both atoms at one position
    apart: bool,
    distances: [i64; 128],
}

impl Model for FoundPairs {
    ghost use Rattle.std.specs.Prelude.{map};
    ghost use Rattle.ring_box.specs.FloatReaches.{IsNearReach};
    ghost use Rattle.ring_box.specs.FoundPairs.{AreLanesHeld, AreMeasured, FoundPairs, found_in, scaled};

    ghost Value = { FoundPairs };

    ghost view = { λ f. record { reach = f.reach; pairs = found_in f.reach f.ring f.count f.lanes; measured = f.measured } };

    ghost invariant = { λ f. IsNearReach f.reach f.near × AreLanesHeld f.reach f.ring f.count f.lanes
        × AreMeasured f.reach f.count (map (scaled f.ring) f.lanes.pairs) f.lengths f.measured f.apart f.distances };
}

impl FoundPairs {
    ghost use Rattle.std.specs.Prelude.{[], All, map, take, IfSome};
    ghost use Rattle.ring_box.specs.FloatReaches.{IsReachSlack};
    ghost use Rattle.ring_box.specs.FoundPairs.{AreForcesOf, AreFourForces, AreFourPut, AreSlopesSmall, found_among};

    /// An empty batch, with a reach that `clear` replaces.
    pub fn new() -> FoundPairs
        ensures pairs { result.pairs ≡ [] }
        ensures measured { result.measured ≡ 0 }
    {
        let reach = Reach::new(Frac::F32, Fx::from_raw(0), Fx::from_raw(1));
        let side = Side::new(1);
        let none = GridPair {
            low: 0,
            high: 0,
            grid: GridSeparation { x: 0, y: 0, z: 0 },
        };
        FoundPairs {
            reach,
            near: reach.in_floats(),
            ring: RingBox {
                x: side,
                y: side,
                z: side,
            },
            count: 0,
            lanes: PairLanes {
                pairs: [none; 128],
                x: [0.0; 128],
                y: [0.0; 128],
                z: [0.0; 128],
                squares: [0.0; 128],
            },
            lengths: [0.0; 128],
            measured: 0,
            apart: false,
            distances: [0; 128],
        }
    }

    /// The number of pairs, at most 128.
    pub fn len(&self) -> usize
        ensures value { result ≡ length self.now.pairs }
        ensures few { result ≤ 128 }
    {
        self.count
    }

    /// Empties the batch and sets its reach.
    pub fn clear(&mut self, reach: &Reach)
        ensures { self.new ≡ record { reach = reach.now; pairs = []; measured = 0 } }
    {
        self.reach = *reach;
        self.near = reach.in_floats();
        self.count = 0;
        self.measured = 0;
    }

    /// Replaces the pairs of the batch by the first interacting pairs of a list of pairs of atoms of a frame: those of
    /// the whole list, or 128. Returns the number of pairs tried.
    pub fn fill(&mut self, ring: &RingBox, frame: &[Place3], near: &[AtomPair]) -> usize
        requires inside { All (λ p. (p.low < length frame.now) × (p.high < length frame.now)) near.now }
        ensures tried { result ≤ length near.now }
        ensures found { let found = found_among self.old.reach ring.now frame.now (take result near.now)
            in self.new ≡ record { reach = self.old.reach; pairs = found; measured = 0 } }
        ensures full { result < length near.now → length self.new.pairs ≡ 128 }
        ensures few { length self.new.pairs ≤ 128 }
    {
        let reach = self.reach;
        let float_reach = self.near;
        self.ring = *ring;
        self.measured = 0;
        let FoundPairs { lanes, count, .. } = self;
        let mut l = 0;
        let mut k = 0;
        while k < near.len() && l < 128 {
            let end = near.len().min(k + (128 - l));
            l = lanes.append(l, ring, &reach, float_reach, frame, &near[k..end]);
            k = end;
        }
        *count = l;
        k
    }

    /// Computes the distance at which the force of each pair is evaluated.
    pub fn measure(&mut self)
        ensures { self.new ≡ record { reach = self.old.reach; pairs = self.old.pairs; measured = length self.old.pairs } }
    {
        let count = self.count;
        near_lengths(&self.lanes.squares, count, &mut self.lengths);
        self.apart = self.reach.find_distances(
            &self.ring,
            &self.lanes.pairs,
            &self.lengths,
            count,
            &mut self.distances,
        );
        self.measured = count;
    }

    /// The indices of the atoms of the pair with the index `l`.
    #[inline(always)]
    pub fn atoms(&self, l: usize) -> (u32, u32)
        requires { l < length self.now.pairs }
        ensures value { slice_get (map (λ f. (f.low, f.high)) self.now.pairs) l ≡ Some result }
        ensures lane { l < 128 }
    {
        let FoundPairs { lanes, .. } = self;
        let pair = lanes.pairs[l];
        (pair.low, pair.high)
    }

    /// The distance at which the force of the pair with the index `l` is evaluated; the pair has been measured.
    #[inline(always)]
    pub fn distance(&self, l: usize) -> Fx
        requires { l < self.now.measured }
        ensures { slice_get (map (λ f. f.acting.distance) self.now.pairs) l ≡ Some result }
    {
        let FoundPairs { distances, .. } = self;
        let distance = distances[l];
        Fx::from_raw(distance)
    }

    /// The forces of four pairs from the index `l` on, from their derivatives; none if one isn't sure.
    #[inline(always)]
    fn four_forces(&self, l: usize, slopes: &[Fx; 128], slack: f64) -> Option<FourForces>
        requires room { l + 4 ≤ 128 }
        requires measured { self.now.measured ≡ length self.now.pairs }
        requires slack { IsReachSlack self.now.reach slack }
        ensures { IfSome result (AreFourForces self.now.pairs slopes.now l) }
    {
        if !self.apart {
            return None;
        }
        forces(
            four_raw(slopes, l),
            four(&self.lengths, l),
            four(&self.lanes.x, l),
            four(&self.lanes.y, l),
            four(&self.lanes.z, l),
            slack,
        )
    }

    /// Writes the forces of at most four pairs from the index `l` on, in exact arithmetic.
    #[cold]
    #[inline(never)]
    fn put_exact_forces(&self, l: usize, slopes: &[Fx; 128], forces: &mut PairForces)
        requires room { l + 4 ≤ 128 }
        requires slopes { AreSlopesSmall (length self.now.pairs) slopes.now }
        ensures { AreFourPut self.now.pairs slopes.now l forces.old forces.new }
    {
        for k in l..self.count.min(l + 4) {
            forces.put(
                k,
                self.lanes.pairs[k].exact_force(&self.ring, slopes[k], self.lengths[k]),
            );
        }
    }

    /// Writes the force on the first atom of each pair, given the derivatives dU/dr at their distances; `measure` has
    /// been called.
    pub fn forces(&self, slopes: &[Fx; 128], forces: &mut PairForces)
        requires measured { self.now.measured ≡ length self.now.pairs }
        requires slopes { AreSlopesSmall (length self.now.pairs) slopes.now }
        ensures { AreForcesOf self.now.pairs slopes.now forces.new }
    {
        let slack = force_slack(self.near.longest);
        for i in 0..(self.count + 3) / 4 {
            match self.four_forces(4 * i, slopes, slack) {
                Some(found) => forces.put_four(4 * i, found),
                None => self.put_exact_forces(4 * i, slopes, forces),
            }
        }
    }
}
