//! Observations: the integers from which observables are computed.

ghost use Rattle.std.specs.Prelude.{◌^◌, ◌<◌, unsigned_abs};
ghost use Rattle.ring_box.specs.Forces.{IsWithin};
ghost use Rattle.observables.specs.Bounds.{AreBelow, AreBounded};

use fixed::{Frac, Fx};
use ring_box::{Vector, distance_at};

/// Sums over interacting pairs. Crates above pass them on as one value.
#[derive(Clone, Copy)]
pub struct PairSums {
    /// The virial tensor. For each axis of the force, and each axis of the displacement, it is the sum over pairs of
    /// the force on the atom of lower index, in 2^-bits kJ/mol/nm, times the displacement in grid units from the other
    /// atom to it, along the shorter way around the periodic box. `virial.x.y` has forces along x and displacements
    /// along y.
    pub virial: Vector<Vector<i128>>,
    /// The square of the nearest pair's separation, in units of (10^-5 nm / 2^32)^2; `None` if no pair interacts.
    pub nearest: Option<u128>,
    /// The number of pairs whose distance in nm, rounded down, is below the core.
    pub core_pairs: u32,
}

/// What one pass over the pairs of a frame sums.
#[derive(Clone, Copy)]
pub struct PairTotals {
    /// The energy in 2^-bits kJ/mol, with the fraction bits of the job: the exact sum over all interacting pairs.
    pub energy: i128,
    /// The other sums.
    pub sums: PairSums,
    pub ghost small_energy: { unsigned_abs energy < 2 ^ 100 },
    pub ghost small_sums: { AreBounded (2 ^ 32) sums },
}

impl PairTotals {
    ghost use Rattle.std.specs.Prelude.{◌≡◌};
    ghost use Rattle.observables.specs.Observables.{nearest_at};

    /// The distance of the nearest interacting pair in nm, rounded down; `None` if no pair interacts.
    pub fn nearest_distance(&self, frac: Frac) -> Option<Fx>
        ensures { result ≡ nearest_at frac self.now.sums.nearest }
    {
        match self.sums.nearest {
            Some(square) => Some(distance_at(frac, square)),
            None => None,
        }
    }
}

/// The integers observed of a state.
#[derive(Clone, Copy)]
pub struct Observation {
    /// The state's step counter.
    pub step: i64,
    /// The sums over the pairs of the current frame.
    pub pairs: PairTotals,
    /// For each axis, the sum over the atoms of mass in 10^-5 u times squared displacement in grid units, over the
    /// steps before and after the current frame.
    pub squares: Vector<u128>,
    /// For each axis, the sum over the atoms of mass in 10^-5 u times the product of the displacements along the two
    /// other axes in grid units, over the steps before and after the current frame.
    pub products: Vector<i128>,
    /// For each axis, the sum over the atoms of mass in 10^-5 u times displacement in grid units, in the step before
    /// the current frame.
    pub momentum: Vector<i128>,
    pub ghost small_squares: { AreBelow (2 ^ 107) squares },
    pub ghost small_products: { IsWithin (2 ^ 107) products },
    pub ghost small_momentum: { IsWithin (2 ^ 74) momentum },
}
