//! The step of one atom.

use crate::displacement::{displacement, next_place};
use crate::systems::System;
use ring_box::{Place3, Side, Vector};
use std::alloc::Allocator;

impl<K: Drop, A: Allocator> System<K, A> {
    ghost use Rattle.std.specs.Prelude.{◌≡◌, ◌<◌, ◌≤◌, ◌^◌, unsigned_abs};
    ghost use Rattle.ring_box.specs.Forces.{IsWithin};
    ghost use Rattle.integrator.specs.Displacement.{displacement_of, next_place_of};
    ghost use Rattle.integrator.specs.Frames.{next_places};
    ghost use Rattle.integrator.specs.Systems.{forceless};

    /// The grid coordinate after `before` and `middle` along one axis, for an atom of this mass in 10^-5 u in a box
    /// with this side. `force` is the force on it at `middle`, in 2^-bits kJ/mol/nm.
    fn next_coordinate(&self, mass: u32, side: Side, before: u32, middle: u32, force: i128) -> u32
        requires some_mass { 0 < mass }
        requires most_mass { mass ≤ 100000000 }
        requires force { unsigned_abs force ≤ 2 ^ 80 }
        ensures { result ≡ next_place_of before middle (displacement_of self.now.frac force self.now.time_step mass side) }
    {
        let displacement = displacement(self.frac, force, self.time_step, mass, side);
        next_place(before, middle, displacement)
    }

    /// The coordinates after `before` and `middle` of an atom of this mass, in 10^-5 u: twice `middle` less `before`,
    /// plus the displacement, modulo 2^32. `force` is the force on it at `middle`, in 2^-bits kJ/mol/nm.
    pub fn next_places(
        &self,
        mass: u32,
        before: Place3,
        middle: Place3,
        force: Vector<i128>,
    ) -> Place3
        requires some_mass { 0 < mass }
        requires most_mass { mass ≤ 100000000 }
        requires force { IsWithin (2 ^ 80) force }
        ensures { result ≡ next_places (forceless self.now) mass before middle force }
    {
        Place3 {
            x: self.next_coordinate(mass, self.ring.x, before.x, middle.x, force.x),
            y: self.next_coordinate(mass, self.ring.y, before.y, middle.y, force.y),
            z: self.next_coordinate(mass, self.ring.z, before.z, middle.z, force.z),
        }
    }
}
