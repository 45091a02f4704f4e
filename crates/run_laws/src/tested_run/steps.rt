//! Steps: from two consecutive frames to the next two.

ghost use Rattle.std.specs.Prelude.{◌≡◌, ◌<◌, ◌^◌, length, Some, OnOk, IfErr};
ghost use Rattle.std.specs.List.{All};
ghost use Rattle.ring_box.specs.Forces.{IsWithin};
ghost use Rattle.integrator.specs.Frames.{frames, moved_frame, next_frame, pair_force, step, steps_in};
ghost use Rattle.integrator.specs.declared.direction.Direction.TheVariants.{Forward};
ghost use Rattle.integrator.specs.Systems.{dynamics_of};
ghost use Rattle.run_laws.specs.Stops.{faults_of, first_without_force, pair_fault, StopsAt};

use crate::tested_run::forces::forces;
use crate::tested_run::slopes::TestedSlope;
use crate::tested_run::stops::{PairFault, Stop};
use integrator::System;
use ring_box::{Place3, Vector};
use std::alloc::Allocator;
use std::mem;

/// Replaces the frame `before` by the frame after `before` and `middle`; `forces` are the forces on the atoms at
/// `middle`.
fn advance<K: TestedSlope + Drop, A: Allocator>(
    system: &System<K, A>,
    before: &mut [Place3],
    middle: &[Place3],
    forces: &[Vector<i128>],
)
    requires atoms { length middle.now ≡ length system.now.masses.items }
    requires before { length before.old ≡ length middle.now }
    requires forces { length forces.now ≡ length middle.now }
    requires within { All (IsWithin (2 ^ 80)) forces.now }
    ensures { before.new ≡ moved_frame (dynamics_of K.slope system.now) before.old middle.now forces.now }
{
    for atom in 0..middle.len() {
        let places = system.next_places(
            system.masses[atom],
            before[atom],
            middle[atom],
            forces[atom],
        );
        before[atom] = places;
    }
}

/// Replaces the frame `before` by the frame after `before` and `middle`. If a pair has no force, `before` is unchanged.
fn follow<K: TestedSlope + Drop, A: Allocator>(
    system: &System<K, A>,
    before: &mut [Place3],
    middle: &[Place3],
    sums: &mut [Vector<i128>],
) -> Result<(), PairFault>
    requires before { length before.old ≡ length middle.now }
    requires middle { length middle.now ≡ length system.now.masses.items }
    requires sums { length sums.old ≡ length middle.now }
    requires known { All (λ t. t < K.types system.now.kernel) system.now.types.items }
    ensures value { OnOk result (next_frame (dynamics_of K.slope system.now) before.old middle.now ≡ Some before.new) }
    ensures fault { IfErr result (λ e. first_without_force (pair_force (dynamics_of K.slope system.now) middle.now)
        (length middle.now) ≡ Some (e.low, e.high)) }
    ensures why { IfErr result (λ e. pair_fault (dynamics_of K.slope system.now)
        (faults_of K.fault system.now) middle.now (e.low, e.high) ≡ Some e.fault) }
{
    forces(system, middle, sums)?;
    advance(system, before, middle, sums);
    Ok(())
}

/// One step: the frames `before` and `middle` become `middle` and the frame after it. If a pair has no force, both are
/// unchanged.
fn make_step<K: TestedSlope + Drop, A: Allocator>(
    system: &System<K, A>,
    before: &mut Vec<Place3, A>,
    middle: &mut Vec<Place3, A>,
    sums: &mut [Vector<i128>],
) -> Result<(), PairFault>
    requires before { length before.old.items ≡ length system.now.masses.items }
    requires middle { length middle.old.items ≡ length system.now.masses.items }
    requires sums { length sums.old ≡ length system.now.masses.items }
    requires known { All (λ t. t < K.types system.now.kernel) system.now.types.items }
    ensures value { OnOk result (step (dynamics_of K.slope system.now) (frames before.old.items middle.old.items)
        ≡ Some (frames before.new.items middle.new.items)) }
    ensures before { length before.new.items ≡ length before.old.items }
    ensures middle { length middle.new.items ≡ length middle.old.items }
    ensures fault { IfErr result (λ e. first_without_force
        (pair_force (dynamics_of K.slope system.now) middle.old.items) (length middle.old.items) ≡ Some (e.low, e.high)) }
    ensures why { IfErr result (λ e. pair_fault (dynamics_of K.slope system.now)
        (faults_of K.fault system.now) middle.old.items (e.low, e.high) ≡ Some e.fault) }
{
    follow(system, before, middle, sums)?;
    mem::swap(before, middle);
    Ok(())
}

/// Makes n steps from the frames `before` and `middle`. The error has the number of whole steps and the first pair
/// without a force.
pub(crate) fn make_steps<K: TestedSlope + Drop, A: Allocator>(
    system: &System<K, A>,
    steps: u64,
    before: &mut Vec<Place3, A>,
    middle: &mut Vec<Place3, A>,
    sums: &mut [Vector<i128>],
) -> Result<(), Stop>
    requires before { length before.old.items ≡ length system.now.masses.items }
    requires middle { length middle.old.items ≡ length system.now.masses.items }
    requires sums { length sums.old ≡ length system.now.masses.items }
    requires known { All (λ t. t < K.types system.now.kernel) system.now.types.items }
    ensures value { OnOk result (steps_in Forward (dynamics_of K.slope system.now) steps
        (frames before.old.items middle.old.items) ≡ Some (frames before.new.items middle.new.items)) }
    ensures before { length before.new.items ≡ length before.old.items }
    ensures middle { length middle.new.items ≡ length middle.old.items }
    ensures fault { IfErr result (λ s. StopsAt Forward (dynamics_of K.slope system.now)
        (faults_of K.fault system.now) steps (frames before.old.items middle.old.items) s.done (s.pair.low, s.pair.high) s.pair.fault) }
{
    for done in 0..steps {
        match make_step(system, before, middle, sums) {
            Ok(()) => {}
            Err(pair) => return Err(Stop { done, pair }),
        }
    }
    Ok(())
}
