//! The force on each atom of a frame, summed exactly over all pairs.

ghost use Rattle.std.specs.Prelude.{◌≡◌, ℕ, ◌+◌, ◌-◌, ◌*◌, ◌<◌, ◌≤◌, ◌^◌, neg_ℤ, unsigned_abs, length, replicate, Some, None, Ok, Err, IfOk, OnOk, IfErr};
ghost use Rattle.std.specs.List.{All};
ghost use Rattle.std.specs.Option.{option_and_then};
ghost use Rattle.ring_box.specs.Forces.{acting_distance_of, force_along_of, no_force, IsWithin};
ghost use Rattle.integrator.specs.Forces.{pairs_of, pairs_with};
ghost use Rattle.integrator.specs.Frames.{force_at, frame_forces, pair_force};
ghost use Rattle.integrator.specs.Systems.{dynamics_of};
ghost use Rattle.run_laws.specs.Adding.{with_pairs};
ghost use Rattle.run_laws.specs.Stops.{faults_of, first_without_force, pair_fault};

use crate::tested_run::slope_faults::SlopeFault;
use crate::tested_run::slopes::TestedSlope;
use crate::tested_run::stops::PairFault;
use crate::tested_run::sums::{NO_FORCE, add_pair, clear};
use fixed::Fx;
use integrator::System;
use ring_box::{Place3, RingBox, Vector};
use std::alloc::Allocator;

fn opposite(slope: Fx) -> i128
    ensures value { result ≡ neg_ℤ slope }
    ensures bound { unsigned_abs result ≤ 2 ^ 63 }
{
    -i128::from(slope.raw())
}

fn force_along(ring: &RingBox, minus_slope: i128, p: Place3, q: Place3) -> Vector<i128>
    requires { unsigned_abs minus_slope ≤ 2 ^ 63 }
    ensures value { result ≡ force_along_of ring.now minus_slope p q }
    ensures within { IsWithin (2 ^ 63) result }
{
    ring.force_along(minus_slope, p, q)
}

fn force_at<K: TestedSlope>(
    ring: &RingBox,
    kernel: &K,
    a: u32,
    b: u32,
    r: Fx,
    p: Place3,
    q: Place3,
) -> Result<Vector<i128>, SlopeFault>
    requires lower { a < K.types kernel.now }
    requires higher { b < K.types kernel.now }
    ensures value { IfOk result (λ v. force_at ring.now (K.slope kernel.now a b) (Some r) p q ≡ Some v) }
    ensures within { IfOk result (IsWithin (2 ^ 63)) }
    ensures none { IfErr result (λ _. force_at ring.now (K.slope kernel.now a b) (Some r) p q ≡ None) }
    ensures fault { IfErr result (λ f. K.fault kernel.now a b r ≡ Some f) }
{
    if ring.square(p, q) == 0 {
        return Ok(NO_FORCE);
    }
    let slope = kernel.slope(a, b, r)?;
    Ok(force_along(ring, opposite(slope), p, q))
}

/// The force on the first of two atoms of the types `a` and `b` with the coordinates `p` and `q`, or why it has none.
fn force_between<K: TestedSlope + Drop, A: Allocator>(
    system: &System<K, A>,
    a: u32,
    b: u32,
    p: Place3,
    q: Place3,
) -> Result<Vector<i128>, SlopeFault>
    requires lower { a < K.types system.now.kernel }
    requires higher { b < K.types system.now.kernel }
    ensures value { IfOk result (λ v. force_at system.now.ring (K.slope system.now.kernel a b)
        (acting_distance_of system.now.frac system.now.ring system.now.core system.now.cutoff p q) p q ≡ Some v) }
    ensures within { IfOk result (IsWithin (2 ^ 63)) }
    ensures none { IfErr result (λ _. force_at system.now.ring (K.slope system.now.kernel a b)
        (acting_distance_of system.now.frac system.now.ring system.now.core system.now.cutoff p q) p q ≡ None) }
    ensures fault { IfErr result (λ f. option_and_then (K.fault system.now.kernel a b)
        (acting_distance_of system.now.frac system.now.ring system.now.core system.now.cutoff p q) ≡ Some f) }
{
    match system
        .ring
        .acting_distance(system.frac, system.core, system.cutoff, p, q)
    {
        None => Ok(NO_FORCE),
        Some(r) => force_at(&system.ring, &system.kernel, a, b, r, p, q),
    }
}

/// The force on the lower atom of a pair, or why it has none.
fn pair_force<K: TestedSlope + Drop, A: Allocator>(
    system: &System<K, A>,
    frame: &[Place3],
    low: usize,
    high: usize,
) -> Result<Vector<i128>, SlopeFault>
    requires low { low < length frame.now }
    requires high { high < length frame.now }
    requires atoms { length frame.now ≡ length system.now.types.items }
    requires known { All (λ t. t < K.types system.now.kernel) system.now.types.items }
    ensures value { IfOk result (λ v. pair_force (dynamics_of K.slope system.now) frame.now (low, high) ≡ Some v) }
    ensures within { IfOk result (IsWithin (2 ^ 63)) }
    ensures none { IfErr result (λ _. pair_force (dynamics_of K.slope system.now) frame.now (low, high) ≡ None) }
    ensures fault { IfErr result (λ f. pair_fault (dynamics_of K.slope system.now)
        (faults_of K.fault system.now) frame.now (low, high) ≡ Some f) }
{
    force_between(
        system,
        system.types[low],
        system.types[high],
        frame[low],
        frame[high],
    )
}

/// Adds the forces of the pairs of the atom `low` with the atoms above it to the sums, in the order of the higher atom.
fn add_row<K: TestedSlope + Drop, A: Allocator>(
    system: &System<K, A>,
    frame: &[Place3],
    low: usize,
    sums: &mut [Vector<i128>],
) -> Result<(), PairFault>
    requires low { low < length frame.now }
    requires atoms { length frame.now ≡ length system.now.types.items }
    requires known { All (λ t. t < K.types system.now.kernel) system.now.types.items }
    requires sums { length sums.old ≡ length frame.now }
    requires room { All (IsWithin (2 ^ 98)) sums.old }
    ensures value { OnOk result (with_pairs (pair_force (dynamics_of K.slope system.now) frame.now) sums.old
        (pairs_with low (low + 1) (length frame.now - (low + 1))) ≡ Ok sums.new) }
    ensures within { (b : ℕ) → All (IsWithin b) sums.old → All (IsWithin (b + 2 ^ 64 * length frame.now)) sums.new }
    ensures fault { IfErr result (λ e. with_pairs (pair_force (dynamics_of K.slope system.now) frame.now) sums.old
        (pairs_with low (low + 1) (length frame.now - (low + 1))) ≡ Err (e.low, e.high)) }
    ensures why { IfErr result (λ e. pair_fault (dynamics_of K.slope system.now)
        (faults_of K.fault system.now) frame.now (e.low, e.high) ≡ Some e.fault) }
{
    for high in low + 1..frame.len() {
        match pair_force(system, frame, low, high) {
            Ok(force) => add_pair(sums, low, high, force),
            Err(fault) => return Err(PairFault { low, high, fault }),
        }
    }
    Ok(())
}

/// Adds the forces of all pairs to the sums, ordered by the lower atom and then by the higher.
fn add_rows<K: TestedSlope + Drop, A: Allocator>(
    system: &System<K, A>,
    frame: &[Place3],
    sums: &mut [Vector<i128>],
) -> Result<(), PairFault>
    requires atoms { length frame.now ≡ length system.now.types.items }
    requires known { All (λ t. t < K.types system.now.kernel) system.now.types.items }
    requires zero { sums.old ≡ replicate (length frame.now) no_force }
    ensures value { OnOk result (with_pairs (pair_force (dynamics_of K.slope system.now) frame.now) sums.old
        (pairs_of (length frame.now)) ≡ Ok sums.new) }
    ensures fault { IfErr result (λ e. with_pairs (pair_force (dynamics_of K.slope system.now) frame.now) sums.old
        (pairs_of (length frame.now)) ≡ Err (e.low, e.high)) }
    ensures why { IfErr result (λ e. pair_fault (dynamics_of K.slope system.now)
        (faults_of K.fault system.now) frame.now (e.low, e.high) ≡ Some e.fault) }
{
    for low in 0..frame.len() {
        add_row(system, frame, low, sums)?;
    }
    Ok(())
}

/// Writes the force on each atom of the frame to `sums`. The error is the first pair without a force, by the lower atom
/// and then by the higher.
pub(crate) fn forces<K: TestedSlope + Drop, A: Allocator>(
    system: &System<K, A>,
    frame: &[Place3],
    sums: &mut [Vector<i128>],
) -> Result<(), PairFault>
    requires atoms { length frame.now ≡ length system.now.types.items }
    requires known { All (λ t. t < K.types system.now.kernel) system.now.types.items }
    requires sums { length sums.old ≡ length frame.now }
    ensures value { OnOk result (frame_forces (dynamics_of K.slope system.now) frame.now ≡ Some sums.new) }
    ensures within { OnOk result (All (IsWithin (2 ^ 80)) sums.new) }
    ensures fault { IfErr result (λ e. first_without_force (pair_force (dynamics_of K.slope system.now) frame.now)
        (length frame.now) ≡ Some (e.low, e.high)) }
    ensures why { IfErr result (λ e. pair_fault (dynamics_of K.slope system.now)
        (faults_of K.fault system.now) frame.now (e.low, e.high) ≡ Some e.fault) }
{
    clear(sums);
    add_rows(system, frame, sums)
}
