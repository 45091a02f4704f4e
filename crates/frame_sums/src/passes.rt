//! Sums over the pairs of a frame: one pass for each call.
//!
//! The frame is prepared before the summation: that writes and may allocate, while running workers only read shared
//! data. So a failed allocation starts no worker.

ghost use Rattle.std.specs.Prelude.{◌≡◌, ◌<◌, ◌^◌, length, unsigned_abs, IfOk, OnOk};
ghost use Rattle.energy_program.specs.Programs.{program_tree};
ghost use Rattle.pair_lists.specs.PairLists.{IsPrepared};
ghost use Rattle.potential.specs.EnergyKernels.{GivesEnergy, HasEnergies};
ghost use Rattle.frame_sums.specs.FrameSums.{ArePairTotals};
ghost use Rattle.frame_sums.specs.Rounds.{AreForces};
ghost use Rattle.frame_sums.specs.SafeEnergies.{IsEnergyOf, safe_value};
ghost use Rattle.frame_sums.specs.SafeSystems.{safe_dynamics};

use crate::energies::EnergySum;
use crate::force_sums::ForceSum;
use crate::frame_pairs::FramePairs;
use crate::pools::{Crew, Pool};
use crate::rows::Scratch;
use crate::safe_systems::SafeSystem;
use crate::sums::{BoxFrame, no_sums};
use crate::sums_over_pairs::Both;
use cell_tiles::NearPairs;
use observables::PairTotals;
use potential::LaneKernel;
use ring_box::Place3;
use rounds::{Forces, Gate, Memory};
use std::alloc::{AllocError, Allocator};
use std::thread::Threads;

impl<A: Allocator + Copy> SafeSystem<A> {
    /// Makes the pairs of a frame available to this many workers. `AllocError`: memory ran out.
    fn prepare(
        &mut self,
        near: &mut NearPairs,
        frame: &[Place3],
        workers: usize,
    ) -> Result<(), AllocError>
        requires { length frame.now ≡ length self.old.system.masses.items }
        ensures prepared { OnOk result (IsPrepared self.new.lists frame.now) }
        ensures same { self.new.system ≡ self.old.system }
    {
        self.lists.prepare(near, frame, workers)
    }

    /// The sums of the forces on the atoms of a frame, computed on the caller's thread. `Memory`: memory ran out.
    pub fn sums_alone<B: Allocator>(
        &mut self,
        alloc: A,
        scratch: &mut Scratch<B>,
        frame: &[Place3],
    ) -> Result<Forces<A>, Memory>
        requires { length frame.now ≡ length self.old.system.masses.items }
        ensures forces { IfOk result (AreForces self.old.system frame.now) }
        ensures same { self.new.system ≡ self.old.system }
    {
        self.prepare(&mut scratch.near, frame, 1)?;
        let pairs = FramePairs {
            system: self,
            frame,
        };
        let mut sums = Forces::none(alloc, frame.len() as u32)?;
        pairs.add_all(&ForceSum, scratch, &mut sums);
        Ok(sums)
    }

    /// The energy of a frame in 2^-bits kJ/mol, computed by its accepted code. `AllocError`: memory ran out.
    pub fn energy<B: Allocator>(
        &mut self,
        kernel: &LaneKernel<A>,
        scratch: &mut Scratch<B>,
        frame: &[Place3],
    ) -> Result<i128, AllocError>
        requires table { kernel.now.table ≡ self.old.system.kernel.verified.table }
        requires core { kernel.now.core ≡ self.old.system.core }
        requires cutoff { kernel.now.cutoff ≡ self.old.system.cutoff }
        requires gives { GivesEnergy (program_tree self.old.system.kernel.energy) kernel.now }
        requires has { HasEnergies (program_tree self.old.system.kernel.energy) kernel.now }
        requires atoms { length frame.now ≡ length self.old.system.types.items }
        ensures energy { IfOk result (IsEnergyOf self.old.system frame.now) }
        ensures small { IfOk result (λ energy. unsigned_abs energy < 2 ^ 95) }
        ensures same { self.new.system ≡ self.old.system }
    {
        self.prepare(&mut scratch.near, frame, 1)?;
        let pairs = FramePairs {
            system: self,
            frame,
        };
        let mut energy = 0;
        pairs.add_all(&EnergySum { kernel }, scratch, &mut energy);
        Ok(energy)
    }

    /// Energy, sums and forces over the pairs of a frame, in one pass over its pairs on the caller's thread.
    /// `AllocError`: memory ran out.
    pub fn observe<B: Allocator>(
        &mut self,
        alloc: A,
        kernel: &LaneKernel<A>,
        scratch: &mut Scratch<B>,
        frame: &[Place3],
    ) -> Result<(PairTotals, Forces<A>), AllocError>
        requires table { kernel.now.table ≡ self.old.system.kernel.verified.table }
        requires core { kernel.now.core ≡ self.old.system.core }
        requires cutoff { kernel.now.cutoff ≡ self.old.system.cutoff }
        requires gives { GivesEnergy (program_tree self.old.system.kernel.energy) kernel.now }
        requires has { HasEnergies (program_tree self.old.system.kernel.energy) kernel.now }
        requires atoms { length frame.now ≡ length self.old.system.types.items }
        ensures totals { IfOk result
            (λ p. ArePairTotals (safe_dynamics self.old.system) (safe_value self.old.system) frame.now p.0) }
        ensures forces { IfOk result (λ p. AreForces self.old.system frame.now p.1) }
        ensures same { self.new.system ≡ self.old.system }
    {
        self.prepare(&mut scratch.near, frame, 1)?;
        let pairs = FramePairs {
            system: self,
            frame,
        };
        let Ok(forces) = Forces::none(alloc, frame.len() as u32) else {
            return Err(AllocError);
        };
        let energies = EnergySum { kernel };
        let places = BoxFrame {
            frac: pairs.system.system.frac,
            ring: &pairs.system.system.ring,
            core: pairs.system.system.core,
            core_limit: pairs.system.core_limit(),
            places: frame,
        };
        let forces_and_virial = Both {
            first: &ForceSum,
            second: &places,
        };
        let all = Both {
            first: &energies,
            second: &forces_and_virial,
        };
        let mut sums = (0, (forces, no_sums()));
        pairs.add_all(&all, scratch, &mut sums);
        let (energy, (forces, sums)) = sums;
        let totals = PairTotals { energy, sums };
        Ok((totals, forces))
    }
}

impl<A: Allocator + Copy + Sync> SafeSystem<A> {
    /// The sums of the forces on the atoms of a frame, computed by a pool's workers: at most all workers of the team,
    /// and at most one per tile with pairs. `Memory`: memory ran out.
    pub fn sums_pooled<R: Threads + Sync, G: Gate + Sync, B: Allocator + Send>(
        &mut self,
        alloc: A,
        pool: &Pool<R, G>,
        crew: &mut Crew<B>,
        frame: &[Place3],
    ) -> Result<Forces<A>, Memory>
        requires { length frame.now ≡ length self.old.system.masses.items }
        ensures forces { IfOk result (AreForces self.old.system frame.now) }
        ensures same { self.new.system ≡ self.old.system }
    {
        let workers = crew.workers;
        self.prepare(&mut crew.first().near, frame, workers)?;
        let pairs = FramePairs {
            system: self,
            frame,
        };
        pool.sums(alloc, &pairs, crew.scratches.as_mut_slice(), crew.workers)
    }
}
