//! Systems with accepted slope code: the force that each pair of their atoms adds, and the step that forces make.
//!
//! Sums of forces wrap in 64 bits. Each is still the exact sum, because the verifier's bound on the slope is small
//! enough for the number of atoms. With one atom or none, the slope has no bound to meet.

ghost use Rattle.std.specs.Prelude.{◌≡◌, ◌+◌, ◌*◌, ◌<◌, ◌^◌, length, All};
ghost use Rattle.ring_box.specs.Forces.{IsWithin};
ghost use Rattle.frame_sums.specs.Rounds.{forces_in};
ghost use Rattle.frame_sums.specs.Rows.{reach_of};
ghost use Rattle.frame_sums.specs.SafeSystems.{IsSafeSystem};

use crate::rows::{Scratch, added, opposite};
use fixed::Fx;
use integrator::{System, TypedAtoms};
use kernel_lanes::Query;
use kernel_machine::Stack;
use pair_lists::PairLists;
use potential::SlopeKernel;
use ring_box::{AtomPair, FoundPairs, Place3, Reach, RingBox, Vector};
use rounds::PairAdd;
use std::alloc::{AllocError, Allocator};

/// A system with accepted slope code for its atoms and distances, in a box with room for two cutoffs along each side,
/// and the pairs of its atoms.
///
/// Pair lists keep their memory from frame to frame. Contracts state that the system stays as it is until `take`: the
/// lists change only the memory requested.
#[derive(Drop)]
pub struct SafeSystem<A: Allocator + Copy> {
    pub system: System<SlopeKernel<A>, A>,
    pub(crate) lists: PairLists<A>,
    pub ghost accepted: { IsSafeSystem system },
    ghost ring: { lists.ring ≡ system.ring },
    ghost reach: { lists.reach ≡ reach_of system },
}

/// The force on an atom as 128-bit integers, from sums with three components per atom.
fn force_in(sums: &[i64], atom: usize) -> Vector<i128>
    requires { 3 * atom + 2 < length sums.now }
    ensures value { result ≡ forces_in sums.now atom }
    ensures within { IsWithin (2 ^ 80) result }
{
    Vector {
        x: i128::from(sums[3 * atom]),
        y: i128::from(sums[3 * atom + 1]),
        z: i128::from(sums[3 * atom + 2]),
    }
}

impl<A: Allocator + Copy> SafeSystem<A> {
    ghost use Rattle.std.specs.Prelude.{◌≡◌, ◌*◌, ◌<◌, ◌≤◌, ◌^◌, ◌≤ℤ◌, ◌<ℤ◌, [], length, map, take, slice_index, IfErr, IfOk, IsTrue, OnOk};
    ghost use Rattle.cell_tiles.specs.Near.{IsPairOf};
    ghost use Rattle.integrator.specs.Frames.{moved_frame};
    ghost use Rattle.kernel_lanes.specs.Lanes.{IsServed};
    ghost use Rattle.ring_box.specs.Acting.{limit_of};
    ghost use Rattle.frame_sums.specs.Rounds.{add_of, forces_from};
    ghost use Rattle.frame_sums.specs.Rows.{AreFoundForces, IsFound, query_of, found_in, reach_of};
    ghost use Rattle.frame_sums.specs.SafeSystems.{HasAtoms, IsSafeWith, safe_dynamics};

    /// A system whose code is accepted, with no pairs yet. `AllocError`: memory ran out.
    pub fn new(alloc: A, system: System<SlopeKernel<A>, A>) -> Result<SafeSystem<A>, AllocError>
        requires { IsSafeSystem system }
        ensures { IfOk result (λ safe. safe.system ≡ system) }
    {
        let lists = PairLists::new(alloc, system.ring, system.frac, system.core, system.cutoff)?;
        Ok(SafeSystem { system, lists })
    }

    /// Replaces the atoms and the box. The accepted code, its distances and the time step stay as they are.
    /// `AllocError`: memory ran out, and the system is unchanged.
    pub fn take(&mut self, alloc: A, ring: RingBox, atoms: TypedAtoms<A>) -> Result<(), AllocError>
        requires typed { length atoms.types.items ≡ length atoms.masses.items }
        requires few { length atoms.masses.items ≤ 65536 }
        requires safe { IsSafeWith self.old.system ring atoms.types.items atoms.masses.items }
        ensures taken { OnOk result
            (HasAtoms self.old.system ring atoms.types.items atoms.masses.items self.new.system) }
        ensures same { IfErr result (λ _. self.new.system ≡ self.old.system) }
    {
        let new_ring = ring;
        let lists = PairLists::new(
            alloc,
            new_ring,
            self.system.frac,
            self.system.core,
            self.system.cutoff,
        )?;
        let SafeSystem {
            system,
            lists: old_lists,
            ..
        } = self;
        let System {
            ring: old_ring,
            types,
            masses,
            ..
        } = system;
        *old_ring = ring;
        *types = atoms.types;
        *masses = atoms.masses;
        *old_lists = lists;
        Ok(())
    }

    /// The range of distances at which the system's pairs interact.
    pub(crate) fn reach(&self) -> Reach
        ensures { result ≡ reach_of self.now.system }
    {
        let system = &self.system;
        Reach::new(system.frac, system.core, system.cutoff)
    }

    /// The least square of a separation that isn't below the core, in units of (10^-5 nm / 2^32)^2.
    pub(crate) fn core_limit(&self) -> u128
        ensures { result ≡ limit_of self.now.system.frac self.now.system.core }
    {
        let system = &self.system;
        if system.core.raw() == 0 {
            return 0;
        }
        Reach::new(system.frac, Fx::from_raw(0), system.core).limit()
    }

    /// Finds the first interacting pairs of a list, with their geometry: a batch of 128, or all if there are fewer.
    /// Returns the number of pairs tried: the rest of the list is the next batch's.
    pub(crate) fn find_batch(
        &self,
        reach: &Reach,
        frame: &[Place3],
        near: &[AtomPair],
        found: &mut FoundPairs,
    ) -> usize
        requires reach { reach.now ≡ reach_of self.now.system }
        requires pairs { All (IsPairOf (length frame.now)) (map (λ p. (p.low, p.high)) near.now) }
        ensures tried { result ≤ length near.now }
        ensures value { found.new.pairs
            ≡ found_in self.now.system frame.now (take result (map (λ p. (p.low, p.high)) near.now)) }
        ensures full { result < length near.now → length found.new.pairs ≡ 128 }
        ensures measured { found.new.measured ≡ length found.new.pairs }
        ensures found { All (IsFound self.now.system (length frame.now)) found.new.pairs }
        ensures few { length found.new.pairs ≤ 128 }
    {
        found.clear(reach);
        let tried = found.fill(&self.system.ring, frame, near);
        found.measure();
        tried
    }

    /// The query for a pair of atoms at a distance: their two types and the distance. If all atoms are `alike`, no atom's
    /// type is looked up.
    #[inline(always)]
    fn query(&self, alike: bool, low: u32, high: u32, r: Fx) -> Query
        requires alike { IsTrue alike → length self.now.system.kernel.verified.table.rows ≡ 1 }
        requires ordered { low < high }
        requires inside { high < length self.now.system.types.items }
        requires core { self.now.system.core ≤ℤ r }
        requires cutoff { r <ℤ self.now.system.cutoff }
        ensures value { result
            ≡ record { a = slice_index self.now.system.types.items low; b = slice_index self.now.system.types.items high; r = r } }
        ensures served { IsServed self.now.system.kernel.verified result }
    {
        if alike {
            return Query { a: 0, b: 0, r };
        }
        Query {
            a: self.system.types[low as usize],
            b: self.system.types[high as usize],
            r,
        }
    }

    /// Writes the queries for these pairs, in order, to the first elements of `queries`.
    pub(crate) fn query_all(&self, found: &FoundPairs, queries: &mut [Query; 128])
        requires measured { found.now.measured ≡ length found.now.pairs }
        requires found { All (IsFound self.now.system (length self.now.system.types.items)) found.now.pairs }
        ensures value { take (length found.now.pairs) queries.new ≡ map (query_of self.now.system) found.now.pairs }
        ensures served { All (IsServed self.now.system.kernel.verified) (take (length found.now.pairs) queries.new) }
    {
        let alike = self.system.kernel.verified.types() == 1;
        for l in 0..found.len() {
            let (low, high) = found.atoms(l);
            queries[l] = self.query(alike, low, high, found.distance(l));
        }
    }

    /// The force of a pair of atoms of a frame; `None` if it doesn't interact.
    pub(crate) fn pair_add(&self, frame: &[Place3], low: u32, high: u32) -> Option<PairAdd>
        requires apart { low < high }
        requires high { high < length frame.now }
        requires atoms { length frame.now ≡ length self.now.system.types.items }
        ensures { result ≡ add_of self.now.system frame.now (low, high) }
    {
        let x = frame[low as usize];
        let y = frame[high as usize];
        match self.system.ring.acting(&self.reach(), x, y) {
            Some(acting) => {
                let query = self.query(false, low, high, acting.distance());
                let slope = self.system.kernel.verified.value(&mut Stack::new(), query);
                Some(added(low, high, acting.force(opposite(slope))))
            }
            None => None,
        }
    }

    /// Writes the forces of the pairs found. If there are none, no code runs.
    pub(crate) fn forces<B: Allocator>(&self, scratch: &mut Scratch<B>)
        requires measured { scratch.old.found.measured ≡ length scratch.old.found.pairs }
        requires found { All (IsFound self.now.system (length self.now.system.types.items)) scratch.old.found.pairs }
        requires bound { self.now.system.kernel.verified.bound < 2 ^ 63 }
        ensures forces { AreFoundForces self.now.system scratch.old.found.pairs scratch.new.forces }
        ensures found { scratch.new.found ≡ scratch.old.found }
    {
        let Scratch {
            found,
            queries,
            slopes,
            forces,
            rows,
            ..
        } = scratch;
        if found.len() == 0 {
            return;
        }
        self.query_all(found, queries);
        self.system
            .kernel
            .verified
            .values(&queries[..found.len()], rows, slopes);
        found.forces(slopes, forces);
    }

    /// Replaces the frame `before` by the frame after `before` and `middle`; `sums` are the forces on the atoms at
    /// `middle`.
    pub fn advance(&self, before: &mut [Place3], middle: &[Place3], sums: &[i64])
        requires atoms { length middle.now ≡ length self.now.system.masses.items }
        requires before { length before.old ≡ length middle.now }
        requires sums { length sums.now ≡ 3 * length middle.now }
        ensures { before.new
            ≡ moved_frame (safe_dynamics self.now.system) before.old middle.now (forces_from sums.now (length middle.now)) }
    {
        for atom in 0..middle.len() {
            let place = self.system.next_places(
                self.system.masses[atom],
                before[atom],
                middle[atom],
                force_in(sums, atom),
            );
            before[atom] = place;
        }
    }
}
