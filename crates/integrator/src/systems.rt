//! The system of a run: types, masses, box and pair potential.

ghost use Rattle.std.specs.Prelude.{◌≡◌, ◌*◌, ◌<◌, ◌≤◌, ◌^◌, pos, ◌≤ℤ◌, ◌<ℤ◌, length};
ghost use Rattle.std.specs.List.{All};
ghost use Rattle.fixed.specs.Fractions.{bits_of};

use fixed::{Frac, Fx};
use job::TimeStep;
use ring_box::RingBox;
use std::alloc::Allocator;

/// The system of a run: the types and masses of at most 65,536 atoms, the box, the time step, and the pair potential
/// with core and cutoff.
#[derive(Drop)]
pub struct System<K: Drop, A: Allocator> {
    /// The fraction bits of distances in nm, energies in kJ/mol and forces in kJ/mol/nm: 24, 32 or 40.
    pub frac: Frac,
    /// The periodic box, with 2^32 grid points along each side.
    pub ring: RingBox,
    /// The core in nm, at least 0. The distance of closer pairs counts as the core.
    pub core: Fx,
    /// The cutoff in nm, more than the core and at most 80. Pairs closer than the cutoff interact.
    pub cutoff: Fx,
    /// The time step in fs.
    pub time_step: TimeStep,
    /// The index of each atom's type, from 0.
    pub types: Vec<u32, A>,
    /// Each atom's mass in 10^-5 u, 1 to 100,000,000.
    pub masses: Vec<u32, A>,
    /// The pair potential, which gives its derivative.
    pub kernel: K,
    pub ghost least_core: { pos 0 ≤ℤ core },
    pub ghost below_cutoff: { core <ℤ cutoff },
    pub ghost most_cutoff: { cutoff ≤ℤ pos (80 * 2 ^ bits_of frac) },
    pub ghost some_masses: { All (λ m. 0 < m) masses.items },
    pub ghost most_masses: { All (λ m. m ≤ 100000000) masses.items },
    pub ghost atoms: { length types.items ≡ length masses.items },
    pub ghost most_atoms: { length masses.items ≤ 65536 },
}
