//! Jobs: energy, core, cutoff, time step, slices, parameters, globals and types.

ghost use Rattle.std.specs.Prelude.{◌≡◌, ◌≤◌, ◌≤ℤ◌, ◌<ℤ◌, ◌*◌, ◌^◌, pos, length, IsTrue};
ghost use Rattle.std.specs.List.{All};
ghost use Rattle.fixed.specs.Fractions.{bits_of};
ghost use Rattle.line_text.specs.Names.{name_text};
ghost use Rattle.line_text.specs.Identifiers.{is_identifier};
ghost use Rattle.job.specs.Forms.{is_type_name};

use crate::time_steps::TimeStep;
use fixed::{Constant, Frac, Fx};
use line_text::Name;
use std::alloc::Allocator;

/// A named value that the energy may use.
#[derive(Drop)]
pub struct Global<A: Allocator> {
    /// The name: a letter or `_`, then letters, digits and `_`.
    pub name: Vec<u8, A>,
    /// The value with the job's fraction bits, and its error of reading.
    pub value: Constant,
    pub ghost named: { IsTrue (is_identifier name.items) },
}

/// An atom type. Atoms with its name have this type.
#[derive(Drop)]
pub struct AtomType<A: Allocator> {
    /// The name: one to five bytes from 33 to 126.
    pub name: Name,
    /// The mass in 10^-5 u, 1 to 100,000,000.
    pub mass: u32,
    /// One value per parameter of the job, in the parameters' order, each with its error of reading.
    pub values: Vec<Constant, A>,
    pub ghost named: { IsTrue (is_type_name (name_text name)) },
    pub ghost some_mass: { 1 ≤ mass },
    pub ghost most_mass: { mass ≤ 100000000 },
}

/// A job: the energy of a pair of atoms, and the other input of a run.
#[derive(Drop)]
pub struct Job<A: Allocator> {
    /// The number of fraction bits of the job's numbers.
    pub frac: Frac,
    /// The text of the energy in kJ/mol, a function of the distance `r` in nm. Reading a job doesn't check this text,
    /// so faults of the job and the state come before faults of the energy.
    pub energy: Vec<u8, A>,
    /// The core in nm, at least 0: closer pairs are treated as if they were at this distance.
    pub core: Fx,
    /// The cutoff in nm, above `core` and at most 80: only pairs closer than the cutoff interact.
    pub cutoff: Fx,
    /// The time step in fs.
    pub time_step: TimeStep,
    /// The number of slices of distances in which verification of the kernel starts, 1 to 65,536.
    pub slices: u32,
    /// The names of the types' parameters, at most 8.
    pub parameters: Vec<Vec<u8, A>, A>,
    /// The globals, at most 16.
    pub globals: Vec<Global<A>, A>,
    /// The types, at most 64, all with different names.
    pub types: Vec<AtomType<A>, A>,
    pub ghost least_core: { pos 0 ≤ℤ core },
    pub ghost below_cutoff: { core <ℤ cutoff },
    pub ghost most_cutoff: { cutoff ≤ℤ pos (80 * 2 ^ bits_of frac) },
    pub ghost some_slices: { 1 ≤ slices },
    pub ghost most_slices: { slices ≤ 65536 },
    pub ghost named: { All (λ p. IsTrue (is_identifier p.items)) parameters.items },
    pub ghost few_parameters: { length parameters.items ≤ 8 },
    pub ghost few_globals: { length globals.items ≤ 16 },
    pub ghost few_types: { length types.items ≤ 64 },
    pub ghost whole: { All (λ t. length t.values.items ≡ length parameters.items) types.items },
}
