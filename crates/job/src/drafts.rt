//! Drafts of a job: the values of the lines read so far.

ghost use Rattle.std.specs.Prelude.{◌≡◌, ◌≤◌, ◌≤ℤ◌, ◌*◌, ◌^◌, pos, length, IfSome, IsTrue};
ghost use Rattle.std.specs.List.{All};
ghost use Rattle.std.proofs.Props.{props};
ghost use Rattle.fixed.specs.Fractions.{bits_of};
ghost use Rattle.line_text.specs.Identifiers.{is_identifier};

use crate::jobs::{AtomType, Global};
use crate::time_steps::TimeStep;
use fixed::{Constant, Frac, Fx};
use std::alloc::Allocator;

/// The numbers on the line of a type: its mass and its values.
#[derive(Drop)]
pub struct TypeNumbers<A: Allocator> {
    /// The mass in 10^-5 u, 1 to 100,000,000.
    pub mass: u32,
    /// The values, one per parameter in a complete job.
    pub values: Vec<Constant, A>,
    pub ghost some_mass: { 1 ≤ mass },
    pub ghost most_mass: { mass ≤ 100000000 },
}

/// An atom type, with the number of its line.
#[derive(Drop)]
pub struct TypeLine<A: Allocator> {
    /// The number of the line, counted from 1.
    pub line: u64,
    /// The type on the line.
    pub value: AtomType<A>,
}

/// A draft of a job: the values of the lines read so far, each as in the job; `None` if no line has had the key.
#[derive(Drop)]
pub struct Draft<A: Allocator> {
    /// The fraction bits with which numerals are read. A line still to be read may be the `bits` line.
    pub frac: Frac,
    /// The energy's text, empty if no line has had it.
    pub energy: Vec<u8, A>,
    /// The core in nm, at least 0.
    pub core: Option<Fx>,
    /// The cutoff in nm, at most 80.
    pub cutoff: Option<Fx>,
    /// The time step.
    pub time_step: Option<TimeStep>,
    /// The number of slices, 1 to 65,536.
    pub slices: Option<u32>,
    /// The names of the parameters, at most 8.
    pub parameters: Vec<Vec<u8, A>, A>,
    /// The globals, at most 16.
    pub globals: Vec<Global<A>, A>,
    /// The types, at most 64.
    pub types: Vec<TypeLine<A>, A>,
    /// The fraction bits of the `bits` line.
    pub bits: Option<Frac>,
    ghost least_core: { IfSome core (λ v. pos 0 ≤ℤ v) } by { Prim.hlevel props },
    ghost most_cutoff: { IfSome cutoff (λ v. v ≤ℤ pos (80 * 2 ^ bits_of frac)) } by { Prim.hlevel props },
    ghost some_slices: { IfSome slices (λ n. 1 ≤ n) } by { Prim.hlevel props },
    ghost most_slices: { IfSome slices (λ n. n ≤ 65536) } by { Prim.hlevel props },
    ghost named: { All (λ p. IsTrue (is_identifier p.items)) parameters.items },
    ghost few_parameters: { length parameters.items ≤ 8 },
    ghost few_globals: { length globals.items ≤ 16 },
    ghost few_types: { length types.items ≤ 64 },
}

impl<A: Allocator + Copy> Draft<A> {
    ghost use Rattle.job.specs.Drafts.{nothing};
    ghost use Rattle.job.specs.Views.{said_of};

    /// The empty draft.
    pub fn new(alloc: A, frac: Frac) -> Draft<A>
        ensures { said_of result ≡ nothing frac }
    {
        Draft {
            frac,
            energy: Vec::new(alloc),
            core: None,
            cutoff: None,
            time_step: None,
            slices: None,
            parameters: Vec::new(alloc),
            globals: Vec::new(alloc),
            types: Vec::new(alloc),
            bits: None,
        }
    }
}
