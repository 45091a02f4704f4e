//! The derivative of a job's energy between two types of atoms, computed by its code on the tested machine.

ghost use Rattle.std.specs.Prelude.{ℕ, ℤ, ◌<◌, length};
ghost use Rattle.fixed.specs.Fractions.{bits_of};
ghost use Rattle.energy_program.specs.Programs.{program_tree};
ghost use Rattle.kernel_code.specs.Tables.{inputs_of};
ghost use Rattle.potential.specs.CodeSlopes.{GivesSlope};

use kernel_code::TypeTable;
use potential::SlopeParts;
use std::alloc::Allocator;

/// An energy, the code of its derivative, and the values of its variables.
#[derive(Drop)]
pub(crate) struct CodeKernel<A: Allocator> {
    /// The energy, and the code of its derivative.
    pub parts: SlopeParts<A>,
    /// The values of the types' parameters, and of the globals.
    pub table: TypeTable<A>,
    pub ghost gives: { (a b : ℕ) (r : ℤ) → a < length table.rows → b < length table.rows
        → GivesSlope (bits_of table.frac) (program_tree parts.energy) parts.code (inputs_of table a b r) },
}
