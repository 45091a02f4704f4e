//! An energy, its derivative and the derivative's code.

use energy_program::Program;
use kernel_code::Code;
use std::alloc::Allocator;

/// An energy, the program of its derivative, and the code of that program.
#[derive(Drop)]
pub struct SlopeParts<A: Allocator> {
    /// The energy as its text defines it.
    pub energy: Program<A>,
    /// The program whose value is the energy's derivative.
    pub slope: Program<A>,
    /// The code of the derivative's program.
    pub code: Code<A>,
}

/// The derivative of an energy.
#[derive(Drop)]
pub(crate) struct Slope<A: Allocator> {
    /// The program whose value is the derivative.
    pub(crate) program: Program<A>,
    /// The code of the derivative's program.
    pub(crate) code: Code<A>,
}
