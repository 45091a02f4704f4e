//! The atoms that a run moves.

ghost use Rattle.std.specs.Prelude.{◌<◌, ◌≤◌};
ghost use Rattle.std.specs.List.{All};

use std::alloc::Allocator;

/// The types and masses of a state's atoms.
#[derive(Drop)]
pub struct TypedAtoms<A: Allocator> {
    /// The index of each atom's type, from 0.
    pub types: Vec<u32, A>,
    /// Each atom's mass in 10^-5 u, 1 to 100,000,000.
    pub masses: Vec<u32, A>,
    pub ghost some: { All (λ m. 0 < m) masses.items },
    pub ghost most: { All (λ m. m ≤ 100000000) masses.items },
}
