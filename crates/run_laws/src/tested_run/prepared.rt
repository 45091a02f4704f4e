//! The start of a tested run.

ghost use Rattle.std.specs.Prelude.{◌≡◌, ◌<◌, length};
ghost use Rattle.std.specs.List.{All};

use crate::tested_run::kernels::CodeKernel;
use integrator::System;
use state::State;
use std::alloc::Allocator;

/// A state, the system of its atoms, and the counter at the end of the run.
#[derive(Drop)]
pub(crate) struct Prepared<A: Allocator> {
    pub state: State<A>,
    pub system: System<CodeKernel<A>, A>,
    pub counter: i64,
    pub ghost known: { All (λ t. t < length system.kernel.table.rows) system.types.items },
    pub ghost atoms: { length state.atoms.items ≡ length system.masses.items },
}
