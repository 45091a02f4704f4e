//! Observers: accepted code of an engine's energy, kept from one observation to the next, so that an observation needs
//! no verdict.

ghost use Rattle.engine.specs.Observers.{ObserversGoOn};

use potential::LaneKernel;
use std::alloc::Allocator;
use std::marker::Model;

/// Accepted code of the energy of an engine's job. `Engine::observer` makes it, and it stays valid after any steps of
/// that engine (`observers_go_on`).
#[derive(Drop)]
pub struct Observer<A: Allocator> {
    pub(crate) kernel: LaneKernel<A>,
}

impl<A: Allocator> Model for Observer<A> {
    ghost use Rattle.verifier.specs.Kernels.{Kernel};

    ghost Value = { Kernel };

    ghost view = { λ o. o.kernel };
}

/// The law that an observer of an engine is one after any steps.
pub fn observers_go_on()
    ensures { ObserversGoOn }
{}
