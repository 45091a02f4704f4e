//! Whole states, each shown by its own text.

ghost use Rattle.runs.specs.WholeStates.{ShowsState};

use crate::faults::TextFault;
use crate::kept_observers::KeptObserver;
use crate::showing::Show;
use engine::Engine;
use fallible::Out;
use std::alloc::Allocator;

/// Shows each state by its whole text, which can be run on, or back. Its texts request no memory.
#[derive(Clone, Copy)]
pub struct StateTexts;

impl<A: Allocator + Copy> Show<A> for StateTexts {
    ghost shows = { λ _. ShowsState };

    fn observes(&self) -> bool {
        false
    }

    fn show<O: Out>(
        &self,
        engine: &mut Engine<A>,
        _observer: &KeptObserver<A>,
        _number: u64,
        out: &mut O,
    ) -> Result<(), TextFault> {
        engine.state().write(out)?;
        Ok(())
    }
}
