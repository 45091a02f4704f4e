//! How the states of a run are shown.

ghost use Rattle.std.specs.Prelude.{◌≡◌, OnOk, IfErr};
ghost use Rattle.std.specs.Bool.{OnFalse, OnTrue};
ghost use Rattle.fallible.specs.Out.{CanCountFailure};
ghost use Rattle.runs.specs.Readiness.{IsReady};
ghost use Rattle.runs.specs.Visits.{FailsText, Showing, WroteText};

use crate::faults::TextFault;
use crate::kept_observers::KeptObserver;
use engine::Engine;
use fallible::Out;
use std::alloc::Allocator;

/// A kind of text that shows a state.
pub trait Show<A: Allocator + Copy> {
    /// Which texts show a state.
    ghost shows: { Self → Showing };

    /// Whether the texts have energies, which need accepted code of the energy itself.
    fn observes(&self) -> bool
        ensures energies { OnTrue result (shows self.now).observes }
        ensures none { OnFalse result ((shows self.now).observes → ⊥) };

    /// Writes the text of the engine's state, which has this number.
    ///
    /// `Memory`: memory ran out, and the output is unchanged. `Out`: a write failed, after a beginning of the text.
    fn show<O: Out>(
        &self,
        engine: &mut Engine<A>,
        observer: &KeptObserver<A>,
        number: u64,
        out: &mut O,
    ) -> Result<(), TextFault>
        requires ready { IsReady (shows self.now).observes observer.now engine.old }
        requires room { CanCountFailure (O.output out.old) }
        ensures wrote { OnOk result (WroteText ((shows self.now).texts engine.old.job number engine.old.state)
            (O.output out.old) (O.output out.new)) }
        ensures fails { IfErr result (FailsText ((shows self.now).texts engine.old.job number engine.old.state)
            (shows self.now).allocates (O.output out.old) (O.output out.new)) }
        ensures engine { engine.new ≡ engine.old };
}
