//! The rows of a table, one for each visited state.

ghost use Rattle.std.specs.Prelude.{◌-◌, ◌<◌, ◌^◌};
ghost use Rattle.fallible.specs.Out.{Writes};
ghost use Rattle.runs.specs.Observations.{ShowsTable, headed};

use crate::faults::TextFault;
use crate::kept_observers::KeptObserver;
use crate::observations::{observe, scales};
use crate::showing::Show;
use engine::Engine;
use fallible::{Out, OutFault, write_all, write_both};
use observables::Columns;
use std::alloc::Allocator;

/// Writes a table row, after the head line if it is the first row. Each line is one write.
fn write_row<O: Out>(number: u64, head: &[u8], row: &[u8], out: &mut O) -> Result<(), OutFault>
    requires { (O.output out.old).failed < 2 ^ 64 - 1 }
    ensures { Writes (O.output out.old) (O.output out.new) (headed number head.now row.now) result }
{
    if number == 0 {
        write_both(out, head, row)
    } else {
        write_all(out, row)
    }
}

/// Shows each state by its table row: step, time, energies, temperature, pressure and momentum, the distance of the
/// nearest interacting pair, and the number of pairs nearer than the core. The first row has a head line before it.
#[derive(Clone, Copy)]
pub struct Rows {
    pub columns: Columns,
}

impl<A: Allocator + Copy> Show<A> for Rows {
    ghost shows = { λ rows. ShowsTable rows.columns };

    fn observes(&self) -> bool {
        true
    }

    fn show<O: Out>(
        &self,
        engine: &mut Engine<A>,
        observer: &KeptObserver<A>,
        number: u64,
        out: &mut O,
    ) -> Result<(), TextFault> {
        let observation = observe(engine, observer.observer())?;
        let head = self.columns.head();
        let row = self.columns.row(&observation, &scales(engine));
        write_row(number, head.as_slice(), row.as_slice(), out)?;
        Ok(())
    }
}
