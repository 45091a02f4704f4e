//! The output of `energy`, `forces` and `velocities`: a quantity of a state under a job.

ghost use Rattle.std.specs.Prelude.{◌≡◌, ◌-◌, ◌<◌, ◌^◌, IfErr, IfOk};
ghost use Rattle.command_line.specs.Views.{command_view};
ghost use Rattle.command_line.specs.declared.commands.Command.{Command};
ghost use Rattle.cli.specs.Actions.{action_of};
ghost use Rattle.cli.specs.Performed.{Performs};
ghost use Rattle.cli.specs.Refusals.{RefusesQuantity};
ghost use Rattle.cli.specs.StreamTexts.{shown_quantity};
ghost use Rattle.streams.specs.Texts.{IsQuantityText};

use crate::faults::{CommandFault, write_result};
use crate::files::{Files, read_two};
use crate::state_streams::shown_quantity;
use command_line::{Measured, Quantity};
use fallible::{Out, write_all};
use std::alloc::Allocator;
use streams::quantity_text;

/// Reads the job and then the state, and prints a quantity of the state. A fault of the job, the state, their engine or
/// the code of the energy itself comes before any output.
pub(crate) fn perform_quantity<'a, A: Allocator + Copy, F: Files, O: Out>(
    alloc: A,
    requested: Measured<'a>,
    files: &mut F,
    out: &mut O,
) -> Result<(), CommandFault<'a, A>>
    requires { (O.output out.old).failed < 2 ^ 64 - 1 }
    ensures { Performs (F.held files.old) (F.requested files.old) (F.requested files.new)
        (action_of (command_view (Command.Measure requested.entry))) (O.output out.old) (O.output out.new) result }
{
    let (job, state) = read_two(alloc, requested.job, requested.state, files)?;
    let text = quantity_of(alloc, requested.quantity, &job, &state)?;
    write_result(write_all(out, &text))
}

/// The text of a quantity of a state under a job, from the texts of both.
fn quantity_of<'a, A: Allocator + Copy>(
    alloc: A,
    quantity: Quantity,
    job: &[u8],
    state: &[u8],
) -> Result<Vec<u8, A>, CommandFault<'a, A>>
    ensures is { IfOk result (λ text. IsQuantityText (shown_quantity quantity) job.now state.now (λ t. text.items ≡ t)) }
    ensures refused { IfErr result (RefusesQuantity quantity job.now state.now) }
{
    Ok(quantity_text(alloc, shown_quantity(quantity), job, state)?)
}
