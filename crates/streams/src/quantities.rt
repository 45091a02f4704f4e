//! Quantities of states: their energies, the forces on their atoms, and the velocities of these.

ghost use Rattle.std.specs.Prelude.{◌≡◌, IfErr, IfOk, string_bytes};
ghost use Rattle.engine.specs.declared.faults.InputFault.TheVariants as input;
ghost use Rattle.fallible.specs.Failures.{IfRefused, refused_as};
ghost use Rattle.runs.specs.Readiness.{IsReady};
ghost use Rattle.streams.specs.Texts.{HasEnergies, IsQuantity, IsQuantityText, LacksQuantity, LacksQuantityText, ShowsQuantity, energy_line};
ghost use Rattle.streams.specs.declared.quantities.Quantity.TheVariants as quantity;

use crate::texts::step_line;
use engine::{Engine, InputFault, open};
use fallible::{Failure, Out, write_both};
use potential::EnergyFault;
use runs::{KeptObserver, Show, TextFault};
use state::{force_lines, velocity_lines};
use std::alloc::{AllocError, Allocator};

/// A quantity of a state.
#[derive(Clone, Copy)]
pub enum Quantity {
    /// Its energy.
    Energy,
    /// The force on each of its atoms.
    Forces,
    /// The velocity of each of its atoms in the last time step.
    Velocities,
}

/// The text of a quantity of a state under a job, from the bytes of both: the line of its energy, or a line for each of
/// its atoms.
///
/// `Refused`: the errors of `open` come first, then `Energy` if the energy is requested and the code of the energy itself
/// would be too large or isn't accepted. `Memory`: memory ran out.
pub fn quantity_text<A: Allocator + Copy>(
    alloc: A,
    quantity: Quantity,
    job: &[u8],
    state: &[u8],
) -> Result<Vec<u8, A>, Failure<InputFault<A>>>
    ensures is { IfOk result (λ text. IsQuantityText quantity job.now state.now (λ t. text.items ≡ t)) }
    ensures refused { IfErr result (λ failure. IfRefused failure (LacksQuantityText quantity job.now state.now)) }
{
    let mut engine = open(alloc, job, state)?;
    let text = text_of(alloc, quantity, &mut engine);
    drop(engine);
    match text {
        Ok(text) => Ok(text),
        Err(failure) => Err(energy_failure(failure)),
    }
}

/// The failure if the energy itself has no accepted code.
fn energy_failure<A: Allocator>(failure: Failure<EnergyFault<A>>) -> Failure<InputFault<A>>
    ensures { result ≡ refused_as input.Energy failure }
{
    match failure {
        Failure::Refused(fault) => Failure::Refused(InputFault::Energy(fault)),
        Failure::Memory => Failure::Memory,
    }
}

/// The text of a quantity of an engine's state.
///
/// `Refused`: the code of the energy itself would be too large, or the verifier rejects it. `Memory`: memory ran out.
fn text_of<A: Allocator + Copy>(
    alloc: A,
    quantity: Quantity,
    engine: &mut Engine<A>,
) -> Result<Vec<u8, A>, Failure<EnergyFault<A>>>
    ensures is { IfOk result (λ text. IsQuantity quantity engine.old text.items) }
    ensures refused { IfErr result (λ failure. IfRefused failure (LacksQuantity quantity engine.old)) }
{
    match quantity {
        Quantity::Energy => {
            let energy = engine.energy()?;
            Ok(energy_line(alloc, energy)?.into_bytes())
        }
        Quantity::Forces => Ok(force_text(alloc, engine)?),
        Quantity::Velocities => Ok(velocity_text(alloc, engine)?),
    }
}

/// The line of an energy in units of 2^-bits kJ/mol. `AllocError`: memory ran out.
fn energy_line<A: Allocator + Copy>(alloc: A, energy: i128) -> Result<String<A>, AllocError>
    ensures { IfOk result (λ s. string_bytes s ≡ energy_line energy) }
{
    format!(in alloc; "energy {energy}\n")
}

/// A line for each atom of an engine's state, with the force on the atom. `AllocError`: memory ran out.
fn force_text<A: Allocator + Copy>(
    alloc: A,
    engine: &mut Engine<A>,
) -> Result<Vec<u8, A>, AllocError>
    ensures lines { IfOk result (λ lines. IsQuantity quantity.Forces engine.old lines.items) }
    ensures engine { engine.new ≡ engine.old }
{
    let forces = engine.forces()?;
    force_lines(alloc, &engine.state().atoms, &forces)
}

/// A line for each atom of an engine's state, with its velocity in the last time step. `AllocError`: memory ran out.
fn velocity_text<A: Allocator + Copy>(
    alloc: A,
    engine: &Engine<A>,
) -> Result<Vec<u8, A>, AllocError>
    ensures { IfOk result (λ lines. IsQuantity quantity.Velocities engine.now lines.items) }
{
    let (ring, time_step) = (engine.ring(), engine.time_step());
    velocity_lines(alloc, &engine.state().atoms, ring, time_step)
}

/// The lines of a quantity of an engine's state: a line of its energy, or a line for each atom. `AllocError`: memory ran
/// out.
fn quantity_lines<A: Allocator + Copy>(
    alloc: A,
    quantity: Quantity,
    engine: &mut Engine<A>,
    observer: &KeptObserver<A>,
) -> Result<Vec<u8, A>, AllocError>
    requires { IsReady (HasEnergies quantity) observer.now engine.old }
    ensures lines { IfOk result (λ lines. IsQuantity quantity engine.old lines.items) }
    ensures engine { engine.new ≡ engine.old }
{
    match quantity {
        Quantity::Energy => {
            let totals = engine.observe(observer.observer())?;
            Ok(energy_line(alloc, totals.energy)?.into_bytes())
        }
        Quantity::Forces => force_text(alloc, engine),
        Quantity::Velocities => velocity_text(alloc, engine),
    }
}

/// Shows each state by a line with its step, and the lines of a quantity. The lines take their memory from `alloc`.
#[derive(Clone, Copy)]
pub struct QuantityTexts<A: Allocator + Copy> {
    pub alloc: A,
    pub quantity: Quantity,
}

impl<A: Allocator + Copy> Show<A> for QuantityTexts<A> {
    ghost shows = { λ texts. ShowsQuantity texts.quantity };

    fn observes(&self) -> bool {
        matches!(self.quantity, Quantity::Energy)
    }

    fn show<O: Out>(
        &self,
        engine: &mut Engine<A>,
        observer: &KeptObserver<A>,
        _number: u64,
        out: &mut O,
    ) -> Result<(), TextFault> {
        let lines = quantity_lines(self.alloc, self.quantity, engine, observer)?;
        write_both(out, step_line(engine.state().step).as_slice(), &lines)?;
        Ok(())
    }
}
