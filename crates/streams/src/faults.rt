//! Faults of streams.

ghost use Rattle.std.specs.Prelude.{◌≡◌};
ghost use Rattle.streams.specs.Faults.{energy_fault, numbered_fault, opening_fault, reading_fault, state_fault, text_fault};
ghost use Rattle.streams.specs.declared.faults.StreamFault.TheVariants as stream;

use engine::InputFault;
use fallible::{Failure, OutFault};
use potential::EnergyFault;
use runs::TextFault;
use state::{ReadFault, StateFault};
use std::alloc::Allocator;

/// Why not all states of a stream were shown, or some of its segments differ. `R` is the type of faults of its
/// job and its states. The texts of the states before the fault are written.
#[derive(Drop)]
pub enum StreamFault<R> {
    /// The job is rejected, its slope code, or the code of the energy itself. No text is written.
    Rejected(R),
    /// The state with this number, from 1, is rejected, or can't be run under the job.
    State { number: u64, fault: R },
    /// The whole stream was replayed, and this many of the replayed segments differ, one or more.
    Differ(u64),
    /// The stream can't be read on, or 2^64 - 1 states were shown.
    CannotRead,
    /// A write failed, after a beginning of the next text.
    Out(OutFault),
    /// Memory ran out.
    Memory,
}

impl<R> From<ReadFault> for StreamFault<R> {
    ghost from_gives = { λ fault e. e ≡ reading_fault fault };

    fn from(fault: ReadFault) -> StreamFault<R> {
        match fault {
            ReadFault::CannotRead => StreamFault::CannotRead,
            ReadFault::Memory => StreamFault::Memory,
        }
    }
}

impl<A: Allocator> From<Failure<InputFault<A>>> for StreamFault<InputFault<A>> {
    ghost from_gives = { λ failure e. e ≡ opening_fault failure };

    fn from(failure: Failure<InputFault<A>>) -> StreamFault<InputFault<A>> {
        match failure {
            Failure::Refused(InputFault::Job(fault)) => StreamFault::Rejected(InputFault::Job(
                fault,
            )),
            Failure::Refused(InputFault::State(fault)) => first(InputFault::State(fault)),
            Failure::Refused(InputFault::Energy(fault)) => {
                StreamFault::Rejected(InputFault::Energy(fault))
            }
            Failure::Refused(InputFault::System(fault)) => first(InputFault::System(fault)),
            Failure::Refused(InputFault::ForceRange) => first(InputFault::ForceRange),
            Failure::Memory => StreamFault::Memory,
        }
    }
}

/// The fault of the first state.
fn first<R>(fault: R) -> StreamFault<R>
    ensures { result ≡ stream.State 1 fault }
{
    StreamFault::State { number: 1, fault }
}

impl<A: Allocator> From<Failure<EnergyFault<A>>> for StreamFault<InputFault<A>> {
    ghost from_gives = { λ failure e. e ≡ energy_fault failure };

    fn from(failure: Failure<EnergyFault<A>>) -> StreamFault<InputFault<A>> {
        match failure {
            Failure::Refused(fault) => StreamFault::Rejected(InputFault::Energy(fault)),
            Failure::Memory => StreamFault::Memory,
        }
    }
}

impl<R> From<TextFault> for StreamFault<R> {
    ghost from_gives = { λ fault e. e ≡ text_fault fault };

    fn from(fault: TextFault) -> StreamFault<R> {
        match fault {
            TextFault::Memory => StreamFault::Memory,
            TextFault::Out(fault) => StreamFault::Out(fault),
        }
    }
}

/// The fault of a text that is no state's: the text with this number, from 1.
pub(crate) fn state_fault<A: Allocator>(
    number: u64,
    failure: Failure<StateFault>,
) -> StreamFault<InputFault<A>>
    ensures { result ≡ state_fault number failure }
{
    match failure {
        Failure::Refused(fault) => StreamFault::State {
            number,
            fault: InputFault::State(fault),
        },
        Failure::Memory => StreamFault::Memory,
    }
}

/// The fault of a state that can't be run under the job: the state with this number, from 1.
pub(crate) fn numbered_fault<R>(number: u64, failure: Failure<R>) -> StreamFault<R>
    ensures { result ≡ numbered_fault number failure }
{
    match failure {
        Failure::Refused(fault) => StreamFault::State { number, fault },
        Failure::Memory => StreamFault::Memory,
    }
}
