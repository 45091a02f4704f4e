//! Errors of runs.

ghost use Rattle.std.specs.Prelude.{◌≡◌};
ghost use Rattle.runs.specs.Faults.{energy_fault, input_fault, text_fault};
ghost use Rattle.runs.specs.declared.faults.TextFault.TheVariants as unwritten;

use engine::InputFault;
use fallible::{Failure, OutFault};
use integrator::StepFault;
use potential::EnergyFault;
use std::alloc::{AllocError, Allocator};
use std::error::Error;
use std::fmt;

/// Why a run didn't write all of its texts. `R` is the type of faults of its input. The output is unchanged, except with
/// `Memory` in `Steps`, after which whole texts are written, and with `Out`.
#[derive(Drop)]
pub enum RunFault<R> {
    /// The input is rejected.
    Rejected(R),
    /// Memory ran out before a run began.
    Memory,
    /// The steps stopped before the last.
    Steps(StepFault),
    /// The output failed, after a beginning of the output was written.
    Out(OutFault),
}

impl<R: fmt::Display> fmt::Display for RunFault<R> {
    fn fmt<W: fmt::Write>(&self, f: &mut fmt::Formatter<W>) -> fmt::Result {
        match self {
            RunFault::Rejected(fault) => fault.fmt(f),
            RunFault::Memory => f.write_str("Memory"),
            RunFault::Steps(fault) => fmt::Display::fmt(fault, f),
            RunFault::Out(fault) => fmt::Display::fmt(fault, f),
        }
    }
}

/// `Debug` prints as `Display`.
impl<R: fmt::Display> fmt::Debug for RunFault<R> {
    fn fmt<W: fmt::Write>(&self, f: &mut fmt::Formatter<W>) -> fmt::Result {
        fmt::Display::fmt(self, f)
    }
}

impl<R: fmt::Display + Drop> Error for RunFault<R> {}

impl<A: Allocator> From<Failure<InputFault<A>>> for RunFault<InputFault<A>> {
    ghost from_gives = { λ failure e. e ≡ input_fault failure };

    fn from(failure: Failure<InputFault<A>>) -> RunFault<InputFault<A>> {
        match failure {
            Failure::Refused(fault) => RunFault::Rejected(fault),
            Failure::Memory => RunFault::Memory,
        }
    }
}

impl<A: Allocator> From<Failure<EnergyFault<A>>> for RunFault<InputFault<A>> {
    ghost from_gives = { λ failure e. e ≡ energy_fault failure };

    fn from(failure: Failure<EnergyFault<A>>) -> RunFault<InputFault<A>> {
        match failure {
            Failure::Refused(fault) => RunFault::Rejected(InputFault::Energy(fault)),
            Failure::Memory => RunFault::Memory,
        }
    }
}

/// Why the text of a state wasn't written.
#[derive(Clone, Copy)]
pub enum TextFault {
    /// Memory ran out. The output is unchanged.
    Memory,
    /// The output failed, after a beginning of the text.
    Out(OutFault),
}

impl From<AllocError> for TextFault {
    ghost from_gives = { λ _ e. e ≡ unwritten.Memory };

    fn from(_e: AllocError) -> TextFault {
        TextFault::Memory
    }
}

impl From<OutFault> for TextFault {
    ghost from_gives = { λ fault e. e ≡ unwritten.Out fault };

    fn from(fault: OutFault) -> TextFault {
        TextFault::Out(fault)
    }
}

/// The fault of a run whose text after `steps` steps wasn't written.
pub(crate) fn text_fault<R>(steps: u64, fault: TextFault) -> RunFault<R>
    ensures { result ≡ text_fault steps fault }
{
    match fault {
        TextFault::Memory => RunFault::Steps(StepFault::Memory { done: steps }),
        TextFault::Out(fault) => RunFault::Out(fault),
    }
}
