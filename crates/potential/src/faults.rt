//! Errors of energies without accepted code.
//!
//! The verifier numbers types. `VerifyFault::tell` is the only writer of its faults and takes the two names, so a fault
//! prints alike with numbers and with names.

ghost use Rattle.std.specs.Prelude.{◌≡◌};
ghost use Rattle.fallible.specs.Failures.{refused_as};
ghost use Rattle.potential.specs.declared.faults.EnergyFault.TheVariants as energy;

use energy_program::ExprFault;
use fallible::Failure;
use line_text::Name;
use std::alloc::Allocator;
use std::error::Error;
use std::fmt;
use verifier::VerifyFault;

/// Why an energy, or its derivative, has no accepted code.
#[derive(Drop)]
pub enum EnergyFault<A: Allocator> {
    /// The energy has no code: its text is rejected, or its derivative or its code would be too large.
    Energy(ExprFault<A>),
    /// The verifier rejects the code with this fault. The fault's types are numbers of the job's types, counted from 0;
    /// `types` has the names of its two types, if the fault mentions types.
    Kernel {
        fault: VerifyFault,
        types: Option<(Name, Name)>,
    },
}

/// A fault of the verifier prints as the verifier's own, with type names in place of type numbers, as in
/// `V2 Fault AR AR r 858993459 pc 2 F2 ZeroDivisor`.
impl<A: Allocator> fmt::Display for EnergyFault<A> {
    fn fmt<W: fmt::Write>(&self, f: &mut fmt::Formatter<W>) -> fmt::Result {
        match self {
            EnergyFault::Energy(fault) => fault.fmt(f),
            EnergyFault::Kernel { fault, types } => match *types {
                Some((first, second)) => fault.tell(f, first, second),
                None => fault.fmt(f),
            },
        }
    }
}

/// `Debug` prints as `Display`. `Error` needs it, and a derived `Debug` would cost more to prove.
impl<A: Allocator> fmt::Debug for EnergyFault<A> {
    fn fmt<W: fmt::Write>(&self, f: &mut fmt::Formatter<W>) -> fmt::Result {
        fmt::Display::fmt(self, f)
    }
}

impl<A: Allocator> Error for EnergyFault<A> {}

impl<A: Allocator> EnergyFault<A> {
    /// The error of an energy without code, as an `EnergyFault`.
    pub fn of_energy(failure: Failure<ExprFault<A>>) -> Failure<EnergyFault<A>>
        ensures { result ≡ refused_as energy.Energy failure }
    {
        match failure {
            Failure::Refused(fault) => Failure::Refused(EnergyFault::Energy(fault)),
            Failure::Memory => Failure::Memory,
        }
    }
}
