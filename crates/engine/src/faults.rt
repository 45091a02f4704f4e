//! Errors: why a job and a state have no engine.

ghost use Rattle.engine.specs.Faults.{IsRefusedBy};

use fallible::Failure;
use integrator::SystemFault;
use job::JobFault;
use potential::EnergyFault;
use state::StateFault;
use std::alloc::Allocator;
use std::fmt;
use thiserror::Error;

/// Why a job and a state are rejected. Contracts say which of these a function can return.
#[derive(Drop, Error)]
pub enum InputFault<A: Allocator> {
    /// The job's text is rejected.
    #[error(transparent)]
    Job(JobFault<A>),
    /// The state's text is rejected.
    #[error(transparent)]
    State(StateFault),
    /// The energy is rejected, or the verifier rejects its code or the slope code.
    #[error(transparent)]
    Energy(EnergyFault<A>),
    /// The atoms of the state can't be run under the job.
    #[error(transparent)]
    System(SystemFault),
    /// The force on an atom might not fit 64 bits: with N atoms, N - 1 times the verifier's bound on the derivative is
    /// 2^63 or more.
    #[error("A3 ForceRange")]
    ForceRange,
}

/// `Debug` prints as `Display`.
impl<A: Allocator> fmt::Debug for InputFault<A> {
    fn fmt<W: fmt::Write>(&self, f: &mut fmt::Formatter<W>) -> fmt::Result {
        fmt::Display::fmt(self, f)
    }
}

/// The failure with its fault translated, as when a call passes on the failure of a part.
pub(crate) fn refused_as<S, T, F: FnOnce(S) -> T>(failure: Failure<S>, by: F) -> Failure<T>
    requires { (fault : S) → F.pre by fault }
    ensures { IsRefusedBy (F.post by) failure result }
{
    match failure {
        Failure::Refused(fault) => Failure::Refused(by(fault)),
        Failure::Memory => Failure::Memory,
    }
}
