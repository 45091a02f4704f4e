//! Errors of a tested run.
//! Each error type has only the cases that its calls can return, and a larger one wraps a smaller one. The `of_..`
//! functions convert: `?` can't, since an impl of `From` between two `Failure`s would name no type of this crate.

ghost use Rattle.std.specs.Prelude.{◌≡◌};
ghost use Rattle.fallible.specs.Failures.{refused_as};
ghost use Rattle.run_laws.specs.declared.tested_run.faults.StartFault.TheVariants.{Energy, Job, State, System};
ghost use Rattle.run_laws.specs.declared.tested_run.faults.TestedFault.TheVariants.{Kernel, Start};
ghost use Rattle.run_laws.specs.declared.tested_run.faults.TestedRunFault.TheVariants as run;

use energy_program::ExprFault;
use fallible::{Failure, OutFault};
use fixed::Fault;
use integrator::SystemFault;
use job::JobFault;
use state::StateFault;
use std::alloc::Allocator;
use thiserror::Error;

/// Why texts have no start of a tested run.
#[derive(Debug, Drop, Error)]
pub enum StartFault<A: Allocator> {
    /// The job's text is rejected.
    #[error("{0}")]
    Job(JobFault<A>),
    /// The state's text is rejected.
    #[error("{0}")]
    State(StateFault),
    /// The energy's text is rejected, or its derivative or its code would be too large.
    #[error("{0}")]
    Energy(ExprFault<A>),
    /// The atoms of the state can't be run under the job.
    #[error("{0}")]
    System(SystemFault),
    /// The step counter would leave an i64.
    #[error("A4 StepRange")]
    StepRange,
}

/// The slope code gives no value for the atoms `low` and `high`, counted from 1, in the frame with the counter `step`.
/// They are the first such pair, by the lower atom and then by the higher. `pc` is the instruction index of the
/// operation without a value. The derivative, or a definition that its program uses, has no value there.
#[derive(Clone, Copy, Debug, PartialEq, Eq, Error)]
#[error("A5 KernelFault {step} {low} {high} {pc} {fault}")]
pub struct KernelFault {
    pub step: i64,
    pub low: u64,
    pub high: u64,
    pub pc: u32,
    pub fault: Fault,
}

/// Why texts have no tested run.
#[derive(Debug, Drop, Error)]
pub enum TestedFault<A: Allocator> {
    /// The texts have no start.
    #[error("{0}")]
    Start(StartFault<A>),
    /// Some pair on the way has no force.
    #[error("{0}")]
    Kernel(KernelFault),
}

/// Why a tested run wrote no state.
#[derive(Debug, Drop, Error)]
pub enum TestedRunFault<A: Allocator> {
    /// There is no run, or memory ran out. The output is unchanged.
    #[error("{0}")]
    Run(Failure<TestedFault<A>>),
    /// The output failed, after a beginning of the new state was written.
    #[error("{0}")]
    Out(OutFault),
}

impl<A: Allocator> StartFault<A> {
    /// The error of a job's text, as a `StartFault`.
    pub(crate) fn of_job(failure: Failure<JobFault<A>>) -> Failure<StartFault<A>>
        ensures { result ≡ refused_as Job failure }
    {
        match failure {
            Failure::Refused(fault) => Failure::Refused(StartFault::Job(fault)),
            Failure::Memory => Failure::Memory,
        }
    }

    /// The error of a state's text, as a `StartFault`.
    pub(crate) fn of_state(failure: Failure<StateFault>) -> Failure<StartFault<A>>
        ensures { result ≡ refused_as State failure }
    {
        match failure {
            Failure::Refused(fault) => Failure::Refused(StartFault::State(fault)),
            Failure::Memory => Failure::Memory,
        }
    }

    /// The error of an energy, as a `StartFault`.
    pub(crate) fn of_energy(failure: Failure<ExprFault<A>>) -> Failure<StartFault<A>>
        ensures { result ≡ refused_as Energy failure }
    {
        match failure {
            Failure::Refused(fault) => Failure::Refused(StartFault::Energy(fault)),
            Failure::Memory => Failure::Memory,
        }
    }

    /// The error of a job and a state, as a `StartFault`.
    pub(crate) fn of_system(failure: Failure<SystemFault>) -> Failure<StartFault<A>>
        ensures { result ≡ refused_as System failure }
    {
        match failure {
            Failure::Refused(fault) => Failure::Refused(StartFault::System(fault)),
            Failure::Memory => Failure::Memory,
        }
    }
}

impl<A: Allocator> TestedFault<A> {
    /// The error of a start, as a `TestedFault`.
    pub(crate) fn of_start(failure: Failure<StartFault<A>>) -> Failure<TestedFault<A>>
        ensures { result ≡ refused_as Start failure }
    {
        match failure {
            Failure::Refused(fault) => Failure::Refused(TestedFault::Start(fault)),
            Failure::Memory => Failure::Memory,
        }
    }

    /// The error of a pair without a force, as a `TestedFault`.
    pub(crate) fn of_kernel(failure: Failure<KernelFault>) -> Failure<TestedFault<A>>
        ensures { result ≡ refused_as Kernel failure }
    {
        match failure {
            Failure::Refused(fault) => Failure::Refused(TestedFault::Kernel(fault)),
            Failure::Memory => Failure::Memory,
        }
    }
}

impl<A: Allocator> From<Failure<TestedFault<A>>> for TestedRunFault<A> {
    ghost from_gives = { λ failure e. e ≡ run.Run failure };

    fn from(failure: Failure<TestedFault<A>>) -> TestedRunFault<A> {
        TestedRunFault::Run(failure)
    }
}

impl<A: Allocator> From<OutFault> for TestedRunFault<A> {
    ghost from_gives = { λ fault e. e ≡ run.Out fault };

    fn from(fault: OutFault) -> TestedRunFault<A> {
        TestedRunFault::Out(fault)
    }
}
