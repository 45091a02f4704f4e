//! The faults of commands, and the exit statuses of the program.

ghost use Rattle.std.specs.Prelude.{◌≡◌, ◌≤◌};
ghost use Rattle.std.specs.Result.{result_map_both};
ghost use Rattle.cli.specs.Failures.{command_fault, fault_of_curve, fault_of_run};
ghost use Rattle.cli.specs.declared.faults.CommandFault.TheVariants as command;
ghost use Rattle.engine.specs.declared.faults.InputFault.TheVariants as input;
ghost use Rattle.potential.specs.declared.faults.EnergyFault.TheVariants as energy;

use clap::Error;
use curves::CurveFault;
use energy_program::ExprFault;
use engine::InputFault;
use fallible::{Failure, OutFault};
use gro::GroFault;
use integrator::StepFault;
use job::JobFault;
use kernel_code::CodeFault;
use potential::EnergyFault;
use ring_box::BoxFault;
use runs::RunFault;
use state::StateFault;
use std::alloc::{AllocError, Allocator};
use std::fmt;
use streams::StreamFault;
use thiserror::Error;

/// The exit status of the program.
#[derive(Clone, Copy, Debug, PartialEq, Eq)]
pub enum Status {
    /// The arguments were carried out: a command, help or the version.
    Done,
    /// A job, a state, a GRO file or a listing is invalid, a state can't run under its job, or a replayed stream isn't of
    /// one run.
    RefusedData,
    /// The arguments name no command, or aren't UTF-8 text.
    CommandLine,
    /// An energy text is rejected, or the verifier rejects code.
    RefusedKernel,
    /// Memory ran out.
    Memory,
    /// A file can't be read, or the output can't be written.
    File,
}

impl Status {
    ghost use Rattle.cli.specs.Statuses.{status_number};

    /// The number of the exit status, from 0 to 5.
    pub fn code(self) -> u8
        ensures code { result ≡ status_number self }
        ensures most { result ≤ 5 }
    {
        match self {
            Status::Done => 0,
            Status::RefusedData => 1,
            Status::CommandLine => 2,
            Status::RefusedKernel => 3,
            Status::Memory => 4,
            Status::File => 5,
        }
    }
}

/// Why the arguments weren't carried out.
#[derive(Drop, Error)]
pub enum CommandFault<'a, A: Allocator> {
    /// The arguments name no command. The fault prints the parser's own text.
    #[error(transparent)]
    CommandLine(Error),
    /// An argument of the process isn't UTF-8 text.
    #[error("error: a word of the command line is not UTF-8 text\n")]
    NotText,
    /// A file can't be read to its end. The path is as the arguments give it.
    #[error("O1 CannotRead {path}")]
    CannotRead { path: &'a str },
    /// The job or the state is invalid, both don't fit each other, or code is rejected: the job has no slope code, or
    /// (except in `code`) none that the verifier accepts; in `energy`, `observe` and `curve`, the energy itself has no
    /// accepted code; in `code --energy`, the energy itself has no code; in `check --code`, the verifier rejects the code
    /// of the listing.
    #[error(transparent)]
    Rejected(InputFault<A>),
    /// No type of the job has this name, which `--types` gives. The name is as in the arguments.
    #[error("J6 NoSuchType {name}")]
    NoSuchType { name: &'a str },
    /// The GRO file is invalid, or has no frame with this number.
    #[error(transparent)]
    Gro(GroFault),
    /// The sides of the GRO frame aren't the sides of a box that a state can have.
    #[error(transparent)]
    Box(BoxFault),
    /// The listing is invalid.
    #[error(transparent)]
    Listing(CodeFault),
    /// The state with this number in a stream, from 1, is invalid, or it doesn't fit the job.
    #[error("{fault} in state {number}")]
    InState { number: u64, fault: InputFault<A> },
    /// A stream was replayed to its end, and this many of the replayed segments differ.
    #[error("A7 NotOneRun {0}")]
    NotOneRun(u64),
    /// The steps stopped before the last.
    #[error(transparent)]
    Steps(StepFault),
    /// A write to standard output failed.
    #[error(transparent)]
    Out(OutFault),
    /// Memory ran out.
    #[error("Memory")]
    Memory,
}

/// `Debug` prints as `Display`.
impl<'a, A: Allocator> fmt::Debug for CommandFault<'a, A> {
    fn fmt<W: fmt::Write>(&self, f: &mut fmt::Formatter<W>) -> fmt::Result {
        fmt::Display::fmt(self, f)
    }
}

/// A write's result as the command's.
pub(crate) fn write_result<'a, A: Allocator>(
    wrote: Result<(), OutFault>,
) -> Result<(), CommandFault<'a, A>>
    ensures { result ≡ result_map_both (λ x. x) command.Out wrote }
{
    match wrote {
        Ok(()) => Ok(()),
        Err(fault) => Err(CommandFault::Out(fault)),
    }
}

impl<'a, A: Allocator> From<AllocError> for CommandFault<'a, A> {
    ghost from_gives = { λ _ e. e ≡ command.Memory };

    fn from(_e: AllocError) -> CommandFault<'a, A> {
        CommandFault::Memory
    }
}

impl<'a, A: Allocator> From<GroFault> for CommandFault<'a, A> {
    ghost from_gives = { λ f e. e ≡ command.Gro f };

    fn from(fault: GroFault) -> CommandFault<'a, A> {
        CommandFault::Gro(fault)
    }
}

impl<'a, A: Allocator> From<RunFault<InputFault<A>>> for CommandFault<'a, A> {
    ghost from_gives = { λ f e. e ≡ fault_of_run f };

    fn from(fault: RunFault<InputFault<A>>) -> CommandFault<'a, A> {
        match fault {
            RunFault::Rejected(fault) => CommandFault::Rejected(fault),
            RunFault::Memory => CommandFault::Memory,
            RunFault::Steps(fault) => CommandFault::Steps(fault),
            RunFault::Out(fault) => CommandFault::Out(fault),
        }
    }
}

impl<'a, A: Allocator> From<CurveFault<A>> for CommandFault<'a, A> {
    ghost from_gives = { λ f e. e ≡ fault_of_curve f };

    fn from(fault: CurveFault<A>) -> CommandFault<'a, A> {
        match fault {
            CurveFault::Rejected(fault) => CommandFault::Rejected(InputFault::Energy(fault)),
            CurveFault::Memory => CommandFault::Memory,
            CurveFault::Out(fault) => CommandFault::Out(fault),
        }
    }
}

impl<'a, A: Allocator> From<Failure<JobFault<A>>> for CommandFault<'a, A> {
    ghost from_gives = { λ failure e. e ≡ command_fault (λ f. command.Rejected (input.Job f)) failure };

    fn from(failure: Failure<JobFault<A>>) -> CommandFault<'a, A> {
        match failure {
            Failure::Refused(fault) => CommandFault::Rejected(InputFault::Job(fault)),
            Failure::Memory => CommandFault::Memory,
        }
    }
}

impl<'a, A: Allocator> From<Failure<GroFault>> for CommandFault<'a, A> {
    ghost from_gives = { λ failure e. e ≡ command_fault command.Gro failure };

    fn from(failure: Failure<GroFault>) -> CommandFault<'a, A> {
        match failure {
            Failure::Refused(fault) => CommandFault::Gro(fault),
            Failure::Memory => CommandFault::Memory,
        }
    }
}

impl<'a, A: Allocator> From<Failure<BoxFault>> for CommandFault<'a, A> {
    ghost from_gives = { λ failure e. e ≡ command_fault command.Box failure };

    fn from(failure: Failure<BoxFault>) -> CommandFault<'a, A> {
        match failure {
            Failure::Refused(fault) => CommandFault::Box(fault),
            Failure::Memory => CommandFault::Memory,
        }
    }
}

impl<'a, A: Allocator> From<Failure<StateFault>> for CommandFault<'a, A> {
    ghost from_gives = { λ failure e. e ≡ command_fault (λ f. command.Rejected (input.State f)) failure };

    fn from(failure: Failure<StateFault>) -> CommandFault<'a, A> {
        match failure {
            Failure::Refused(fault) => CommandFault::Rejected(InputFault::State(fault)),
            Failure::Memory => CommandFault::Memory,
        }
    }
}

impl<'a, A: Allocator> From<Failure<CodeFault>> for CommandFault<'a, A> {
    ghost from_gives = { λ failure e. e ≡ command_fault command.Listing failure };

    fn from(failure: Failure<CodeFault>) -> CommandFault<'a, A> {
        match failure {
            Failure::Refused(fault) => CommandFault::Listing(fault),
            Failure::Memory => CommandFault::Memory,
        }
    }
}

impl<'a, A: Allocator> From<Failure<EnergyFault<A>>> for CommandFault<'a, A> {
    ghost from_gives = { λ failure e. e ≡ command_fault (λ f. command.Rejected (input.Energy f)) failure };

    fn from(failure: Failure<EnergyFault<A>>) -> CommandFault<'a, A> {
        match failure {
            Failure::Refused(fault) => CommandFault::Rejected(InputFault::Energy(fault)),
            Failure::Memory => CommandFault::Memory,
        }
    }
}

impl<'a, A: Allocator> From<Failure<InputFault<A>>> for CommandFault<'a, A> {
    ghost from_gives = { λ failure e. e ≡ command_fault command.Rejected failure };

    fn from(failure: Failure<InputFault<A>>) -> CommandFault<'a, A> {
        match failure {
            Failure::Refused(fault) => CommandFault::Rejected(fault),
            Failure::Memory => CommandFault::Memory,
        }
    }
}

impl<'a, A: Allocator> From<Failure<ExprFault<A>>> for CommandFault<'a, A> {
    ghost from_gives = { λ failure e. e ≡ command_fault (λ f. command.Rejected (input.Energy (energy.Energy f))) failure };

    fn from(failure: Failure<ExprFault<A>>) -> CommandFault<'a, A> {
        match failure {
            Failure::Refused(fault) => {
                CommandFault::Rejected(InputFault::Energy(EnergyFault::Energy(fault)))
            }
            Failure::Memory => CommandFault::Memory,
        }
    }
}

impl<'a, A: Allocator> CommandFault<'a, A> {
    ghost use Rattle.cli.specs.Failures.{fault_of_stream};

    /// The fault of a command that didn't write all output of the stream at this path, or found that it isn't of one run.
    pub(crate) fn of_stream(fault: StreamFault<InputFault<A>>, path: &'a str) -> CommandFault<'a, A>
        ensures { result ≡ fault_of_stream path.entry fault }
    {
        match fault {
            StreamFault::Rejected(fault) => CommandFault::Rejected(fault),
            StreamFault::State { number, fault } => CommandFault::InState { number, fault },
            StreamFault::Differ(segments) => CommandFault::NotOneRun(segments),
            StreamFault::CannotRead => CommandFault::CannotRead { path },
            StreamFault::Out(fault) => CommandFault::Out(fault),
            StreamFault::Memory => CommandFault::Memory,
        }
    }
}

impl<'a, A: Allocator> CommandFault<'a, A> {
    ghost use Rattle.cli.specs.Statuses.{status_of};

    /// The exit status for this fault.
    pub fn status(&self) -> Status
        ensures { result ≡ status_of self.now }
    {
        match self {
            CommandFault::CommandLine(_) | CommandFault::NotText => Status::CommandLine,
            CommandFault::CannotRead { .. } | CommandFault::Out(_) => Status::File,
            CommandFault::NoSuchType { .. }
            | CommandFault::Gro(_)
            | CommandFault::Box(_)
            | CommandFault::Listing(_)
            | CommandFault::NotOneRun(_) => Status::RefusedData,
            CommandFault::Rejected(fault) => status_of_input(fault),
            CommandFault::InState { fault, .. } => status_of_input(fault),
            CommandFault::Steps(fault) => status_of_steps(fault),
            CommandFault::Memory => Status::Memory,
        }
    }
}

ghost use Rattle.cli.specs.Statuses.{input_status, steps_status};

/// The exit status if a job and a state are rejected because of this fault.
fn status_of_input<A: Allocator>(fault: &InputFault<A>) -> Status
    ensures { result ≡ input_status fault.now }
{
    match fault {
        InputFault::Energy(_) => Status::RefusedKernel,
        InputFault::Job(_)
        | InputFault::State(_)
        | InputFault::System(_)
        | InputFault::ForceRange => Status::RefusedData,
    }
}

/// The exit status if the steps of a run stop before the last because of this fault.
fn status_of_steps(fault: &StepFault) -> Status
    ensures { result ≡ steps_status fault.now }
{
    match fault {
        StepFault::StepRange => Status::RefusedData,
        StepFault::Memory { .. } => Status::Memory,
    }
}
