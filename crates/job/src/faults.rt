//! Faults of a text that isn't a job.

ghost use Rattle.std.specs.Prelude.{◌≡◌};
ghost use Rattle.fallible.specs.declared.failure.Failure.TheVariants.{Refused};

use fallible::Failure;
use std::alloc::Allocator;
use std::fmt;
use thiserror::Error;

/// The first word of a job's line.
#[derive(Clone, Copy, PartialEq, Eq)]
pub enum Key {
    /// `energy`, of which a job has one line.
    Energy,
    /// `core`, of which a job has one line.
    Core,
    /// `cutoff`, of which a job has one line.
    Cutoff,
    /// `dt`, of which a job has one line.
    TimeStep,
    /// `slices`, of which a job has one line or none.
    Slices,
    /// `parameter`, of which a job has up to 8 lines.
    Parameter,
    /// `global`, of which a job has up to 16 lines.
    Global,
    /// `type`, of which a job has up to 64 lines.
    Types,
    /// `bits`, of which a job has one line or none.
    Bits,
}

impl fmt::Display for Key {
    fn fmt<W: fmt::Write>(&self, f: &mut fmt::Formatter<W>) -> fmt::Result {
        f.write_str(match self {
            Key::Energy => "energy",
            Key::Core => "core",
            Key::Cutoff => "cutoff",
            Key::TimeStep => "dt",
            Key::Slices => "slices",
            Key::Parameter => "parameter",
            Key::Global => "global",
            Key::Types => "type",
            Key::Bits => "bits",
        })
    }
}

/// The first fault of a text that isn't a job.
///
/// Lines are checked from the top. On a line, a malformed line comes before a repeated key or name, and this before a
/// number out of range. Defects of the whole text come after all lines.
#[derive(Drop, Error)]
pub enum JobFault<A: Allocator> {
    /// The line with this number, counted from 1, is malformed, or is the first `type` line that doesn't have one value
    /// per parameter of the job.
    #[error("J1 BadLine {line}")]
    BadLine { line: u64 },
    /// No line has this key.
    #[error("J2 Missing {key}")]
    Missing { key: Key },
    /// A second line has this key, which may occur only once.
    #[error("J3 Repeated {key}")]
    Repeated { key: Key },
    /// A second `parameter` line or a second `global` line has this name.
    #[error("J3 Repeated {name}")]
    RepeatedName { name: String<A> },
    /// A number on a line with this key is out of range, or there is one line more with this key than a job may have.
    #[error("J4 Range {key}")]
    Range { key: Key },
    /// A second `type` line has this name.
    #[error("J5 RepeatedType {name}")]
    RepeatedType { name: String<A> },
}

/// `Debug` prints as `Display`. `thiserror` requires it, and a derived one is expensive to prove.
impl<A: Allocator> fmt::Debug for JobFault<A> {
    fn fmt<W: fmt::Write>(&self, f: &mut fmt::Formatter<W>) -> fmt::Result {
        fmt::Display::fmt(self, f)
    }
}

impl<A: Allocator> From<JobFault<A>> for Failure<JobFault<A>> {
    ghost from_gives = { λ fault e. e ≡ Refused fault };

    fn from(fault: JobFault<A>) -> Failure<JobFault<A>> {
        Failure::Refused(fault)
    }
}
