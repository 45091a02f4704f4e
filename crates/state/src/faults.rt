//! Faults of a text that isn't a state.

ghost use Rattle.std.specs.Prelude.{◌≡◌};
ghost use Rattle.fallible.specs.declared.failure.Failure.TheVariants.{Refused};

use fallible::Failure;
use std::fmt;
use thiserror::Error;

/// The first fault of a text, from the top.
#[derive(Clone, Copy, Error)]
pub enum StateFault {
    /// The line with this number, counted from 1, has another form, or a number out of range.
    #[error("S1 BadLine {line}")]
    BadLine { line: u64 },
    /// The text ends before the LF of a required line.
    #[error("S2 Truncated")]
    Truncated,
    /// The text continues after the line of the last atom.
    #[error("S3 Trailing")]
    Trailing,
}

/// `Debug` prints as `Display`. `thiserror` requires it, and a derived one is expensive to prove.
impl fmt::Debug for StateFault {
    fn fmt<W: fmt::Write>(&self, f: &mut fmt::Formatter<W>) -> fmt::Result {
        fmt::Display::fmt(self, f)
    }
}

impl From<StateFault> for Failure<StateFault> {
    ghost from_gives = { λ fault e. e ≡ Refused fault };

    fn from(fault: StateFault) -> Failure<StateFault> {
        Failure::Refused(fault)
    }
}
