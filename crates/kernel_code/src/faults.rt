//! Errors of listings, and of lists of instructions that aren't code.

ghost use Rattle.std.specs.Prelude.{◌≡◌};
ghost use Rattle.fallible.specs.declared.failure.Failure.TheVariants.{Refused};

use fallible::Failure;
use std::fmt;
use thiserror::Error;

/// The first error of a listing or of a list of instructions. Line numbers count from 1.
#[derive(Clone, Copy, Error)]
pub enum CodeFault {
    /// The line is no instruction (line 1: not `pairmd code 1`), has an operand out of range, or lacks its line feed.
    #[error("C1 BadLine {line}")]
    BadLine { line: u64 },
    /// The target of a jump isn't after the jump, or is past the end. `line` is the jump's instruction index plus 2.
    #[error("C2 BadTarget {line}")]
    BadTarget { line: u64 },
    /// There are more than 16,384 instructions.
    #[error("C3 TooLong")]
    TooLong,
}

/// `Debug` prints as `Display`.
impl fmt::Debug for CodeFault {
    fn fmt<W: fmt::Write>(&self, f: &mut fmt::Formatter<W>) -> fmt::Result {
        fmt::Display::fmt(self, f)
    }
}

impl From<CodeFault> for Failure<CodeFault> {
    ghost from_gives = { λ fault e. e ≡ Refused fault };

    fn from(fault: CodeFault) -> Failure<CodeFault> {
        Failure::Refused(fault)
    }
}
