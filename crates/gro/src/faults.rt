//! Faults of a GRO file.

ghost use Rattle.std.specs.Prelude.{◌≡◌};
ghost use Rattle.fallible.specs.declared.failure.Failure.TheVariants.{Refused};

use fallible::Failure;
use std::fmt;
use thiserror::Error;

/// The first fault of a GRO file from the top, or a frame number that it doesn't have. Lines are counted from 1.
#[derive(Clone, Copy, Error)]
pub enum GroFault {
    /// A required line is missing, or the last line, without its LF, is cut off.
    #[error("G1 Truncated")]
    Truncated,
    /// The line isn't a number of atoms.
    #[error("G2 BadCount {line}")]
    BadCount { line: u64 },
    /// The line isn't an atom line.
    #[error("G3 BadColumns {line}")]
    BadColumns { line: u64 },
    /// The positions on the line don't have three decimals.
    #[error("G4 Precision {line}")]
    Precision { line: u64 },
    /// The line isn't a box line.
    #[error("G5 BadBox {line}")]
    BadBox { line: u64 },
    /// The box on the line isn't rectangular.
    #[error("G6 Triclinic {line}")]
    Triclinic { line: u64 },
    /// The number of atoms on the line is above 65,536.
    #[error("G7 TooManyAtoms {line}")]
    TooManyAtoms { line: u64 },
    /// The file has no frame with that number.
    #[error("G8 NoSuchFrame")]
    NoSuchFrame,
}

/// `Debug` prints as `Display`. `thiserror` requires it, and a derived one is expensive to prove.
impl fmt::Debug for GroFault {
    fn fmt<W: fmt::Write>(&self, f: &mut fmt::Formatter<W>) -> fmt::Result {
        fmt::Display::fmt(self, f)
    }
}

impl From<GroFault> for Failure<GroFault> {
    ghost from_gives = { λ fault e. e ≡ Refused fault };

    fn from(fault: GroFault) -> Failure<GroFault> {
        Failure::Refused(fault)
    }
}
