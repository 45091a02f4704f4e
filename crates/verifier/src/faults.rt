//! Errors of code that is rejected.

ghost use Rattle.std.specs.Prelude.{◌≡◌};
ghost use Rattle.fallible.specs.declared.failure.Failure.TheVariants.{Refused};

use fallible::Failure;
use fixed::{Fault, Fx};
use std::error::Error;
use std::fmt;

/// The error of rejected code. Types are numbers of the table, from 0.
#[derive(Clone, Copy, PartialEq, Eq)]
pub enum VerifyFault {
    /// At this instruction index, or at the code's length, a path lacks an operand, a local or an input, or ends with
    /// other than one value, or paths join with different stack heights.
    Malformed {
        pc: u32,
    },
    /// On some path the instruction at this index would push a 65th value.
    DepthOver64 {
        pc: u32,
    },
    /// For these types at the distance `r`, the operation at this instruction index has no value.
    Fault {
        first: u32,
        second: u32,
        r: Fx,
        pc: u32,
        fault: Fault,
    },
    /// For these types, at some distance from `lo` to `hi`, the operation at this instruction index may have no value
    /// according to interval analysis. At `lo` and at `hi` the code gives a value.
    Undecided {
        first: u32,
        second: u32,
        lo: Fx,
        hi: Fx,
        pc: u32,
        fault: Fault,
    },
}

impl VerifyFault {
    /// Writes the error, with these names for the two types if the error concerns types.
    pub fn tell<W: fmt::Write, T: fmt::Display + Copy>(
        &self,
        f: &mut fmt::Formatter<W>,
        first: T,
        second: T,
    ) -> fmt::Result {
        match *self {
            VerifyFault::Malformed { pc } => write!(f, "V1 Malformed {pc}"),
            VerifyFault::DepthOver64 { pc } => write!(f, "V4 DepthOver64 {pc}"),
            VerifyFault::Fault { r, pc, fault, .. } => {
                let raw = r.raw();
                write!(f, "V2 Fault {first} {second} r {raw} pc {pc} {fault}")
            }
            VerifyFault::Undecided {
                lo,
                hi,
                pc,
                fault,
                ..
            } => {
                let from = lo.raw();
                let to = hi.raw();
                write!(
                    f,
                    "V3 Undecided {first} {second} {from} {to} pc {pc} {fault}"
                )
            }
        }
    }
}

impl fmt::Display for VerifyFault {
    fn fmt<W: fmt::Write>(&self, f: &mut fmt::Formatter<W>) -> fmt::Result {
        match *self {
            VerifyFault::Fault { first, second, .. }
            | VerifyFault::Undecided { first, second, .. } => self.tell(f, first, second),
            VerifyFault::Malformed { .. } | VerifyFault::DepthOver64 { .. } => self.tell(f, 0, 0),
        }
    }
}

/// `Debug` prints as `Display`.
impl fmt::Debug for VerifyFault {
    fn fmt<W: fmt::Write>(&self, f: &mut fmt::Formatter<W>) -> fmt::Result {
        fmt::Display::fmt(self, f)
    }
}

impl Error for VerifyFault {}

impl From<VerifyFault> for Failure<VerifyFault> {
    ghost from_gives = { λ fault e. e ≡ Refused fault };

    fn from(fault: VerifyFault) -> Failure<VerifyFault> {
        Failure::Refused(fault)
    }
}
