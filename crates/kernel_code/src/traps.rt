use fixed::Fault;
use std::fmt;
use thiserror::Error;

/// The reason why a run stops without a value. It prints as its code and name: `F2 ZeroDivisor`, `M1 MissingOperand`.
#[derive(Clone, Copy, Error)]
pub enum TrapKind {
    /// An operation faults: `F1`, `F2` or `F3`.
    #[error("{0}")]
    Operation(Fault),
    /// The stack has fewer values than the instruction pops.
    #[error("M1 MissingOperand")]
    MissingOperand,
    /// The local was never set.
    #[error("M2 MissingLocal")]
    MissingLocal,
    /// There is no input with this number.
    #[error("M3 MissingInput")]
    MissingInput,
    /// The instruction would push a 65th value.
    #[error("M4 StackFull")]
    StackFull,
    /// The stack doesn't have exactly one value at the code's end.
    #[error("M5 BadEnd")]
    BadEnd,
}

/// `Debug` prints as `Display`.
impl fmt::Debug for TrapKind {
    fn fmt<W: fmt::Write>(&self, f: &mut fmt::Formatter<W>) -> fmt::Result {
        fmt::Display::fmt(self, f)
    }
}

/// The instruction index at which a run stops without a value, and the reason. It prints as in `pc 2 F2 ZeroDivisor`.
#[derive(Clone, Copy, Error)]
#[error("pc {pc} {kind}")]
pub struct Trap {
    /// The index of the instruction, or the code's length.
    pub pc: u32,
    pub kind: TrapKind,
}

/// `Debug` prints as `Display`.
impl fmt::Debug for Trap {
    fn fmt<W: fmt::Write>(&self, f: &mut fmt::Formatter<W>) -> fmt::Result {
        fmt::Display::fmt(self, f)
    }
}
