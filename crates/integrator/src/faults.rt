//! Why a job and a state can't be run, and why steps stop.

use thiserror::Error;

/// Why the atoms of a state can't be run under a job.
#[derive(Clone, Copy, PartialEq, Eq, Debug, Error)]
pub enum SystemFault {
    /// The job and the state have different numbers of fraction bits.
    #[error("A6 BitsDiffer")]
    BitsDiffer,
    /// The job has no type with the name of this atom, the lowest such atom, counted from 1.
    #[error("A1 UnknownType {atom}")]
    UnknownType { atom: u64 },
    /// Some side of the box is shorter than two cutoffs.
    #[error("A2 CutoffTooLong")]
    CutoffTooLong,
}

/// Why steps stopped before the last one. Only the counter's end and a failed allocation can stop them. It isn't a
/// `Failure`, since a failed allocation comes with the number of whole steps, which contracts use.
#[derive(Clone, Copy, PartialEq, Eq, Debug, Error)]
pub enum StepFault {
    /// The step counter would leave an i64. No step was made.
    #[error("A4 StepRange")]
    StepRange,
    /// Memory ran out after `done` whole steps.
    #[error("Memory after {done} steps")]
    Memory { done: u64 },
}
