//! Errors of a round.

use std::alloc::{AllocError, AllocFailed};
use thiserror::Error;

/// Why an event was rejected. A rejected event leaves the round unchanged.
#[derive(Clone, Copy, PartialEq, Eq, Debug, Error)]
pub enum RoundFault {
    /// No worker has this number.
    #[error("Q1 NoSuchWorker")]
    NoSuchWorker,
    /// The worker of this deposit has no addition left to make.
    #[error("Q2 Idle")]
    Idle,
    /// The worker of this claim has additions of its tile left to make.
    #[error("Q3 Busy")]
    Busy,
    /// The worker has stopped: its last claim drew a ticket past the last tile.
    #[error("Q4 Stopped")]
    Stopped,
}

/// An allocation failed.
#[derive(Clone, Copy, PartialEq, Eq, Debug, Error)]
#[error("Memory")]
pub struct Memory;

impl From<AllocError> for Memory {
    fn from(_refused: AllocError) -> Memory {
        Memory
    }
}

impl<T: Drop> From<AllocFailed<T>> for Memory {
    fn from(_refused: AllocFailed<T>) -> Memory {
        Memory
    }
}
