//! Failures of calls that allocate.
//!
//! Running out of memory is separate from faults of the input. A contract fixes every `Refused`, and allows a `Memory`
//! at any time, so no enum of faults has to define running out of memory once more. Each fault type has only the errors
//! that its calls can return. The price is a conversion when a caller's fault type includes another one. `?` can't
//! convert a `Failure` into a `Failure` (the trait and the type would both be another crate's), so callers write a
//! `match`.

ghost use Rattle.std.specs.Prelude.{◌≡◌};
ghost use Rattle.fallible.specs.declared.failure.Failure.TheVariants.{Memory};

use std::alloc::{AllocError, AllocFailed};
use std::error::Error;
use std::fmt;

/// Reason why a call that allocates has no value. `R` is the type of faults of its input.
#[derive(Clone, Copy, Debug, Drop, PartialEq, Eq)]
pub enum Failure<R> {
    /// The input was rejected.
    Refused(R),
    /// An allocation failed.
    Memory,
}

impl<R: fmt::Display> fmt::Display for Failure<R> {
    fn fmt<W: fmt::Write>(&self, f: &mut fmt::Formatter<W>) -> fmt::Result {
        match self {
            Failure::Refused(fault) => fault.fmt(f),
            Failure::Memory => f.write_str("Memory"),
        }
    }
}

impl<R: fmt::Debug + fmt::Display + Drop> Error for Failure<R> {}

impl<R> From<AllocError> for Failure<R> {
    ghost from_gives = { λ _ e. e ≡ Memory };

    fn from(_e: AllocError) -> Failure<R> {
        Failure::Memory
    }
}

impl<T: Drop, R> From<AllocFailed<T>> for Failure<R> {
    ghost from_gives = { λ _ e. e ≡ Memory };

    fn from(_e: AllocFailed<T>) -> Failure<R> {
        Failure::Memory
    }
}
