//! Failures of calls that allocate (`Failure`), and outputs, which accept the bytes of a text (`Out`).
//!
//! Two conventions of all crates follow from failing allocations. The allocator is a type parameter, passed as an
//! argument, so that tests can pass one that fails. Fallible functions borrow, and only their caller owns and drops,
//! because the prover follows each drop on each path out of a function.
#![tactic(auto)]

mod collected;
mod failure;
mod output;
mod pairs;

pub use collected::Collected;
pub use failure::Failure;
pub use output::{Out, OutFault, write_all, write_both};
pub use pairs::pair;
