//! The verifier: accepts code that gives a value for every pair of types of a table, at every distance from a core up
//! to a cutoff, and rejects all other code. `specs/Safety.antt` defines the guarantees of acceptance and of rejection.
//!
//! First, stack and definite-assignment analysis over all control-flow paths, regardless of values: each conditional
//! jump may go either way (`paths`). Then abstract interpretation with intervals, on slices of the distances that are
//! bisected while a fault is possible (`searches`).
#![tactic(auto)]

mod abstract_states;
mod certificates;
mod faults;
mod frames;
mod instructions;
mod laws;
mod local_sets;
mod locals;
mod meetings;
mod path_instructions;
mod paths;
mod progress;
mod ranges;
mod searches;
mod slices;
mod verified;
mod widening;

pub use faults::VerifyFault;
pub use progress::{IgnoredProgress, Progress};
pub use verified::{Verified, verify};
