//! Sums over the interacting pairs of a frame: forces, energy, virial and the nearest pair, for a system with accepted
//! code.
//!
//! The crate knows a system, its pair lists and lanes, and no job, direction, counter or step. All sums of the caller's
//! thread are made in one pass (`SumOverPairs`); forces can also be summed by a pool of workers.
#![tactic(auto)]

mod energies;
mod force_sums;
mod frame_pairs;
mod laws;
mod passes;
mod pools;
mod rows;
mod safe_systems;
mod sums;
mod sums_over_pairs;

pub use force_sums::forces_on;
pub use laws::{
    nearest_of_all_pairs_is_found, pairs_in_core_are_counted, virials_of_all_pairs_are_summed,
};
pub use pools::{Crew, NoGate, Pool};
pub use rows::Scratch;
pub use safe_systems::SafeSystem;
