//! Engines: jobs and states with slope code that the verifier accepts. The code runs without checks of its operations,
//! and steps, forces, energies and observations come from it.
#![tactic(auto)]

mod courses;
mod engine_runs;
mod engines;
mod faults;
mod observers;
mod systems;

pub use engine_runs::open;
pub use engines::Engine;
pub use faults::InputFault;
pub use observers::{Observer, observers_go_on};
