//! Reads a job, the input file with a run's energy, core, cutoff, time step and atom types.
#![tactic(auto)]

mod bits;
mod drafts;
mod faults;
mod forms;
mod jobs;
mod laws;
mod lines;
mod numbers;
mod reading;
mod time_steps;
mod words;

pub use faults::{JobFault, Key};
pub use jobs::{AtomType, Global, Job};
pub use laws::{reads_job_always, reads_job_once};
pub use time_steps::TimeStep;
