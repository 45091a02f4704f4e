//! Tested runs: jobs and states, run forward and back with the Levesque-Verlet step on one thread, with every
//! instruction of the slope code tested and forces summed in 128 bits.
//! A tested run is a run with the plain derivative. The model (`integrator`) doesn't have it, so no error of code is in
//! the model.

mod checked_runs;
mod code_slopes;
mod faults;
mod forces;
mod kernels;
mod laws;
mod prepared;
mod slope_faults;
mod slopes;
mod starts;
mod steps;
mod stops;
mod sums;

pub use crate::tested_run::checked_runs::run_bytes_checked;
pub use crate::tested_run::faults::{KernelFault, StartFault, TestedFault, TestedRunFault};
pub use crate::tested_run::laws::{outcomes_are_ends, starts_always, starts_once};
