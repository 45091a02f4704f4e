//! Potentials: from a job's energy to accepted code that is prepared for lanes.
//!
//! A job's text gives the program of its energy. Differentiation gives the program of the derivative, and the compiler
//! gives the code of each program. The verifier checks the code for each pair of the job's types, at each distance from
//! the core to below the cutoff.
//!
//! Everything that knows code is here, below the model. A run's start takes from this crate only the definition of a
//! job's energy (`energy_of`), and the commands `check` and `code` load neither cells nor threads.
#![tactic(auto)]

mod energies;
mod energy_kernels;
mod faults;
mod lane_kernels;
mod laws;
mod slope_kernels;
mod slope_parts;
mod tables;
mod verdicts;

pub use energies::{energy_code, job_slope, slope_code};
pub use energy_kernels::energy_kernel;
pub use faults::EnergyFault;
pub use lane_kernels::{LaneKernel, LaneRows};
pub use laws::inputs_have_names;
pub use slope_kernels::SlopeKernel;
pub use slope_parts::SlopeParts;
pub use tables::type_table;
pub use verdicts::{verdict, verified_slope};
