//! Potentials as they are computed, with certified bounds on their distance from the formula over exact numbers.
#![tactic(auto)]

mod faults;
mod grids;
mod jumps;
mod laws;
mod pairs;
mod planned;
mod plans;
mod potentials;
mod rows;
mod slices;
mod tables;
mod writing;

pub use faults::CurveFault;
pub use laws::{errors_are_bounded, grid_bounds_second_derivatives};
pub use plans::CurvePlan;
pub use writing::write_curve;
