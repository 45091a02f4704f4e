//! The program `pairmd` over any files and outputs: its commands, error lines, progress lines and exit statuses.
#![tactic(auto)]

mod conversions;
mod curve_tables;
mod execution;
mod faults;
mod files;
mod laws;
mod progress;
mod quantities;
mod shown;
mod state_streams;
mod verdicts;
mod writing;

pub use execution::{execute, report};
pub use faults::{CommandFault, Status};
pub use files::Files;
pub use laws::{printed_runs_return, replays_find_one_run};
pub use state::{Lines, ReadFault};
