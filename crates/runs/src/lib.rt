//! Runs of jobs and states that show the states that they reach, and report progress. A plan says which states are
//! shown: the last, or one every k steps, as whole states, frames or rows of a table.
#![tactic(auto)]

mod faults;
mod frame_titles;
mod frames;
mod kept_observers;
mod observations;
mod plans;
mod rows;
mod showing;
mod shown_runs;
mod stretches;
mod visits;
mod watching;
mod whole_states;

pub use faults::{RunFault, TextFault};
pub use frames::FrameTexts;
pub use kept_observers::KeptObserver;
pub use plans::Plan;
pub use rows::Rows;
pub use showing::Show;
pub use shown_runs::{RunTexts, run_bytes, run_shown};
pub use stretches::{until_hundredth, watched_steps};
pub use watching::{Unwatched, Watch};
pub use whole_states::StateTexts;
