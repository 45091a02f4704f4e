//! Streams of states, of which each state is shown by a text: a frame, a table row, its energy, forces or velocities.
#![tactic(auto)]

mod differences;
mod faults;
mod laws;
mod plans;
mod quantities;
mod replays;
mod segments;
mod streams;
mod texts;

pub use faults::StreamFault;
pub use laws::{one_runs_are_replayed, replays_are_one, same_streams_are_one_run};
pub use plans::ReplayPlan;
pub use quantities::{Quantity, QuantityTexts, quantity_text};
pub use replays::replay_states;
pub use streams::show_states;
