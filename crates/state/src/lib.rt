//! States of a run: a state is two consecutive frames. Each state has exactly one text, which `State::read` reads and
//! `State::write` writes. `next_text` reads the texts of states in a stream, one after another. `force_lines` and
//! `velocity_lines` write the forces on the atoms of a state and their velocities, a line for each atom.
#![tactic(auto)]

mod faults;
mod forces;
mod frames;
mod laws;
mod lines;
mod reading;
mod sources;
mod starts;
mod states;
mod velocities;
mod velocity_text;
mod versions;
mod writing;

pub use faults::StateFault;
pub use forces::force_lines;
pub use laws::{causes_are_faults, faults_have_causes, reads_state_always};
pub use sources::{
    Lines, ReadFault, faults_start_no_state, next_text, no_text_is_empty, starts_one_state,
};
pub use states::{Atom, State};
pub use velocity_text::velocity_lines;
