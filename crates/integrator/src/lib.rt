//! The model of a run: the Levesque-Verlet step, and the system of a job and a state.
//! The definition of a step (`Frames`) mentions no error and no code. Systems (`Starts`) depend on the definition, not
//! the reverse. Both are in one crate, since a further crate would be loaded by every check of the crates above.
#![tactic(auto)]

mod atoms;
mod direction;
mod displacement;
mod faults;
mod nearest;
mod starts;
mod states;
mod steps;
mod systems;
mod workers;

pub use atoms::TypedAtoms;
pub use direction::Direction;
pub use faults::{StepFault, SystemFault};
pub use starts::typed_atoms;
pub use states::{Stepped, advance, counter_after, frames_of};
pub use systems::System;
pub use workers::Workers;
