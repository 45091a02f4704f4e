//! GRO files (GROMACS manual, gro file format): `read_frames` reads their frames, `write` writes a frame.
#![tactic(auto)]

mod atoms;
mod boxes;
mod faults;
mod frames;
mod laws;
mod lines;
mod reading;
mod writing;

pub use faults::GroFault;
pub use frames::{GroAtom, GroFrame};
pub use laws::reads_frames_always;
pub use reading::{pick, read_frames};
pub use writing::write;
