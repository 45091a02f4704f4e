//! Coarse coordinates (the upper 16 bits of grid coordinates) of sixteen atoms in a block; one vector test finds which
//! of them may interact with an atom or with any atom of a cell.
#![tactic(auto)]

mod blocks;
mod coarse_reaches;
mod lanes;
mod upper_halves;

pub use blocks::Block;
pub use coarse_reaches::CoarseReach;
pub use upper_halves::{CellSpan, UpperHalves};
