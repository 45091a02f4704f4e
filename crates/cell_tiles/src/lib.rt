//! Cell lists of a periodic box: atoms in cells, and tiles of neighbouring cells, which contain each pair of atoms in
//! one cell or in neighbouring cells exactly once.
//!
//! The crate knows positions, and neither forces nor workers; the engine joins it with the pool. It lists the pairs of
//! a tile that may interact; an exact test of each listed pair comes later.
#![tactic(auto)]

mod byte_lanes;
mod cell_blocks;
mod cells;
mod gathered;
mod grids;
mod lanes;
mod laws;
mod lists;
mod marks;
mod near;
mod pairs;
mod tiles;
mod walks;

pub use cells::Cells;
pub use grids::Grid;
pub use laws::{each_pair_once, sums_as_all};
pub use near::{FrameInBox, NearPairs};
pub use tiles::{Tile, Tiles};
