//! Pairs of a frame that may interact, tile by tile, from cells or from lists kept over steps.
//!
//! Pairs are listed up to a margin beyond the cutoff, as in Verlet's lists. The lists serve the frames that follow for as
//! long as each atom is nearer than half the margin to where it was: two atoms that are near now were near then, within
//! cutoff and margin. Sums over the lists equal sums over all pairs, so no result depends on when lists are made.
#![tactic(auto)]

mod listed_pairs;
mod listing;
mod margins;
mod pair_lists;
mod wide_cells;

pub use pair_lists::PairLists;
