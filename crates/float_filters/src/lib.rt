//! Decisions in floating point that proofs about rounding make exact (S. Fortune and C. J. Van Wyk, Static Analysis
//! Yields Efficient Exact Integer Arithmetic for Computational Geometry, 1996: floating-point filters).
//!
//! `specs/Near.antt` defines how far a float is from an exact number, in factors of 1 - 2^-53 and 1 + 2^-53: one
//! rounding adds one factor. `floors` finds integers that are the floors of four floats, and in which lanes this is
//! certain. `distances`, `forces` and `quotient_floors` return four exact results, or none.
#![tactic(auto)]

mod conversions;
mod distance_filters;
mod distance_lanes;
mod floor_lanes;
mod force_lanes;
mod lengths;
mod limits;
mod quotient_lanes;
mod separations;
mod vectors;

pub use conversions::{exact_i32, exact_u32, exact_u64, near_u64, near_u128};
pub use distance_filters::DistanceFilter;
pub use distance_lanes::distances;
pub use floor_lanes::{floors, integers};
pub use force_lanes::{ForceFloors, FourForces, force_floors, force_slack, forces};
pub use lengths::{
    four, near_length, near_lengths, near_margin, near_products, near_ratio, near_reach,
};
pub use limits::{Comparison, FloatLimit, around};
pub use quotient_lanes::{is_whole, quotient_floors};
pub use separations::{near_separation, near_square};
pub use vectors::{are_all_set, both};
