//! Exact observables of a state: energies, temperature, pressure, momentum, nearest pair and core pairs. Each is
//! printed either as the decimal nearest to the exact value of its definition (`specs/Observables.antt`), or as the
//! integers from which that value is computed. Decimals are computed with signed integers of up to 512 bits.
#![tactic(auto)]

mod columns;
mod fractions;
mod frames;
mod laws;
mod limbs;
mod observations;
mod pressures;
mod rows;
mod scales;
mod values;
mod whole;

pub use columns::{Column, Columns};
pub use frames::{momentum, products, squares};
pub use laws::{decimals_are_nearest, pressure_is_symmetric, pressure_is_third_of_trace};
pub use observations::{Observation, PairSums, PairTotals};
pub use rows::Row;
pub use scales::Scales;
