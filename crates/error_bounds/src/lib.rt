//! Error bounds of fixed-point operations, over all ordered exact numbers.
//!
//! An approximation has the range of the values that an operation may compute, and the range of their errors: the computed
//! value less the exact one. A rule for each operation of energies gives the approximation of its result. The rules are
//! formulas over integers (`specs/Rules.antt`), which the functions here compute; they are right for all ordered exact
//! numbers, such as the rational numbers.
#![tactic(auto)]

mod approximations;
mod choices;
mod corners;
mod flats;
mod laws;
mod operations;
mod order;
mod outcomes;
mod powers;
mod products;
mod quotients;
mod results;
mod roots;

pub use approximations::Approximation;
pub use choices::{is_undecided, select};
pub use laws::{decimals_are_read, integers_are_ordered};
pub use operations::{apply, operate};
pub use outcomes::Outcomes;
pub use powers::power;
