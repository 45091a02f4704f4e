//! Symbolic differentiation: from an energy program to the program of its derivative with respect to the distance,
//! dU/dr, called slope here. The theorem `slopes_are_derivatives` relates the result to dual numbers.
#![tactic(auto)]

mod derivative;
mod laws;
mod moved;
mod parts;
mod prune;
mod rows;
mod slopes;

pub use derivative::derive;
pub use laws::slopes_are_derivatives;
