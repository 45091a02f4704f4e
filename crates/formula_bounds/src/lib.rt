//! Approximations of a formula's value and of its slope over a range of distances.
//!
//! A walk approximates the nodes of a formula from inner parts to outer ones, and each definition once. At a choice that the
//! approximations don't decide, a walk may divide: one goes on with the first branch, the other with the second.
//! `specs/Written.antt` defines what approximations mean, over all ordered exact numbers.
#![tactic(auto)]

mod entries;
mod formulas;
mod nodes;
mod partial;
mod walks;

pub use entries::Entry;
pub use formulas::Formula;
pub use partial::Partial;
