//! Lines of a table of a potential: rows with bounds on errors, errors without a bound, and the greatest bounds.
#![tactic(auto)]

mod bodies;
mod columns;
mod numbers;
mod rows;
mod summaries;

pub use bodies::Body;
pub use columns::CurveColumns;
pub use rows::{Row, is_large};
