//! Interval arithmetic on fixed-point numbers (R. E. Moore, Interval Analysis, 1966). The type of intervals is `Span`.
//!
//! Each operation returns the smallest interval that contains all results for members of its arguments, or a fault that
//! really occurs for some members. An operation on one number is monotone below 0 and above 0; an operation on two
//! numbers is monotone in each. So the results at ends, and at 0, suffice. Bounds on errors need ranges of 128-bit
//! integers (`Ends`), whose sums, products and quotients are rounded outward.
#![tactic(auto)]

mod ends;
mod joins;
mod operations;
mod ranges;
mod span;

pub use ends::Ends;
pub use joins::{halves, hull};
pub use operations::{operator_span, unary_span};
pub use ranges::{
    ends_around, ends_hull, ends_of, has_zero, less, negated, negative, over, plus, quotients,
    scaled, times, up_over,
};
pub use span::Span;
