//! The language of energy expressions: its syntax trees, programs and names, the semantics of expressions, and the
//! errors of rejected texts. An expression depends on the distance, parameters of both particles, globals and
//! definitions.
//!
//! Three passes work on the one language and don't depend on each other: the parser (crate `expr`) makes programs, the
//! derivative of a program is again a program (`derivative`), and the compiler translates programs to kernel code
//! (`kernel_compiler`).
#![tactic(auto)]

mod build;
mod callees;
mod faults;
mod inputs;
mod names;
mod powers;
mod programs;
mod scoping;
mod trees;
mod uses;
mod variables;

pub use build::{Built, applied, binary, blank, negated, power, select};
pub use callees::{Callee, function_of};
pub use faults::ExprFault;
pub use names::{EnergyName, is_reserved};
pub use powers::Exponent;
pub use programs::{MAX_DEFINITIONS, Program};
pub use trees::Expr;
pub use uses::{is_marked, marks_of};
pub use variables::{MAX_GLOBALS, MAX_PARAMETERS, Names};
