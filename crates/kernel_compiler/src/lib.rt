//! The compiler: code generation from energy programs for the kernel's stack machine. `specs/Compiled.antt` specifies
//! the semantics of a program's code, `specs/Code.antt` the code itself.
#![tactic(auto)]

mod code_limits;
mod compiler;
mod emit;
mod sizes;

pub use compiler::compile;
