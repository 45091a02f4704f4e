//! The kernel's stack machine: its instructions, code whose jumps only go forwards, code as text (a listing), the
//! interpreter that checks every instruction, and the type tables that give a pair's inputs. `specs/Machine.antt`
//! defines the operational semantics, `specs/Paths.antt` the control-flow paths of code.
#![tactic(auto)]

mod checked;
mod codes;
mod faults;
mod inputs;
mod instructions;
mod laws;
mod lines;
mod listings;
mod operands;
mod tables;
mod traps;

pub use checked::run_checked;
pub use codes::{Code, MAX_INSTRUCTIONS};
pub use faults::CodeFault;
pub use inputs::InputNumber;
pub use instructions::Instr;
pub use laws::parses_always;
pub use listings::{print, read};
pub use tables::{Inputs, TypeTable};
pub use traps::{Trap, TrapKind};
