//! The derivative from its code, with each instruction tested.

ghost use Rattle.std.specs.Prelude.{◌≡◌, length, true, Some};
ghost use Rattle.fixed.specs.Fractions.{bits_of};
ghost use Rattle.derivative.specs.Slope.{slope_of};
ghost use Rattle.energy_program.specs.Programs.{program_tree};
ghost use Rattle.kernel_code.specs.Tables.{inputs_of};
ghost use Rattle.potential.specs.CodeSlopes.{is_operation};
ghost use Rattle.run_laws.specs.Outcomes.{fault_of, operation_fault, outcome_of, where_given};
ghost use Rattle.run_laws.specs.SlopeBounds.{given_bounded};

use crate::tested_run::kernels::CodeKernel;
use crate::tested_run::slope_faults::SlopeFault;
use crate::tested_run::slopes::TestedSlope;
use fixed::Fx;
use kernel_code::{Trap, TrapKind, run_checked};
use std::alloc::Allocator;

/// The instruction index and the fault of an operation's trap.
fn operation_fault(trap: Trap) -> SlopeFault
    requires { is_operation trap.kind ≡ true }
    ensures { operation_fault trap.pc trap.kind ≡ Some result }
{
    match trap.kind {
        TrapKind::Operation(fault) => SlopeFault { pc: trap.pc, fault },
        TrapKind::MissingOperand
        | TrapKind::MissingLocal
        | TrapKind::MissingInput
        | TrapKind::StackFull
        | TrapKind::BadEnd => unreachable!(),
    }
}

impl<A: Allocator> TestedSlope for CodeKernel<A> {
    ghost types = { λ k. length k.table.rows };

    ghost slope = { λ k a b r. where_given (outcome_of (bits_of k.table.frac) k.parts.code (inputs_of k.table a b r))
        (slope_of (bits_of k.table.frac) (inputs_of k.table a b r) (program_tree k.parts.energy)) };

    ghost fault = { λ k a b r. fault_of (outcome_of (bits_of k.table.frac) k.parts.code (inputs_of k.table a b r)) };

    ghost bounded = { λ k a b r g e. given_bounded k.table.frac (inputs_of k.table a b r) (program_tree k.parts.energy)
        (outcome_of (bits_of k.table.frac) k.parts.code (inputs_of k.table a b r)) g e };

    fn slope(&self, a: u32, b: u32, r: Fx) -> Result<Fx, SlopeFault> {
        match run_checked(&self.parts.code, &self.table, a, b, r) {
            Ok(slope) => Ok(slope),
            Err(trap) => Err(operation_fault(trap)),
        }
    }
}
