//! The compiler's entry: checks the size of a program's code, then generates it.

ghost use Rattle.std.specs.Prelude.{◌≡◌, ◌<◌, ◌≤◌, ℤ, IfOk, true, List, length};
ghost use Rattle.fixed.specs.Fractions.{bits_of};
ghost use Rattle.energy_program.specs.Faults.{Gives};
ghost use Rattle.kernel_code.specs.Paths.{MissesNothing};
ghost use Rattle.energy_program.specs.Programs.{body_of, definitions_of, input_count_of};
ghost use Rattle.energy_program.specs.Uses.{marks_of};
ghost use Rattle.kernel_compiler.specs.Code.{program_code, is_within_limits, compiled};
ghost use Rattle.kernel_compiler.specs.Compiled.{Computes, IsTooLarge};

use crate::code_limits::is_within_limits;
use crate::emit::{emit, emit_definitions};
use energy_program::{ExprFault, Program, marks_of};
use fallible::Failure;
use fixed::Frac;
use kernel_code::{Code, Instr};
use std::alloc::{AllocError, Allocator};

/// The instructions of a program whose code is within the limits.
fn instructions_of<A: Allocator + Copy>(
    alloc: A,
    frac: Frac,
    program: &Program<A>,
    marks: &[bool],
) -> Result<Vec<Instr, A>, AllocError>
    requires marked { marks.now ≡ marks_of (body_of program.now) (definitions_of program.now) }
    requires within { is_within_limits (program_code (bits_of frac) (body_of program.now) (definitions_of program.now)) ≡ true }
    ensures { IfOk result (λ code. code.items ≡ program_code (bits_of frac) (body_of program.now) (definitions_of program.now)) }
{
    let mut instructions = Vec::new(alloc);
    emit_definitions(&mut instructions, frac, marks, 0, &program.definitions)?;
    emit(&mut instructions, frac, &program.body)?;
    Ok(instructions)
}

/// The code of a program whose numbers have these fraction bits.
///
/// The code first computes the definitions that the body uses, directly or through another, even if only a branch that
/// isn't taken uses them: the last definition first, each once and into its own local. Other definitions aren't
/// computed. `select` evaluates its condition and the branch chosen. Powers use binary exponentiation. The second
/// operand of an operation is computed first if it needs more than 47 stack values, and more than the first operand. So
/// code within the limit of instructions never has more than 63 values on the stack, and depth is never an error (after
/// Sethi and Ullman, The generation of optimal code for arithmetic expressions, 1970).
///
/// Errors: `TooLarge` if this code has more than 16,384 instructions; `Memory` if an allocation fails; no others.
pub fn compile<A: Allocator + Copy>(
    alloc: A,
    frac: Frac,
    program: &Program<A>,
) -> Result<Code<A>, Failure<ExprFault<A>>>
    // A run's value is the tree's. A run's fault is an operation's, and then the tree or a used definition has no
    // value.
    ensures value { IfOk result (λ code. (inputs : List ℤ) → input_count_of program.now ≤ length inputs
        → Computes (bits_of frac) (body_of program.now) (definitions_of program.now) code inputs) }
    // No run lacks an operand, a local or an input, overflows the stack, or ends with other than one value.
    ensures paths { IfOk result (λ code. MissesNothing code (input_count_of program.now)) }
    // The result, error included, is determined by the program's trees.
    ensures exact { Gives (λ code. code) result (compiled (bits_of frac) (body_of program.now) (definitions_of program.now)) }
    ensures refused { IsTooLarge result → 16384 < length (program_code (bits_of frac) (body_of program.now) (definitions_of program.now)) }
{
    let marks = marks_of(alloc, &program.body, &program.definitions)?;
    if !is_within_limits(alloc, program, &marks)? {
        return Err(Failure::Refused(ExprFault::TooLarge));
    }
    let instructions = instructions_of(alloc, frac, program, &marks)?;
    match Code::new(instructions) {
        Ok(code) => Ok(code),
        Err(_) => unreachable!(),
    }
}
