//! Whether a program's code is within the limit of instructions. Trees are measured by recursion, and a refused
//! program's can be so deep that the stack overflows. So nodes are counted first, with pending trees on the heap: each
//! node has at least one instruction.

ghost use Rattle.std.specs.Prelude.{◌≡◌, ℕ, ◌+◌, ◌<◌, ◌≤◌, IfOk, false, length, map};
ghost use Rattle.energy_program.specs.Programs.{body_of, definitions_of};
ghost use Rattle.energy_program.specs.Tree.{tree_of};
ghost use Rattle.energy_program.specs.Uses.{marks_of};
ghost use Rattle.kernel_compiler.specs.Code.{is_within_limits, program_code};
ghost use Rattle.kernel_compiler.specs.Sizes.{definitions_size, size};

use crate::sizes::{count, definitions_count};
use energy_program::{Expr, Program};
use kernel_code::MAX_INSTRUCTIONS;
use std::alloc::{AllocError, Allocator};

/// Whether an expression has so few nodes that its code may be within the limit.
fn is_small<A: Allocator + Copy>(alloc: A, e: &Expr<A>) -> Result<bool, AllocError>
    ensures { IfOk result (λ small. small ≡ false → 16384 < size (tree_of e.now)) }
{
    let mut pending = Vec::new(alloc);
    pending.push(e)?;
    for _node in 0..MAX_INSTRUCTIONS {
        let Some(e) = pending.pop() else {
            return Ok(true);
        };
        match e {
            Expr::Number(_, _, _) | Expr::Input(_) | Expr::Definition(_) => {}
            Expr::Negated(a) | Expr::Applied(_, a) | Expr::Power(a, _) => pending.push(a)?,
            Expr::Binary(_, a, b) => {
                pending.push(a)?;
                pending.push(b)?;
            }
            Expr::Select(condition, a, b) => {
                pending.push(condition)?;
                pending.push(a)?;
                pending.push(b)?;
            }
        }
    }
    Ok(pending.is_empty())
}

/// Whether each marked definition among these, which are numbered from `number`, is small.
fn are_small<A: Allocator + Copy>(
    alloc: A,
    marks: &[bool],
    number: usize,
    definitions: &[Expr<A>],
) -> Result<bool, AllocError>
    requires { number + length definitions.now ≤ length marks.now }
    ensures { IfOk result (λ small. small ≡ false → 16384 < definitions_size number marks.now (map tree_of definitions.now)) }
{
    let [first, later @ ..] = definitions else {
        return Ok(true);
    };
    if !are_small(alloc, marks, number + 1, later)? {
        return Ok(false);
    }
    if marks[number] {
        is_small(alloc, first)
    } else {
        Ok(true)
    }
}

/// Whether the program's code is within the limits. Only its length can exceed them, since 128 definitions and two more
/// locals fit 256.
///
/// Errors: `AllocError` if an allocation fails; no others.
pub(crate) fn is_within_limits<A: Allocator + Copy>(
    alloc: A,
    program: &Program<A>,
    marks: &[bool],
) -> Result<bool, AllocError>
    requires { marks.now ≡ marks_of (body_of program.now) (definitions_of program.now) }
    ensures { IfOk result (λ within. (bits : ℕ)
        → is_within_limits (program_code bits (body_of program.now) (definitions_of program.now)) ≡ within) }
{
    if !are_small(alloc, marks, 0, &program.definitions)? {
        return Ok(false);
    }
    if !is_small(alloc, &program.body)? {
        return Ok(false);
    }
    let definitions = definitions_count(marks, 0, &program.definitions);
    Ok(definitions.saturating_add(count(&program.body)) <= MAX_INSTRUCTIONS)
}
