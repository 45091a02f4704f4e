ghost use Rattle.std.specs.Prelude.{◌≡◌, List, ℤ, IfOk};
ghost use Rattle.fixed.specs.Fractions.{bits_of};
ghost use Rattle.energy_program.specs.Faults.{Gives};
ghost use Rattle.energy_program.specs.Programs.{program_tree, trees_of};
ghost use Rattle.energy_program.specs.Value.{value_of};
ghost use Rattle.derivative.specs.Derive.{parts_of, pruned, slope_program, with_all};
ghost use Rattle.derivative.specs.Slope.{slope_of};
ghost use Rattle.derivative.specs.Used.{AllNeeded};

use crate::parts::Parts;
use crate::prune::pruned;
use crate::slopes::with_all;
use energy_program::{ExprFault, MAX_DEFINITIONS, Program};
use fallible::Failure;
use fixed::Frac;
use std::alloc::{AllocError, Allocator};

/// The program of a program's derivative with respect to the distance, in kJ/mol/nm. Constants have the given fraction
/// bits.
///
/// Its definitions are the program's definitions and their derivatives, as far as the derivative uses them, directly or
/// through another. So definitions stay shared, and the derivative doesn't grow exponentially with their nesting. A
/// subexpression that doesn't depend on the distance has derivative 0, and isn't evaluated for it. The derivative of
/// `min`, `max` and `select` is a choice between the derivatives of their parts; the derivative of `abs` is its
/// argument's derivative times 1 or -1, so that no derivative is written twice.
///
/// Errors: `TooLarge` if more than 128 definitions would be needed; `Memory` if an allocation fails.
#[tactic(auto, using(crate::proofs::Final::few, crate::proofs::Final::many))]
pub fn derive<A: Allocator + Copy>(
    alloc: A,
    frac: Frac,
    program: &Program<A>,
) -> Result<Program<A>, Failure<ExprFault<A>>>
    // Its value is the specified slope, and both are undefined on the same inputs.
    ensures value { IfOk result (λ p. (inputs : List ℤ)
        → value_of (bits_of frac) inputs (program_tree p) ≡ slope_of (bits_of frac) inputs (program_tree program.now)) }
    // The body uses each definition, directly or through another.
    ensures needed { IfOk result (λ p. AllNeeded (trees_of p).0 (trees_of p).1) }
    ensures parameters { IfOk result (λ p. p.parameters ≡ program.now.parameters) }
    ensures globals { IfOk result (λ p. p.globals ≡ program.now.globals) }
    // The result, error included, is determined by the program's trees.
    ensures exact { Gives trees_of result (slope_program (bits_of frac) (trees_of program.now)) }
{
    let slope = needed_parts(alloc, frac, program)?;
    if slope.definitions.len() > MAX_DEFINITIONS {
        return Err(Failure::Refused(ExprFault::TooLarge));
    }
    Ok(Program {
        body: slope.body,
        definitions: slope.definitions,
        parameters: program.parameters,
        globals: program.globals,
    })
}

// The body of the derivative, and only the definitions that it needs.
fn needed_parts<A: Allocator + Copy>(
    alloc: A,
    frac: Frac,
    program: &Program<A>,
) -> Result<Parts<A>, AllocError>
    ensures { IfOk result (λ p. parts_of p ≡ pruned (with_all (bits_of frac) (trees_of program.now))) }
{
    let whole = with_all(alloc, frac, program)?;
    pruned(alloc, whole)
}
