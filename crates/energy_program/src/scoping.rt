//! Scope checks: every use in a program's trees is an input or a later definition.

ghost use Rattle.std.specs.Prelude.{◌≡◌, ◌≤◌, ◌+◌, ◌&&◌, length, map, nat_le, is_some, IfSome};
ghost use Rattle.energy_program.specs.Programs.{trees_of};
ghost use Rattle.energy_program.specs.Tree.{are_scoped, variable_count, is_exponent, is_scoped, tree_of};

use crate::programs::{MAX_DEFINITIONS, Program};
use crate::trees::Expr;
use crate::variables::{MAX_GLOBALS, MAX_PARAMETERS};
use std::alloc::Allocator;

fn is_exponent(exponent: i8) -> bool
    ensures { result ≡ is_exponent exponent }
{
    if exponent > 0 {
        exponent <= 33
    } else {
        exponent != 0 && exponent >= -32
    }
}

// Whether every input number in the tree is below `inputs`, every definition number is in `first..end`, and every
// exponent is allowed.
fn is_scoped<A: Allocator>(inputs: u32, first: usize, end: usize, tree: &Expr<A>) -> bool
    ensures { result ≡ is_scoped inputs first end (tree_of tree.now) }
{
    match tree {
        Expr::Number(_, _, _) => true,
        Expr::Input(input) => *input < inputs,
        Expr::Definition(number) => first <= *number as usize && (*number as usize) < end,
        Expr::Negated(part) | Expr::Applied(_, part) => is_scoped(inputs, first, end, part),
        Expr::Binary(_, left, right) => is_scoped(inputs, first, end, left)
            && is_scoped(inputs, first, end, right),
        Expr::Power(part, exponent) => is_exponent(*exponent)
            && is_scoped(inputs, first, end, part),
        Expr::Select(condition, chosen, otherwise) => {
            is_scoped(inputs, first, end, condition)
                && (is_scoped(inputs, first, end, chosen)
                    && is_scoped(inputs, first, end, otherwise))
        }
    }
}

fn are_scoped<A: Allocator>(inputs: u32, number: usize, definitions: &[Expr<A>]) -> bool
    requires { number + length definitions.now ≤ 128 }
    ensures { result ≡ are_scoped inputs number (map tree_of definitions.now) }
{
    match definitions {
        [] => true,
        [first, later @ ..] => {
            is_scoped(inputs, number + 1, number + (1 + later.len()), first)
                && are_scoped(inputs, number + 1, later)
        }
    }
}

// Whether a body and definitions form a program with this number of parameters per particle and of globals.
fn is_program<A: Allocator>(
    body: &Expr<A>,
    definitions: &[Expr<A>],
    parameters: u32,
    globals: u32,
) -> bool
    ensures { result ≡ (nat_le (length definitions.now) 128 && nat_le parameters 8 && nat_le globals 16
        && is_scoped (variable_count parameters globals) 0 (length definitions.now) (tree_of body.now)
        && are_scoped (variable_count parameters globals) 0 (map tree_of definitions.now)) }
{
    if definitions.len() > MAX_DEFINITIONS
        || parameters as usize > MAX_PARAMETERS
        || globals as usize > MAX_GLOBALS
    {
        return false;
    }
    let inputs = 1 + 2 * parameters + globals;
    is_scoped(inputs, 0, definitions.len(), body) && are_scoped(inputs, 0, definitions)
}

impl<A: Allocator> Program<A> {
    /// The program with this body and these definitions, for `parameters` parameters per particle and `globals`
    /// globals. `None` if there are more than 128 definitions, 8 parameters or 16 globals, or if a tree uses an input
    /// out of range, a definition that isn't a later one, or an exponent of 0, below -32 or above 33.
    pub fn new(
        body: Expr<A>,
        definitions: Vec<Expr<A>, A>,
        parameters: u32,
        globals: u32,
    ) -> Option<Program<A>>
        ensures trees { IfSome result (λ p. trees_of p ≡ (tree_of body, map tree_of definitions.items)) }
        ensures parameters { IfSome result (λ p. p.parameters ≡ parameters) }
        ensures globals { IfSome result (λ p. p.globals ≡ globals) }
        ensures made { is_some result ≡ (nat_le (length definitions.items) 128 && nat_le parameters 8
            && nat_le globals 16 && is_scoped (variable_count parameters globals) 0 (length definitions.items)
            (tree_of body) && are_scoped (variable_count parameters globals) 0 (map tree_of definitions.items)) }
    {
        if is_program(&body, &definitions, parameters, globals) {
            Some(Program {
                body,
                definitions,
                parameters,
                globals,
            })
        } else {
            None
        }
    }
}
