//! Copies of trees with the numbers of definitions shifted.

ghost use Rattle.std.specs.Prelude.{◌≡◌, IfOk, IsTrue, OnOk};
ghost use Rattle.energy_program.specs.Tree.{tree_of};
ghost use Rattle.derivative.specs.Written as w;

use energy_program::{Built, Expr, applied, binary, blank, negated, power, select};
use std::alloc::{AllocError, Allocator};

// Overwrites `out` with a copy of the tree in which every use of a definition has its number raised by `by`. The first
// part comes last, in tail position, so that the optimised code needs a stack only as deep as the nesting of the other
// parts, and not as a sum has terms.
fn move_into<A: Allocator + Copy>(
    alloc: A,
    by: u32,
    tree: &Expr<A>,
    out: &mut Expr<A>,
) -> Result<(), AllocError>
    requires { IsTrue (w.is_writable by (tree_of tree.now)) }
    ensures { OnOk result (tree_of out.new ≡ w.moved by (tree_of tree.now)) }
{
    match tree {
        Expr::Number(value, low, high) => *out = Expr::Number(*value, *low, *high),
        Expr::Input(input) => *out = Expr::Input(*input),
        Expr::Definition(number) => *out = Expr::Definition(by + *number),
        Expr::Negated(part) => {
            *out = negated(alloc, blank())?;
            if let Expr::Negated(copy) = out {
                return move_into(alloc, by, part, copy);
            }
        }
        Expr::Binary(operator, left, right) => {
            *out = binary(alloc, *operator, blank(), blank())?;
            if let Expr::Binary(_, first, second) = out {
                move_into(alloc, by, right, second)?;
                return move_into(alloc, by, left, first);
            }
        }
        Expr::Applied(function, part) => {
            *out = applied(alloc, *function, blank())?;
            if let Expr::Applied(_, copy) = out {
                return move_into(alloc, by, part, copy);
            }
        }
        Expr::Power(part, exponent) => {
            *out = power(alloc, blank(), *exponent)?;
            if let Expr::Power(copy, _) = out {
                return move_into(alloc, by, part, copy);
            }
        }
        Expr::Select(condition, chosen, otherwise) => {
            *out = select(alloc, blank(), blank(), blank())?;
            if let Expr::Select(first, second, third) = out {
                move_into(alloc, by, otherwise, third)?;
                move_into(alloc, by, chosen, second)?;
                return move_into(alloc, by, condition, first);
            }
        }
    }
    Ok(())
}

/// A copy of the tree in which every use of a definition has its number raised by `by`.
pub fn moved<A: Allocator + Copy>(alloc: A, by: u32, tree: &Expr<A>) -> Built<A>
    requires { IsTrue (w.is_writable by (tree_of tree.now)) }
    ensures { IfOk result (λ e. tree_of e ≡ w.moved by (tree_of tree.now)) }
{
    let mut copy = blank();
    move_into(alloc, by, tree, &mut copy)?;
    Ok(copy)
}
