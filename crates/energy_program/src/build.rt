// Constructors of syntax trees. Boxing happens here and not in the recursive functions that build trees, so that their
// stack frames stay small.

ghost use Rattle.std.specs.Prelude.{◌≡◌, pos, IfOk};
ghost use Rattle.fixed.specs.Constants.{exactly};
ghost use Rattle.energy_program.specs.Tree as t;
ghost use Rattle.energy_program.specs.Tree.{tree_of};

use crate::trees::Expr;
use fixed::{Function, Fx, Operator};
use std::alloc::{AllocError, Allocator};

/// A tree that was built, or a failed allocation.
pub type Built<A> = Result<Expr<A>, AllocError>;

/// The number 0. It also takes the place of a tree that is written later.
pub fn blank<A: Allocator>() -> Expr<A>
    ensures { tree_of result ≡ t.Number (exactly (pos 0)) }
{
    Expr::Number(Fx::from_raw(0), 0, 0)
}

/// The negative of a tree.
#[inline(never)]
pub fn negated<A: Allocator + Copy>(alloc: A, part: Expr<A>) -> Built<A>
    ensures { IfOk result (λ e. tree_of e ≡ t.Negated (tree_of part)) }
{
    Ok(Expr::Negated(Box::new(alloc, part)?))
}

/// A binary operation on two trees.
#[inline(never)]
pub fn binary<A: Allocator + Copy>(
    alloc: A,
    operator: Operator,
    left: Expr<A>,
    right: Expr<A>,
) -> Built<A>
    ensures { IfOk result (λ e. tree_of e ≡ t.Binary operator (tree_of left) (tree_of right)) }
{
    let left = Box::new(alloc, left)?;
    let right = Box::new(alloc, right)?;
    Ok(Expr::Binary(operator, left, right))
}

/// A function applied to a tree.
#[inline(never)]
pub fn applied<A: Allocator + Copy>(alloc: A, function: Function, part: Expr<A>) -> Built<A>
    ensures { IfOk result (λ e. tree_of e ≡ t.Applied function (tree_of part)) }
{
    Ok(Expr::Applied(function, Box::new(alloc, part)?))
}

/// A tree raised to a power.
#[inline(never)]
pub fn power<A: Allocator + Copy>(alloc: A, part: Expr<A>, exponent: i8) -> Built<A>
    ensures { IfOk result (λ e. tree_of e ≡ t.Power (tree_of part) exponent) }
{
    Ok(Expr::Power(Box::new(alloc, part)?, exponent))
}

/// A choice between two trees: `chosen` if the condition isn't 0, else `otherwise`.
#[inline(never)]
pub fn select<A: Allocator + Copy>(
    alloc: A,
    condition: Expr<A>,
    chosen: Expr<A>,
    otherwise: Expr<A>,
) -> Built<A>
    ensures { IfOk result (λ e. tree_of e ≡ t.Select (tree_of condition) (tree_of chosen) (tree_of otherwise)) }
{
    let condition = Box::new(alloc, condition)?;
    let chosen = Box::new(alloc, chosen)?;
    let otherwise = Box::new(alloc, otherwise)?;
    Ok(Expr::Select(condition, chosen, otherwise))
}
