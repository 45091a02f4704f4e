// Builds resolved trees from parts. The constructors are kept out of the recursion, which is as deep as a sum has
// terms, so that its stack frames stay small.
ghost use Rattle.std.specs.Prelude.{◌≡◌};
ghost use Rattle.fallible.specs.Failures.{IsOrMemory};
ghost use Rattle.energy_program.specs.Tree as t;
ghost use Rattle.expr.specs.Uses.{Grows, GrowsThree, GrowsTwo};

use energy_program::{Exponent, Expr, ExprFault};
use fallible::{Failure, pair};
use fixed::{Function, Operator};
use std::alloc::Allocator;
use std::mem;

/// A boxed tree, or the first error. The box keeps a part that waits for others as small as a pointer.
pub type Part<A> = Result<Box<Expr<A>, A>, Failure<ExprFault<A>>>;

/// A boxed tree from a node whose children are boxed already.
#[inline(never)]
pub fn leaf<A: Allocator + Copy>(alloc: A, tree: Expr<A>) -> Part<A>
    ensures { IsOrMemory (λ e. e.value ≡ tree) result }
{
    Ok(Box::new(alloc, tree)?)
}

fn choice<A: Allocator + Copy>(
    alloc: A,
    condition: Part<A>,
    chosen: Part<A>,
    otherwise: Part<A>,
) -> Part<A>
    ensures { GrowsThree t.Select condition chosen otherwise result }
{
    let ((condition, chosen), otherwise) = pair(pair(condition, chosen), otherwise)?;
    leaf(alloc, Expr::Select(condition, chosen, otherwise))
}

// Takes a part, which is overwritten next.
fn taken<A: Allocator>(part: &mut Part<A>) -> Part<A>
    ensures { result ≡ part.old }
{
    mem::replace(part, Err(Failure::Memory))
}

/// Overwrites a part. The old part is dropped here, once for all callers.
#[inline(never)]
pub fn put<A: Allocator>(part: &mut Part<A>, made: Part<A>)
    ensures { part.new ≡ made }
{
    *part = made;
}

/// Overwrites a part with its negative.
#[inline(never)]
pub fn negate<A: Allocator + Copy>(alloc: A, part: &mut Part<A>)
    ensures { Grows t.Negated part.old part.new }
{
    match taken(part) {
        Ok(inner) => put(part, leaf(alloc, Expr::Negated(inner))),
        Err(fault) => put(part, Err(fault)),
    }
}

/// Overwrites the left part with a binary operation.
#[inline(never)]
pub fn operate<A: Allocator + Copy>(
    alloc: A,
    operator: Operator,
    left: &mut Part<A>,
    right: Part<A>,
)
    ensures { GrowsTwo (t.Binary operator) left.old right left.new }
{
    match pair(taken(left), right) {
        Ok((first, second)) => put(left, leaf(alloc, Expr::Binary(operator, first, second))),
        Err(fault) => put(left, Err(fault)),
    }
}

/// Overwrites a part with a function of it.
#[inline(never)]
pub fn apply<A: Allocator + Copy>(alloc: A, function: Function, part: &mut Part<A>)
    ensures { Grows (t.Applied function) part.old part.new }
{
    match taken(part) {
        Ok(inner) => put(part, leaf(alloc, Expr::Applied(function, inner))),
        Err(fault) => put(part, Err(fault)),
    }
}

/// Overwrites a part with a power of it.
#[inline(never)]
pub fn raise<A: Allocator + Copy>(alloc: A, base: &mut Part<A>, exponent: Exponent)
    ensures { Grows (λ x. t.Power x exponent.value) base.old base.new }
{
    match taken(base) {
        Ok(inner) => put(base, leaf(alloc, Expr::Power(inner, exponent.value))),
        Err(fault) => put(base, Err(fault)),
    }
}

/// Overwrites the condition with a choice.
#[inline(never)]
pub fn choose<A: Allocator + Copy>(
    alloc: A,
    condition: &mut Part<A>,
    chosen: Part<A>,
    otherwise: Part<A>,
)
    ensures { GrowsThree t.Select condition.old chosen otherwise condition.new }
{
    let made = choice(alloc, taken(condition), chosen, otherwise);
    put(condition, made);
}
