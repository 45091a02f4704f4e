//! The size of code before it is generated: number of instructions and stack depth.

ghost use Rattle.std.specs.Prelude.{◌≡◌, ◌≤◌, ◌<◌, ◌+◌, ◌*◌, IsTrue, length, map, max, min};
ghost use Rattle.energy_program.specs.Tree.{tree_of, is_exponent};
ghost use Rattle.kernel_compiler.specs.Code.{power_code, raised_need, is_second_first, pair_need, stack_depth};
ghost use Rattle.kernel_compiler.specs.Sizes.{pair_size, raised_size, size, definitions_size, counted, IsEmittable, AllEmittable};

use energy_program::Expr;
use std::alloc::Allocator;

/// If the second operand needs more stack than this, and more than the first, it is computed first.
const DEEP: usize = 47;

/// Whether the second of two operands is computed first, given the stack depths that they need.
pub(crate) fn is_second_first(first: usize, second: usize) -> bool
    ensures { result ≡ is_second_first first second }
{
    first.max(DEEP) < second
}

/// The stack depth of an operation on two operands, saturating at 65.
fn pair_need(first: usize, second: usize) -> usize
    requires few { first ≤ 65 }
    requires few_more { second ≤ 65 }
    ensures exact { result ≡ min 65 (pair_need (is_second_first first second) first second) }
    ensures small { result ≤ 65 }
{
    let most = if is_second_first(first, second) {
        second.max(first + 1)
    } else {
        first.max(second + 1)
    };
    most.min(65)
}

/// The number of instructions that an operation adds to its operands' instructions.
fn pair_size(is_second_first: bool) -> usize
    ensures { result ≡ pair_size is_second_first }
{
    if is_second_first { 5 } else { 1 }
}

/// The stack depth of a power, apart from its base's code.
fn raised_need(exponent: i8) -> usize
    ensures exact { result ≡ raised_need exponent }
    ensures small { result ≤ 3 }
{
    if exponent < 0 { 3 } else { 2 }
}

/// The stack depth of an expression's code, saturating at 65.
pub(crate) fn stack_depth<A: Allocator>(e: &Expr<A>) -> usize
    ensures exact { result ≡ stack_depth (tree_of e.now) }
    ensures small { result ≤ 65 }
{
    match e {
        Expr::Number(_, _, _) | Expr::Input(_) | Expr::Definition(_) => 1,
        Expr::Negated(a) | Expr::Applied(_, a) => stack_depth(a),
        Expr::Binary(_, a, b) => pair_need(stack_depth(a), stack_depth(b)),
        Expr::Power(a, exponent) => stack_depth(a).max(raised_need(*exponent)),
        Expr::Select(condition, a, b) => stack_depth(condition).max(stack_depth(a).max(stack_depth(
            b,
        ))),
    }
}

/// The number of instructions that compute a power of the base.
#[tactic(auto, using(crate::proofs::Powers::sizes))]
fn power_size(exponent: u32) -> usize
    requires nonzero { 0 < exponent }
    requires small { exponent ≤ 64 }
    ensures exact { result ≡ length (power_code exponent) }
    ensures bound { result ≤ 3 * exponent }
{
    if exponent == 1 {
        1
    } else if exponent % 2 == 0 {
        power_size(exponent / 2) + 1
    } else {
        power_size(exponent / 2) + 3
    }
}

/// The number of instructions that raise the value on top of the stack.
fn raised_size(exponent: i8) -> usize
    requires { IsTrue (is_exponent exponent) }
    ensures { result ≡ raised_size exponent }
{
    let power = power_size(u32::from(exponent.unsigned_abs()));
    if exponent < 0 { power + 3 } else { power + 1 }
}

/// The number of instructions of an expression's code, saturating at 2^64 - 1.
pub(crate) fn count<A: Allocator>(e: &Expr<A>) -> usize
    requires { IsEmittable (tree_of e.now) }
    ensures { result ≡ counted (size (tree_of e.now)) }
{
    match e {
        Expr::Number(_, _, _) | Expr::Input(_) | Expr::Definition(_) => 1,
        Expr::Negated(a) | Expr::Applied(_, a) => count(a).saturating_add(1),
        Expr::Binary(_, a, b) => {
            let own = pair_size(is_second_first(stack_depth(a), stack_depth(b)));
            count(a).saturating_add(count(b)).saturating_add(own)
        }
        Expr::Power(a, exponent) => count(a).saturating_add(raised_size(*exponent)),
        Expr::Select(condition, a, b) => {
            let branches = count(a).saturating_add(count(b));
            count(condition).saturating_add(branches).saturating_add(2)
        }
    }
}

/// The number of instructions of the marked definitions among these, which are numbered from `number`, saturating at
/// 2^64 - 1.
pub(crate) fn definitions_count<A: Allocator>(
    marks: &[bool],
    number: usize,
    definitions: &[Expr<A>],
) -> usize
    requires all { number + length definitions.now ≤ length marks.now }
    requires operands { AllEmittable number (map tree_of definitions.now) }
    ensures { result ≡ counted (definitions_size number marks.now (map tree_of definitions.now)) }
{
    let [first, later @ ..] = definitions else {
        return 0;
    };
    let rest = definitions_count(marks, number + 1, later);
    if marks[number] {
        rest.saturating_add(count(first)).saturating_add(1)
    } else {
        rest
    }
}
