//! The rows of the table of derivatives: builds the derivative of an operation from the derivatives of its parts. `u`
//! and `v` are the parts, `du` and `dv` their derivatives. The parts are copied with their definitions' numbers raised
//! by `by`.

ghost use Rattle.std.specs.Prelude.{◌≡◌, ◌&&◌, pos, true, false, IfOk, IsTrue, OnOk};
ghost use Rattle.fixed.specs.Arithmetic.{one};
ghost use Rattle.fixed.specs.Constants.{exactly};
ghost use Rattle.fixed.specs.Fractions.{bits_of};
ghost use Rattle.energy_program.specs.Tree as t;
ghost use Rattle.energy_program.specs.Tree.{is_exponent, tree_of};
ghost use Rattle.derivative.specs.Written as w;
ghost use Rattle.derivative.specs.Written.{choice_slope_tree, is_writable, operation_slope_tree, operation_tree, product_tree, quotient_tree, applied_tree, power_tree, unless_free};

use crate::moved::moved;
use energy_program::{Built, Expr, applied, binary, blank, negated, power, select};
use fixed::{FlatFunction, Frac, Function, Fx, Operator};
use std::alloc::{AllocError, Allocator};
use std::mem;

/// The derivative of a tree, and whether it is 0 because the tree doesn't depend on the distance.
#[derive(Drop)]
pub struct Slope<A: Allocator> {
    /// The expression of the derivative.
    pub tree: Expr<A>,
    /// Whether the tree is free of the distance.
    pub free: bool,
}

/// The derivative of a tree that is free of the distance: 0.
pub fn zero<A: Allocator>() -> Slope<A>
    ensures tree { tree_of result.tree ≡ t.Number (exactly (pos 0)) }
    ensures free { result.free ≡ true }
{
    Slope {
        tree: blank(),
        free: true,
    }
}

/// Marks a tree as the derivative of one that depends on the distance.
pub fn varying<A: Allocator>(tree: Expr<A>) -> Slope<A>
    ensures tree { tree_of result.tree ≡ tree_of tree }
    ensures free { result.free ≡ false }
{
    Slope { tree, free: false }
}

/// The constant with this raw value.
pub fn exact<A: Allocator>(raw: i64) -> Expr<A>
    ensures { tree_of result ≡ t.Number (exactly raw) }
{
    Expr::Number(Fx::from_raw(raw), 0, 0)
}

// The constant `n`.
fn whole_number<A: Allocator>(frac: Frac, n: u8) -> Expr<A>
    ensures { tree_of result ≡ w.whole_number (bits_of frac) n }
{
    exact(i64::from(n) * frac.one())
}

// The expression that is 1 if `above` is at least `below`, else 0.
fn is_at_least<A: Allocator + Copy>(alloc: A, by: u32, above: &Expr<A>, below: &Expr<A>) -> Built<A>
    requires above { IsTrue (is_writable by (tree_of above.now)) }
    requires below { IsTrue (is_writable by (tree_of below.now)) }
    ensures { IfOk result (λ e. tree_of e
        ≡ t.Applied (Function.Flat FlatFunction.Step)
        (t.Binary Operator.Subtract (w.moved by (tree_of above.now)) (w.moved by (tree_of below.now)))) }
{
    let above = moved(alloc, by, above)?;
    let below = moved(alloc, by, below)?;
    applied(
        alloc,
        Function::Flat(FlatFunction::Step),
        binary(alloc, Operator::Subtract, above, below)?,
    )
}

fn product_row<A: Allocator + Copy>(
    alloc: A,
    by: u32,
    u: &Expr<A>,
    v: &Expr<A>,
    du: Slope<A>,
    dv: Slope<A>,
) -> Built<A>
    requires u { IsTrue (is_writable by (tree_of u.now)) }
    requires v { IsTrue (is_writable by (tree_of v.now)) }
    ensures { IfOk result (λ e. tree_of e
        ≡ product_tree du.free dv.free (w.moved by (tree_of u.now)) (w.moved by (tree_of v.now)) (tree_of du.tree) (tree_of dv.tree)) }
{
    if du.free {
        return binary(alloc, Operator::Multiply, moved(alloc, by, u)?, dv.tree);
    }
    let factor = moved(alloc, by, v)?;
    let left = binary(alloc, Operator::Multiply, du.tree, factor)?;
    if dv.free {
        return Ok(left);
    }
    let right = binary(alloc, Operator::Multiply, moved(alloc, by, u)?, dv.tree)?;
    binary(alloc, Operator::Add, left, right)
}

fn quotient_row<A: Allocator + Copy>(
    alloc: A,
    by: u32,
    u: &Expr<A>,
    v: &Expr<A>,
    du: Slope<A>,
    dv: Slope<A>,
) -> Built<A>
    requires u { IsTrue (is_writable by (tree_of u.now)) }
    requires v { IsTrue (is_writable by (tree_of v.now)) }
    ensures { IfOk result (λ e. tree_of e
        ≡ quotient_tree du.free dv.free (w.moved by (tree_of u.now)) (w.moved by (tree_of v.now)) (tree_of du.tree) (tree_of dv.tree)) }
{
    let divisor = moved(alloc, by, v)?;
    if dv.free {
        return binary(alloc, Operator::Divide, du.tree, divisor);
    }
    let right = binary(alloc, Operator::Multiply, moved(alloc, by, u)?, dv.tree)?;
    let square = power(alloc, divisor, 2)?;
    if du.free {
        return binary(alloc, Operator::Divide, negated(alloc, right)?, square);
    }
    let factor = moved(alloc, by, v)?;
    let left = binary(alloc, Operator::Multiply, du.tree, factor)?;
    let dividend = binary(alloc, Operator::Subtract, left, right)?;
    binary(alloc, Operator::Divide, dividend, square)
}

// The derivative of a binary operation on `u` and `v`, given their derivatives.
fn operation_row<A: Allocator + Copy>(
    alloc: A,
    by: u32,
    operator: Operator,
    u: &Expr<A>,
    v: &Expr<A>,
    du: Slope<A>,
    dv: Slope<A>,
) -> Built<A>
    requires u { IsTrue (is_writable by (tree_of u.now)) }
    requires v { IsTrue (is_writable by (tree_of v.now)) }
    ensures { IfOk result (λ e. tree_of e
        ≡ operation_tree operator du.free dv.free (w.moved by (tree_of u.now)) (w.moved by (tree_of v.now))
        (tree_of du.tree) (tree_of dv.tree)) }
{
    match operator {
        Operator::Add => binary(alloc, Operator::Add, du.tree, dv.tree),
        Operator::Subtract => binary(alloc, Operator::Subtract, du.tree, dv.tree),
        Operator::Multiply => product_row(alloc, by, u, v, du, dv),
        Operator::Divide => quotient_row(alloc, by, u, v, du, dv),
        Operator::Minimum => { select(alloc, is_at_least(alloc, by, v, u)?, du.tree, dv.tree) }
        Operator::Maximum => { select(alloc, is_at_least(alloc, by, u, v)?, du.tree, dv.tree) }
    }
}

fn function_row<A: Allocator + Copy>(
    alloc: A,
    frac: Frac,
    by: u32,
    function: Function,
    u: &Expr<A>,
    du: Expr<A>,
) -> Built<A>
    requires { IsTrue (is_writable by (tree_of u.now)) }
    ensures { IfOk result (λ e. tree_of e ≡ applied_tree (bits_of frac) function (w.moved by (tree_of u.now)) (tree_of du)) }
{
    match function {
        Function::SquareRoot => {
            let root = applied(alloc, Function::SquareRoot, moved(alloc, by, u)?)?;
            let twice = binary(alloc, Operator::Multiply, whole_number(frac, 2), root)?;
            binary(alloc, Operator::Divide, du, twice)
        }
        Function::Absolute => {
            let step = Function::Flat(FlatFunction::Step);
            let is_above = applied(alloc, step, moved(alloc, by, u)?)?;
            let above = exact(frac.one());
            let below = exact(-frac.one());
            let sign = select(alloc, is_above, above, below)?;
            binary(alloc, Operator::Multiply, sign, du)
        }
        Function::Flat(_) => Ok(blank()),
    }
}

// The derivative of the power `u^n` for the exponent n: `n*u^(n-1)*du`.
fn power_row<A: Allocator + Copy>(
    alloc: A,
    frac: Frac,
    by: u32,
    exponent: i8,
    u: &Expr<A>,
    du: Expr<A>,
) -> Built<A>
    requires exponent { IsTrue (is_exponent exponent) }
    requires u { IsTrue (is_writable by (tree_of u.now)) }
    ensures { IfOk result (λ e. tree_of e ≡ power_tree (bits_of frac) exponent (w.moved by (tree_of u.now)) (tree_of du)) }
{
    if exponent == 1 {
        return Ok(du);
    }
    let factor = whole_number(frac, exponent.unsigned_abs());
    if 0 < exponent {
        let lower = power(alloc, moved(alloc, by, u)?, exponent - 1)?;
        let product = binary(alloc, Operator::Multiply, factor, lower)?;
        binary(alloc, Operator::Multiply, product, du)
    } else {
        let higher = power(alloc, moved(alloc, by, u)?, 1 - exponent)?;
        let product = binary(alloc, Operator::Multiply, factor, du)?;
        negated(alloc, binary(alloc, Operator::Divide, product, higher)?)
    }
}

/// Overwrites a derivative with the derivative of a tree that is free of the distance: 0.
#[inline(never)]
pub fn reset<A: Allocator>(du: &mut Slope<A>)
    ensures tree { tree_of du.new.tree ≡ t.Number (exactly (pos 0)) }
    ensures free { du.new.free ≡ true }
{
    *du = zero();
}

/// Overwrites the derivative of a tree with the derivative of its negative.
#[inline(never)]
pub fn negate<A: Allocator + Copy>(alloc: A, du: &mut Slope<A>) -> Result<(), AllocError>
    ensures tree { OnOk result (tree_of du.new.tree ≡ unless_free du.old.free (t.Negated (tree_of du.old.tree))) }
    ensures free { OnOk result (du.new.free ≡ du.old.free) }
{
    let inner = mem::replace(du, zero());
    if inner.free {
        return Ok(());
    }
    *du = varying(negated(alloc, inner.tree)?);
    Ok(())
}

/// Overwrites the derivative of `u` with the derivative of a binary operation on `u` and `v`.
#[inline(never)]
pub fn operate<A: Allocator + Copy>(
    alloc: A,
    by: u32,
    operator: Operator,
    u: &Expr<A>,
    v: &Expr<A>,
    du: &mut Slope<A>,
    dv: Slope<A>,
) -> Result<(), AllocError>
    requires u { IsTrue (is_writable by (tree_of u.now)) }
    requires v { IsTrue (is_writable by (tree_of v.now)) }
    ensures tree { OnOk result (tree_of du.new.tree ≡ operation_slope_tree operator du.old.free dv.free
        (w.moved by (tree_of u.now)) (w.moved by (tree_of v.now)) (tree_of du.old.tree) (tree_of dv.tree)) }
    ensures free { OnOk result (du.new.free ≡ (du.old.free && dv.free)) }
{
    let first = mem::replace(du, zero());
    if first.free && dv.free {
        return Ok(());
    }
    *du = varying(operation_row(alloc, by, operator, u, v, first, dv)?);
    Ok(())
}

/// Overwrites the derivative of `u` with the derivative of a function's value.
#[inline(never)]
pub fn apply<A: Allocator + Copy>(
    alloc: A,
    frac: Frac,
    by: u32,
    function: Function,
    u: &Expr<A>,
    du: &mut Slope<A>,
) -> Result<(), AllocError>
    requires { IsTrue (is_writable by (tree_of u.now)) }
    ensures tree { OnOk result (tree_of du.new.tree
        ≡ unless_free du.old.free (applied_tree (bits_of frac) function (w.moved by (tree_of u.now)) (tree_of du.old.tree))) }
    ensures free { OnOk result (du.new.free ≡ du.old.free) }
{
    let inner = mem::replace(du, zero());
    if inner.free {
        return Ok(());
    }
    *du = varying(function_row(alloc, frac, by, function, u, inner.tree)?);
    Ok(())
}

/// Overwrites the derivative of `u` with the derivative of a power.
#[inline(never)]
pub fn raise<A: Allocator + Copy>(
    alloc: A,
    frac: Frac,
    by: u32,
    exponent: i8,
    u: &Expr<A>,
    du: &mut Slope<A>,
) -> Result<(), AllocError>
    requires exponent { IsTrue (is_exponent exponent) }
    requires u { IsTrue (is_writable by (tree_of u.now)) }
    ensures tree { OnOk result (tree_of du.new.tree
        ≡ unless_free du.old.free (power_tree (bits_of frac) exponent (w.moved by (tree_of u.now)) (tree_of du.old.tree))) }
    ensures free { OnOk result (du.new.free ≡ du.old.free) }
{
    let inner = mem::replace(du, zero());
    if inner.free {
        return Ok(());
    }
    *du = varying(power_row(alloc, frac, by, exponent, u, inner.tree)?);
    Ok(())
}

/// Overwrites the derivative of the first branch with the derivative of a choice. `is_free`: the condition is free of
/// the distance. A condition is never differentiated.
#[inline(never)]
pub fn choose<A: Allocator + Copy>(
    alloc: A,
    by: u32,
    condition: &Expr<A>,
    is_free: bool,
    du: &mut Slope<A>,
    dv: Slope<A>,
) -> Result<(), AllocError>
    requires { IsTrue (is_writable by (tree_of condition.now)) }
    ensures tree { OnOk result (tree_of du.new.tree ≡ choice_slope_tree is_free du.old.free dv.free
        (w.moved by (tree_of condition.now)) (tree_of du.old.tree) (tree_of dv.tree)) }
    ensures free { OnOk result (du.new.free ≡ (is_free && (du.old.free && dv.free))) }
{
    let first = mem::replace(du, zero());
    if is_free && first.free && dv.free {
        return Ok(());
    }
    *du = varying(select(alloc, moved(alloc, by, condition)?, first.tree, dv.tree)?);
    Ok(())
}
