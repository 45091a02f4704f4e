//! The derivative of a whole program before pruning: its definitions are the derivatives of all definitions, followed
//! by copies of the definitions themselves.

ghost use Rattle.std.specs.Prelude.{◌≡◌, ◌&&◌, true, IfOk, IsTrue, OnOk, length, map};
ghost use Rattle.fixed.specs.Fractions.{bits_of};
ghost use Rattle.energy_program.specs.Tree as t;
ghost use Rattle.energy_program.specs.Tree.{tree_of};
ghost use Rattle.energy_program.specs.Programs.{trees_of};
ghost use Rattle.derivative.specs.Written as w;
ghost use Rattle.derivative.specs.Written.{IsFreeTable, choice_slope_tree, free_in, is_free_given, is_writable, operation_slope_tree, slope_tree, unless_free};
ghost use Rattle.derivative.specs.Derive.{parts_of, with_all};

use crate::moved::moved;
use crate::parts::Parts;
use crate::rows::{Slope, apply, choose, exact, negate, operate, raise, reset, varying, zero};
use energy_program::{Expr, Program};
use fixed::{Frac, Operator};
use std::alloc::{AllocError, Allocator};

// Whether the tree is free of the distance, if `free` holds that for each definition. The first part comes last, in tail
// position, so that the optimised code needs a stack only as deep as the nesting of the other parts.
fn is_free<A: Allocator>(free: &[bool], tree: &Expr<A>) -> bool
    ensures { result ≡ is_free_given (free_in free.now) (tree_of tree.now) }
{
    match tree {
        Expr::Number(_, _, _) => true,
        Expr::Input(input) => *input != 0,
        Expr::Definition(number) => is_free_definition(free, *number),
        Expr::Negated(part) => is_free(free, part),
        Expr::Binary(_, left, right) => is_free(free, right) && is_free(free, left),
        Expr::Applied(_, part) => is_free(free, part),
        Expr::Power(part, _) => is_free(free, part),
        Expr::Select(condition, chosen, otherwise) => {
            (is_free(free, otherwise) && is_free(free, chosen)) && is_free(free, condition)
        }
    }
}

// Whether a definition is free of the distance; true for a number past the end.
fn is_free_definition(free: &[bool], number: u32) -> bool
    ensures { result ≡ free_in free.now number }
{
    let number = number as usize;
    if number < free.len() {
        free[number]
    } else {
        true
    }
}

// Overwrites `du` with the derivative of a variable: 1 for the distance, else 0.
#[inline(never)]
fn input_slope<A: Allocator>(frac: Frac, input: u32, du: &mut Slope<A>)
    ensures tree { tree_of du.new.tree ≡ slope_tree (bits_of frac) (λ j. true) 0 (t.Input input) }
    ensures free { du.new.free ≡ is_free_given (λ j. true) (t.Input input) }
{
    if input != 0 {
        *du = zero();
    } else {
        *du = varying(exact(frac.one()));
    }
}

// Overwrites `du` with the derivative of a definition's use: the definition's derivative has the definition's old
// number.
#[inline(never)]
fn definition_slope<A: Allocator>(free: &[bool], number: u32, du: &mut Slope<A>)
    ensures tree { tree_of du.new.tree ≡ unless_free (free_in free.now number) (t.Definition number) }
    ensures free { du.new.free ≡ free_in free.now number }
{
    if is_free_definition(free, number) {
        *du = zero();
    } else {
        *du = varying(Expr::Definition(number));
    }
}

// Settings shared by the derivatives of all trees of a program.
#[derive(Drop)]
struct Setting<'a, A: Allocator> {
    alloc: A,
    frac: Frac,
    // For each definition, whether it is free of the distance.
    free: &'a [bool],
    // In copies of trees the numbers of definitions are raised by this number.
    by: u32,
}

// Overwrites `du` with the derivative of a tree. Each term of a sum needs a stack frame, so the frame is kept small:
// results are returned through references, and called functions aren't inlined.
#[cycle(differentiate)]
fn differentiate<A: Allocator + Copy>(
    setting: &Setting<A>,
    tree: &Expr<A>,
    du: &mut Slope<A>,
) -> Result<(), AllocError>
    requires { IsTrue (is_writable setting.now.by (tree_of tree.now)) }
    ensures tree { OnOk result (tree_of du.new.tree
        ≡ slope_tree (bits_of setting.now.frac) (free_in setting.now.free.now) setting.now.by (tree_of tree.now)) }
    ensures free { OnOk result (du.new.free ≡ is_free_given (free_in setting.now.free.now) (tree_of tree.now)) }
{
    match tree {
        Expr::Number(_, _, _) => {
            reset(du);
            Ok(())
        }
        Expr::Input(input) => {
            input_slope(setting.frac, *input, du);
            Ok(())
        }
        Expr::Definition(number) => {
            definition_slope(setting.free, *number, du);
            Ok(())
        }
        Expr::Negated(u) => {
            differentiate(setting, u, du)?;
            negate(setting.alloc, du)
        }
        Expr::Binary(operator, u, v) => {
            differentiate(setting, u, du)?;
            differentiate_operation(setting, *operator, u, v, du)
        }
        Expr::Applied(function, u) => {
            differentiate(setting, u, du)?;
            apply(setting.alloc, setting.frac, setting.by, *function, u, du)
        }
        Expr::Power(u, exponent) => {
            differentiate(setting, u, du)?;
            raise(setting.alloc, setting.frac, setting.by, *exponent, u, du)
        }
        Expr::Select(condition, u, v) => {
            differentiate(setting, u, du)?;
            differentiate_choice(setting, condition, v, du)
        }
    }
}

// Overwrites the derivative of `u` with the derivative of a binary operation on `u` and `v`.
#[cycle(differentiate)]
#[inline(never)]
fn differentiate_operation<A: Allocator + Copy>(
    setting: &Setting<A>,
    operator: Operator,
    u: &Expr<A>,
    v: &Expr<A>,
    du: &mut Slope<A>,
) -> Result<(), AllocError>
    requires u { IsTrue (is_writable setting.now.by (tree_of u.now)) }
    requires v { IsTrue (is_writable setting.now.by (tree_of v.now)) }
    ensures tree { OnOk result (tree_of du.new.tree
        ≡ operation_slope_tree operator du.old.free (is_free_given (free_in setting.now.free.now) (tree_of v.now))
        (w.moved setting.now.by (tree_of u.now)) (w.moved setting.now.by (tree_of v.now)) (tree_of du.old.tree)
        (slope_tree (bits_of setting.now.frac) (free_in setting.now.free.now) setting.now.by (tree_of v.now))) }
    ensures free { OnOk result (du.new.free ≡ (du.old.free && is_free_given (free_in setting.now.free.now) (tree_of v.now))) }
{
    let mut dv = zero();
    differentiate(setting, v, &mut dv)?;
    operate(setting.alloc, setting.by, operator, u, v, du, dv)
}

// Overwrites the derivative of the first branch with the derivative of a choice, whose second branch is `v`. The
// condition isn't differentiated.
#[cycle(differentiate)]
#[inline(never)]
fn differentiate_choice<A: Allocator + Copy>(
    setting: &Setting<A>,
    condition: &Expr<A>,
    v: &Expr<A>,
    du: &mut Slope<A>,
) -> Result<(), AllocError>
    requires condition { IsTrue (is_writable setting.now.by (tree_of condition.now)) }
    requires v { IsTrue (is_writable setting.now.by (tree_of v.now)) }
    ensures tree { OnOk result (tree_of du.new.tree
        ≡ choice_slope_tree (is_free_given (free_in setting.now.free.now) (tree_of condition.now)) du.old.free
        (is_free_given (free_in setting.now.free.now) (tree_of v.now)) (w.moved setting.now.by (tree_of condition.now))
        (tree_of du.old.tree) (slope_tree (bits_of setting.now.frac) (free_in setting.now.free.now) setting.now.by (tree_of v.now))) }
    ensures free { OnOk result (du.new.free ≡ (is_free_given (free_in setting.now.free.now) (tree_of condition.now)
        && (du.old.free && is_free_given (free_in setting.now.free.now) (tree_of v.now)))) }
{
    let mut dv = zero();
    differentiate(setting, v, &mut dv)?;
    let is_free = is_free(setting.free, condition);
    choose(setting.alloc, setting.by, condition, is_free, du, dv)
}

// The derivative of a tree. In copies of its parts the numbers of definitions are raised by `by`. Conditions aren't
// differentiated.
fn slope<A: Allocator + Copy>(
    alloc: A,
    frac: Frac,
    free: &[bool],
    by: u32,
    tree: &Expr<A>,
) -> Result<Slope<A>, AllocError>
    requires { IsTrue (is_writable by (tree_of tree.now)) }
    ensures tree { IfOk result (λ s. tree_of s.tree
        ≡ slope_tree (bits_of frac) (free_in free.now) by (tree_of tree.now)) }
    ensures free { IfOk result (λ s. s.free ≡ is_free_given (free_in free.now) (tree_of tree.now)) }
{
    let setting = Setting {
        alloc,
        frac,
        free,
        by,
    };
    let mut du = zero();
    differentiate(&setting, tree, &mut du)?;
    Ok(du)
}

// For each definition, whether it is free of the distance. Later definitions come first, as earlier ones use them.
fn free_table<A: Allocator + Copy>(
    alloc: A,
    program: &Program<A>,
) -> Result<Vec<bool, A>, AllocError>
    ensures { IfOk result (λ table. IsFreeTable table.items (trees_of program.now).1) }
{
    let definitions = program.definitions.as_slice();
    let count = definitions.len();
    let mut free = vec![in alloc; true; count]?;
    let mut i = count;
    while i > 0 {
        i -= 1;
        let is_free = is_free(&free, &definitions[i]);
        free[i] = is_free;
    }
    Ok(free)
}

// The derivatives of all definitions, followed by copies of all definitions. `by` is the number of definitions.
fn all_slopes<A: Allocator + Copy>(
    alloc: A,
    frac: Frac,
    free: &[bool],
    by: u32,
    program: &Program<A>,
) -> Result<Vec<Expr<A>, A>, AllocError>
    requires { by ≡ length program.now.definitions.items }
    ensures { IfOk result (λ v. map tree_of v.items
        ≡ w.all_slopes (bits_of frac) (free_in free.now) (trees_of program.now).1) }
{
    let definitions = program.definitions.as_slice();
    let mut written = Vec::new(alloc);
    for definition in definitions {
        let slope = slope(alloc, frac, free, by, definition)?;
        written.push(slope.tree)?;
    }
    for definition in definitions {
        written.push(moved(alloc, by, definition)?)?;
    }
    Ok(written)
}

/// The derivative of a program, with the derivatives of all definitions and all definitions.
pub fn with_all<A: Allocator + Copy>(
    alloc: A,
    frac: Frac,
    program: &Program<A>,
) -> Result<Parts<A>, AllocError>
    ensures { IfOk result (λ p. parts_of p ≡ with_all (bits_of frac) (trees_of program.now)) }
{
    let by = program.definitions.len() as u32;
    let free = free_table(alloc, program)?;
    let definitions = all_slopes(alloc, frac, &free, by, program)?;
    let body = slope(alloc, frac, &free, by, &program.body)?;
    Ok(Parts {
        body: body.tree,
        definitions,
    })
}
