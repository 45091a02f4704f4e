//! Dead-code elimination: removes the definitions that a body doesn't use.

ghost use Rattle.std.specs.Prelude.{◌≡◌, ◌≤◌, ◌+◌, ◌++◌, ◌∷◌, List, map, IfOk, OnOk};
ghost use Rattle.energy_program.specs.Tree.{Tree, tree_of};
ghost use Rattle.derivative.specs.Derive as d;
ghost use Rattle.derivative.specs.Derive.{parts_of};
ghost use Rattle.derivative.specs.Used as u;

use crate::parts::Parts;
use energy_program::{Expr, is_marked, marks_of};
use std::alloc::{AllocError, Allocator};

// The new number of a definition: the number of marked definitions before it.
fn rank(marks: &[bool], number: u32) -> u32
    ensures value { result ≡ u.rank marks.now number }
    ensures bound { result ≤ number }
{
    if number == 0 {
        return 0;
    }
    let below = rank(marks, number - 1);
    if is_marked(marks, (number - 1) as usize) {
        below + 1
    } else {
        below
    }
}

// Gives the definitions that a tree uses their new numbers. The first part comes last, in tail position, so that the
// optimised code needs a stack only as deep as the nesting of the other parts, and not as a sum has terms.
fn renumber<A: Allocator>(marks: &[bool], tree: &mut Expr<A>)
    ensures { tree_of tree.new ≡ u.renumbered (u.rank marks.now) (tree_of tree.old) }
{
    match tree {
        Expr::Number(_, _, _) | Expr::Input(_) => {}
        Expr::Definition(number) => *number = rank(marks, *number),
        Expr::Negated(part) => renumber(marks, part),
        Expr::Applied(_, part) => renumber(marks, part),
        Expr::Power(part, _) => renumber(marks, part),
        Expr::Binary(_, left, right) => {
            renumber(marks, right);
            renumber(marks, left);
        }
        Expr::Select(condition, chosen, otherwise) => {
            renumber(marks, otherwise);
            renumber(marks, chosen);
            renumber(marks, condition);
        }
    }
}

// The tree, with the new numbers of definitions.
fn renumbered<A: Allocator>(marks: &[bool], mut tree: Expr<A>) -> Expr<A>
    ensures { tree_of result ≡ u.renumbered (u.rank marks.now) (tree_of tree) }
{
    renumber(marks, &mut tree);
    tree
}

// Appends the definition with this number, renumbered, if it is marked.
fn keep<A: Allocator>(
    left: &mut Vec<Expr<A>, A>,
    marks: &[bool],
    number: usize,
    definition: Expr<A>,
) -> Result<(), AllocError>
    ensures { OnOk result ((ds : List Tree) → map tree_of left.new.items ++ u.kept_from marks.now (number + 1) ds
        ≡ map tree_of left.old.items ++ u.kept_from marks.now number (tree_of definition ∷ ds)) }
{
    if !is_marked(marks, number) {
        return Ok(());
    }
    left.push(renumbered(marks, definition))?;
    Ok(())
}

// The marked definitions, renumbered.
fn kept<A: Allocator + Copy>(
    alloc: A,
    marks: &[bool],
    definitions: Vec<Expr<A>, A>,
) -> Result<Vec<Expr<A>, A>, AllocError>
    ensures { IfOk result (λ v. map tree_of v.items ≡ u.kept_from marks.now 0 (map tree_of definitions.items)) }
{
    let mut left = Vec::new(alloc);
    let mut number = 0;
    for definition in definitions {
        keep(&mut left, marks, number, definition)?;
        number += 1;
    }
    Ok(left)
}

/// The body and the definitions that it uses, directly or through another, renumbered in order.
pub fn pruned<A: Allocator + Copy>(alloc: A, parts: Parts<A>) -> Result<Parts<A>, AllocError>
    ensures { IfOk result (λ p. parts_of p ≡ d.pruned (parts_of parts)) }
{
    let Parts { body, definitions } = parts;
    let marks = marks_of(alloc, &body, &definitions)?;
    let definitions = kept(alloc, &marks, definitions)?;
    let body = renumbered(&marks, body);
    Ok(Parts { body, definitions })
}
