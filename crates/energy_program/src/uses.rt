//! Reachability of definitions: finds the definitions that a body needs.

ghost use Rattle.std.specs.Prelude.{◌≡◌, ℕ, true, if◌then◌else◌, IfOk, IsTrue, length, map};
ghost use Rattle.energy_program.specs.Tree.{are_scoped, is_scoped, tree_of};
ghost use Rattle.energy_program.specs.Uses as u;
ghost use Rattle.energy_program.specs.Uses.{Needs};

use crate::trees::Expr;
use std::alloc::{AllocError, Allocator};

// Marks the definitions that a tree uses directly. The last call needs no stack frame of its own, so it visits the
// operand in which long sums and products nest.
fn mark<A: Allocator>(marks: &mut [bool], tree: &Expr<A>)
    ensures { marks.new ≡ u.mark marks.old (tree_of tree.now) }
{
    match tree {
        Expr::Number(_, _, _) | Expr::Input(_) => {}
        Expr::Definition(number) => {
            let number = *number as usize;
            if number < marks.len() {
                marks[number] = true;
            }
        }
        Expr::Negated(part) | Expr::Applied(_, part) | Expr::Power(part, _) => mark(marks, part),
        Expr::Binary(_, left, right) => {
            mark(marks, right);
            mark(marks, left);
        }
        Expr::Select(condition, chosen, otherwise) => {
            mark(marks, otherwise);
            mark(marks, chosen);
            mark(marks, condition);
        }
    }
}

/// Whether the definition with this number is marked; false for a number past the end.
pub fn is_marked(marks: &[bool], number: usize) -> bool
    ensures { result ≡ u.is_marked marks.now number }
{
    number < marks.len() && marks[number]
}

// Marks the definitions that the body uses, directly or through another definition. A definition uses only later ones,
// so one pass is enough.
fn mark_all<A: Allocator>(marks: &mut [bool], body: &Expr<A>, definitions: &[Expr<A>])
    ensures { marks.new ≡ u.mark_from 0 (u.mark marks.old (tree_of body.now)) (map tree_of definitions.now) }
{
    mark(marks, body);
    for (number, definition) in definitions.iter().enumerate() {
        if is_marked(marks, number) {
            mark(marks, definition);
        }
    }
}

/// For each definition, whether the body uses it, directly or through another definition. Definitions must use only
/// later ones for every needed one to be found.
pub fn marks_of<A: Allocator + Copy>(
    alloc: A,
    body: &Expr<A>,
    definitions: &[Expr<A>],
) -> Result<Vec<bool, A>, AllocError>
    ensures are { IfOk result (λ marks. marks.items ≡ u.marks_of (tree_of body.now) (map tree_of definitions.now)) }
    ensures counted { IfOk result (λ marks. length marks.items ≡ length definitions.now) }
    // Every marked definition is needed.
    ensures needed { IfOk result (λ marks. (k : ℕ) → u.is_marked marks.items k ≡ true
        → Needs (tree_of body.now) (map tree_of definitions.now) k) }
    // Every needed definition is marked, if each definition uses only later ones.
    ensures every { IfOk result (λ marks. (inputs : ℕ)
        → IsTrue (is_scoped inputs 0 (length definitions.now) (tree_of body.now))
        → IsTrue (are_scoped inputs 0 (map tree_of definitions.now)) → (k : ℕ)
        → Needs (tree_of body.now) (map tree_of definitions.now) k → u.is_marked marks.items k ≡ true) }
{
    let mut marks = vec![in alloc; false; definitions.len()]?;
    mark_all(&mut marks, body, definitions);
    Ok(marks)
}
