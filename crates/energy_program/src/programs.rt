//! Programs: energy texts after parsing and name resolution.

ghost use Rattle.std.specs.Prelude.{◌≤◌, length, map, IsTrue};
ghost use Rattle.energy_program.specs.Tree.{are_scoped, variable_count, is_scoped, tree_of};

use crate::trees::Expr;
use std::alloc::Allocator;

/// The maximum number of definitions of a program. A text has at most 64; its derivative adds at most one for each.
pub const MAX_DEFINITIONS: usize = 128;

/// A program: the body's expression and the definitions. The body may use any definition, a definition only later ones,
/// so that evaluation ends. The trees are allocated with the allocator that `parse` was given.
#[derive(Drop)]
pub struct Program<A: Allocator> {
    /// The expression whose value is the energy, in kJ/mol.
    pub body: Expr<A>,
    /// The definitions, in the order of the text, at most 128.
    pub definitions: Vec<Expr<A>, A>,
    /// Parameters per particle, at most 8.
    pub parameters: u32,
    /// Number of globals, at most 16.
    pub globals: u32,
    pub ghost few_definitions: { length definitions.items ≤ 128 },
    pub ghost few_parameters: { parameters ≤ 8 },
    pub ghost few_globals: { globals ≤ 16 },
    pub ghost body_scoped: { IsTrue (is_scoped (variable_count parameters globals) 0 (length definitions.items) (tree_of body)) },
    pub ghost definitions_scoped: { IsTrue (are_scoped (variable_count parameters globals) 0 (map tree_of definitions.items)) },
}
