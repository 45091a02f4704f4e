//! Formulas: the programs of energies, as lists of nodes, and their entries.
ghost use Rattle.std.specs.Prelude.{◌≡◌, ℕ, ◌++◌, ◌-◌, drop, length, map, replicate, reverse, slice_get, slice_index_or, slice_set, ◌∷◌, [], ◌<◌, IfOk};
ghost use Rattle.std.specs.List.{list_any};
ghost use Rattle.fixed.specs.Fractions.{bits_of};
ghost use Rattle.energy_program.specs.Programs.{Trees, trees_of};
ghost use Rattle.energy_program.specs.Tree.{tree_of};
ghost use Rattle.formula_bounds.specs.Entries as e;
ghost use Rattle.formula_bounds.specs.Entries.{entries_from, entry_of_program, known_from};
ghost use Rattle.formula_bounds.specs.Nodes as nodes;
ghost use Rattle.formula_bounds.specs.Walks.{Defined, divided_entries, walks_from};
ghost use Rattle.formula_bounds.specs.Nodes.{after_node, after_nodes, at_depth, nodes_of};

use crate::entries::Entry;
use crate::nodes::{Node, append_nodes, has_choice};
use crate::partial::Partial;
use crate::walks::AllWalks;
use energy_program::{Expr, Program};
use error_bounds::Approximation;
use fixed::{Frac, Operator};
use std::alloc::{AllocError, Allocator};
use std::marker::Model;

/// The entry on top of a stack, which is removed; of an empty stack, the entry of a definition that isn't there.
pub(crate) fn popped<A: Allocator>(stack: &mut Vec<Entry, A>) -> Entry
    ensures top { result ≡ at_depth (reverse stack.old.items) 0 }
    ensures rest { reverse stack.new.items ≡ drop 1 (reverse stack.old.items) }
{
    match stack.pop() {
        Some(entry) => entry,
        None => Entry::missing(),
    }
}

// The approximation of an input; none if it isn't there.
fn input_at(inputs: &[Approximation], number: usize) -> Partial
    ensures { result ≡ slice_get inputs.now number }
{
    if number < inputs.len() {
        Some(inputs[number].copied())
    } else {
        None
    }
}

// The entry of a definition; of one that isn't there, none.
fn known_at(known: &[Entry], number: usize) -> Entry
    ensures { result ≡ slice_index_or known.now number e.missing }
{
    if number < known.len() {
        known[number].copied()
    } else {
        Entry::missing()
    }
}

// The entry of an operation, whose parts are on top of the stack, which are removed. It isn't inlined, since each call
// of `entry_of` would set up the memory of its parts.
#[inline(never)]
fn binary_of<A: Allocator>(frac: Frac, operator: Operator, stack: &mut Vec<Entry, A>) -> Entry
    ensures { result ∷ reverse stack.new.items
        ≡ e.binary (bits_of frac) operator (at_depth (reverse stack.old.items) 1) (at_depth (reverse stack.old.items) 0)
        ∷ drop 2 (reverse stack.old.items) }
{
    let second = popped(stack);
    let first = popped(stack);
    Entry::binary(frac, operator, &first, &second)
}

// The entry of a choice, whose parts are on top of the stack, which are removed. It isn't inlined either.
#[inline(never)]
fn select_of<A: Allocator>(frac: Frac, stack: &mut Vec<Entry, A>) -> Entry
    ensures { result ∷ reverse stack.new.items
        ≡ e.select (bits_of frac) (at_depth (reverse stack.old.items) 2) (at_depth (reverse stack.old.items) 1)
        (at_depth (reverse stack.old.items) 0) ∷ drop 3 (reverse stack.old.items) }
{
    let otherwise = popped(stack);
    let chosen = popped(stack);
    let condition = popped(stack);
    Entry::select(frac, &condition, &chosen, &otherwise)
}

/// The entry of a node, whose parts are on top of the stack, which are removed.
pub(crate) fn entry_of<A: Allocator>(
    frac: Frac,
    inputs: &[Approximation],
    known: &[Entry],
    stack: &mut Vec<Entry, A>,
    node: Node,
) -> Entry
    ensures { result ∷ reverse stack.new.items
        ≡ after_node (bits_of frac) inputs.now (known_from (bits_of frac) 0 known.now) node (reverse stack.old.items) }
{
    match node {
        Node::Number(constant) => Entry::number(frac, constant),
        Node::Input(number) => Entry::input(frac, number, input_at(inputs, number as usize)),
        Node::Definition(number) => known_at(known, number as usize),
        Node::Negated => Entry::negated(frac, &popped(stack)),
        Node::Binary(operator) => binary_of(frac, operator, stack),
        Node::Applied(function) => Entry::applied(frac, function, &popped(stack)),
        Node::Power(exponent) => Entry::power(frac, &popped(stack), exponent),
        Node::Select => select_of(frac, stack),
    }
}

// The entry of a tree with these nodes.
fn walk<A: Allocator + Copy>(
    alloc: A,
    frac: Frac,
    inputs: &[Approximation],
    known: &[Entry],
    nodes: &[Node],
) -> Result<Entry, AllocError>
    ensures { IfOk result (λ x. x ≡ at_depth (after_nodes (bits_of frac) inputs.now (known_from (bits_of frac) 0 known.now) nodes.now) 0) }
{
    let mut stack = Vec::new(alloc);
    for index in (0..nodes.len()).rev() {
        let entry = entry_of(frac, inputs, known, &mut stack, nodes[index]);
        stack.push(entry)?;
    }
    Ok(popped(&mut stack))
}

// Sets the entry of the definition with this number, which has these nodes.
fn set_entry<A: Allocator + Copy>(
    alloc: A,
    frac: Frac,
    inputs: &[Approximation],
    known: &mut Vec<Entry, A>,
    number: usize,
    nodes: &[Node],
) -> Result<(), AllocError>
    requires { number < length known.old.items }
    ensures { IfOk result (λ _. known.new.items ≡ slice_set known.old.items number
        (at_depth (after_nodes (bits_of frac) inputs.now (known_from (bits_of frac) 0 known.old.items) nodes.now) 0)) }
{
    let entry = walk(alloc, frac, inputs, known, nodes)?;
    known[number] = entry;
    Ok(())
}

/// The program of an energy, as lists of nodes.
#[derive(Drop)]
pub struct Formula<A: Allocator> {
    body: Vec<Node, A>,
    definitions: Vec<Vec<Node, A>, A>,
}

impl<A: Allocator> Model for Formula<A> {
    ghost use Rattle.formula_bounds.specs.Nodes as nodes;

    ghost Value = { nodes.FormulaView };

    ghost view = { λ f. nodes.formula_view f.body.items (nodes.items_of f.definitions.items) };
}

// The nodes of a tree.
fn nodes_of<A: Allocator + Copy>(alloc: A, tree: &Expr<A>) -> Result<Vec<Node, A>, AllocError>
    ensures { IfOk result (λ n. n.items ≡ nodes_of (tree_of tree.now)) }
{
    let mut nodes = Vec::new(alloc);
    append_nodes(&mut nodes, tree)?;
    Ok(nodes)
}

// The nodes of each definition.
fn all_nodes_of<A: Allocator + Copy>(
    alloc: A,
    definitions: &[Expr<A>],
) -> Result<Vec<Vec<Node, A>, A>, AllocError>
    ensures { IfOk result (λ all. nodes.items_of all.items ≡ map nodes_of (map tree_of definitions.now)) }
{
    let mut all = Vec::new(alloc);
    for definition in definitions {
        all.push(nodes_of(alloc, definition)?)?;
    }
    Ok(all)
}

// Whether one of these lists of nodes has a choice.
fn have_choice<A: Allocator>(definitions: &[Vec<Node, A>]) -> bool
    ensures { result ≡ list_any (λ v. list_any nodes.is_choice v.items) definitions.now }
{
    definitions.iter().any(|nodes| has_choice(nodes))
}

// The entries of all definitions: of none yet.
fn no_entries<A: Allocator + Copy>(alloc: A, count: usize) -> Result<Vec<Entry, A>, AllocError>
    ensures { IfOk result (λ all. all.items ≡ replicate count e.missing) }
{
    let mut entries = Vec::new(alloc);
    for _ in 0..count {
        entries.push(Entry::missing())?;
    }
    Ok(entries)
}

impl<A: Allocator> Formula<A> {
    /// Whether the formula has a choice: a minimum, a maximum, an absolute value or a select. Without one, there is a single
    /// walk.
    pub fn has_choice(&self) -> bool
        ensures { result ≡ nodes.has_choice self.now }
    {
        has_choice(&self.body) || have_choice(&self.definitions)
    }
}

impl<A: Allocator + Copy> Formula<A> {
    /// The formula of a program.
    ///
    /// Returns an error if memory ran out.
    pub fn new(alloc: A, program: &Program<A>) -> Result<Formula<A>, AllocError>
        ensures { IfOk result (λ f. f ≡ nodes.formula_of (trees_of program.now)) }
    {
        Ok(Formula {
            body: nodes_of(alloc, &program.body)?,
            definitions: all_nodes_of(alloc, &program.definitions)?,
        })
    }

    // The entries of all definitions; each uses only later ones.
    fn entries(
        &self,
        alloc: A,
        frac: Frac,
        inputs: &[Approximation],
    ) -> Result<Vec<Entry, A>, AllocError>
        ensures { (program : Trees) → self.now ≡ nodes.formula_of program
            → IfOk result (λ all. all.items ≡ entries_from (bits_of frac) inputs.now 0 program.1) }
    {
        let mut known = no_entries(alloc, self.definitions.len())?;
        for index in (0..self.definitions.len()).rev() {
            set_entry(
                alloc,
                frac,
                inputs,
                &mut known,
                index,
                &self.definitions[index],
            )?;
        }
        Ok(known)
    }

    /// The entry of the formula on these approximations of its inputs, by one walk: of the distance, which is input 0, then
    /// of the parameters and globals.
    ///
    /// Returns an error if memory ran out.
    pub fn entry(&self, alloc: A, frac: Frac, inputs: &[Approximation]) -> Result<Entry, AllocError>
        ensures { (program : Trees) → self.now ≡ nodes.formula_of program
            → IfOk result (λ x. x ≡ entry_of_program (bits_of frac) inputs.now program) }
    {
        let known = self.entries(alloc, frac, inputs)?;
        walk(alloc, frac, inputs, &known, &self.body)
    }

    // The walks over all definitions, from the last to the first, each of which divides at up to `left` choices, and the
    // walk that doesn't divide.
    fn walks(
        &self,
        alloc: A,
        frac: Frac,
        inputs: &[Approximation],
        left: u32,
    ) -> Result<AllWalks<A>, AllocError>
        ensures plain { (program : Trees) → self.now ≡ nodes.formula_of program
            → IfOk result (λ all. (nodes.undivided all.plain ∷ []) ≡ map (λ (d : Defined). nodes.walk d.entries [] d.left)
            (walks_from (bits_of frac) inputs.now 0 program.1 0)) }
        ensures dividing { (program : Trees) → self.now ≡ nodes.formula_of program
            → IfOk result (λ all. nodes.dividing all ≡ map (λ (d : Defined). nodes.walk d.entries [] d.left)
            (walks_from (bits_of frac) inputs.now 0 program.1 left)) }
        ensures several { IfOk result (λ all. nodes.IsNotSingle all.divided) }
    {
        let mut walks = AllWalks::new(alloc, no_entries(alloc, self.definitions.len())?, left);
        for index in (0..self.definitions.len()).rev() {
            walks.walk(alloc, frac, inputs, &self.definitions[index])?;
            walks.define(index);
        }
        Ok(walks)
    }

    /// The entries of the formula in all walks on these approximations of its inputs, each of which divides at up to `left`
    /// open choices. The first part of the result is the entry of the walk that doesn't divide, as `entry` returns it. The
    /// second part has the entries of the walks that divided, two or more; none if no walk divided.
    ///
    /// Returns an error if memory ran out.
    pub fn entries_of_walks(
        &self,
        alloc: A,
        frac: Frac,
        inputs: &[Approximation],
        left: u32,
    ) -> Result<(Entry, Vec<Entry, A>), AllocError>
        ensures plain { (program : Trees) → self.now ≡ nodes.formula_of program
            → IfOk result (λ all. all.0 ≡ entry_of_program (bits_of frac) inputs.now program) }
        ensures divided { (program : Trees) → self.now ≡ nodes.formula_of program
            → IfOk result (λ all. all.1.items ≡ divided_entries (bits_of frac) inputs.now program left) }
    {
        let mut walks = self.walks(alloc, frac, inputs, left)?;
        walks.walk(alloc, frac, inputs, &self.body)?;
        walks.tops(alloc)
    }
}
