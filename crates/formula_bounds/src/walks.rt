//! Walks over a formula that divide at open choices: one goes on with the first branch, the other with the second.
ghost use Rattle.std.specs.Prelude.{◌≡◌, ◌∷◌, ◌++◌, [], ◌<◌, ◌+◌, ◌-◌, drop, length, map, reverse, slice_get, take, IfOk, IfSome, Some};
ghost use Rattle.std.specs.List.{flat_map};
ghost use Rattle.fixed.specs.Fractions.{bits_of};
ghost use Rattle.formula_bounds.specs.Nodes as nodes;
ghost use Rattle.formula_bounds.specs.Nodes.{IsNotSingle, after_node_of, after_nodes_of, at_depth, branches_at, dividing, undivided};
ghost use Rattle.formula_bounds.specs.Entries as e;
ghost use Rattle.formula_bounds.specs.Walks.{or_one};

use crate::entries::{Entry, branches_of_one, branches_of_select, branches_of_two};
use crate::formulas::{entry_of, popped};
use crate::nodes::{Node, is_choice};
use error_bounds::Approximation;
use fixed::Frac;
use std::alloc::{AllocError, Allocator};
use std::marker::Model;

/// A walk: the entries of all definitions, the stack, and the number of choices at which the walk may still divide.
#[derive(Drop)]
pub(crate) struct Walk<A: Allocator> {
    known: Vec<Entry, A>,
    stack: Vec<Entry, A>,
    left: u32,
}

impl<A: Allocator> Model for Walk<A> {
    ghost use Rattle.std.specs.Prelude.{reverse};
    ghost use Rattle.formula_bounds.specs.Nodes as nodes;

    ghost Value = { nodes.Walk };

    ghost view = { λ w. nodes.walk w.known.items (reverse w.stack.items) w.left };
}

// Copies of entries.
fn all_copied<A: Allocator + Copy>(alloc: A, entries: &[Entry]) -> Result<Vec<Entry, A>, AllocError>
    ensures { IfOk result (λ all. all.items ≡ entries.now) }
{
    let mut all = Vec::new(alloc);
    for entry in entries {
        all.push(entry.copied())?;
    }
    Ok(all)
}

// The entry at a depth of a stack, whose top is at depth 0; below the stack, that of a definition that isn't there.
fn at_depth(stack: &[Entry], depth: usize) -> Entry
    ensures { result ≡ at_depth (reverse stack.now) depth }
{
    if depth < stack.len() {
        stack[stack.len() - 1 - depth].copied()
    } else {
        Entry::missing()
    }
}

// The branches of a node, if it is an open choice, whose parts are on top of the stack.
fn branches_at(frac: Frac, node: Node, stack: &[Entry]) -> Option<(Entry, Entry)>
    ensures { result ≡ branches_at (bits_of frac) node (reverse stack.now) }
{
    match node {
        Node::Binary(operator) => {
            branches_of_two(frac, operator, &at_depth(stack, 1), &at_depth(stack, 0))
        }
        Node::Applied(function) => branches_of_one(frac, function, &at_depth(stack, 0)),
        Node::Select => branches_of_select(
            &at_depth(stack, 2),
            &at_depth(stack, 1),
            &at_depth(stack, 0),
        ),
        Node::Number(_) | Node::Input(_) | Node::Definition(_) | Node::Negated | Node::Power(_) => {
            None
        }
    }
}

// The number of a node's parts.
fn parts_of(node: Node) -> u32
    ensures { result ≡ nodes.parts_of node }
{
    match node {
        Node::Number(_) | Node::Input(_) | Node::Definition(_) => 0,
        Node::Negated | Node::Applied(_) | Node::Power(_) => 1,
        Node::Binary(_) => 2,
        Node::Select => 3,
    }
}

// Removes entries from the top of a stack.
fn remove<A: Allocator>(stack: &mut Vec<Entry, A>, count: u32)
    ensures { reverse stack.new.items ≡ drop count (reverse stack.old.items) }
{
    for _ in 0..count {
        popped(stack);
    }
}

impl<A: Allocator> Walk<A> {
    // The entry on top of the stack.
    fn top(&self) -> Entry
        ensures { result ≡ nodes.top_of self.now }
    {
        at_depth(&self.stack, 0)
    }

    // Sets the entry of the definition with this number to the one on top of the stack, which is removed.
    fn define(&mut self, number: usize)
        ensures { self.new ≡ nodes.after_definition number self.old }
    {
        let entry = popped(&mut self.stack);
        if number < self.known.len() {
            self.known[number] = entry;
        }
    }
}

impl<A: Allocator + Copy> Walk<A> {
    /// A walk with these entries of definitions, before its first node.
    pub(crate) fn new(alloc: A, known: Vec<Entry, A>, left: u32) -> Walk<A>
        ensures { result ≡ nodes.walk known.items [] left }
    {
        Walk {
            known,
            stack: Vec::new(alloc),
            left,
        }
    }

    // A copy.
    fn copied(&self, alloc: A) -> Result<Walk<A>, AllocError>
        ensures { IfOk result (λ w. w ≡ self.now) }
    {
        Ok(Walk {
            known: all_copied(alloc, &self.known)?,
            stack: all_copied(alloc, &self.stack)?,
            left: self.left,
        })
    }

    // Divides at a choice. The walk goes on with the first branch; the result is the other one.
    fn divide(
        &mut self,
        alloc: A,
        node: Node,
        first: Entry,
        second: Entry,
    ) -> Result<Walk<A>, AllocError>
        requires { 0 < self.old.left }
        ensures first { IfOk result (λ _. self.new ≡ nodes.with_branch node first self.old) }
        ensures second { IfOk result (λ w. w ≡ nodes.with_branch node second self.old) }
    {
        remove(&mut self.stack, parts_of(node));
        self.left -= 1;
        let mut other = self.copied(alloc)?;
        self.stack.push(first)?;
        other.stack.push(second)?;
        Ok(other)
    }

    // The branches of the next node, if it is an open choice at which the walk may divide.
    fn branches(&self, frac: Frac, node: Node) -> Option<(Entry, Entry)>
        ensures value { result ≡ nodes.branches_in (bits_of frac) node self.now }
        ensures left { IfSome result (λ _. 0 < self.now.left) }
    {
        if self.left == 0 {
            None
        } else {
            branches_at(frac, node, &self.stack)
        }
    }

    // Goes on by a node without division.
    fn go_on(&mut self, frac: Frac, inputs: &[Approximation], node: Node) -> Result<(), AllocError>
        ensures { IfOk result (λ _. self.new ≡ nodes.gone_on (bits_of frac) inputs.now node self.old) }
    {
        let entry = entry_of(frac, inputs, &self.known, &mut self.stack, node);
        self.stack.push(entry)?;
        Ok(())
    }

    // Goes on by a choice. The result is the other walk, if the walk divides. It isn't inlined, since other nodes would
    // set up the memory of the branches.
    #[inline(never)]
    fn step_by_choice(
        &mut self,
        alloc: A,
        frac: Frac,
        inputs: &[Approximation],
        node: &Node,
    ) -> Result<Option<Walk<A>>, AllocError>
        ensures { IfOk result (λ other. after_node_of (bits_of frac) inputs.now node.now self.old ≡ self.new ∷ nodes.if_there other) }
    {
        match self.branches(frac, *node) {
            Some((first, second)) => Ok(Some(self.divide(alloc, *node, first, second)?)),
            None => {
                self.go_on(frac, inputs, *node)?;
                Ok(None)
            }
        }
    }

    // Goes on by a node. The result is the other walk, if the walk divides.
    fn step(
        &mut self,
        alloc: A,
        frac: Frac,
        inputs: &[Approximation],
        node: &Node,
    ) -> Result<Option<Walk<A>>, AllocError>
        ensures { IfOk result (λ other. after_node_of (bits_of frac) inputs.now node.now self.old ≡ self.new ∷ nodes.if_there other) }
    {
        if is_choice(*node) {
            self.step_by_choice(alloc, frac, inputs, node)
        } else {
            self.go_on(frac, inputs, *node)?;
            Ok(None)
        }
    }
}

// Inserts the other walk, if there is one, after the walk with this number.
fn insert_after<A: Allocator>(
    walks: &mut Vec<Walk<A>, A>,
    number: usize,
    other: Option<Walk<A>>,
) -> Result<(), AllocError>
    requires { number < length walks.old.items }
    ensures { IfOk result (λ _. walks.new.items
        ≡ take (number + 1) walks.old.items ++ (nodes.if_there other ++ drop (number + 1) walks.old.items)) }
{
    if let Some(other) = other {
        walks.insert(number + 1, other)?;
    }
    Ok(())
}

// The walk with this number goes on by a node. If it divides, the other one is inserted after it.
fn step_at<A: Allocator + Copy>(
    alloc: A,
    frac: Frac,
    inputs: &[Approximation],
    walks: &mut Vec<Walk<A>, A>,
    number: usize,
    node: &Node,
) -> Result<(), AllocError>
    requires { number < length walks.old.items }
    ensures { (w : nodes.Walk) → slice_get walks.old.items number ≡ Some w → IfOk result (λ _. walks.new.items
        ≡ take number walks.old.items ++ (after_node_of (bits_of frac) inputs.now node.now w ++ drop (number + 1) walks.old.items)) }
{
    let other = walks[number].step(alloc, frac, inputs, node)?;
    insert_after(walks, number, other)?;
    Ok(())
}

// All walks go on by a node.
fn step_all<A: Allocator + Copy>(
    alloc: A,
    frac: Frac,
    inputs: &[Approximation],
    walks: &mut Vec<Walk<A>, A>,
    node: &Node,
) -> Result<(), AllocError>
    ensures { IfOk result (λ _. walks.new.items ≡ flat_map (after_node_of (bits_of frac) inputs.now node.now) walks.old.items) }
{
    for number in (0..walks.len()).rev() {
        step_at(alloc, frac, inputs, walks, number, node)?;
    }
    Ok(())
}

// Sets the entry of the definition with this number to the one on top of the stack, which is removed, in each walk.
fn define_all<A: Allocator>(walks: &mut Vec<Walk<A>, A>, number: usize)
    ensures { walks.new.items ≡ map (nodes.after_definition number) walks.old.items }
{
    for index in 0..walks.len() {
        walks[index].define(number);
    }
}

// The entries on top of the stacks of walks.
fn tops<A: Allocator + Copy>(alloc: A, walks: &[Walk<A>]) -> Result<Vec<Entry, A>, AllocError>
    ensures { IfOk result (λ all. all.items ≡ map nodes.top_of walks.now) }
{
    let mut tops = Vec::new(alloc);
    for walk in walks {
        tops.push(walk.top())?;
    }
    Ok(tops)
}

/// The walk that doesn't divide, and those that did: none before the first open choice, then two or more.
#[derive(Drop)]
pub(crate) struct AllWalks<A: Allocator> {
    plain: Walk<A>,
    divided: Vec<Walk<A>, A>,
}

impl<A: Allocator> Model for AllWalks<A> {
    ghost use Rattle.formula_bounds.specs.Nodes as nodes;

    ghost Value = { nodes.AllWalks };

    ghost view = { λ all. nodes.all_walks all.plain all.divided.items };
}

impl<A: Allocator> AllWalks<A> {
    /// Sets the entry of the definition with this number to the one on top of the stack, which is removed, in each walk.
    pub(crate) fn define(&mut self, number: usize)
        ensures plain { nodes.undivided self.new.plain ≡ nodes.after_definition number (nodes.undivided self.old.plain) }
        ensures divided { self.new.divided ≡ map (nodes.after_definition number) self.old.divided }
        ensures dividing { nodes.dividing self.new ≡ map (nodes.after_definition number) (nodes.dividing self.old) }
    {
        self.plain.define(number);
        define_all(&mut self.divided, number);
    }
}

impl<A: Allocator + Copy> AllWalks<A> {
    /// A walk with these entries of definitions, before its first node. It may divide at up to `left` choices.
    pub(crate) fn new(alloc: A, known: Vec<Entry, A>, left: u32) -> AllWalks<A>
        ensures { result ≡ nodes.all_walks (nodes.walk known.items [] left) [] }
    {
        AllWalks {
            plain: Walk::new(alloc, known, left),
            divided: Vec::new(alloc),
        }
    }

    // At an open choice, if no walk divided before, copies of the walk go on with its branches. It isn't inlined, since
    // other nodes would set up the memory of the branches.
    #[inline(never)]
    fn divide(&mut self, alloc: A, frac: Frac, node: &Node) -> Result<(), AllocError>
        requires { self.old.divided ≡ [] }
        ensures plain { IfOk result (λ _. self.new.plain ≡ self.old.plain) }
        ensures divided { IfOk result (λ _. self.new.divided
            ≡ nodes.branched node.now (nodes.branches_in (bits_of frac) node.now self.old.plain) self.old.plain) }
    {
        if let Some((first, second)) = self.plain.branches(frac, *node) {
            let mut walk = self.plain.copied(alloc)?;
            let other = walk.divide(alloc, *node, first, second)?;
            self.divided.push(walk)?;
            self.divided.push(other)?;
        }
        Ok(())
    }

    // The walks that divide go on by a node.
    fn step_dividing(
        &mut self,
        alloc: A,
        frac: Frac,
        inputs: &[Approximation],
        node: &Node,
    ) -> Result<(), AllocError>
        ensures plain { IfOk result (λ _. self.new.plain ≡ self.old.plain) }
        ensures dividing { IfOk result (λ _. or_one (nodes.gone_on (bits_of frac) inputs.now node.now self.old.plain) self.new.divided
            ≡ flat_map (after_node_of (bits_of frac) inputs.now node.now) (nodes.dividing self.old)) }
        ensures several { IsNotSingle self.old.divided → IfOk result (λ _. IsNotSingle self.new.divided) }
    {
        if !self.divided.is_empty() {
            step_all(alloc, frac, inputs, &mut self.divided, node)
        } else if is_choice(*node) {
            self.divide(alloc, frac, node)
        } else {
            Ok(())
        }
    }

    // Goes on by a node.
    fn step(
        &mut self,
        alloc: A,
        frac: Frac,
        inputs: &[Approximation],
        node: &Node,
    ) -> Result<(), AllocError>
        ensures plain { IfOk result (λ _. self.new.plain ≡ nodes.gone_on (bits_of frac) inputs.now node.now self.old.plain) }
        ensures dividing { IfOk result (λ _. nodes.dividing self.new
            ≡ flat_map (after_node_of (bits_of frac) inputs.now node.now) (nodes.dividing self.old)) }
        ensures several { IsNotSingle self.old.divided → IfOk result (λ _. IsNotSingle self.new.divided) }
    {
        self.step_dividing(alloc, frac, inputs, node)?;
        self.plain.go_on(frac, inputs, *node)
    }

    /// Goes on by these nodes, from the last to the first.
    pub(crate) fn walk(
        &mut self,
        alloc: A,
        frac: Frac,
        inputs: &[Approximation],
        nodes: &[Node],
    ) -> Result<(), AllocError>
        ensures plain { IfOk result (λ _. (undivided self.new.plain ∷ [])
            ≡ after_nodes_of (bits_of frac) inputs.now nodes.now (undivided self.old.plain ∷ [])) }
        ensures dividing { IfOk result (λ _. dividing self.new
            ≡ after_nodes_of (bits_of frac) inputs.now nodes.now (dividing self.old)) }
        ensures several { IsNotSingle self.old.divided → IfOk result (λ _. IsNotSingle self.new.divided) }
    {
        for index in (0..nodes.len()).rev() {
            self.step(alloc, frac, inputs, &nodes[index])?;
        }
        Ok(())
    }

    /// The entries on top of the stacks: of the walk that doesn't divide, and of those that did.
    pub(crate) fn tops(&self, alloc: A) -> Result<(Entry, Vec<Entry, A>), AllocError>
        ensures plain { IfOk result (λ t. t.0 ≡ nodes.top_of self.now.plain) }
        ensures divided { IfOk result (λ t. t.1.items ≡ map nodes.top_of self.now.divided) }
    {
        Ok((self.plain.top(), tops(alloc, &self.divided)?))
    }
}
