//! Trees as lists of nodes, which a loop walks: a tree may be so deep that a recursion on its values overflows the stack.

ghost use Rattle.std.specs.Prelude.{◌≡◌, ◌++◌, IfOk, map};
ghost use Rattle.energy_program.specs.Tree.{tree_of};
ghost use Rattle.std.specs.List.{list_any};
ghost use Rattle.formula_bounds.specs.Nodes.{is_choice, is_choice_of_one, is_choice_of_two, node_of, nodes_of};

use energy_program::Expr;
use fixed::{Constant, Function, Operator};
use std::alloc::{AllocError, Allocator};

/// A node of a tree, without its parts.
#[derive(Clone, Copy)]
pub(crate) enum Node {
    /// A constant.
    Number(Constant),
    /// The variable with this input number.
    Input(u32),
    /// The definition with this number.
    Definition(u32),
    /// The negative of a part.
    Negated,
    /// An operation on two parts.
    Binary(Operator),
    /// A function of a part.
    Applied(Function),
    /// A part raised to an exponent.
    Power(i8),
    /// A choice between two parts by a third.
    Select,
}

// The node of a tree's root.
fn node_of<A: Allocator>(tree: &Expr<A>) -> Node
    ensures { result ≡ node_of (tree_of tree.now) }
{
    match tree {
        Expr::Number(value, low, high) => Node::Number(Constant {
            value: *value,
            low: *low,
            high: *high,
        }),
        Expr::Input(number) => Node::Input(*number),
        Expr::Definition(number) => Node::Definition(*number),
        Expr::Negated(_) => Node::Negated,
        Expr::Binary(operator, _, _) => Node::Binary(*operator),
        Expr::Applied(function, _) => Node::Applied(*function),
        Expr::Power(_, exponent) => Node::Power(*exponent),
        Expr::Select(_, _, _) => Node::Select,
    }
}

/// Appends the nodes of a tree: each node before its parts, and the last part first. The last call visits the part in
/// which long sums and products nest, so they need no stack frame there.
pub(crate) fn append_nodes<A: Allocator + Copy>(
    nodes: &mut Vec<Node, A>,
    tree: &Expr<A>,
) -> Result<(), AllocError>
    ensures { IfOk result (λ _. nodes.new.items ≡ nodes.old.items ++ nodes_of (tree_of tree.now)) }
{
    nodes.push(node_of(tree))?;
    match tree {
        Expr::Number(_, _, _) | Expr::Input(_) | Expr::Definition(_) => Ok(()),
        Expr::Negated(part) | Expr::Applied(_, part) | Expr::Power(part, _) => {
            append_nodes(nodes, part)
        }
        Expr::Binary(_, left, right) => {
            append_nodes(nodes, right)?;
            append_nodes(nodes, left)
        }
        Expr::Select(condition, chosen, otherwise) => {
            append_nodes(nodes, otherwise)?;
            append_nodes(nodes, chosen)?;
            append_nodes(nodes, condition)
        }
    }
}

// Whether an operator is a choice: a minimum or a maximum.
fn is_choice_of_two(operator: Operator) -> bool
    ensures { result ≡ is_choice_of_two operator }
{
    match operator {
        Operator::Minimum | Operator::Maximum => true,
        Operator::Add | Operator::Subtract | Operator::Multiply | Operator::Divide => false,
    }
}

// Whether a function is a choice: an absolute value.
fn is_choice_of_one(function: Function) -> bool
    ensures { result ≡ is_choice_of_one function }
{
    match function {
        Function::Absolute => true,
        Function::SquareRoot | Function::Flat(_) => false,
    }
}

/// Whether a node is a choice: a minimum, a maximum, an absolute value or a select.
pub(crate) fn is_choice(node: Node) -> bool
    ensures { result ≡ is_choice node }
{
    match node {
        Node::Binary(operator) => is_choice_of_two(operator),
        Node::Applied(function) => is_choice_of_one(function),
        Node::Select => true,
        Node::Number(_) | Node::Input(_) | Node::Definition(_) | Node::Negated | Node::Power(_) => {
            false
        }
    }
}

/// Whether one of these nodes is a choice.
pub(crate) fn has_choice(nodes: &[Node]) -> bool
    ensures { result ≡ list_any is_choice nodes.now }
{
    nodes.iter().any(|node| is_choice(*node))
}
