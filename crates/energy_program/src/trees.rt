//! Syntax trees of energy expressions.

use fixed::{Function, Fx, Operator};
use std::alloc::Allocator;

/// A syntax tree of an energy expression. Values are fixed-point numbers with the fraction bits that the text was
/// parsed with.
pub enum Expr<A: Allocator> {
    /// A constant: its value, and its error of reading rounded down and up, in units of 2^-(bits + 8). A parsed numeral is
    /// never negative. The fields are those of a `Constant`: with one in its place, the proof that threads may share a
    /// tree isn't found.
    Number(Fx, i16, i16),
    /// The variable with this input number: 0 is the distance, in nm; then the parameters of the first particle, the
    /// parameters of the second, and the globals follow.
    Input(u32),
    /// The value of the definition with this number, from 0.
    Definition(u32),
    /// The negative of a part.
    Negated(Box<Expr<A>, A>),
    /// An operation on two parts.
    Binary(Operator, Box<Expr<A>, A>, Box<Expr<A>, A>),
    /// A function of a part.
    Applied(Function, Box<Expr<A>, A>),
    /// A tree raised to an exponent from -32 to 33, except 0.
    Power(Box<Expr<A>, A>, i8),
    /// The second tree if the first isn't 0, else the third.
    Select(Box<Expr<A>, A>, Box<Expr<A>, A>, Box<Expr<A>, A>),
}

/// Drops the first part by a loop, so that a sum of many terms, whose tree is as deep, needs little stack. Only the
/// other parts are dropped by recursion, which is as deep as a text's nesting.
impl<A: Allocator> Drop for Expr<A> {
    fn drop(mut self) {
        loop {
            match self {
                Expr::Number(_, _, _) | Expr::Input(_) | Expr::Definition(_) => return,
                Expr::Negated(part) | Expr::Applied(_, part) | Expr::Power(part, _) => {
                    self = Box::into_inner(part);
                }
                Expr::Binary(_, left, _) => self = Box::into_inner(left),
                Expr::Select(condition, _, _) => self = Box::into_inner(condition),
            }
        }
    }
}
