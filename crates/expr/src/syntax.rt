use energy_program::Exponent;
use fixed::{Constant, Function, Operator};
use std::alloc::Allocator;

/// A syntax tree before name resolution: names are the bytes of the text.
pub enum Syntax<'a, A: Allocator> {
    /// A constant, with its error of reading.
    Number(Constant),
    /// A name.
    Name(&'a [u8]),
    /// The negative of a tree.
    Negated(Box<Syntax<'a, A>, A>),
    /// A binary operation on two trees.
    Binary(Operator, Box<Syntax<'a, A>, A>, Box<Syntax<'a, A>, A>),
    /// A function applied to a tree.
    Applied(Function, Box<Syntax<'a, A>, A>),
    /// A tree raised to a power.
    Power(Box<Syntax<'a, A>, A>, Exponent),
    /// The second tree if the first isn't 0, else the third.
    Select(Box<Syntax<'a, A>, A>, Box<Syntax<'a, A>, A>, Box<Syntax<'a, A>, A>),
}

/// Drops the first part by a loop, so that a sum of many terms, whose tree is as deep, needs little stack. Only the
/// other parts are dropped by recursion, which is as deep as the text's nesting.
impl<A: Allocator> Drop for Syntax<'_, A> {
    fn drop(mut self) {
        loop {
            match self {
                Syntax::Number(_) | Syntax::Name(_) => return,
                Syntax::Negated(part) | Syntax::Applied(_, part) | Syntax::Power(part, _) => {
                    self = Box::into_inner(part);
                }
                Syntax::Binary(_, left, _) => self = Box::into_inner(left),
                Syntax::Select(condition, _, _) => self = Box::into_inner(condition),
            }
        }
    }
}

/// A boxed tree, so that a part that waits for others to be parsed is a pointer.
pub type Boxed<'a, A> = Box<Syntax<'a, A>, A>;
