//! A body with definitions, before the limit on definitions is checked.

use energy_program::Expr;
use std::alloc::Allocator;

/// A body and its definitions, possibly more than a program may have.
#[derive(Drop)]
pub struct Parts<A: Allocator> {
    pub body: Expr<A>,
    pub definitions: Vec<Expr<A>, A>,
}
