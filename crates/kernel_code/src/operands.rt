//! The operand stack of the checked interpreter.

ghost use Rattle.std.specs.Prelude.{◌≡◌, ◌<◌, ◌≤◌, ◌∷◌, [], length, IfSome, OnSome, IfNone, ◌↔◌, IsTrue};

use arrayvec::ArrayVec;
use fixed::Fx;
use std::marker::Model;

/// The operand stack: at most 64 values. In contracts, it is the list of them, the top first.
#[derive(Drop)]
pub(crate) struct Operands {
    // the raw values
    items: ArrayVec<i64, 64>,
}

impl Model for Operands {
    ghost use Rattle.std.specs.Prelude.{List, ℤ, reverse, length, ◌≤◌};

    ghost Value = { List ℤ };

    ghost view = { λ o. reverse o.items.items };

    ghost invariant = { λ o. length o.items.items ≤ 64 };
}

impl Operands {
    /// An empty stack.
    pub(crate) fn new() -> Operands
        ensures { result ≡ [] }
    {
        Operands {
            items: ArrayVec::new(),
        }
    }

    pub(crate) fn is_empty(&self) -> bool
        ensures { IsTrue result ↔ (self.now ≡ []) }
    {
        self.items.is_empty()
    }

    /// Whether the stack has 64 values.
    pub(crate) fn is_full(&self) -> bool
        ensures { IsTrue result ↔ (64 ≤ length self.now) }
    {
        self.items.is_full()
    }

    /// Pushes a value; the stack must have fewer than 64.
    pub(crate) fn push(&mut self, value: Fx)
        requires { length self.old < 64 }
        ensures { self.new ≡ value ∷ self.old }
    {
        self.items.push(value.raw());
    }

    /// Pops the top value; `None` if the stack is empty.
    pub(crate) fn pop(&mut self) -> Option<Fx>
        ensures some { IfSome result (λ value. self.old ≡ value ∷ self.new) }
        ensures room { OnSome result (length self.new < 64) }
        ensures none { IfNone result ((self.old ≡ []) × (self.new ≡ [])) }
    {
        Some(Fx::from_raw(self.items.pop()?))
    }
}
