//! The storage of runs: stack and locals.

ghost use Rattle.std.specs.Prelude.{◌≡◌};

use fixed::Fx;
use std::marker::Model;

/// Reusable storage for runs: a stack of 64 values, 256 locals, and the number of instructions of the last run.
#[derive(Drop)]
pub struct Stack {
    pub(crate) slots: [Fx; 64],
    // values of earlier runs stay, since verified code reads no local before it sets it
    pub(crate) locals: [Fx; 256],
    pub(crate) turns: u32,
}

impl Model for Stack {
    ghost use Rattle.kernel_machine.specs.Stacks.{LastRun};

    ghost Value = { LastRun };

    ghost view = { λ s. record { turns = s.turns } };
}

impl Stack {
    /// Storage for any code.
    pub fn new() -> Stack
        ensures { result.turns ≡ 0 }
    {
        let zero = Fx::from_raw(0);
        Stack {
            slots: [zero; 64],
            locals: [zero; 256],
            turns: 0,
        }
    }

    /// The number of instructions of the last run; 0 before any.
    pub fn turns(&self) -> u32
        ensures { result ≡ self.now.turns }
    {
        self.turns
    }
}
