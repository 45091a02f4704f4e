use crate::inputs::InputNumber;
use fixed::{Fx, Operator, UnaryOperator};

/// An instruction of the stack machine. Execution continues at the next one unless it jumps.
#[derive(Clone, Copy)]
pub enum Instr {
    /// Pushes the number.
    Push(Fx),
    /// Pushes the input with this number.
    Input(InputNumber),
    /// Pops a value into the local with this number, of 256.
    Keep(u8),
    /// Pushes the local with this number.
    Get(u8),
    /// Pops `b`, then `a`, and pushes the operator's value for `a` and `b`.
    Binary(Operator),
    /// Pops a value and pushes the operator's value for it.
    Unary(UnaryOperator),
    /// Pops a value, and jumps to this instruction index if it is 0.
    JumpIfZero(u32),
    /// Jumps to this instruction index.
    Jump(u32),
}
