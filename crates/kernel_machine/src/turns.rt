//! Execution of one instruction that doesn't trap.

ghost use Rattle.std.specs.Prelude.{◌≡◌, ◌^◌, ◌-◌, ◌<◌, ◌≤◌, length, IsOk, Ok};
ghost use Rattle.fixed.specs.Fractions.{bits_of};
ghost use Rattle.kernel_code.specs.Machine.{act};
ghost use Rattle.kernel_machine.specs.Standing.{stack_of, all_set};

use crate::slots::{push, top};
use fixed::{Frac, Fx};
use kernel_code::{Inputs, Instr};
use std::alloc::Allocator;

/// The program counter (index of the next instruction) and the stack height.
#[derive(Clone, Copy)]
pub struct Position {
    pub pc: u32,
    pub height: usize,
}

/// Executes one instruction at this position, and returns the next position. The stack is in 64 slots, and each of the
/// 256 locals has some value.
#[inline]
pub fn go_on<A: Allocator>(
    frac: Frac,
    instr: Instr,
    inputs: &Inputs<A>,
    at: Position,
    slots: &mut [Fx],
    locals: &mut [Fx],
) -> Position
    requires room { at.pc < 2 ^ 32 - 1 }
    requires height { at.height ≤ 64 }
    requires slots { length slots.old ≡ 64 }
    requires locals { length locals.old ≡ 256 }
    requires goes { IsOk (act (bits_of frac) instr inputs.now at.pc (stack_of at.height slots.old) (all_set locals.old)) }
    ensures height { result.height ≤ 64 }
    ensures turn { act (bits_of frac) instr inputs.now at.pc (stack_of at.height slots.old) (all_set locals.old)
        ≡ Ok (record { pc = result.pc; stack = stack_of result.height slots.new; locals = all_set locals.new }) }
{
    let Position { pc, height } = at;
    let next = pc + 1;
    match instr {
        Instr::Push(value) => Position {
            pc: next,
            height: push(slots, height, value),
        },
        Instr::Input(number) => match inputs.get(number) {
            Some(value) => Position {
                pc: next,
                height: push(slots, height, value),
            },
            None => unreachable!(),
        },
        Instr::Keep(local) => {
            locals[local as usize] = top(slots, height);
            Position {
                pc: next,
                height: height - 1,
            }
        }
        Instr::Get(local) => Position {
            pc: next,
            height: push(slots, height, locals[local as usize]),
        },
        Instr::Binary(operator) => {
            let b = top(slots, height);
            let a = top(slots, height - 1);
            Position {
                pc: next,
                height: push(slots, height - 2, operator.value(frac, a, b)),
            }
        }
        Instr::Unary(operator) => {
            let a = top(slots, height);
            Position {
                pc: next,
                height: push(slots, height - 1, operator.value(frac, a)),
            }
        }
        Instr::JumpIfZero(target) => {
            let taken = top(slots, height).raw() == 0;
            Position {
                pc: if taken { target } else { next },
                height: height - 1,
            }
        }
        Instr::Jump(target) => Position { pc: target, height },
    }
}
