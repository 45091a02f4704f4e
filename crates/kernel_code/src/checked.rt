//! The checked interpreter: it tests every operand, local, input and result. It is in this crate so that the verifier,
//! which runs it on single distances, and the tests use the same machine.

ghost use Rattle.std.specs.Prelude.{◌≡◌, ◌+◌, ◌^◌, ◌-◌, ◌<◌, ℕ, List, ℤ, length, Option, Result, IfErr};
ghost use Rattle.fixed.specs.Fractions.{bits_of};
ghost use Rattle.kernel_code.specs.declared.traps.Trap.{Trap};
ghost use Rattle.kernel_code.specs.Code.{IsCode};
ghost use Rattle.kernel_code.specs.Machine.{act, pushed, on_two, on_one, answer_of, IsOperation, IsTurn, Ends};
ghost use Rattle.kernel_code.specs.Paths.{MissesNothing};
ghost use Rattle.kernel_code.specs.Tables.{inputs_of};

use crate::codes::Code;
use crate::instructions::Instr;
use crate::operands::Operands;
use crate::tables::{Inputs, TypeTable};
use crate::traps::{Trap, TrapKind};
use fixed::{Frac, Fx, Operator, UnaryOperator};
use std::alloc::Allocator;

fn push(value: Fx, pc: u32, stack: &mut Operands) -> Result<u32, TrapKind>
    requires { pc < 2 ^ 32 - 1 }
    ensures { (locals : List (Option ℤ)) → IsTurn (pushed value pc stack.old locals) result stack.new locals }
{
    if stack.is_full() {
        return Err(TrapKind::StackFull);
    }
    stack.push(value);
    Ok(pc + 1)
}

fn binary(frac: Frac, operator: Operator, pc: u32, stack: &mut Operands) -> Result<u32, TrapKind>
    requires { pc < 2 ^ 32 - 1 }
    ensures { (locals : List (Option ℤ)) → IsTurn (on_two (bits_of frac) operator pc stack.old locals) result stack.new locals }
{
    let b = stack.pop().ok_or(TrapKind::MissingOperand)?;
    let a = stack.pop().ok_or(TrapKind::MissingOperand)?;
    let value = operator
        .checked(frac, a, b)
        .map_err(|fault| TrapKind::Operation(fault))?;
    stack.push(value);
    Ok(pc + 1)
}

fn unary(
    frac: Frac,
    operator: UnaryOperator,
    pc: u32,
    stack: &mut Operands,
) -> Result<u32, TrapKind>
    requires { pc < 2 ^ 32 - 1 }
    ensures { (locals : List (Option ℤ)) → IsTurn (on_one (bits_of frac) operator pc stack.old locals) result stack.new locals }
{
    let a = stack.pop().ok_or(TrapKind::MissingOperand)?;
    let value = operator
        .checked(frac, a)
        .map_err(|fault| TrapKind::Operation(fault))?;
    stack.push(value);
    Ok(pc + 1)
}

/// Executes the instruction at index `pc` with every check: the next index, or the reason why there is none. There are
/// 256 locals.
pub(crate) fn act_checked<A: Allocator>(
    frac: Frac,
    instr: Instr,
    inputs: &Inputs<A>,
    pc: u32,
    stack: &mut Operands,
    locals: &mut [Option<Fx>],
) -> Result<u32, TrapKind>
    requires room { pc < 2 ^ 32 - 1 }
    requires locals { length locals.old ≡ 256 }
    ensures { IsTurn (act (bits_of frac) instr inputs.now pc stack.old locals.old) result stack.new locals.new }
{
    match instr {
        Instr::Push(value) => push(value, pc, stack),
        Instr::Input(number) => {
            push(inputs.get(number).ok_or(TrapKind::MissingInput)?, pc, stack)
        }
        Instr::Keep(local) => {
            locals[local as usize] = Some(stack.pop().ok_or(TrapKind::MissingOperand)?);
            Ok(pc + 1)
        }
        Instr::Get(local) => {
            push(
                locals[local as usize].ok_or(TrapKind::MissingLocal)?,
                pc,
                stack,
            )
        }
        Instr::Binary(operator) => binary(frac, operator, pc, stack),
        Instr::Unary(operator) => unary(frac, operator, pc, stack),
        Instr::JumpIfZero(target) => {
            let value = stack.pop().ok_or(TrapKind::MissingOperand)?;
            Ok(if value.raw() == 0 { target } else { pc + 1 })
        }
        Instr::Jump(target) => Ok(target),
    }
}

/// The value on the stack at the end, which must be the only one; else `BadEnd`.
fn answer(pc: u32, stack: &mut Operands) -> Result<Fx, Trap>
    ensures { result ≡ answer_of pc stack.old }
{
    match stack.pop() {
        Some(value) if stack.is_empty() => Ok(value),
        _ => Err(Trap {
            pc,
            kind: TrapKind::BadEnd,
        }),
    }
}

/// Runs the instructions on these inputs with every check.
fn run<A: Allocator>(frac: Frac, code: &[Instr], inputs: &Inputs<A>) -> Result<Fx, Trap>
    requires { IsCode code.now }
    ensures { (n : ℕ) × Ends (bits_of frac) code.now inputs.now n result }
{
    let mut stack = Operands::new();
    let mut locals = [None; 256];
    let mut pc = 0;
    while (pc as usize) < code.len() {
        match act_checked(frac, code[pc as usize], inputs, pc, &mut stack, &mut locals) {
            Ok(next) => pc = next,
            Err(kind) => return Err(Trap { pc, kind }),
        }
    }
    answer(pc, &mut stack)
}

/// Runs the code with every check, on the inputs of a pair of types at the distance `r`: returns the value, or the
/// instruction index and the reason if there is none. `a` and `b` are types of the table, from 0.
///
/// It allocates no memory.
pub fn run_checked<A: Allocator>(
    code: &Code<A>,
    table: &TypeTable<A>,
    a: u32,
    b: u32,
    r: Fx,
) -> Result<Fx, Trap>
    requires first { a < length table.now.rows }
    requires second { b < length table.now.rows }
    // The machine's run ends with this result.
    ensures ends { (n : ℕ) × Ends (bits_of table.now.frac) code.now (inputs_of table.now a b r) n result }
    // The machine's run ends with no other result.
    ensures only { (n : ℕ) (outcome : Result ℤ Trap)
        → Ends (bits_of table.now.frac) code.now (inputs_of table.now a b r) n outcome → outcome ≡ result }
    // If no path of the code lacks anything, every trap is an operation's.
    ensures operation { MissesNothing code.now (length (inputs_of table.now a b r)) → IfErr result (λ trap. IsOperation trap.kind) }
{
    run(table.frac(), code.as_slice(), &table.inputs(a, b, r))
}
