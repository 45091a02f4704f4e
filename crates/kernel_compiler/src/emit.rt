//! Code generation: appends instructions to a list, whose length was checked before.

ghost use Rattle.std.specs.Prelude.{◌≡◌, true, ◌≤◌, ◌<◌, ◌+◌, [], ◌∷◌, ◌++◌, OnOk, IsTrue, length, map};
ghost use Rattle.fixed.specs.Fractions.{bits_of};
ghost use Rattle.energy_program.specs.Tree as t;
ghost use Rattle.energy_program.specs.Tree.{tree_of, is_exponent};
ghost use Rattle.kernel_compiler.specs.Code.{stack_depth, is_second_first, exchange_code, power_code, raised_code, tree_code, definitions_code};
ghost use Rattle.kernel_code.specs.declared.instructions.Instr.TheVariants as i;
ghost use Rattle.kernel_compiler.specs.Sizes.{raised_size, size, definitions_size, IsEmittable, AllEmittable};

use crate::sizes::{is_second_first, stack_depth};
use energy_program::Expr;
use fixed::{Frac, Fx, Operator, UnaryOperator};
use kernel_code::{InputNumber, Instr};
use std::alloc::{AllocError, Allocator};

/// The local that holds the base of a power.
const BASE: u8 = 0;

/// The local that helps to exchange two values.
const SPARE: u8 = 1;

/// The local of definition 0; definition k has local k + 2.
const FIRST: usize = 2;

/// Appends an instruction.
fn put<A: Allocator>(code: &mut Vec<Instr, A>, instr: Instr) -> Result<(), AllocError>
    ensures items { OnOk result (code.new.items ≡ code.old.items ++ instr ∷ []) }
    ensures len { OnOk result (length code.new.items ≡ length code.old.items + 1) }
{
    code.push(instr)?;
    Ok(())
}

/// Exchanges the two values on top of the stack.
fn put_exchange<A: Allocator>(code: &mut Vec<Instr, A>) -> Result<(), AllocError>
    ensures items { OnOk result (code.new.items ≡ code.old.items ++ exchange_code) }
    ensures len { OnOk result (length code.new.items ≡ length code.old.items + 4) }
{
    put(code, Instr::Keep(SPARE))?;
    put(code, Instr::Keep(BASE))?;
    put(code, Instr::Get(SPARE))?;
    put(code, Instr::Get(BASE))
}

/// A power of the base, by binary exponentiation.
#[tactic(auto, using(crate::proofs::Powers::powers))]
fn put_power<A: Allocator>(code: &mut Vec<Instr, A>, exponent: u32) -> Result<(), AllocError>
    requires { 0 < exponent }
    ensures items { OnOk result (code.new.items ≡ code.old.items ++ power_code exponent) }
    ensures len { OnOk result (length code.new.items ≡ length code.old.items + length (power_code exponent)) }
{
    if exponent == 1 {
        return put(code, Instr::Get(BASE));
    }
    put_power(code, exponent / 2)?;
    put(code, Instr::Unary(UnaryOperator::Square))?;
    if exponent % 2 != 0 {
        put(code, Instr::Get(BASE))?;
        put(code, Instr::Binary(Operator::Multiply))?;
    }
    Ok(())
}

/// Raises the value on top of the stack to a power. A negative power is one over the power.
fn put_raised<A: Allocator>(
    code: &mut Vec<Instr, A>,
    frac: Frac,
    exponent: i8,
) -> Result<(), AllocError>
    requires { IsTrue (is_exponent exponent) }
    ensures items { OnOk result (code.new.items ≡ code.old.items ++ raised_code (bits_of frac) exponent) }
    ensures len { OnOk result (length code.new.items ≡ length code.old.items + raised_size exponent) }
{
    put(code, Instr::Keep(BASE))?;
    let magnitude = u32::from(exponent.unsigned_abs());
    if exponent > 0 {
        return put_power(code, magnitude);
    }
    put(code, Instr::Push(Fx::from_raw(frac.one())))?;
    put_power(code, magnitude)?;
    put(code, Instr::Binary(Operator::Divide))
}

/// The code of an expression. Each term of a sum needs a stack frame, so the frame is kept small: the functions for
/// other parts aren't inlined.
#[cycle(emit)]
pub(crate) fn emit<A: Allocator>(
    code: &mut Vec<Instr, A>,
    frac: Frac,
    e: &Expr<A>,
) -> Result<(), AllocError>
    requires room { length code.old.items + size (tree_of e.now) ≤ 16384 }
    requires operands { IsEmittable (tree_of e.now) }
    ensures items { OnOk result (code.new.items ≡ code.old.items ++ tree_code (bits_of frac) (length code.old.items) (tree_of e.now)) }
    ensures len { OnOk result (length code.new.items ≡ length code.old.items + size (tree_of e.now)) }
{
    match e {
        Expr::Number(value, _, _) => put(code, Instr::Push(*value)),
        Expr::Input(number) => put(code, Instr::Input(InputNumber::new(*number as u8))),
        Expr::Definition(number) => put(code, Instr::Get((*number as usize + FIRST) as u8)),
        Expr::Negated(a) => {
            emit(code, frac, a)?;
            put(code, Instr::Unary(UnaryOperator::Negate))
        }
        Expr::Binary(operator, a, b) => {
            if is_second_first(stack_depth(a), stack_depth(b)) {
                return emit_exchanged(code, frac, *operator, a, b);
            }
            emit(code, frac, a)?;
            emit_second(code, frac, *operator, b)
        }
        Expr::Applied(function, a) => {
            emit(code, frac, a)?;
            put(code, Instr::Unary(UnaryOperator::Apply(*function)))
        }
        Expr::Power(a, exponent) => {
            emit(code, frac, a)?;
            put_raised(code, frac, *exponent)
        }
        Expr::Select(condition, a, b) => emit_choice(code, frac, condition, a, b),
    }
}

/// The code of an operation whose second operand is computed first.
#[cycle(emit)]
#[inline(never)]
fn emit_exchanged<A: Allocator>(
    code: &mut Vec<Instr, A>,
    frac: Frac,
    operator: Operator,
    a: &Expr<A>,
    b: &Expr<A>,
) -> Result<(), AllocError>
    requires second_first { is_second_first (stack_depth (tree_of a.now)) (stack_depth (tree_of b.now)) ≡ true }
    requires room { length code.old.items + size (t.Binary operator (tree_of a.now) (tree_of b.now)) ≤ 16384 }
    requires operands { IsEmittable (t.Binary operator (tree_of a.now) (tree_of b.now)) }
    ensures items { OnOk result (code.new.items
        ≡ code.old.items ++ tree_code (bits_of frac) (length code.old.items) (t.Binary operator (tree_of a.now) (tree_of b.now))) }
    ensures len { OnOk result (length code.new.items ≡ length code.old.items + size (t.Binary operator (tree_of a.now) (tree_of b.now))) }
{
    emit(code, frac, b)?;
    emit(code, frac, a)?;
    put_exchange(code)?;
    put(code, Instr::Binary(operator))
}

/// The code of an operation's second operand, then of the operation.
#[cycle(emit)]
#[inline(never)]
fn emit_second<A: Allocator>(
    code: &mut Vec<Instr, A>,
    frac: Frac,
    operator: Operator,
    b: &Expr<A>,
) -> Result<(), AllocError>
    requires room { length code.old.items + (size (tree_of b.now) + 1) ≤ 16384 }
    requires operands { IsEmittable (tree_of b.now) }
    ensures items { OnOk result (code.new.items
        ≡ (code.old.items ++ tree_code (bits_of frac) (length code.old.items) (tree_of b.now)) ++ (i.Binary operator ∷ [])) }
    ensures len { OnOk result (length code.new.items ≡ length code.old.items + (size (tree_of b.now) + 1)) }
{
    emit(code, frac, b)?;
    put(code, Instr::Binary(operator))
}

/// The code of a choice between two branches. Jumps are patched once their targets are known.
#[cycle(emit)]
fn emit_choice<A: Allocator>(
    code: &mut Vec<Instr, A>,
    frac: Frac,
    condition: &Expr<A>,
    a: &Expr<A>,
    b: &Expr<A>,
) -> Result<(), AllocError>
    requires room { length code.old.items + size (t.Select (tree_of condition.now) (tree_of a.now) (tree_of b.now)) ≤ 16384 }
    requires operands { IsEmittable (t.Select (tree_of condition.now) (tree_of a.now) (tree_of b.now)) }
    ensures items { OnOk result (code.new.items
        ≡ code.old.items ++ tree_code (bits_of frac) (length code.old.items)
        (t.Select (tree_of condition.now) (tree_of a.now) (tree_of b.now))) }
    ensures len { OnOk result (length code.new.items
        ≡ length code.old.items + size (t.Select (tree_of condition.now) (tree_of a.now) (tree_of b.now))) }
{
    emit(code, frac, condition)?;
    let condition_end = code.len();
    put(code, Instr::JumpIfZero(0))?;
    emit(code, frac, a)?;
    let first_end = code.len();
    put(code, Instr::Jump(0))?;
    let second = code.len();
    emit(code, frac, b)?;
    code[condition_end] = Instr::JumpIfZero(second as u32);
    code[first_end] = Instr::Jump(code.len() as u32);
    Ok(())
}

/// The code of the marked definitions among these, which are numbered from `number`: the last first, as earlier ones
/// use later ones, each kept in its local.
#[tactic(auto, using(std::proofs::lemmas::Grind::common_steps))]
pub(crate) fn emit_definitions<A: Allocator>(
    code: &mut Vec<Instr, A>,
    frac: Frac,
    marks: &[bool],
    number: usize,
    definitions: &[Expr<A>],
) -> Result<(), AllocError>
    requires from_start { code.old.items ≡ [] }
    requires within { number + length definitions.now ≤ length marks.now }
    requires room { definitions_size number marks.now (map tree_of definitions.now) ≤ 16384 }
    requires operands { AllEmittable number (map tree_of definitions.now) }
    ensures items { OnOk result (code.new.items ≡ definitions_code (bits_of frac) number marks.now (map tree_of definitions.now)) }
    ensures len { OnOk result (length code.new.items ≡ definitions_size number marks.now (map tree_of definitions.now)) }
{
    if let [first, later @ ..] = definitions {
        emit_definitions(code, frac, marks, number + 1, later)?;
        if marks[number] {
            emit(code, frac, first)?;
            put(code, Instr::Keep((number + FIRST) as u8))?;
        }
    }
    Ok(())
}
