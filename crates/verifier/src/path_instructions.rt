//! The transfer function of the analysis: the needs of an instruction, and the abstract state after it.

ghost use Rattle.std.specs.Prelude.{◌≡◌, ◌+◌, ◌-◌, ◌^◌, ◌<◌, ◌↔◌, IsTrue, length, true};
ghost use Rattle.kernel_code.specs.Code.{goes_forward};
ghost use Rattle.kernel_code.specs.Paths.{IsSupplied, HasRoom, CanAct, height_after, set_after};
ghost use Rattle.verifier.specs.Meetings.{IsLedOn, IsFit};

use crate::faults::VerifyFault;
use crate::meetings::{Meeting, Shape, join};
use kernel_code::Instr;

/// Whether the operands, the input or the local that the instruction needs are present.
fn is_supplied(instr: &Instr, inputs: usize, shape: &Shape) -> bool
    ensures { IsTrue result ↔ IsSupplied instr.now inputs shape.now.height shape.now.set }
{
    match *instr {
        Instr::Push(_) | Instr::Jump(_) => true,
        Instr::Input(number) => (number.get() as usize) < inputs,
        Instr::Get(local) => shape.set.contains(local),
        Instr::Keep(_) | Instr::Unary(_) | Instr::JumpIfZero(_) => shape.height >= 1,
        Instr::Binary(_) => shape.height >= 2,
    }
}

/// Whether the stack has room for the value that the instruction pushes.
fn has_room(instr: &Instr, height: u32) -> bool
    ensures { IsTrue result ↔ HasRoom instr.now height }
{
    match *instr {
        Instr::Push(_) | Instr::Input(_) | Instr::Get(_) => height < 64,
        _ => true,
    }
}

/// Checks that the instruction at index `pc` can be executed. `Malformed` precedes `DepthOver64`.
pub fn check(instr: &Instr, pc: u32, inputs: usize, shape: &Shape) -> Result<(), VerifyFault>
    ensures { IsFit instr.now pc inputs shape.now.height shape.now.set result }
{
    if !is_supplied(instr, inputs, shape) {
        return Err(VerifyFault::Malformed { pc });
    }
    if !has_room(instr, shape.height) {
        return Err(VerifyFault::DepthOver64 { pc });
    }
    Ok(())
}

/// The abstract state after an instruction that can be executed.
pub fn act(instr: &Instr, inputs: usize, shape: &Shape) -> Shape
    requires fits { CanAct instr.now inputs shape.now.height shape.now.set }
    requires steps { shape.now.steps < 2 ^ 32 - 1 }
    ensures height { result.height ≡ height_after instr.now shape.now.height }
    ensures set { result.set ≡ set_after instr.now shape.now.set }
    ensures steps { result.steps ≡ shape.now.steps + 1 }
{
    let (height, set) = match *instr {
        Instr::Push(_) | Instr::Input(_) | Instr::Get(_) => (shape.height + 1, shape.set),
        Instr::Keep(local) => (shape.height - 1, shape.set.with(local)),
        Instr::Binary(_) | Instr::JumpIfZero(_) => (shape.height - 1, shape.set),
        Instr::Unary(_) | Instr::Jump(_) => (shape.height, shape.set),
    };
    Shape {
        height,
        set,
        steps: shape.steps + 1,
    }
}

/// Joins the abstract state after the instruction at `here` to the state of each successor.
pub fn lead(instr: &Instr, here: usize, shape: &Shape, meetings: &mut [Meeting])
    requires within { here + 1 < length meetings.old }
    requires forward { goes_forward (length meetings.old - 1) here instr.now ≡ true }
    ensures { IsLedOn instr.now here shape.now meetings.old meetings.new }
{
    match *instr {
        Instr::Jump(target) => join(meetings, target as usize, shape),
        Instr::JumpIfZero(target) => {
            join(meetings, here + 1, shape);
            join(meetings, target as usize, shape);
        }
        _ => join(meetings, here + 1, shape),
    }
}
