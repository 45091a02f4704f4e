//! The data-flow analysis: since jumps go forwards, one pass over the instructions in order follows all paths.

ghost use Rattle.std.specs.Prelude.{◌≡◌, ◌+◌, ◌^◌, ◌<◌, ℕ, length, OnOk, IfOk, IfErr, Result};
ghost use Rattle.fallible.specs.Failures.{Gives, IfRefused};
ghost use Rattle.kernel_code.specs.Code.{IsCode};
ghost use Rattle.verifier.specs.declared.meetings.Meeting.TheVariants.{Nothing};
ghost use Rattle.verifier.specs.Misfits.{IsWellFormed, IsFirst, IsPathResult, GoesWrongSo};
ghost use Rattle.verifier.specs.Meetings.{HasFollowed, IsEnd};

use crate::faults::VerifyFault;
use crate::meetings::{Meeting, Shape};
use crate::path_instructions::{act, check, lead};
use fallible::Failure;
use kernel_code::{Code, Instr};
use std::alloc::Allocator;

/// Propagates the abstract state of the paths that reach the instruction `here` to its successors.
fn follow(
    code: &[Instr],
    here: usize,
    inputs: usize,
    meetings: &mut [Meeting],
) -> Result<(), VerifyFault>
    requires code { IsCode code.now }
    requires within { here < length code.now }
    requires stands { HasFollowed code.now inputs here meetings.old }
    ensures on { OnOk result (HasFollowed code.now inputs (here + 1) meetings.new) }
    ensures refused { IfErr result (IsFirst code.now inputs) }
{
    let meeting = meetings[here];
    match meeting {
        Meeting::Nothing => Ok(()),
        Meeting::Level(shape) => {
            let instr = &code[here];
            check(instr, here as u32, inputs, &shape)?;
            lead(instr, here, &act(instr, inputs, &shape), meetings);
            Ok(())
        }
        Meeting::Uneven => Err(VerifyFault::Malformed { pc: here as u32 }),
    }
}

/// The result for the paths at the end, index `len`: the length of the longest, or the error there.
fn judge_end(end: &Meeting, len: usize) -> Result<u32, VerifyFault>
    requires some { end.now ≡ Nothing → ⊥ }
    requires short { len < 2 ^ 32 }
    ensures { IsEnd end.now len result }
{
    match end {
        Meeting::Level(shape) if shape.height == 1 => Ok(shape.steps),
        Meeting::Nothing => unreachable!(),
        _ => Err(VerifyFault::Malformed { pc: len as u32 }),
    }
}

/// The result for all paths, from `meetings` in which only the start has an abstract state.
fn judge(code: &[Instr], inputs: usize, meetings: &mut [Meeting]) -> Result<u32, VerifyFault>
    requires code { IsCode code.now }
    requires stands { HasFollowed code.now inputs 0 meetings.old }
    ensures { IsPathResult code.now inputs result }
{
    for here in 0..code.len() {
        if let Err(fault) = follow(code, here, inputs, meetings) {
            return Err(fault);
        }
    }
    judge_end(&meetings[code.len()], code.len())
}

/// The number of instructions on the longest path of the code with `inputs` inputs, if all paths are well-formed: none
/// lacks an operand, a local or an input, pushes a 65th value, or ends with other than one value, and paths that join
/// have the same stack height. Each conditional jump may go either way, regardless of values.
///
/// Errors: the lowest instruction index with an error decides. There, `Malformed` if a path lacks an operand, a local
/// or an input, if paths join with different stack heights, or if a path ends (at the code's length) with other than
/// one value; else `DepthOver64` if a path pushes a 65th value. Unreachable instructions aren't checked. `Memory`: an
/// allocation failed.
pub fn longest_path<A: Allocator, B: Allocator>(
    alloc: A,
    code: &Code<B>,
    inputs: usize,
) -> Result<u32, Failure<VerifyFault>>
    // The result satisfies its specification.
    ensures well { IfOk result (IsWellFormed code.now inputs) }
    ensures first { IfErr result (λ failure. IfRefused failure (IsFirst code.now inputs)) }
    // No other result satisfies the specification.
    ensures only { (answer : Result ℕ VerifyFault) → IsPathResult code.now inputs answer
        → Gives (λ steps. steps) (λ fault. fault) result answer }
    // If the code is rejected, some path is malformed as the error describes.
    ensures refused { IfErr result (λ failure. IfRefused failure (GoesWrongSo code.now inputs)) }
{
    let instructions = code.as_slice();
    let mut meetings = vec![in alloc; Meeting::Nothing; instructions.len() + 1]?;
    meetings[0] = Meeting::Level(Shape::start());
    match judge(instructions, inputs, &mut meetings) {
        Ok(steps) => Ok(steps),
        Err(fault) => Err(Failure::Refused(fault)),
    }
}
