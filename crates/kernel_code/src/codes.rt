//! Code: lists of instructions whose jumps only go forwards, so that every run ends.

ghost use Rattle.std.specs.Prelude.{◌≡◌, ◌≤◌, length, Err, IfOk, IfErr};
ghost use Rattle.kernel_code.specs.Code.{IsCode, JumpsForward, goes_forward, ChecksAs};

use crate::faults::CodeFault;
use crate::instructions::Instr;
use std::alloc::Allocator;
use std::marker::Model;

/// Code: at most 16,384 instructions, whose jumps go forwards, to the code's end at most.
///
/// In contracts, it is the list of its instructions.
#[derive(Drop)]
pub struct Code<A: Allocator> {
    instructions: Vec<Instr, A>,
}

impl<A: Allocator> Model for Code<A> {
    ghost use Rattle.std.specs.Prelude.{List};
    ghost use Rattle.kernel_code.specs.declared.instructions.Instr.{Instr};
    ghost use Rattle.kernel_code.specs.Code.{IsCode};

    ghost Value = { List Instr };

    ghost view = { λ c. c.instructions.items };

    ghost invariant = { λ c. IsCode c.instructions.items };
}

/// The maximum number of instructions in code.
pub const MAX_INSTRUCTIONS: usize = 16_384;

impl<A: Allocator> Code<A> {
    /// Code from these instructions.
    ///
    /// Errors: `TooLong` if there are more than 16,384; else `BadTarget` for the first jump whose target isn't after
    /// the jump, or is past the end. Its `line` is the jump's instruction index plus 2, the line number in a listing.
    pub fn new(instructions: Vec<Instr, A>) -> Result<Code<A>, CodeFault>
        ensures { ChecksAs instructions.items result }
    {
        if instructions.len() > MAX_INSTRUCTIONS {
            return Err(CodeFault::TooLong);
        }
        check_targets(instructions.as_slice())?;
        Ok(Code { instructions })
    }

    /// The instructions, by instruction index.
    pub fn as_slice(&self) -> &[Instr]
        ensures items { result.now ≡ self.now }
        ensures code { IsCode self.now }
    {
        self.instructions.as_slice()
    }
}

/// Whether an instruction at index `pc` of `len` is no jump, or jumps forwards and at most to the end.
fn goes_forward(instr: &Instr, pc: usize, len: usize) -> bool
    ensures { result ≡ goes_forward len pc instr.now }
{
    match *instr {
        Instr::JumpIfZero(target) | Instr::Jump(target) => {
            pc < target as usize && target as usize <= len
        }
        _ => true,
    }
}

/// Reports the first jump whose target isn't after the jump, or is past the end, as `BadTarget`.
fn check_targets(instructions: &[Instr]) -> Result<(), CodeFault>
    requires { length instructions.now ≤ 16384 }
    ensures forward { IfOk result (λ _. JumpsForward instructions.now) }
    ensures fault { IfErr result (λ fault. ChecksAs instructions.now (Err fault)) }
{
    for (pc, instr) in instructions.iter().enumerate() {
        if !goes_forward(instr, pc, instructions.len()) {
            return Err(CodeFault::BadTarget {
                line: pc as u64 + 2,
            });
        }
    }
    Ok(())
}
