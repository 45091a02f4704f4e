//! Abstract interpretation of code on input intervals. Since jumps go forwards, one pass in order visits all runs.

ghost use Rattle.std.specs.Prelude.{◌≡◌, ◌+◌, ◌<◌, ℕ, length, IfOk, OnOk, IfErr};
ghost use Rattle.fallible.specs.Failures.{IfRefused};
ghost use Rattle.fixed.specs.Fractions.{bits_of};
ghost use Rattle.kernel_code.specs.Code.{IsCode};
ghost use Rattle.verifier.specs.Misfits.{IsWellFormed};
ghost use Rattle.verifier.specs.AbstractStates.{GivesSpan, StopsAt};
ghost use Rattle.verifier.specs.Slices.{IsFollowedTo};

use crate::abstract_states::{AbstractStates, branch};
use crate::frames::SpanFrame;
use crate::instructions::follow;
use fallible::Failure;
use fixed::{Fault, Frac};
use interval_domain::Span;
use kernel_code::Instr;
use std::alloc::Allocator;

/// The operation at this instruction index may have no value, with this fault. Only operations can stop the analysis,
/// since the path analysis found everything else before.
#[derive(Clone, Copy)]
pub struct Stopped {
    pub pc: u32,
    pub fault: Fault,
}

/// Executes the instruction `here` on its abstract state, and joins the result to its successors.
fn pass<A: Allocator + Copy>(
    alloc: A,
    frac: Frac,
    code: &[Instr],
    here: usize,
    inputs: &[Span],
    states: &mut AbstractStates<A>,
) -> Result<(), Failure<Fault>>
    requires code { IsCode code.now }
    requires well { (steps : ℕ) × IsWellFormed code.now (length inputs.now) steps }
    requires within { here < length code.now }
    requires long { length states.old ≡ length code.now + 1 }
    requires stands { IsFollowedTo (bits_of frac) code.now inputs.now here states.old }
    ensures stands { OnOk result (IsFollowedTo (bits_of frac) code.now inputs.now (here + 1) states.new) }
    ensures stops { IfErr result (λ failure. IfRefused failure (StopsAt (bits_of frac) code.now inputs.now here)) }
    ensures long { length states.new ≡ length code.now + 1 }
{
    let Some(mut frame) = states.take(here) else {
        return Ok(());
    };
    let instr = &code[here];
    match *instr {
        Instr::Jump(target) => {
            states.join(target as usize, frame);
            Ok(())
        }
        Instr::JumpIfZero(target) => branch(alloc, here + 1, target as usize, frame, states),
        _ => {
            follow(frac, instr, inputs, &mut frame)?;
            states.join(here + 1, frame);
            Ok(())
        }
    }
}

/// The interval of the values that the code gives on all inputs in these intervals, or the first instruction whose
/// operation may fault on some of them.
pub fn follow_slice<A: Allocator + Copy>(
    alloc: A,
    frac: Frac,
    code: &[Instr],
    inputs: &[Span],
) -> Result<Span, Failure<Stopped>>
    requires code { IsCode code.now }
    requires well { (steps : ℕ) × IsWellFormed code.now (length inputs.now) steps }
    ensures gives { IfOk result (GivesSpan (bits_of frac) code.now inputs.now) }
    ensures stops { IfErr result (λ failure. IfRefused failure
        (λ stopped. StopsAt (bits_of frac) code.now inputs.now stopped.pc stopped.fault)) }
{
    let Ok(mut states) = AbstractStates::new(alloc, code.len()) else {
        return Err(Failure::Memory);
    };
    states.join(0, SpanFrame::start(alloc));
    for here in 0..code.len() {
        match pass(alloc, frac, code, here, inputs, &mut states) {
            Ok(()) => {}
            Err(Failure::Memory) => return Err(Failure::Memory),
            Err(Failure::Refused(fault)) => {
                let pc = here as u32;
                return Err(Failure::Refused(Stopped { pc, fault }));
            }
        }
    }
    let Some(mut frame) = states.take(code.len()) else {
        unreachable!()
    };
    Ok(frame.pop())
}
