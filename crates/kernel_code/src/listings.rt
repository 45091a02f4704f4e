//! Listings: parsing and printing of code as text. Every code has one listing, since every operand has one spelling.

ghost use Rattle.std.specs.Prelude.{◌≡◌, Ok, Err, ◌++◌, ◌<◌, length, IfOk, IfErr, IfSome, IfNone};
ghost use Rattle.fallible.specs.Failures.{IfRefused};
ghost use Rattle.line_text.specs.Parts.{ended};
ghost use Rattle.kernel_code.specs.Listing.{instruction_line, HasOperands, BeginsWithNoInstruction, IsListed, listing_of, LinesParseAs, ParsesAs, ParsesOnce, OneListing};

use crate::codes::Code;
use crate::faults::CodeFault;
use crate::instructions::Instr;
use crate::lines::{instruction, put_instruction};
use fallible::Failure;
use line_text::{Line, cut, put, strip};
use std::alloc::{AllocError, Allocator};

/// Parses a listing to its code.
///
/// Errors, in this order: `BadLine` for the first line that is no instruction (line 1: not `pairmd code 1`), has an
/// operand out of range, or lacks its line feed (an empty text has a bad line 1); `TooLong` for more than 16,384
/// instructions; `BadTarget` for the first jump that doesn't go forwards and at most to the end. The last two come only
/// if every line is good. `Memory`: an allocation failed.
pub fn read<A: Allocator + Copy>(alloc: A, bytes: &[u8]) -> Result<Code<A>, Failure<CodeFault>>
    // The text parses as the code that is returned.
    ensures code { IfOk result (λ code. ParsesAs bytes.now (Ok code)) }
    // The text parses as the error that is returned, unless memory runs out.
    ensures fault { IfErr result (λ failure. IfRefused failure (λ fault. ParsesAs bytes.now (Err fault))) }
    // So the text determines the result, error included.
    ensures once { ParsesOnce }
    // Exactly the listings of codes parse as code.
    ensures one_listing { OneListing }
{
    let Some(rest) = strip(b"pairmd code 1\n", bytes) else {
        return Err(Failure::Refused(CodeFault::BadLine { line: 1 }));
    };
    below_head(alloc, rest)
}

/// The listing of the code; parsing it gives the code again. Error: a failed allocation.
pub fn print<A: Allocator + Copy, B: Allocator>(
    alloc: A,
    code: &Code<B>,
) -> Result<Vec<u8, A>, AllocError>
    ensures text { IfOk result (λ text. text.items ≡ listing_of code.now) }
    ensures listed { IfOk result (λ _. IsListed code.now) }
    ensures again { IfOk result (λ _. ParsesAs (listing_of code.now) (Ok code.now)) }
{
    let mut text = Vec::from_slice(alloc, b"pairmd code 1\n")?;
    for instr in code.as_slice() {
        let mut line = Line::new();
        put_instruction(&mut line, instr);
        put(&mut line, b"\n");
        text.extend_from_slice(line.as_slice())?;
    }
    Ok(text)
}

/// The code of the lines below the first.
fn below_head<A: Allocator + Copy>(alloc: A, bytes: &[u8]) -> Result<Code<A>, Failure<CodeFault>>
    ensures code { IfOk result (λ code. LinesParseAs bytes.now (Ok code)) }
    ensures fault { IfErr result (λ failure. IfRefused failure (λ fault. LinesParseAs bytes.now (Err fault))) }
{
    let mut instructions = Vec::new(alloc);
    let mut rest = bytes;
    while !rest.is_empty() {
        let Some((instr, after)) = line(rest) else {
            let line = instructions.as_slice().len() as u64 + 2;
            return Err(Failure::Refused(CodeFault::BadLine { line }));
        };
        instructions.push(instr)?;
        rest = after;
    }
    Ok(Code::new(instructions)?)
}

/// The instruction of the first line, and the text after that line; `None` if the text doesn't begin with an
/// instruction's line.
fn line(bytes: &[u8]) -> Option<(Instr, &[u8])>
    ensures operands { IfSome result (λ x. HasOperands x.0) }
    ensures line { IfSome result (λ x. bytes.now ≡ ended (instruction_line x.0) ++ x.1.now) }
    ensures shorter { IfSome result (λ x. length x.1.now < length bytes.now) }
    ensures none { IfNone result (BeginsWithNoInstruction bytes.now) }
{
    let (line, rest) = cut(b'\n', bytes)?;
    Some((instruction(line)?, rest))
}
