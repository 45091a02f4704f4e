//! Instructions as lines of a listing, without line feeds: parsing and printing.

ghost use Rattle.std.specs.Prelude.{◌≡◌, ◌≤◌, ◌+◌, ◌++◌, length, decimal};
ghost use Rattle.arrayvec.specs.ArrayVec.{array_vec_len};
ghost use Rattle.kernel_code.specs.Listing.{instruction_line, HasOperands};
ghost use Rattle.kernel_code.specs.InstructionLines.{instruction_of, instruction_with};

use crate::inputs::InputNumber;
use crate::instructions::Instr;
use fixed::{Fx, Operator, UnaryOperator};
use line_text::{Line, cut, integer, natural, put, put_integer};

/// The instruction with this mnemonic and operand; `None` if there is none, or the operand is out of range.
#[tactic(auto, unfolding(crate::specs::InstructionLines::instruction_with))]
fn with_operand(name: &[u8], operand: &[u8]) -> Option<Instr>
    ensures { result ≡ instruction_with name.now operand.now }
{
    if name == b"push".as_slice() {
        Some(Instr::Push(Fx::from_raw(integer(operand)?)))
    } else if name == b"input".as_slice() {
        Some(Instr::Input(InputNumber::new(natural(33, operand)? as u8)))
    } else if name == b"keep".as_slice() {
        Some(Instr::Keep(natural(256, operand)? as u8))
    } else if name == b"get".as_slice() {
        Some(Instr::Get(natural(256, operand)? as u8))
    } else if name == b"jumpifzero".as_slice() {
        Some(Instr::JumpIfZero(natural(1 << 32, operand)? as u32))
    } else if name == b"jump".as_slice() {
        Some(Instr::Jump(natural(1 << 32, operand)? as u32))
    } else {
        None
    }
}

/// The instruction of a line; `None` if the line is no instruction or an operand is out of range.
#[tactic(auto, unfolding(crate::specs::InstructionLines::instruction_of))]
pub fn instruction(line: &[u8]) -> Option<Instr>
    ensures { result ≡ instruction_of line.now }
{
    match cut(b' ', line) {
        Some((name, operand)) => with_operand(name, operand),
        None => match Operator::of_word(line) {
            Some(operator) => Some(Instr::Binary(operator)),
            None => Some(Instr::Unary(UnaryOperator::of_word(line)?)),
        },
    }
}

/// Appends the mnemonic (with its space) and the number.
fn put_with(line: &mut Line, name: &[u8], number: u64)
    requires { array_vec_len line.old + length name.now + 20 ≤ 160 }
    ensures items { line.new.items ≡ line.old.items ++ (name.now ++ decimal number) }
    ensures len { array_vec_len line.new ≤ array_vec_len line.old + length name.now + 20 }
{
    put(line, name);
    put_integer(line, number);
}

/// Appends the instruction's line, without its line feed.
pub fn put_instruction(line: &mut Line, instr: &Instr)
    requires { array_vec_len line.old + 40 ≤ 160 }
    ensures operands { HasOperands instr.now }
    ensures items { line.new.items ≡ line.old.items ++ instruction_line instr.now }
    ensures len { array_vec_len line.new ≤ array_vec_len line.old + 40 }
{
    match *instr {
        Instr::Push(number) => {
            put(line, b"push ");
            put_integer(line, number.raw());
        }
        Instr::Input(number) => put_with(line, b"input ", number.get() as u64),
        Instr::Keep(local) => put_with(line, b"keep ", local as u64),
        Instr::Get(local) => put_with(line, b"get ", local as u64),
        Instr::Binary(operator) => put(line, operator.word()),
        Instr::Unary(operator) => put(line, operator.word()),
        Instr::JumpIfZero(target) => put_with(line, b"jumpifzero ", target as u64),
        Instr::Jump(target) => put_with(line, b"jump ", target as u64),
    }
}
