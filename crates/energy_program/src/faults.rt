ghost use Rattle.std.specs.Prelude.{◌≡◌};
ghost use Rattle.fallible.specs.declared.failure.Failure.TheVariants.{Refused};
ghost use Rattle.energy_program.specs.Faults.{IsFaultOrMemory};
ghost use Rattle.energy_program.specs.Names.{call_refusal};

use crate::names::{EnergyName, is_left_out};
use fallible::Failure;
use std::alloc::Allocator;
use std::fmt;
use thiserror::Error;

/// The error of a rejected energy text. Offsets are in bytes, from 0. A failed allocation isn't one of these, but
/// `Failure::Memory`.
#[derive(Drop, Error)]
pub enum ExprFault<A: Allocator> {
    /// A byte begins no token.
    #[error("E01 BadCharacter {at}")]
    BadCharacter { at: usize },
    /// A numeral is malformed: it has no digit, more than 18 digits before its exponent part, an exponent over 99, a
    /// second point right after it, or an `e` or `E` without digits.
    #[error("E02 BadNumber {at}")]
    BadNumber { at: usize },
    /// The grammar doesn't allow the token here, or the text ends too early (`at` is then the length of the text).
    #[error("E03 UnexpectedToken {at}")]
    UnexpectedToken { at: usize },
    /// The name isn't defined, or it is followed by a parenthesis and isn't a function.
    #[error("E04 UnknownName {name}")]
    UnknownName { name: EnergyName<A> },
    /// A function is called with a wrong number of arguments.
    #[error("E05 WrongArgumentCount {name}")]
    WrongArgumentCount { name: EnergyName<A> },
    /// The exponent after `^` isn't an integer from 1 to 32 in plain digits, optionally with a minus before it and
    /// parentheses around it.
    #[error("E06 BadExponent {at}")]
    BadExponent { at: usize },
    /// The rounded value of a numeral, without its sign, is 2^63 or more as a raw number.
    #[error("E07 NumberRange {at}")]
    NumberRange { at: usize },
    /// A name is defined twice, or appears twice among the parameters or twice among the globals.
    #[error("E08 RepeatedDefinition {name}")]
    RepeatedDefinition { name: EnergyName<A> },
    /// A definition has the name of a variable or a reserved name, or a variable has a reserved name or another
    /// variable's.
    #[error("E09 ReservedName {name}")]
    ReservedName { name: EnergyName<A> },
    /// The text has more than 4,096 tokens, an operand inside more than 64 parentheses and minus signs, or more than 64
    /// definitions; there are more than 8 parameters or more than 16 globals; the program of the derivative has more
    /// than 128 definitions; or its code has more than 16,384 instructions.
    #[error("E10 TooLarge")]
    TooLarge,
    /// The name before a parenthesis is a function that the language leaves out.
    #[error("E11 LeftOutFunction {name}")]
    LeftOutFunction { name: EnergyName<A> },
}

/// `Debug` prints as `Display`.
impl<A: Allocator> fmt::Debug for ExprFault<A> {
    fn fmt<W: fmt::Write>(&self, f: &mut fmt::Formatter<W>) -> fmt::Result {
        fmt::Display::fmt(self, f)
    }
}

impl<A: Allocator + Copy> ExprFault<A> {
    /// The fault of a name before a parenthesis that isn't a function: `LeftOutFunction` if the language leaves the
    /// function out, else `UnknownName`. `Memory` if the copy of the name can't be allocated.
    pub fn no_function(alloc: A, name: &[u8]) -> Failure<ExprFault<A>>
        ensures { IsFaultOrMemory result (call_refusal name.now) }
    {
        match EnergyName::copied(alloc, name) {
            Err(_) => Failure::Memory,
            Ok(copy) if is_left_out(name) => Failure::Refused(ExprFault::LeftOutFunction {
                name: copy,
            }),
            Ok(copy) => Failure::Refused(ExprFault::UnknownName { name: copy }),
        }
    }
}

impl<A: Allocator> From<ExprFault<A>> for Failure<ExprFault<A>> {
    ghost from_gives = { λ fault e. e ≡ Refused fault };

    fn from(fault: ExprFault<A>) -> Failure<ExprFault<A>> {
        Failure::Refused(fault)
    }
}
