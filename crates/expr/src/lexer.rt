// The lexer: from bytes to tokens, from left to right up to the first error.
ghost use Rattle.std.specs.Prelude.{◌≡◌, ◌≤◌, length};
ghost use Rattle.std.specs.List.{prefix_len};
ghost use Rattle.fixed.specs.Fractions.{bits_of};
ghost use Rattle.fixed.specs.NumeralParts.{constant_front_of};
ghost use Rattle.energy_program.specs.Faults.{Gives, refusal_of};
ghost use Rattle.expr.specs.Tokens.{Shows, lexed_items, lexeme, whole_in};
ghost use Rattle.line_text.specs.Identifiers.{is_identifier_continue};
ghost use Rattle.expr.specs.Bytes.{is_space, begins_number};
ghost use Rattle.expr.specs.Lexing.{number_token, symbol_of, symbol_token, token_at, ShowsToken, refusal_at, tokens_of};

use crate::tokens::{Kind, Token};
use energy_program::ExprFault;
use fallible::Failure;
use fixed::{Frac, NumFault, constant_front};
use line_text::{digits_up_to, is_identifier_continue, is_identifier_start};
use std::alloc::Allocator;

/// A lexical error at the front of a text.
#[derive(Clone, Copy)]
pub enum Wrong {
    /// The byte begins no token.
    Byte,
    /// The numeral is malformed, or its value doesn't fit.
    Number(NumFault),
}

fn is_space(byte: u8) -> bool
    ensures { result ≡ is_space byte }
{
    byte == b' ' || byte == b'\t' || byte == b'\r' || byte == b'\n'
}

fn begins_number(byte: u8) -> bool
    ensures { result ≡ begins_number byte }
{
    byte.is_ascii_digit() || byte == b'.'
}

#[tactic(auto, unfolding(crate::specs::Lexing::symbol_of))]
fn symbol_of<'a>(byte: u8) -> Option<Kind<'a>>
    ensures { Shows (λ k. lexeme k) result (symbol_of byte) }
{
    match byte {
        b'+' => Some(Kind::Plus),
        b'-' => Some(Kind::Minus),
        b'*' => Some(Kind::Star),
        b'/' => Some(Kind::Slash),
        b'^' => Some(Kind::Caret),
        b'(' => Some(Kind::Open),
        b')' => Some(Kind::Close),
        b',' => Some(Kind::Comma),
        b';' => Some(Kind::Semicolon),
        b'=' => Some(Kind::Equals),
        _ => None,
    }
}

// The length of the identifier that the text begins with.
fn word_len(text: &[u8]) -> usize
    ensures value { result ≡ prefix_len is_identifier_continue text.now }
    ensures bound { result ≤ length text.now }
{
    text.iter()
        .take_while(|byte| is_identifier_continue(**byte))
        .count()
}

// The integer that a numeral spells in plain digits, 100 if it is greater, or 0 if the numeral isn't plain digits.
fn whole(text: &[u8]) -> u8
    ensures { result ≡ whole_in text.now }
{
    match digits_up_to(100, text) {
        Some(whole) => whole as u8,
        None => 0,
    }
}

// The numeral at the front, and the bytes after it.
fn number_token<'a>(frac: Frac, text: &'a [u8]) -> Result<(Kind<'a>, &'a [u8]), Wrong>
    ensures { ShowsToken result (number_token text.now (constant_front_of (bits_of frac) text.now)) }
{
    match constant_front(frac, text) {
        Ok((constant, after)) => {
            let whole = whole(&text[..text.len() - after.len()]);
            let raw = constant.value.raw();
            Ok((Kind::Number(raw, constant.low, constant.high, whole), after))
        }
        Err(fault) => Err(Wrong::Number(fault)),
    }
}

// The symbol that a byte is, and the bytes after it. `Byte`: the byte is no symbol.
fn symbol_token<'a>(byte: u8, after: &'a [u8]) -> Result<(Kind<'a>, &'a [u8]), Wrong>
    ensures { ShowsToken result (symbol_token after.now (symbol_of byte)) }
{
    match symbol_of(byte) {
        Some(kind) => Ok((kind, after)),
        None => Err(Wrong::Byte),
    }
}

// The token at the front, and the bytes after it.
#[tactic(auto, unfolding(crate::specs::Lexing::token_at))]
fn token_at<'a>(frac: Frac, text: &'a [u8]) -> Result<(Kind<'a>, &'a [u8]), Wrong>
    ensures { ShowsToken result (token_at (bits_of frac) text.now) }
{
    match text {
        [] => Err(Wrong::Byte),
        [first, rest @ ..] => {
            if begins_number(*first) {
                number_token(frac, text)
            } else if is_identifier_start(*first) {
                let (name, after) = text.split_at(word_len(text));
                Ok((Kind::Name(name), after))
            } else {
                symbol_token(*first, rest)
            }
        }
    }
}

// The fault of a lexical error at an offset.
fn wrong_at<A: Allocator>(wrong: Wrong, at: usize) -> ExprFault<A>
    ensures { refusal_of result ≡ refusal_at at wrong }
{
    match wrong {
        Wrong::Byte => ExprFault::BadCharacter { at },
        Wrong::Number(NumFault::BadNumber) => ExprFault::BadNumber { at },
        Wrong::Number(NumFault::NumberRange) => ExprFault::NumberRange { at },
    }
}

/// The tokens of a text. Errors: the first lexical error, with its offset; `Memory` if an allocation fails.
pub fn tokens<'a, A: Allocator + Copy>(
    alloc: A,
    frac: Frac,
    text: &'a [u8],
) -> Result<Vec<Token<'a>, A>, Failure<ExprFault<A>>>
    ensures { Gives lexed_items result (tokens_of (bits_of frac) text.now) }
{
    let mut tokens = Vec::new(alloc);
    let mut rest = text;
    while let [first, after @ ..] = rest {
        if is_space(*first) {
            rest = after;
        } else {
            let at = text.len() - rest.len();
            match token_at(frac, rest) {
                Ok((kind, beyond)) => {
                    tokens.push(Token { kind, at })?;
                    rest = beyond;
                }
                Err(wrong) => return Err(Failure::Refused(wrong_at(wrong, at))),
            }
        }
    }
    Ok(tokens)
}
