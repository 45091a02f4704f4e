// Exponents: an integer from 1 to 32 in plain digits, optionally with a minus before it and parentheses around it. `02`
// is allowed, `2.0` isn't.
ghost use Rattle.std.specs.Prelude.{◌≡◌, IfSome, IsTrue};
ghost use Rattle.expr.specs.Tokens.{Shows, lexeme, lexed};
ghost use Rattle.energy_program.specs.Tree.{is_whole};
ghost use Rattle.expr.specs.Parsing.{awaits_operand, caret_sign, exponent_seen, sign_seen, signed_sign, whole_of, whole_sign};

use crate::parser::{begins_operand, minus_sign};
use crate::tokens::{Kind, Token};
use energy_program::Exponent;

/// The offset of a leading `^`, and the tokens after it.
pub fn caret_sign<'a>(tokens: &'a [Token<'a>]) -> Option<(usize, &'a [Token<'a>])>
    ensures { Shows sign_seen result (caret_sign (lexed tokens.now)) }
{
    match tokens {
        [token, rest @ ..] if matches!(token.kind, Kind::Caret) => Some((token.at, rest)),
        _ => None,
    }
}

/// Whether the first token can begin an operand.
pub fn awaits_operand(tokens: &[Token]) -> bool
    ensures { result ≡ awaits_operand (lexed tokens.now) }
{
    matches!(tokens, [token, ..] if begins_operand(token.kind))
}

// The integer from 1 to 32 that a token spells in plain digits.
fn whole_of(kind: Kind<'_>) -> Option<u8>
    ensures value { result ≡ whole_of (lexeme kind.entry) }
    ensures range { IfSome result (λ n. IsTrue (is_whole n)) }
{
    match kind {
        Kind::Number(_, _, _, whole) if 0 < whole && whole <= 32 => Some(whole),
        _ => None,
    }
}

// A leading integer from 1 to 32, and the tokens after it.
fn whole_sign<'a>(tokens: &'a [Token<'a>]) -> Option<(u8, &'a [Token<'a>])>
    ensures value { Shows sign_seen result (whole_sign (lexed tokens.now)) }
    ensures range { IfSome result (λ x. IsTrue (is_whole x.0)) }
{
    match tokens {
        [token, rest @ ..] => Some((whole_of(token.kind)?, rest)),
        [] => None,
    }
}

/// A leading integer with its optional minus, and the tokens after it.
pub fn signed_sign<'a>(tokens: &'a [Token<'a>]) -> Option<(Exponent, &'a [Token<'a>])>
    ensures { Shows exponent_seen result (signed_sign (lexed tokens.now)) }
{
    match minus_sign(tokens) {
        None => {
            let (whole, rest) = whole_sign(tokens)?;
            let value = whole as i8;
            Some((Exponent { value }, rest))
        }
        Some(after) => {
            let (whole, rest) = whole_sign(after)?;
            let value = -(whole as i8);
            Some((Exponent { value }, rest))
        }
    }
}
