// The parser: from tokens to a syntax tree, by recursive descent with a bounded depth. One function per rule of the
// grammar (specs/Grammar.antt); `levels` bounds the nesting, so that the native stack can't overflow.
ghost use Rattle.std.specs.Prelude.{◌≡◌, Err, Ok};
ghost use Rattle.fixed.specs.Constants.{constant};
ghost use Rattle.expr.specs.Tokens.{Shows, lexeme, lexed};
ghost use Rattle.energy_program.specs.Faults.{Answers, Gives, WrongArgumentCount, refusal_of};
ghost use Rattle.expr.specs.Calls.{called};
ghost use Rattle.expr.specs.Syntax.{arguments_of, syntax_of};
ghost use Rattle.expr.specs.Parsing.{Closes, Operates, beside, followed, beginning, start_seen, sign_seen, arguments_seen, exponent_seen, seen, rest_seen, offset, begins_operand, misplaced, beginning_of, start, sum_sign, product_sign, minus_sign, open_sign, close_sign, comma_sign, close, expr_at, term_at, unary_at, power_at, raised_at, exponent_at, grouped_at, atom_at, call_at, arguments_at, list_at, closed_at};

use crate::calls::Arguments;
use crate::exponents::{awaits_operand, caret_sign, signed_sign};
use crate::syntax::{Boxed, Syntax};
use crate::tokens::{Kind, Token};
use energy_program::{Callee, EnergyName, Exponent, ExprFault, function_of};
use fallible::Failure;
use fixed::{Constant, Fx, Operator};
use std::alloc::Allocator;

/// Nesting levels of a text: fewer parentheses and minus signs than this may be open around a token.
pub const LEVELS: usize = 65;

/// A parsed value and the tokens after it, or the first error.
type ReadOf<'a, T, A> = Result<(T, &'a [Token<'a>]), Failure<ExprFault<A>>>;

/// A parsed expression's tree and the tokens after it.
pub type Read<'a, A> = ReadOf<'a, Boxed<'a, A>, A>;

/// Parsed arguments and the tokens after them.
type ReadArguments<'a, A> = ReadOf<'a, Arguments<'a, A>, A>;

/// A parser for the tokens of a text that has `end` bytes.
#[derive(Drop)]
pub struct Parser<A: Allocator> {
    pub alloc: A,
    pub end: usize,
}

// A leading `+` or `-` between terms, and the tokens after it.
fn sum_sign<'a>(tokens: &'a [Token<'a>]) -> Option<(Operator, &'a [Token<'a>])>
    ensures { Shows sign_seen result (sum_sign (lexed tokens.now)) }
{
    match tokens {
        [token, rest @ ..] => match token.kind {
            Kind::Plus => Some((Operator::Add, rest)),
            Kind::Minus => Some((Operator::Subtract, rest)),
            _ => None,
        },
        [] => None,
    }
}

// A leading `*` or `/` between factors, and the tokens after it.
fn product_sign<'a>(tokens: &'a [Token<'a>]) -> Option<(Operator, &'a [Token<'a>])>
    ensures { Shows sign_seen result (product_sign (lexed tokens.now)) }
{
    match tokens {
        [token, rest @ ..] => match token.kind {
            Kind::Star => Some((Operator::Multiply, rest)),
            Kind::Slash => Some((Operator::Divide, rest)),
            _ => None,
        },
        [] => None,
    }
}

/// A leading minus sign: the tokens after it.
pub fn minus_sign<'a>(tokens: &'a [Token<'a>]) -> Option<&'a [Token<'a>]>
    ensures { Shows rest_seen result (minus_sign (lexed tokens.now)) }
{
    match tokens {
        [token, rest @ ..] if matches!(token.kind, Kind::Minus) => Some(rest),
        _ => None,
    }
}

// A leading opening parenthesis: the tokens after it.
fn open_sign<'a>(tokens: &'a [Token<'a>]) -> Option<&'a [Token<'a>]>
    ensures { Shows rest_seen result (open_sign (lexed tokens.now)) }
{
    match tokens {
        [token, rest @ ..] if matches!(token.kind, Kind::Open) => Some(rest),
        _ => None,
    }
}

// A leading closing parenthesis: the tokens after it.
fn close_sign<'a>(tokens: &'a [Token<'a>]) -> Option<&'a [Token<'a>]>
    ensures { Shows rest_seen result (close_sign (lexed tokens.now)) }
{
    match tokens {
        [token, rest @ ..] if matches!(token.kind, Kind::Close) => Some(rest),
        _ => None,
    }
}

// A leading comma: its offset, and the tokens after it.
fn comma_sign<'a>(tokens: &'a [Token<'a>]) -> Option<(usize, &'a [Token<'a>])>
    ensures { Shows sign_seen result (comma_sign (lexed tokens.now)) }
{
    match tokens {
        [token, rest @ ..] if matches!(token.kind, Kind::Comma) => Some((token.at, rest)),
        _ => None,
    }
}

/// Whether a token can begin an operand.
pub fn begins_operand(kind: Kind<'_>) -> bool
    ensures { result ≡ begins_operand (lexeme kind.entry) }
{
    matches!(
        kind,
        Kind::Number(_, _, _, _) | Kind::Name(_) | Kind::Open | Kind::Minus
    )
}

/// The first token of an atom.
enum OperandStart<'a> {
    Number(i64, i16, i16),
    Name(&'a [u8]),
    Open,
}

// The constant with this raw value and these bounds of its error.
fn constant_of(raw: i64, low: i16, high: i16) -> Constant
    ensures { result ≡ constant raw low high }
{
    Constant {
        value: Fx::from_raw(raw),
        low,
        high,
    }
}

// The start of an atom that a token is, if it is one.
fn start_of(kind: Kind<'_>) -> Option<OperandStart<'_>>
    ensures { Shows beginning result (beginning_of (lexeme kind.entry)) }
{
    match kind {
        Kind::Number(raw, low, high, _) => Some(OperandStart::Number(raw, low, high)),
        Kind::Name(name) => Some(OperandStart::Name(name)),
        Kind::Open => Some(OperandStart::Open),
        _ => None,
    }
}

// The start of an atom, and the tokens after it.
fn read_start<'a>(tokens: &'a [Token<'a>]) -> Option<(OperandStart<'a>, &'a [Token<'a>])>
    ensures { Shows start_seen result (start (lexed tokens.now)) }
{
    match tokens {
        [token, rest @ ..] => Some((start_of(token.kind)?, rest)),
        [] => None,
    }
}

// Pairs a value with the result parsed after it.
fn beside<T: Drop, U, E>(value: T, read: Result<U, E>) -> Result<(T, U), E>
    ensures { result ≡ beside value read }
{
    match read {
        Ok(next) => Ok((value, next)),
        Err(fault) => Err(fault),
    }
}

impl<A: Allocator + Copy> Parser<A> {
    /// The offset of the first token, or the text's length if there is none.
    pub fn offset(&self, tokens: &[Token]) -> usize
        ensures { result ≡ offset self.now.end (lexed tokens.now) }
    {
        match tokens {
            [token, ..] => token.at,
            [] => self.end,
        }
    }

    // The fault if no level is left: `TooLarge` at a token that can begin an operand, else `UnexpectedToken`.
    fn misplaced(&self, tokens: &[Token]) -> ExprFault<A>
        ensures { refusal_of result ≡ misplaced self.now.end (lexed tokens.now) }
    {
        match tokens {
            [token, ..] if begins_operand(token.kind) => ExprFault::TooLarge,
            _ => ExprFault::UnexpectedToken {
                at: self.offset(tokens),
            },
        }
    }

    /// An expression at the front, and the tokens after it. Fewer than `levels` parentheses and minus signs of it may
    /// be open around a token.
    #[cycle(parser)]
    pub fn expr<'a>(&self, tokens: &'a [Token<'a>], levels: usize) -> Read<'a, A>
        ensures { Gives seen result (expr_at self.now.end levels (lexed tokens.now)) }
    {
        let (mut left, mut rest) = self.term(tokens, levels)?;
        while let Some((operator, after)) = sum_sign(rest) {
            let read = self.term(after, levels);
            let (whole, beyond) = self.operated(operator, left, read)?;
            left = whole;
            rest = beyond;
        }
        Ok((left, rest))
    }

    #[cycle(parser)]
    fn term<'a>(&self, tokens: &'a [Token<'a>], levels: usize) -> Read<'a, A>
        ensures { Gives seen result (term_at self.now.end levels (lexed tokens.now)) }
    {
        let (mut left, mut rest) = self.unary(tokens, levels)?;
        while let Some((operator, after)) = product_sign(rest) {
            let read = self.unary(after, levels);
            let (whole, beyond) = self.operated(operator, left, read)?;
            left = whole;
            rest = beyond;
        }
        Ok((left, rest))
    }

    #[cycle(parser)]
    fn unary<'a>(&self, tokens: &'a [Token<'a>], levels: usize) -> Read<'a, A>
        ensures { Gives seen result (unary_at self.now.end levels (lexed tokens.now)) }
    {
        if levels == 0 {
            return Err(Failure::Refused(self.misplaced(tokens)));
        }
        match minus_sign(tokens) {
            Some(rest) => {
                let (inner, rest) = self.unary(rest, levels - 1)?;
                self.put(Syntax::Negated(inner), rest)
            }
            None => self.power(tokens, levels - 1),
        }
    }

    // An atom with its optional exponent. `levels` are left inside its parentheses.
    #[cycle(parser)]
    #[tactic(auto, unfolding(crate::specs::Parsing::power_at))]
    fn power<'a>(&self, tokens: &'a [Token<'a>], levels: usize) -> Read<'a, A>
        ensures { Gives seen result (power_at self.now.end levels (lexed tokens.now)) }
    {
        let (base, rest) = self.atom(tokens, levels)?;
        self.raised(base, rest, levels)
    }

    // The optional `^` and exponent after an atom.
    #[tactic(auto, unfolding(crate::specs::Parsing::raised_at))]
    fn raised<'a>(&self, base: Boxed<'a, A>, tokens: &'a [Token<'a>], levels: usize) -> Read<'a, A>
        ensures { Gives seen result (raised_at self.now.end levels (syntax_of base.entry.value) (lexed tokens.now)) }
    {
        match caret_sign(tokens) {
            None => Ok((base, tokens)),
            Some((at, after)) => {
                let (base, (exponent, rest)) = beside(base, self.exponent(after, levels, at))?;
                self.put(Syntax::Power(base, exponent), rest)
            }
        }
    }

    // The exponent after a `^` at the offset `at`.
    #[tactic(auto, unfolding(crate::specs::Parsing::exponent_at))]
    fn exponent<'a>(
        &self,
        tokens: &'a [Token<'a>],
        levels: usize,
        at: usize,
    ) -> Result<(Exponent, &'a [Token<'a>]), ExprFault<A>>
        ensures { Answers exponent_seen result (exponent_at self.now.end levels at (lexed tokens.now)) }
    {
        match open_sign(tokens) {
            Some(inside) => self.grouped(inside, levels, at),
            None => match signed_sign(tokens) {
                Some(read) => Ok(read),
                None => Err(ExprFault::BadExponent { at }),
            },
        }
    }

    // An exponent inside parentheses, after the opening one: the exponent and the closing one.
    #[tactic(auto, unfolding(crate::specs::Parsing::grouped_at))]
    fn grouped<'a>(
        &self,
        tokens: &'a [Token<'a>],
        levels: usize,
        at: usize,
    ) -> Result<(Exponent, &'a [Token<'a>]), ExprFault<A>>
        ensures { Answers exponent_seen result (grouped_at self.now.end levels at (lexed tokens.now)) }
    {
        if levels == 0 && awaits_operand(tokens) {
            return Err(ExprFault::TooLarge);
        }
        match signed_sign(tokens) {
            Some((exponent, rest)) => beside(exponent, self.close(rest)),
            None => Err(ExprFault::BadExponent { at }),
        }
    }

    // A numeral, a name, a call or an expression in parentheses, inside which `levels` are left.
    #[cycle(parser)]
    fn atom<'a>(&self, tokens: &'a [Token<'a>], levels: usize) -> Read<'a, A>
        ensures { Gives seen result (atom_at self.now.end levels (lexed tokens.now)) }
    {
        match read_start(tokens) {
            None => Err(Failure::Refused(ExprFault::UnexpectedToken {
                at: self.offset(tokens),
            })),
            Some((OperandStart::Number(raw, low, high), rest)) => {
                self.put(Syntax::Number(constant_of(raw, low, high)), rest)
            }
            Some((OperandStart::Name(name), rest)) => match open_sign(rest) {
                None => self.put(Syntax::Name(name), rest),
                Some(inside) => self.call(name, inside, levels),
            },
            Some((OperandStart::Open, rest)) => self.closed(rest, levels),
        }
    }

    // A call, after its opening parenthesis.
    #[cycle(parser)]
    #[tactic(auto, unfolding(crate::specs::Parsing::call_at, crate::specs::Parsing::arguments_at))]
    fn call<'a>(&self, name: &'a [u8], tokens: &'a [Token<'a>], levels: usize) -> Read<'a, A>
        ensures { Gives seen result (call_at self.now.end levels name.now (lexed tokens.now)) }
    {
        match function_of(name) {
            None => Err(ExprFault::no_function(self.alloc, name)),
            Some(callee) => {
                let (arguments, rest) = self.arguments(tokens, levels)?;
                self.called(name, callee, arguments, rest)
            }
        }
    }

    // The arguments of a call, and the parenthesis that closes them.
    #[cycle(parser)]
    #[tactic(auto, unfolding(crate::specs::Parsing::arguments_at, crate::specs::Parsing::list_at))]
    fn arguments<'a>(&self, tokens: &'a [Token<'a>], levels: usize) -> ReadArguments<'a, A>
        ensures { Gives arguments_seen result (arguments_at self.now.end levels (lexed tokens.now)) }
    {
        match close_sign(tokens) {
            Some(rest) => Ok((Arguments::Empty, rest)),
            None => self.closing(self.list(tokens, levels)),
        }
    }

    // Arguments separated by commas, at least one.
    #[cycle(parser)]
    fn list<'a>(&self, tokens: &'a [Token<'a>], levels: usize) -> ReadArguments<'a, A>
        ensures { Gives arguments_seen result (list_at self.now.end levels (lexed tokens.now)) }
    {
        let (first, mut rest) = self.expr(tokens, levels)?;
        let mut arguments = Arguments::One(first);
        while let Some((_, after)) = comma_sign(rest) {
            let (others, (next, beyond)) = beside(arguments, self.expr(after, levels))?;
            arguments = others.with(next);
            rest = beyond;
        }
        Ok((arguments, rest))
    }

    // The tree of a call of this function; `WrongArgumentCount` if the arguments don't match it.
    fn called<'a>(
        &self,
        name: &'a [u8],
        callee: Callee,
        arguments: Arguments<'a, A>,
        tokens: &'a [Token<'a>],
    ) -> Read<'a, A>
        ensures { Gives seen result (followed (called name.now callee (arguments_of arguments.entry)) (lexed tokens.now)) }
    {
        match (callee, arguments) {
            (Callee::One(function), Arguments::One(part)) => {
                self.put(Syntax::Applied(function, part), tokens)
            }
            (Callee::Two(operator), Arguments::Two(left, right)) => {
                self.put(Syntax::Binary(operator, left, right), tokens)
            }
            (Callee::Three, Arguments::Three(condition, chosen, otherwise)) => {
                self.put(Syntax::Select(condition, chosen, otherwise), tokens)
            }
            _ => self.miscounted(name),
        }
    }

    // The error of a call whose arguments don't match its function.
    fn miscounted<'a>(&self, name: &'a [u8]) -> Read<'a, A>
        ensures { Gives seen result (Err (WrongArgumentCount name.now)) }
    {
        let name = EnergyName::copied(self.alloc, name)?;
        Err(Failure::Refused(ExprFault::WrongArgumentCount { name }))
    }

    // An expression in parentheses, after the opening one: the expression and the closing one.
    #[cycle(parser)]
    #[tactic(auto, unfolding(crate::specs::Parsing::closed_at))]
    fn closed<'a>(&self, tokens: &'a [Token<'a>], levels: usize) -> Read<'a, A>
        ensures { Gives seen result (closed_at self.now.end levels (lexed tokens.now)) }
    {
        self.closing(self.expr(tokens, levels))
    }

    // A parsed value, and the parenthesis that must follow it.
    fn closing<'a, T: Drop>(&self, read: ReadOf<'a, T, A>) -> ReadOf<'a, T, A>
        ensures { Closes self.now.end read.entry result }
    {
        let (value, rest) = read?;
        Ok(beside(value, self.close(rest))?)
    }

    // The tokens after a closing parenthesis, or `UnexpectedToken`.
    fn close<'a>(&self, tokens: &'a [Token<'a>]) -> Result<&'a [Token<'a>], ExprFault<A>>
        ensures { Answers rest_seen result (close self.now.end (lexed tokens.now)) }
    {
        match tokens {
            [token, rest @ ..] if matches!(token.kind, Kind::Close) => Ok(rest),
            _ => Err(ExprFault::UnexpectedToken {
                at: self.offset(tokens),
            }),
        }
    }

    // A binary operation on the tree before a sign and the operand parsed after it.
    fn operated<'a>(
        &self,
        operator: Operator,
        left: Boxed<'a, A>,
        right: Read<'a, A>,
    ) -> Read<'a, A>
        ensures { Operates operator (syntax_of left.entry.value) right.entry result }
    {
        let (right, rest) = right?;
        self.put(Syntax::Binary(operator, left, right), rest)
    }

    // Boxes a tree, and returns it with the tokens after it.
    fn put<'a>(&self, part: Syntax<'a, A>, tokens: &'a [Token<'a>]) -> Read<'a, A>
        ensures { Gives seen result (Ok (syntax_of part.entry, lexed tokens.now)) }
    {
        Ok((Box::new(self.alloc, part)?, tokens))
    }
}
