// Whole texts: a body followed by definitions.
ghost use Rattle.std.specs.Prelude.{◌≡◌};
ghost use Rattle.energy_program.specs.Faults.{Answers, Gives};
ghost use Rattle.expr.specs.Parsing.{rest_seen};
ghost use Rattle.expr.specs.Sources.{after_semicolons, equals, heading_at, heading_seen, name_in, name_seen, name_sign, named_at, no_heading, semicolon_sign, source_at};
ghost use Rattle.expr.specs.Syntax.{source_of};
ghost use Rattle.expr.specs.Tokens.{Shows, lexeme, lexed};

use crate::parser::{LEVELS, Parser};
use crate::syntax::Boxed;
use crate::tokens::{Kind, Token};
use energy_program::ExprFault;
use fallible::Failure;
use std::alloc::Allocator;

/// The maximum number of definitions in a text.
const MAX_TEXT_DEFINITIONS: usize = 64;

/// A definition: a name and its expression.
#[derive(Drop)]
pub struct Definition<'a, A: Allocator> {
    pub name: &'a [u8],
    pub value: Boxed<'a, A>,
}

/// The syntax tree of a whole text: its body, and its definitions in the order of the text.
#[derive(Drop)]
pub struct Source<'a, A: Allocator> {
    pub body: Boxed<'a, A>,
    pub definitions: Vec<Definition<'a, A>, A>,
}

/// The name of the next definition and the tokens after its `=`, or `None` at the end of the text.
type Heading<'a, A> = Result<Option<(&'a [u8], &'a [Token<'a>])>, ExprFault<A>>;

// A leading semicolon: the tokens after it.
fn semicolon_sign<'a>(tokens: &'a [Token<'a>]) -> Option<&'a [Token<'a>]>
    ensures { Shows rest_seen result (semicolon_sign (lexed tokens.now)) }
{
    match tokens {
        [token, rest @ ..] if matches!(token.kind, Kind::Semicolon) => Some(rest),
        _ => None,
    }
}

// The tokens after all leading semicolons.
#[tactic(auto, unfolding(crate::specs::Sources::after_semicolons))]
fn after_semicolons<'a>(tokens: &'a [Token<'a>]) -> &'a [Token<'a>]
    ensures { lexed result.now ≡ after_semicolons (lexed tokens.now) }
{
    match semicolon_sign(tokens) {
        Some(after) => after_semicolons(after),
        None => tokens,
    }
}

// The name that a token is, if it is one.
fn name_in(kind: Kind<'_>) -> Option<&[u8]>
    ensures { Shows (λ x. x.now) result (name_in (lexeme kind.entry)) }
{
    match kind {
        Kind::Name(name) => Some(name),
        _ => None,
    }
}

// A leading name, and the tokens after it.
fn name_sign<'a>(tokens: &'a [Token<'a>]) -> Option<(&'a [u8], &'a [Token<'a>])>
    ensures { Shows name_seen result (name_sign (lexed tokens.now)) }
{
    match tokens {
        [token, rest @ ..] => Some((name_in(token.kind)?, rest)),
        [] => None,
    }
}

// Checks that the text ends here: any token that is left is `UnexpectedToken`.
fn no_heading<'a, A: Allocator>(tokens: &'a [Token<'a>]) -> Heading<'a, A>
    ensures { Answers heading_seen result (no_heading (lexed tokens.now)) }
{
    match tokens {
        [] => Ok(None),
        [next, ..] => Err(ExprFault::UnexpectedToken { at: next.at }),
    }
}

impl<A: Allocator + Copy> Parser<A> {
    /// Parses all of the tokens as a body followed by definitions.
    pub fn source<'a>(
        &self,
        tokens: &'a [Token<'a>],
    ) -> Result<Source<'a, A>, Failure<ExprFault<A>>>
        ensures { Gives source_of result (source_at self.now.end (lexed tokens.now)) }
    {
        let (body, mut rest) = self.expr(tokens, LEVELS)?;
        let mut definitions = Vec::new(self.alloc);
        while let Some((name, after)) = self.heading(
            rest,
            definitions.len() == MAX_TEXT_DEFINITIONS,
        )? {
            let (value, beyond) = self.expr(after, LEVELS)?;
            definitions.push(Definition { name, value })?;
            rest = beyond;
        }
        Ok(Source { body, definitions })
    }

    // The heading of the next definition. `full`: the text has its maximum number of definitions, so that a further one
    // is `TooLarge`.
    #[tactic(auto, unfolding(crate::specs::Sources::heading_at))]
    fn heading<'a>(&self, tokens: &'a [Token<'a>], full: bool) -> Heading<'a, A>
        ensures { Answers heading_seen result (heading_at self.now.end full (lexed tokens.now)) }
    {
        match semicolon_sign(tokens) {
            Some(after) => self.named(after_semicolons(after), full),
            None => no_heading(tokens),
        }
    }

    // The heading after the semicolons.
    #[tactic(auto, unfolding(crate::specs::Sources::named_at))]
    fn named<'a>(&self, tokens: &'a [Token<'a>], full: bool) -> Heading<'a, A>
        ensures { Answers heading_seen result (named_at self.now.end full (lexed tokens.now)) }
    {
        match name_sign(tokens) {
            Some((name, after)) => {
                if full {
                    return Err(ExprFault::TooLarge);
                }
                Ok(Some((name, self.equals(after)?)))
            }
            None => no_heading(tokens),
        }
    }

    // The tokens after an equals sign, or `UnexpectedToken`.
    fn equals<'a>(&self, tokens: &'a [Token<'a>]) -> Result<&'a [Token<'a>], ExprFault<A>>
        ensures { Answers rest_seen result (equals self.now.end (lexed tokens.now)) }
    {
        match tokens {
            [token, rest @ ..] if matches!(token.kind, Kind::Equals) => Ok(rest),
            _ => Err(ExprFault::UnexpectedToken {
                at: self.offset(tokens),
            }),
        }
    }
}
