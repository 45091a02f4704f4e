ghost use Rattle.std.specs.Prelude.{◌≡◌, ◌≤◌, ℕ, IfOk, IfErr, length};
ghost use Rattle.fixed.specs.Fractions.{bits_of};
ghost use Rattle.energy_program.specs.Programs.{program_tree, trees_of};
ghost use Rattle.energy_program.specs.Tree.{Tree};
ghost use Rattle.energy_program.specs.Variables.{names_of};
ghost use Rattle.fallible.specs.Failures.{IfRefused};
ghost use Rattle.energy_program.specs.Faults.{Gives, refusal_of};
ghost use Rattle.expr.specs.Energy.{IsCause, IsEnergy, IsRead, program_of, trees_in, trees_of_source, trees_of_tokens};
ghost use Rattle.expr.specs.Syntax.{source_of};
ghost use Rattle.expr.specs.Tokens.{lexed};

use crate::definitions::check_names;
use crate::lexer::tokens;
use crate::parser::Parser;
use crate::sources::Source;
use crate::tokens::Token;
use crate::uses::program;
use energy_program::{ExprFault, Names, Program};
use fallible::Failure;
use fixed::Frac;
use std::alloc::Allocator;

// The maximum number of tokens in a text.
const MAX_TOKENS: usize = 4096;

/// Parses an energy text to a program, whose numbers have the given fraction bits. The text may use the variables in
/// `names`. Operators and functions are taken from OpenMM's custom force expressions (OpenMM User Guide).
///
/// A text is an expression, the body, followed by definitions: `a*r^2; a=k*(q1-q2)`. A semicolon precedes each
/// definition; a semicolon without one is ignored. The body may use every definition, a definition only later ones.
/// Unused definitions are parsed and checked too.
///
/// An expression consists of numerals, variables, defined names, `+`, `-`, `*`, `/`, unary minus, powers, parentheses
/// and calls; space, tab, CR and LF separate tokens. `+` and `-`, and `*` and `/`, are left-associative; unary minus
/// binds tighter than both, and a power tighter still. An exponent is an integer from 1 to 32 in plain digits,
/// optionally with a minus before it and parentheses around it. The functions of `fixed::Function` take one argument,
/// `min` and `max` two and `select` three. A numeral's range is checked without its sign, so -2^63 can't be written.
/// Offsets are in bytes from 0.
///
/// Errors, the first that applies:
/// - from left to right through the bytes: `BadCharacter` for a byte that begins no token, `BadNumber` for a numeral
///   that is malformed, has more than 18 digits before its exponent part or an exponent over 99, `NumberRange` for a
///   numeral whose rounded value is 2^63 or more as a raw number; then `TooLarge` for more than 4,096 tokens;
/// - from left to right through the tokens: `UnexpectedToken` for a token that the grammar doesn't allow (at the end of
///   the text, with the text's length), `TooLarge` for a token that can begin an operand inside more than 64
///   parentheses and minus signs (an exponent's parentheses count, its minus doesn't) and for the name that begins a
///   65th definition, `LeftOutFunction` or else `UnknownName` for a name before a parenthesis that isn't a function,
///   `WrongArgumentCount` at the closing parenthesis of a call, and `BadExponent` at a `^` without an exponent;
/// - definition by definition: `ReservedName` for a name that is a variable's or reserved (`r`, the functions, and the
///   functions left out), else `RepeatedDefinition` for an earlier definition's name;
/// - from left to right, the body first: `UnknownName` for a name that is neither a variable's nor a later
///   definition's.
///
/// `Memory`: an allocation failed.
pub fn parse<A: Allocator + Copy>(
    alloc: A,
    frac: Frac,
    text: &[u8],
    names: &Names<A>,
) -> Result<Program<A>, Failure<ExprFault<A>>>
    // Soundness: the grammar gives the text the tree of the program that is returned.
    ensures found { IfOk result (λ p. IsEnergy (bits_of frac) (names_of names.now) text.now 64 (program_tree p)) }
    // Completeness: if the grammar gives the text a tree, that tree is returned, unless the text nests too deep or
    // memory runs out.
    ensures only { (n : ℕ) (e : Tree) → IsEnergy (bits_of frac) (names_of names.now) text.now n e → IsRead n e result }
    // Each error has its cause in the text.
    ensures cause { IfErr result (λ failure. IfRefused failure
        (λ fault. IsCause (bits_of frac) (names_of names.now) text.now (refusal_of fault))) }
    // The result, error included, is determined by the text.
    ensures exact { Gives program_tree result (program_of (bits_of frac) (names_of names.now) text.now) }
    // The trees of body and definitions, before substitution.
    ensures trees { Gives trees_of result (trees_in (bits_of frac) (names_of names.now) text.now) }
    // The program's inputs are the variables in `names`.
    ensures parameters { IfOk result (λ p. p.parameters ≡ names.now.parameters) }
    ensures globals { IfOk result (λ p. p.globals ≡ names.now.globals) }
{
    read(alloc, frac, text, names)
}

// The program of a text, following the functional specification.
#[tactic(auto, unfolding(crate::specs::Energy::trees_in))]
fn read<A: Allocator + Copy>(
    alloc: A,
    frac: Frac,
    text: &[u8],
    names: &Names<A>,
) -> Result<Program<A>, Failure<ExprFault<A>>>
    ensures value { Gives trees_of result (trees_in (bits_of frac) (names_of names.now) text.now) }
    ensures parameters { IfOk result (λ p. p.parameters ≡ names.now.parameters) }
    ensures globals { IfOk result (λ p. p.globals ≡ names.now.globals) }
{
    let tokens = tokens(alloc, frac, text)?;
    if tokens.len() > MAX_TOKENS {
        return Err(Failure::Refused(ExprFault::TooLarge));
    }
    read_tokens(alloc, text.len(), &tokens, names)
}

// The program of these tokens of a text that has `end` bytes.
fn read_tokens<A: Allocator + Copy>(
    alloc: A,
    end: usize,
    tokens: &[Token],
    names: &Names<A>,
) -> Result<Program<A>, Failure<ExprFault<A>>>
    ensures value { Gives trees_of result (trees_of_tokens (names_of names.now) end (lexed tokens.now)) }
    ensures parameters { IfOk result (λ p. p.parameters ≡ names.now.parameters) }
    ensures globals { IfOk result (λ p. p.globals ≡ names.now.globals) }
{
    let parser = Parser { alloc, end };
    let source = parser.source(tokens)?;
    read_source(alloc, names, &source)
}

// The program of a parsed body and definitions: checks the definitions' names, then resolves all names.
fn read_source<A: Allocator + Copy>(
    alloc: A,
    names: &Names<A>,
    source: &Source<A>,
) -> Result<Program<A>, Failure<ExprFault<A>>>
    requires { length source.now.definitions.items ≤ 64 }
    ensures value { Gives trees_of result (trees_of_source (names_of names.now) (source_of source.now)) }
    ensures parameters { IfOk result (λ p. p.parameters ≡ names.now.parameters) }
    ensures globals { IfOk result (λ p. p.globals ≡ names.now.globals) }
{
    check_names(alloc, names, &source.definitions)?;
    program(alloc, names, source)
}
