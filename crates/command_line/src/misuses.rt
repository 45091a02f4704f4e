//! The parser's errors for arguments that it accepts, but that name no command.

ghost use Rattle.std.specs.Prelude.{◌≡◌, IfOk};
ghost use Rattle.clap.specs.Words.{kind_of};
ghost use Rattle.clap.specs.declared.error.kind.ErrorKind.TheVariants.{InvalidValue};

use crate::commands::MAX_STEPS;
use crate::syntax::{BuiltCommand, EXPLAIN, Syntax, built, commands};
use crate::values::{code_of, is_given, part_of, path_of, steps_of};
use clap::error::ErrorKind;
use clap::{ArgMatches, Error};
use std::alloc::{AllocError, Global};

/// The parser's error for arguments that it accepts, but that name no command. It shows the usage of the command.
pub(crate) fn unnamed(alloc: Global, matches: &ArgMatches<'_>) -> Result<Error, AllocError>
    ensures { IfOk result (λ e. kind_of e ≡ InvalidValue) }
{
    let (name, matches) = matches.subcommand().unwrap_or(("explain", matches));
    if let Some(code) = code_of(matches) {
        return unknown_code(alloc, code);
    }
    if let Some(steps) = no_count_of(matches, "steps", 0) {
        let option = "'--steps <n>': not a number from 0 to 1000000000000, such as 5000 or 1e6";
        return invalid_value(alloc, name, steps, option);
    }
    if let Some(every) = no_count_of(matches, "every", 1) {
        let option = "'--every <k>': not a number from 1 to 1000000000000, such as 50 or 1e3";
        return invalid_value(alloc, name, every, option);
    }
    if let Some(part) = no_part_of(matches) {
        let option = "'--part <i/n>': not a part i of n, from 1/n to n/n, such as 2/8";
        return invalid_value(alloc, name, part, option);
    }
    misuse(alloc, name, excluded(matches))
}

/// The value of the option with this name, unless it is a number of steps from `least`.
fn no_count_of<'a>(matches: &ArgMatches<'a>, name: &str, least: u64) -> Option<&'a str> {
    match steps_of(matches, name, least, MAX_STEPS) {
        Some(_) => None,
        None => path_of(matches, name),
    }
}

/// The value of `--part`, unless it is a part.
fn no_part_of<'a>(matches: &ArgMatches<'a>) -> Option<&'a str> {
    match part_of(matches) {
        Some(_) => None,
        None => path_of(matches, "part"),
    }
}

/// The message for the only arguments whose values are all valid: two that exclude each other.
fn excluded(matches: &ArgMatches<'_>) -> &'static str {
    match is_given(matches, "grid") {
        true => "the argument '--grid' cannot be used with '--energy'",
        false => "the argument '--each' cannot be used with '--steps <n>'",
    }
}

/// The parser's error for arguments of `explain` that name an unknown code.
pub(crate) fn unknown_code(alloc: Global, code: &str) -> Result<Error, AllocError>
    ensures { IfOk result (λ e. kind_of e ≡ InvalidValue) }
{
    let option = "'[CODE]...'\n\n  tip: 'pairmd explain' lists the codes";
    invalid_value(alloc, "explain", code, option)
}

/// The parser's error for the value of an option that isn't one of the option's values.
fn invalid_value(alloc: Global, name: &str, value: &str, option: &str) -> Result<Error, AllocError>
    ensures { IfOk result (λ e. kind_of e ≡ InvalidValue) }
{
    let message = format!(in alloc; "invalid value '{value}' for {option}")?;
    misuse(alloc, name, &message)
}

/// The parser's error with this message, and the usage of the command with this name.
fn misuse(alloc: Global, name: &str, message: &str) -> Result<Error, AllocError>
    ensures { IfOk result (λ e. kind_of e ≡ InvalidValue) }
{
    let whole_name = format!(in alloc; "pairmd {name}")?;
    error_of(built(alloc, &syntax_of(name)), &whole_name, message)
}

/// The syntax of the command with this name. The parser finds no other name; another one would have the syntax of
/// `explain`.
fn syntax_of(name: &str) -> Syntax<'static> {
    for syntax in commands() {
        if syntax.name == name {
            return *syntax;
        }
    }
    EXPLAIN
}

/// The parser's error with this message, and the usage of a command. Its callers hold no command: the prover follows each
/// drop on each path out of a function, and a command is the greatest value here.
fn error_of<'a>(
    command: BuiltCommand<'a>,
    name: &'a str,
    message: &str,
) -> Result<Error, AllocError>
    ensures { IfOk result (λ e. kind_of e ≡ InvalidValue) }
{
    let mut command = command?.bin_name(name)?;
    command.error(ErrorKind::InvalidValue, message)
}
