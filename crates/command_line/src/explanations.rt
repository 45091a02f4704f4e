//! The text that `pairmd explain` prints, and the code that its arguments name. The texts are in tables: an explanation
//! of each error, with an example and a remedy, and an overview of all codes.

ghost use Rattle.std.specs.Prelude.{◌≡◌, find, map, option_map};
ghost use Rattle.command_line.specs.Explanations.{code_in, explanation_of, is_code_word, rows_of, text_for, text_in, words_of};
ghost use Rattle.std.specs.Str.{str_eq_ignore_ascii_case};

mod codes;
mod energies;
mod files;
mod gro_files;
mod jobs;
mod overview;
mod runs;
mod states;

use crate::explanations::codes::CODES;
use crate::explanations::energies::ENERGIES;
use crate::explanations::files::FILES;
use crate::explanations::gro_files::GRO_FILES;
use crate::explanations::jobs::JOBS;
use crate::explanations::overview::OVERVIEW;
use crate::explanations::runs::RUNS;
use crate::explanations::states::STATES;
use std::convert::AsStr;

/// The text for a code: its explanation, if the code exists. Without a code it is the overview of all codes.
///
/// An explanation has the form of the error, its exit status, its meaning, an example and a remedy, in lines of at most
/// 80 columns.
pub(crate) fn explain(code: Option<&str>) -> Option<&'static str>
    ensures { option_map (λ text. text.now) result ≡ text_for (option_map (λ code. code.now) code.entry) }
{
    match code {
        Some(code) => explanation_of(code),
        None => Some(OVERVIEW),
    }
}

/// The code that the arguments of `explain` name: their first word except `pairmd:`, with which an error begins.
///
/// Words are separated by spaces, so a whole error may come as one argument or as several.
pub(crate) fn code_in<'a>(mut arguments: &[&'a str]) -> Option<&'a str>
    ensures { option_map (λ code. code.now) result ≡ code_in (map (λ argument. argument.now) arguments.entry.now) }
{
    while let [argument, rest @ ..] = arguments {
        let code = code_of(argument);
        if code.is_some() {
            return code;
        }
        arguments = rest;
    }
    None
}

/// The code that these words name as arguments of `explain`, as [`code_in`] reads them.
pub(crate) fn code_among<'a, S: AsStr>(mut words: &'a [S]) -> Option<&'a str>
    ensures { option_map (λ code. code.now) result ≡ code_in (map S.text words.entry.now) }
{
    while let [word, rest @ ..] = words {
        let code = code_of(word.as_str());
        if code.is_some() {
            return code;
        }
        words = rest;
    }
    None
}

/// The code that one argument names.
fn code_of(mut argument: &str) -> Option<&str>
    ensures { option_map (λ code. code.now) result ≡ find is_code_word (words_of argument.entry.now) }
{
    while let Some((word, rest)) = argument.split_once(' ') {
        if is_code_word(word) {
            return Some(word);
        }
        argument = rest;
    }
    if is_code_word(argument) {
        Some(argument)
    } else {
        None
    }
}

/// Whether a word counts as a code: it isn't empty, and it isn't `pairmd:`.
fn is_code_word(word: &str) -> bool
    ensures { result ≡ is_code_word word.now }
{
    !word.is_empty() && word != "pairmd:"
}

/// The explanation for a code, in upper or lower case, if the code exists.
#[tactic(auto, unfolding(crate::specs::Explanations::explanation_of))]
fn explanation_of(code: &str) -> Option<&'static str>
    ensures { option_map (λ text. text.now) result ≡ explanation_of code.now }
{
    text_in(&FILES, code)
        .or(text_in(&JOBS, code))
        .or(text_in(&STATES, code))
        .or(text_in(&GRO_FILES, code))
        .or(text_in(&ENERGIES, code))
        .or(text_in(&CODES, code))
        .or(text_in(&RUNS, code))
}

/// The text of a table's first row with this code, in upper or lower case.
fn text_in<'a>(mut table: &[(&'a str, &'a str)], code: &str) -> Option<&'a str>
    ensures { option_map (λ text. text.now) result ≡ text_in (rows_of table.entry.now) code.now }
{
    while let [row, rows @ ..] = table {
        if is_code(row.0, code) {
            return Some(row.1);
        }
        table = rows;
    }
    None
}

/// Whether two codes are equal, in upper or lower case.
fn is_code(code: &str, other: &str) -> bool
    ensures { result ≡ str_eq_ignore_ascii_case code.now other.now }
{
    code.eq_ignore_ascii_case(other)
}
