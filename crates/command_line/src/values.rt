//! The values of arguments.

ghost use Rattle.std.specs.Prelude.{◌≡◌, ◌≢◌, ◌∷◌, [], Bool, ℕ, ℤ, MatchOption, Option, codes, length, map, option_map};
ghost use Rattle.clap.specs.Words.{Text, first_of, found_of, rows_of};
ghost use Rattle.command_line.specs.Explanations.{code_in};
ghost use Rattle.command_line.specs.CommandLine.{ACount, ACounter, AFlagUnless, ANumber, APart, IsGiven, Names, Says, WritesCounter, turned, values_of};
ghost use Rattle.command_line.specs.Views.{names_of};

use crate::explanations::code_in;
use crate::parts::part_of_all;
use crate::step_counts::step_count;
use clap::ArgMatches;
use integrator::Direction;

/// The value of the argument with this name, which is a path or another text, if it has one.
pub(crate) fn path_of<'a>(matches: &ArgMatches<'a>, name: &str) -> Option<&'a str>
    ensures { option_map (λ s. s.now) result ≡ first_of name.now (rows_of (found_of matches.now)) }
{
    matches.get_str(name)
}

/// The number that the argument with this name has, if it is in this range.
pub(crate) fn number_of(matches: &ArgMatches<'_>, name: &str, least: u64, most: u64) -> Option<u64>
    ensures { MatchOption result ((n : ℕ) → Says name.now (rows_of (found_of matches.now)) (ANumber least most) n → ⊥)
        (Says name.now (rows_of (found_of matches.now)) (ANumber least most)) }
{
    let number = matches.get_one(name)?;
    if least <= number && number <= most {
        Some(number)
    } else {
        None
    }
}

/// The number of steps that the argument with this name has, if it is in this range.
pub(crate) fn steps_of(matches: &ArgMatches<'_>, name: &str, least: u64, most: u64) -> Option<u64>
    ensures { MatchOption result ((n : ℕ) → Says name.now (rows_of (found_of matches.now)) (ACount least most) n → ⊥)
        (Says name.now (rows_of (found_of matches.now)) (ACount least most)) }
{
    let text = path_of(matches, name)?;
    let count = step_count(text)?;
    if least <= count && count <= most {
        Some(count)
    } else {
        None
    }
}

/// The step counter that the argument with this name has.
pub(crate) fn counter_of(matches: &ArgMatches<'_>, name: &str) -> Option<i64>
    ensures { MatchOption result ((counter : ℤ) → Says name.now (rows_of (found_of matches.now)) ACounter counter → ⊥)
        (Says name.now (rows_of (found_of matches.now)) ACounter) }
{
    let text = path_of(matches, name)?;
    counter(text)
}

/// The step counter that a decimal numeral writes, if it fits 64 bits. A plus or a minus may be in front.
fn counter(text: &str) -> Option<i64>
    ensures { MatchOption result ((counter : ℤ) → WritesCounter text.now counter → ⊥) (WritesCounter text.now) }
{
    match text.parse::<i64>() {
        Ok(counter) => Some(counter),
        Err(_) => None,
    }
}

/// The part that `--part` names, and the number of all parts.
pub(crate) fn part_of(matches: &ArgMatches<'_>) -> Option<(u64, u64)>
    ensures { MatchOption result ((part : ℕ × ℕ) → Says (codes "part") (rows_of (found_of matches.now)) APart part → ⊥)
        (Says (codes "part") (rows_of (found_of matches.now)) APart) }
{
    let text = path_of(matches, "part")?;
    part_of_all(text)
}

/// Whether a flag is given.
pub(crate) fn is_given(matches: &ArgMatches<'_>, flag: &str) -> bool
    ensures { IsGiven flag.now (rows_of (found_of matches.now)) result }
{
    match path_of(matches, flag) {
        Some("true") => true,
        _ => false,
    }
}

/// Whether a flag is given that can't be given with another one. Returns `None` if both are given.
pub(crate) fn given_unless(matches: &ArgMatches<'_>, flag: &str, other: bool) -> Option<bool>
    ensures { MatchOption result ((given : Bool) → Says flag.now (rows_of (found_of matches.now)) (AFlagUnless other) given → ⊥)
        (Says flag.now (rows_of (found_of matches.now)) (AFlagUnless other)) }
{
    match (other, is_given(matches, flag)) {
        (true, true) => None,
        (_, given) => Some(given),
    }
}

/// The direction of a run with `--back`, or without.
pub(crate) fn turned(back: bool) -> Direction
    ensures { result ≡ turned back }
{
    match back {
        true => Direction::Back,
        false => Direction::Forward,
    }
}

/// The names that `--types` gives, or no names if `--types` isn't given. Returns `None` if it has other than two values.
pub(crate) fn types_of<'a>(matches: &ArgMatches<'a>) -> Option<Option<(&'a str, &'a str)>>
    ensures { MatchOption result ((types : Option (Text × Text)) → Says (codes "types") (rows_of (found_of matches.now)) Names types → ⊥)
        (λ types. Says (codes "types") (rows_of (found_of matches.now)) Names (names_of types)) }
{
    match matches.get_strs("types") {
        None => Some(None),
        Some(names) => match two_of(names) {
            Some(pair) => Some(Some(pair)),
            None => None,
        },
    }
}

/// The two texts of a list, if it has two.
fn two_of<'a>(texts: &[&'a str]) -> Option<(&'a str, &'a str)>
    ensures { MatchOption result (length texts.now ≢ 2) (λ two. map (λ text. text.now) texts.now ≡ two.0.now ∷ two.1.now ∷ []) }
{
    if texts.len() == 2 {
        Some((texts[0], texts[1]))
    } else {
        None
    }
}

/// The code that the arguments of `explain` name.
pub(crate) fn code_of<'a>(matches: &ArgMatches<'a>) -> Option<&'a str>
    ensures { option_map (λ code. code.now) result ≡ code_in (values_of (codes "CODE") (rows_of (found_of matches.now))) }
{
    let arguments = matches.get_strs("CODE")?;
    code_in(arguments)
}
