//! The arguments of the program's commands, and the values that the parser takes for them.

ghost use Rattle.command_line.specs.CommandLine.{IsArgument};
ghost use Rattle.command_line.specs.Syntax.{defaulted_rule, lettered, optional_rule, ranged, rule_of_argument};
ghost use Rattle.clap.specs.Words.{Rule};

use crate::commands::{MAX_POINTS, MAX_WORKERS};
use clap::builder::ValueParser;
use clap::{Arg, ArgAction};
use std::alloc::Global;

/// An argument: its name, its form and its help.
pub(crate) type Argument<'a> = (&'a str, Form<'a>, &'a str);

/// How an argument is given.
#[derive(Clone, Copy)]
pub(crate) enum Form<'a> {
    /// An operand, which has no name in front, and must be given.
    Operand,
    /// An operand that may be given any number of times, or not at all.
    Operands,
    /// A flag: an option without a value.
    Flag,
    /// An option with values of these names, which may be left out.
    Optional(&'a [&'a str]),
    /// An option with a letter and a value of this name, which must be given.
    Required(char, &'a [&'a str]),
    /// An option with a value, which may be left out.
    Defaulted(Defaulted<'a>),
}

/// An option with a default value.
#[derive(Clone, Copy)]
pub(crate) struct Defaulted<'a> {
    /// Its letter, if it has one.
    letter: Option<char>,
    /// The name of its value.
    value: &'a [&'a str],
    /// The value if the option isn't given.
    default: &'a str,
    /// Which values the parser accepts.
    range: Range,
}

/// Which values of an option the parser accepts.
#[derive(Clone, Copy)]
pub(crate) enum Range {
    /// Any text.
    Text,
    /// Numbers without a sign.
    Number { least: u64, most: u64 },
    /// Step counters: signed numbers of 64 bits. The help doesn't show the default.
    Counter,
}

pub(crate) const JOB: Argument<'static> = (
    "JOB",
    Form::Operand,
    "Job file: energy, core, cutoff, time step, atom types",
);

pub(crate) const STATE: Argument<'static> = (
    "STATE",
    Form::Operand,
    "State file, as 'start' or 'run' prints it",
);

pub(crate) const STATES: Argument<'static> = (
    "STATES",
    Form::Operand,
    "Stream of states, as 'states' prints them",
);

pub(crate) const FRAME: Argument<'static> = (
    "frame",
    Form::Defaulted(Defaulted {
        letter: None,
        value: &["k"],
        default: "1",
        range: Range::Number {
            least: 1,
            most: u64::MAX,
        },
    }),
    "Number of the frame in the GRO file, from 1",
);

pub(crate) const STEPS: Argument<'static> = (
    "steps",
    Form::Required('n', &["n"]),
    "Number of steps, from 0 to 1000000000000",
);

/// `--steps` of `observe`.
pub(crate) const STEPS_OR_NONE: Argument<'static> = (
    "steps",
    Form::Defaulted(Defaulted {
        letter: Some('n'),
        value: &["n"],
        default: "0",
        range: Range::Text,
    }),
    "Number of steps, from 0 to 1000000000000",
);

pub(crate) const EVERY: Argument<'static> = (
    "every",
    Form::Required('k', &["k"]),
    "Interval between outputs, in steps, from 1 to 1000000000000",
);

/// `--every` of `observe`.
pub(crate) const EVERY_OR_ONE: Argument<'static> = (
    "every",
    Form::Defaulted(Defaulted {
        letter: Some('k'),
        value: &["k"],
        default: "1",
        range: Range::Text,
    }),
    "Interval between outputs, in steps, from 1 to 1000000000000",
);

pub(crate) const WORKERS: Argument<'static> = (
    "workers",
    Form::Defaulted(Defaulted {
        letter: Some('w'),
        value: &["w"],
        default: "1",
        range: Range::Number {
            least: 1,
            most: MAX_WORKERS,
        },
    }),
    "Number of threads, from 1 to 64",
);

pub(crate) const PROGRESS: Argument<'static> = (
    "progress",
    Form::Flag,
    "Report progress on standard error",
);

pub(crate) const BACK: Argument<'static> = ("back", Form::Flag, "Step backwards");

pub(crate) const FROM: Argument<'static> = (
    "from",
    Form::Defaulted(Defaulted {
        letter: None,
        value: &["s"],
        default: "-9223372036854775808",
        range: Range::Counter,
    }),
    "Replay only between states whose counter is at least s, as --from=-500",
);

pub(crate) const TO: Argument<'static> = (
    "to",
    Form::Defaulted(Defaulted {
        letter: None,
        value: &["s"],
        default: "9223372036854775807",
        range: Range::Counter,
    }),
    "Replay only between states whose counter is at most s",
);

pub(crate) const PART: Argument<'static> = (
    "part",
    Form::Defaulted(Defaulted {
        letter: None,
        value: &["i/n"],
        default: "1/1",
        range: Range::Text,
    }),
    "Replay only segments i, i + n, i + 2n, .. of the stream, with i from 1 to n",
);

pub(crate) const POINTS: Argument<'static> = (
    "points",
    Form::Defaulted(Defaulted {
        letter: None,
        value: &["n"],
        default: "100",
        range: Range::Number {
            least: 1,
            most: MAX_POINTS,
        },
    }),
    "Number of rows after the first, from 1 to 1000000",
);

/// The argument as the parser takes it.
pub(crate) fn made<'a>(alloc: Global, argument: &Argument<'a>) -> Arg<'a>
    ensures { IsArgument result (rule_of_argument argument.now) }
{
    let (name, form, help) = *argument;
    let arg = match form {
        Form::Operand => Arg::new(alloc, name).required(true),
        Form::Operands => Arg::new(alloc, name).action(ArgAction::Append),
        Form::Flag => Arg::new(alloc, name).long(name).action(ArgAction::SetTrue),
        Form::Optional(values) => option(alloc, name, values),
        Form::Required(letter, value) => option(alloc, name, value).short(letter).required(true),
        Form::Defaulted(option) => option_with_default(alloc, name, &option),
    };
    arg.help(help)
}

/// An option with values of these names.
fn option<'a>(alloc: Global, name: &'a str, values: &'a [&'a str]) -> Arg<'a>
    ensures { IsArgument result (optional_rule name.entry.now values.entry.now) }
{
    Arg::new(alloc, name).long(name).value_names(values)
}

/// An option with a default value.
fn option_with_default<'a>(alloc: Global, name: &'a str, given: &Defaulted<'a>) -> Arg<'a>
    ensures { IsArgument result (defaulted_rule name.entry.now given.now) }
{
    let arg = option(alloc, name, given.value).default_value(given.default);
    in_range(with_letter(arg, given.letter), given.range)
}

/// An option that may also be given by this letter.
fn with_letter<'a>(arg: Arg<'a>, letter: Option<char>) -> Arg<'a>
    ensures { (rule : Rule) → IsArgument arg.entry rule → IsArgument result (lettered rule letter) }
{
    match letter {
        Some(letter) => arg.short(letter),
        None => arg,
    }
}

/// An option whose value is in this range.
fn in_range<'a>(arg: Arg<'a>, range: Range) -> Arg<'a>
    ensures { (rule : Rule) → IsArgument arg.entry rule → IsArgument result (ranged rule range) }
{
    match range {
        Range::Text => arg,
        Range::Number { least, most } => arg.value_parser(ValueParser::unsigned(least, most)),
        Range::Counter => arg
            .value_parser(ValueParser::signed(i64::MIN, i64::MAX))
            .hide_default_value(true),
    }
}
