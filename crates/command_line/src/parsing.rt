//! The parser of the command line, and the command that its arguments name.

ghost use Rattle.std.specs.Prelude.{codes, true, ◌≡◌, ◌⊎◌, ◌∷◌, [], Option, IfOk, IfErr, MatchOption, option_map, map, false};
ghost use Rattle.clap.specs.Words.{HasKind, app_of, found_of, kind_of, rows_of, subcommand_rows_of};
ghost use Rattle.clap.specs.declared.error.kind.ErrorKind.TheVariants.{InvalidValue, OutOfMemory};
ghost use Rattle.command_line.specs.CommandLine.{IsCommand, IsExplained, IsMeant, IsNamed, IsNamedOf, IsParsed, Reads, check_usage, code_usage, curve_usage, explain_usage, faults_of, frame_usage, is_option, listing, observe_command, observe_usage, parser_faults_of, pasted, paths_usage, program, quantity_usage, replay_usage, run_command, run_usage, start_usage, table_usage, turned, unless_option, visits_command, visits_usage};
ghost use Rattle.command_line.specs.Commands.{CommandView, States, Trajectory};
ghost use Rattle.command_line.specs.Views.{command_view, run_view, visits_view};

use crate::commands::{
    Check, Command, Curve, Each, EachOutput, Explain, Frame, Listing, MAX_POINTS, MAX_STEPS,
    MAX_WORKERS, Measured, Observe, Quantity, Replay, Run, Start, Table, Visits,
};
use crate::explanations::{code_among, explain};
use crate::misuses::{unknown_code, unnamed};
use crate::syntax::program;
use crate::values::{
    code_of, counter_of, given_unless, is_given, number_of, part_of, path_of, steps_of, turned,
    types_of,
};
use clap::{ArgMatches, Error};
use integrator::Direction;
use std::alloc::Global;
use std::convert::AsStr;

/// The command that the arguments name. The name of the program isn't one of the arguments.
///
/// Arguments that name no command give the parser's error. Its kind is `DisplayHelp` if the arguments request help,
/// `DisplayVersion` if they request the version, and `OutOfMemory` if memory runs out.
#[inline(never)]
pub fn parse<'a, S: AsStr>(alloc: Global, words: &'a [S]) -> Result<Command<'a>, Error>
    ensures command { IfOk result (λ c. IsCommand (map S.text words.entry.now) (command_view c)) }
    ensures none { IfErr result (λ e. (kind_of e ≡ OutOfMemory)
        ⊎ ((c : CommandView) → IsCommand (map S.text words.entry.now) c → ⊥)) }
    ensures kind { IfErr result (HasKind (faults_of (map S.text words.entry.now))) }
{
    match pasted(words) {
        Some(arguments) => explained(alloc, arguments),
        None => parsed(alloc, words),
    }
}

/// The arguments of `explain`, if the first doesn't begin with `-`: each of them is a word then, so a pasted error may
/// have words that look like options.
fn pasted<S: AsStr>(words: &[S]) -> Option<&[S]>
    ensures { option_map (λ arguments. map S.text arguments.now) result ≡ pasted (map S.text words.now) }
{
    match words {
        [name, arguments @ ..] if name.as_str() == "explain" => unless_option(arguments),
        _ => None,
    }
}

/// The arguments, if there are any and the first doesn't begin with `-`.
fn unless_option<S: AsStr>(arguments: &[S]) -> Option<&[S]>
    ensures { option_map (λ it. map S.text it.now) result ≡ unless_option (map S.text arguments.now) }
{
    match arguments {
        [first, ..] if !is_option(first.as_str()) => Some(arguments),
        _ => None,
    }
}

/// Whether the word begins with `-`.
fn is_option(word: &str) -> bool
    ensures { result ≡ is_option word.now }
{
    matches!(word.as_bytes(), [b'-', ..])
}

/// The command `explain` with the text for these words. The parser's error if they name an unknown code.
fn explained<'a, S: AsStr>(alloc: Global, arguments: &'a [S]) -> Result<Command<'a>, Error>
    ensures command { IfOk result (λ c. IsExplained (map S.text arguments.entry.now) (command_view c)) }
    ensures none { IfErr result (λ e. (kind_of e ≡ OutOfMemory)
        ⊎ ((c : CommandView) → IsExplained (map S.text arguments.entry.now) c → ⊥)) }
    ensures kind { IfErr result (HasKind (InvalidValue ∷ [])) }
{
    let code = code_among(arguments);
    match explain(code) {
        Some(text) => Ok(Command::Explain(Explain { code, text })),
        None => Err(unknown_code(alloc, code.unwrap_or(""))?),
    }
}

/// The command that the arguments name, according to the parser.
fn parsed<'a, S: AsStr>(alloc: Global, words: &'a [S]) -> Result<Command<'a>, Error>
    ensures command { IfOk result (λ c. IsParsed (map S.text words.entry.now) (command_view c)) }
    ensures none { IfErr result (λ e. (kind_of e ≡ OutOfMemory)
        ⊎ ((c : CommandView) → IsParsed (map S.text words.entry.now) c → ⊥)) }
    ensures kind { IfErr result (HasKind (parser_faults_of (map S.text words.entry.now))) }
{
    let mut program = program(alloc)?;
    let command = parse_by(alloc, &mut program, words);
    drop(program);
    command
}

/// The command that the arguments name, according to the parser of this program.
fn parse_by<'a, S: AsStr>(
    alloc: Global,
    parser: &mut clap::Command<'a>,
    words: &'a [S],
) -> Result<Command<'a>, Error>
    requires { app_of parser.old ≡ program }
    ensures command { IfOk result (λ c. IsParsed (map S.text words.entry.now) (command_view c)) }
    ensures none { IfErr result (λ e. (kind_of e ≡ OutOfMemory)
        ⊎ ((c : CommandView) → IsParsed (map S.text words.entry.now) c → ⊥)) }
    ensures kind { IfErr result (HasKind (parser_faults_of (map S.text words.entry.now))) }
{
    let matches = parser.try_get_matches_from_mut(words)?;
    match command_of(&matches) {
        Some(command) => Ok(command),
        // The parser found every required argument. It doesn't know numbers of steps, nor the codes of errors, nor that
        // `--each` excludes steps, and `--grid` excludes `--energy`.
        None => Err(unnamed(alloc, &matches)?),
    }
}

/// The command that the matches of the program name, if they name one.
fn command_of<'a>(matches: &ArgMatches<'a>) -> Option<Command<'a>>
    ensures { MatchOption result ((c : CommandView) → IsNamedOf (subcommand_rows_of matches.now) c → ⊥)
        (λ c. IsNamedOf (subcommand_rows_of matches.now) (command_view c)) }
{
    let (name, matches) = matches.subcommand()?;
    command_by(name, matches)
}

/// The command with this name and these matches.
fn command_by<'a>(name: &str, matches: &ArgMatches<'a>) -> Option<Command<'a>>
    ensures { MatchOption result ((c : CommandView) → IsNamed name.now (rows_of (found_of matches.now)) c → ⊥)
        (λ c. IsNamed name.now (rows_of (found_of matches.now)) (command_view c)) }
{
    match name {
        "start" => start_of(matches),
        "run" => run_by(matches, Direction::Forward),
        "back" => run_by(matches, Direction::Back),
        "trajectory" => trajectory_of(matches),
        "states" => states_of(matches),
        "replay" => replay_of(matches),
        "observe" => observe_of(matches),
        "frame" => frame_of(matches),
        "energy" => quantity_of(matches, Quantity::Energy),
        "forces" => quantity_of(matches, Quantity::Forces),
        "velocities" => quantity_of(matches, Quantity::Velocities),
        "check" => check_of(matches),
        "code" => listing_of(matches),
        "curve" => curve_of(matches),
        "explain" => explain_of(matches),
        _ => None,
    }
}

/// The command `start` with the arguments that its matches have.
fn start_of<'a>(matches: &ArgMatches<'a>) -> Option<Command<'a>>
    ensures { Reads start_usage (rows_of (found_of matches.now)) command_view result }
{
    let job = path_of(matches, "JOB")?;
    let gro = path_of(matches, "GRO")?;
    let frame = number_of(matches, "frame", 1, u64::MAX)?;
    Some(Command::Start(Start { job, gro, frame }))
}

/// The command `run` or `back`, by its direction, with the arguments that its matches have.
fn run_by<'a>(matches: &ArgMatches<'a>, direction: Direction) -> Option<Command<'a>>
    ensures { Reads (run_command direction) (rows_of (found_of matches.now)) command_view result }
{
    let run = run_of(matches, direction)?;
    Some(Command::Run(run))
}

/// The arguments of a run in this direction.
fn run_of<'a>(matches: &ArgMatches<'a>, direction: Direction) -> Option<Run<'a>>
    ensures { Reads (run_usage direction) (rows_of (found_of matches.now)) run_view result }
{
    let (job, state) = paths_of(matches)?;
    let steps = steps_of(matches, "steps", 0, MAX_STEPS)?;
    let workers = number_of(matches, "workers", 1, MAX_WORKERS)? as u32;
    let progress = is_given(matches, "progress");
    Some(Run {
        direction,
        job,
        state,
        steps,
        workers,
        progress,
    })
}

/// The command `trajectory` with the arguments that its matches have.
fn trajectory_of<'a>(matches: &ArgMatches<'a>) -> Option<Command<'a>>
    ensures { Reads (visits_command Trajectory) (rows_of (found_of matches.now)) command_view result }
{
    let visits = visits_of(matches)?;
    Some(Command::Trajectory(visits))
}

/// The command `states` with the arguments that its matches have.
fn states_of<'a>(matches: &ArgMatches<'a>) -> Option<Command<'a>>
    ensures { Reads (visits_command States) (rows_of (found_of matches.now)) command_view result }
{
    let visits = visits_of(matches)?;
    Some(Command::States(visits))
}

/// The command `replay` with the arguments that its matches have.
fn replay_of<'a>(matches: &ArgMatches<'a>) -> Option<Command<'a>>
    ensures { Reads replay_usage (rows_of (found_of matches.now)) command_view result }
{
    let job = path_of(matches, "JOB")?;
    let states = path_of(matches, "STATES")?;
    let workers = number_of(matches, "workers", 1, MAX_WORKERS)? as u32;
    let from = counter_of(matches, "from")?;
    let to = counter_of(matches, "to")?;
    let (part, parts) = part_of(matches)?;
    let progress = is_given(matches, "progress");
    Some(Command::Replay(Replay {
        job,
        states,
        workers,
        from,
        to,
        part,
        parts,
        progress,
    }))
}

/// The command `observe` with the arguments that its matches have.
fn observe_of<'a>(matches: &ArgMatches<'a>) -> Option<Command<'a>>
    ensures { Reads observe_command (rows_of (found_of matches.now)) command_view result }
{
    match is_given(matches, "each") {
        true => rows_of_each(matches),
        false => table_of(matches),
    }
}

/// The command `observe` without `--each`.
fn table_of<'a>(matches: &ArgMatches<'a>) -> Option<Command<'a>>
    ensures { Reads (observe_usage false) (rows_of (found_of matches.now)) command_view result }
{
    let visits = visits_of(matches)?;
    let table = columns_of(matches);
    Some(Command::Observe(Observe { visits, table }))
}

/// The table that the arguments of `observe` name.
fn columns_of(matches: &ArgMatches<'_>) -> Table
    ensures { IsMeant (rows_of (found_of matches.now)) table_usage result }
{
    Table {
        exact: is_given(matches, "exact"),
        tensor: is_given(matches, "tensor"),
    }
}

/// The command `observe` with `--each`, unless the value of `--steps` is above 0. The value of `--every` has no effect.
fn rows_of_each<'a>(matches: &ArgMatches<'a>) -> Option<Command<'a>>
    ensures { Reads (observe_usage true) (rows_of (found_of matches.now)) command_view result }
{
    steps_of(matches, "steps", 0, 0)?;
    steps_of(matches, "every", 1, MAX_STEPS)?;
    let (job, states) = paths_of(matches)?;
    let table = columns_of(matches);
    let shown = EachOutput::Row { table };
    Some(Command::Each(Each { job, states, shown }))
}

/// The arguments of a command that shows states of a run.
fn visits_of<'a>(matches: &ArgMatches<'a>) -> Option<Visits<'a>>
    ensures { Reads visits_usage (rows_of (found_of matches.now)) visits_view result }
{
    let back = is_given(matches, "back");
    let run = run_of(matches, turned(back))?;
    let every = steps_of(matches, "every", 1, MAX_STEPS)?;
    Some(Visits { run, every })
}

/// The command `frame` with the arguments that its matches have.
fn frame_of<'a>(matches: &ArgMatches<'a>) -> Option<Command<'a>>
    ensures { Reads frame_usage (rows_of (found_of matches.now)) command_view result }
{
    let state = path_of(matches, "STATE")?;
    match path_of(matches, "each") {
        Some(job) => {
            let shown = EachOutput::Frame;
            Some(Command::Each(Each {
                job,
                states: state,
                shown,
            }))
        }
        None => Some(Command::Frame(Frame { state })),
    }
}

/// The command `energy`, `forces` or `velocities`, by its quantity, with the arguments that its matches have.
fn quantity_of<'a>(matches: &ArgMatches<'a>, quantity: Quantity) -> Option<Command<'a>>
    ensures { Reads (quantity_usage quantity) (rows_of (found_of matches.now)) command_view result }
{
    let (job, state) = paths_of(matches)?;
    match is_given(matches, "each") {
        true => {
            let shown = EachOutput::Measured { quantity };
            Some(Command::Each(Each {
                job,
                states: state,
                shown,
            }))
        }
        false => Some(Command::Measure(Measured {
            quantity,
            job,
            state,
        })),
    }
}

/// The paths of a job and of a state, or of a stream of states.
fn paths_of<'a>(matches: &ArgMatches<'a>) -> Option<(&'a str, &'a str)>
    ensures { Reads paths_usage (rows_of (found_of matches.now)) (λ paths. (paths.0.now, paths.1.now)) result }
{
    let job = path_of(matches, "JOB")?;
    let state = path_of(matches, "STATE")?;
    Some((job, state))
}

/// The command `check` with the arguments that its matches have.
fn check_of<'a>(matches: &ArgMatches<'a>) -> Option<Command<'a>>
    ensures { Reads check_usage (rows_of (found_of matches.now)) command_view result }
{
    let job = path_of(matches, "JOB")?;
    let listing = path_of(matches, "code");
    let progress = is_given(matches, "progress");
    Some(Command::Check(Check {
        job,
        listing,
        progress,
    }))
}

/// The command `code` with the arguments that its matches have.
fn listing_of<'a>(matches: &ArgMatches<'a>) -> Option<Command<'a>>
    ensures { Reads code_usage (rows_of (found_of matches.now)) command_view result }
{
    let job = path_of(matches, "JOB")?;
    let energy = is_given(matches, "energy");
    Some(Command::Code(Listing { job, energy }))
}

/// The command `curve` with the arguments that its matches have.
fn curve_of<'a>(matches: &ArgMatches<'a>) -> Option<Command<'a>>
    ensures { Reads curve_usage (rows_of (found_of matches.now)) command_view result }
{
    let job = path_of(matches, "JOB")?;
    let points = number_of(matches, "points", 1, MAX_POINTS)? as u32;
    let types = types_of(matches)?;
    let energy = is_given(matches, "energy");
    let slope = is_given(matches, "slope");
    let grid = given_unless(matches, "grid", energy)?;
    let progress = is_given(matches, "progress");
    Some(Command::Curve(Curve {
        job,
        points,
        energy,
        slope,
        grid,
        types,
        progress,
    }))
}

/// The command `explain` with the text for its arguments, unless they name an unknown code.
fn explain_of<'a>(matches: &ArgMatches<'a>) -> Option<Command<'a>>
    ensures { Reads explain_usage (rows_of (found_of matches.now)) command_view result }
{
    let code = code_of(matches);
    let text = explain(code)?;
    Some(Command::Explain(Explain { code, text }))
}
