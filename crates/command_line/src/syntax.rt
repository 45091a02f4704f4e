//! The syntax of the program's commands, and the program as the parser takes it.

ghost use Rattle.std.specs.Prelude.{◌≡◌, IfOk, map};
ghost use Rattle.clap.specs.Words.{App, Rule, Shape, app_of, with_rule, with_subcommand};
ghost use Rattle.clap.specs.declared.builder.command.Command.TheViews.{out-Command};
ghost use Rattle.command_line.specs.CommandLine.{IsArgument, IsBuilt, IsShaped, bare, program, taking, with_commands};
ghost use Rattle.command_line.specs.Syntax.{rule_of_argument, shape_of_syntax};

use crate::arguments::{
    Argument, BACK, EVERY, EVERY_OR_ONE, FRAME, FROM, Form, JOB, PART, POINTS, PROGRESS, STATE,
    STATES, STEPS, STEPS_OR_NONE, TO, WORKERS, made,
};
use crate::commands::VERSION;
use clap::Arg;
use std::alloc::{AllocError, Global};

/// The syntax of a command.
#[derive(Clone, Copy)]
pub(crate) struct Syntax<'a> {
    pub(crate) name: &'a str,
    /// What the command does.
    about: &'a str,
    /// Its arguments, in the order of the help.
    arguments: &'a [Argument<'a>],
    /// The end of the help.
    end: Option<&'a str>,
}

/// The end of `pairmd --help`: exit statuses, an example, and further reading.
const AFTER_HELP: &str = "\
Exit statuses:
  0  done
  1  job, GRO file, state, listing or run rejected
  2  misuse of the command line
  3  energy or its code rejected
  4  out of memory
  5  a file or the output failed

Example:
  pairmd run argon.job start --steps 1000 --workers 4 > later

'pairmd explain CODE' explains the code of an error. The manual is 'man pairmd'.";

/// The end of `pairmd curve --help`: what the errors are.
const CURVE_HELP: &str = "\
An error is a bound, proved for all distances from a row's up to the next row's:
energy and slope are at most that far from the formula over exact numbers.
  -        no bound was found; a line '# no ..' names the row
  # large  a bound exceeds a thousandth of its value
  # jump   a large bound, because the energy or the slope jumps";

pub(crate) const EXPLAIN: Syntax<'static> = Syntax {
    name: "explain",
    about: "Explains the code of an error, or lists all codes",
    arguments: &[(
        "CODE",
        Form::Operands,
        "Code of an error, such as V3 or v3, or its whole line",
    )],
    end: Some("Without a code, 'pairmd explain' lists all codes."),
};

/// The commands, in the order of the help. Only [`commands`] names the table: the prover copies it wherever it is named.
static COMMANDS: [Syntax<'static>; 15] = [
    Syntax {
        name: "start",
        about: "Prints the state that starts at a frame of a GRO file",
        arguments: &[JOB, ("GRO", Form::Operand, "GRO file"), FRAME],
        end: None,
    },
    Syntax {
        name: "run",
        about: "Prints the state n steps later",
        arguments: &[JOB, STATE, STEPS, WORKERS, PROGRESS],
        end: None,
    },
    Syntax {
        name: "back",
        about: "Prints the state n steps earlier",
        arguments: &[JOB, STATE, STEPS, WORKERS, PROGRESS],
        end: None,
    },
    Syntax {
        name: "trajectory",
        about: "Prints a GRO frame every k steps",
        arguments: &[JOB, STATE, STEPS, WORKERS, PROGRESS, EVERY, BACK],
        end: None,
    },
    Syntax {
        name: "states",
        about: "Prints a whole state every k steps",
        arguments: &[JOB, STATE, STEPS, WORKERS, PROGRESS, EVERY, BACK],
        end: None,
    },
    Syntax {
        name: "replay",
        about: "Compares each state of a stream with the run of the state before it",
        arguments: &[JOB, STATES, WORKERS, FROM, TO, PART, PROGRESS],
        end: None,
    },
    Syntax {
        name: "observe",
        about: "Prints a table of energies, temperature and pressure every k steps",
        arguments: &[
            JOB,
            STATE,
            STEPS_OR_NONE,
            WORKERS,
            PROGRESS,
            EVERY_OR_ONE,
            BACK,
            ("exact", Form::Flag, "Print integers instead of decimals"),
            (
                "tensor",
                Form::Flag,
                "Print the components of the pressure tensor, too",
            ),
            (
                "each",
                Form::Flag,
                "Print the row of each state of STATE, a stream of states",
            ),
        ],
        end: None,
    },
    Syntax {
        name: "frame",
        about: "Prints the current frame of a state as a GRO file",
        arguments: &[
            STATE,
            (
                "each",
                Form::Optional(&["JOB"]),
                "Print a frame of each state of STATE, with its time under JOB",
            ),
        ],
        end: None,
    },
    Syntax {
        name: "energy",
        about: "Prints the potential energy of a state",
        arguments: &[
            JOB,
            STATE,
            (
                "each",
                Form::Flag,
                "Print the energy of each state of STATE, a stream of states",
            ),
        ],
        end: None,
    },
    Syntax {
        name: "forces",
        about: "Prints the force on each atom of a state",
        arguments: &[
            JOB,
            STATE,
            (
                "each",
                Form::Flag,
                "Print the forces of each state of STATE, a stream of states",
            ),
        ],
        end: None,
    },
    Syntax {
        name: "velocities",
        about: "Prints the velocity of each atom of a state",
        arguments: &[
            JOB,
            STATE,
            (
                "each",
                Form::Flag,
                "Print the velocities of each state of STATE, a stream of states",
            ),
        ],
        end: None,
    },
    Syntax {
        name: "check",
        about: "Verifies the job's compiled derivative",
        arguments: &[
            JOB,
            (
                "code",
                Form::Optional(&["LISTING"]),
                "Listing to verify instead of the job's own code",
            ),
            PROGRESS,
        ],
        end: None,
    },
    Syntax {
        name: "code",
        about: "Prints the job's compiled derivative as a listing",
        arguments: &[
            JOB,
            (
                "energy",
                Form::Flag,
                "Print the compiled energy instead of its derivative",
            ),
        ],
        end: None,
    },
    Syntax {
        name: "curve",
        about: "Prints the potential of each pair of types, with bounds on its errors",
        arguments: &[
            JOB,
            POINTS,
            ("energy", Form::Flag, "Print only the energy and its error"),
            ("slope", Form::Flag, "Print only the slope and its error"),
            (
                "grid",
                Form::Flag,
                "Print also a bound on the part of the slope's error that comes from rounding the distance",
            ),
            (
                "types",
                Form::Optional(&["A", "B"]),
                "Print only the table of types A and B; A is of the atom with the lower index",
            ),
            PROGRESS,
        ],
        end: Some(CURVE_HELP),
    },
    EXPLAIN,
];

/// The result of building a command: the command, or that memory ran out. Functions that add to a command take this
/// result, so that no command is held while another one is built.
pub(crate) type BuiltCommand<'a> = Result<clap::Command<'a>, AllocError>;

/// The program with all its commands.
pub(crate) fn program<'a>(alloc: Global) -> BuiltCommand<'a>
    ensures { IfOk result (λ c. app_of c ≡ program) }
{
    with_commands(alloc, bare(alloc), commands())
}

/// The commands of the program.
pub(crate) fn commands() -> &'static [Syntax<'static>]
    ensures { with_commands bare (map shape_of_syntax result.now) ≡ program }
{
    &COMMANDS
}

/// The program without its commands.
fn bare<'a>(alloc: Global) -> BuiltCommand<'a>
    ensures { IsBuilt result bare }
{
    clap::Command::new(alloc, "pairmd")
        .about("Bit-reversible molecular dynamics of pair potentials")
        .after_help(AFTER_HELP)
        .version(VERSION)
        .no_binary_name(true)
        .subcommand_required(true)
        .bin_name("pairmd")
}

/// The command with this syntax.
pub(crate) fn built<'a>(alloc: Global, syntax: &Syntax<'a>) -> BuiltCommand<'a>
    ensures { IsShaped result (shape_of_syntax syntax.now) }
{
    let command = clap::Command::new(alloc, syntax.name).about(syntax.about);
    let command = with_end(command, syntax.end);
    with_arguments(alloc, Ok(command), syntax.arguments)
}

/// A command whose help ends with this text, if there is one.
fn with_end<'a>(command: clap::Command<'a>, end: Option<&'a str>) -> clap::Command<'a>
    ensures app { app_of result ≡ app_of command.entry }
    ensures local { (out-Command result).has_globals ≡ (out-Command command.entry).has_globals }
{
    match end {
        Some(end) => command.after_help(end),
        None => command,
    }
}

/// A command with these arguments in addition.
fn with_arguments<'a>(
    alloc: Global,
    command: BuiltCommand<'a>,
    mut arguments: &[Argument<'a>],
) -> BuiltCommand<'a>
    ensures { (app : App) → IsBuilt command.entry app → IsBuilt result (taking app (map rule_of_argument arguments.entry.now)) }
{
    let mut built = command;
    while let [argument, rest @ ..] = arguments {
        built = with_argument(built, made(alloc, argument));
        arguments = rest;
    }
    built
}

/// A command with one more argument.
fn with_argument<'a>(command: BuiltCommand<'a>, arg: Arg<'a>) -> BuiltCommand<'a>
    ensures { (app : App) (rule : Rule) → IsBuilt command.entry app → IsArgument arg.entry rule
        → IsBuilt result (with_rule app rule) }
{
    match command {
        Ok(command) => command.arg(arg),
        Err(fault) => {
            drop(arg);
            Err(fault)
        }
    }
}

/// A program with these commands in addition.
fn with_commands<'a>(
    alloc: Global,
    program: BuiltCommand<'a>,
    mut commands: &[Syntax<'a>],
) -> BuiltCommand<'a>
    ensures { (app : App) → IsBuilt program.entry app → IsBuilt result (with_commands app (map shape_of_syntax commands.entry.now)) }
{
    let mut all = program;
    while let [syntax, rest @ ..] = commands {
        all = with_command(all, built(alloc, syntax));
        commands = rest;
    }
    all
}

/// A program with one more command.
fn with_command<'a>(program: BuiltCommand<'a>, command: BuiltCommand<'a>) -> BuiltCommand<'a>
    ensures { (app : App) (shape : Shape) → IsBuilt program.entry app → IsShaped command.entry shape
        → IsBuilt result (with_subcommand app shape) }
{
    let command = match command {
        Ok(command) => command,
        Err(fault) => {
            drop(program);
            return Err(fault);
        }
    };
    match program {
        Ok(program) => program.subcommand(command),
        Err(fault) => {
            drop(command);
            Err(fault)
        }
    }
}
