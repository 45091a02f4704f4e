//! The commands of the program.

ghost use Rattle.std.specs.Prelude.{◌≡◌, ◌≤◌, ◌<◌, ◌^◌, Some, option_map};
ghost use Rattle.command_line.specs.Explanations.{text_for};

use integrator::Direction;

/// The version of the program, which `--version` prints.
pub const VERSION: &str = "1.8.1";

/// The most steps that one command takes.
pub const MAX_STEPS: u64 = 1_000_000_000_000;

/// The most workers that one command takes.
pub const MAX_WORKERS: u64 = 64;

/// The most rows that `curve` prints after the first.
pub const MAX_POINTS: u64 = 1_000_000;

/// A command, as the arguments of the program name it.
#[derive(Clone, Copy)]
pub enum Command<'a> {
    /// `start`: the state that starts at a frame of a GRO file.
    Start(Start<'a>),
    /// `run` and `back`: the state n steps later or earlier.
    Run(Run<'a>),
    /// `trajectory`: GRO frames of a run, one every k steps.
    Trajectory(Visits<'a>),
    /// `states`: whole states of a run, one every k steps.
    States(Visits<'a>),
    /// `replay`: a comparison of each state of a stream with the run of the state before it.
    Replay(Replay<'a>),
    /// `observe`: a table of energies, temperature and pressure, with a row every k steps.
    Observe(Observe<'a>),
    /// `frame`: the current frame of a state as a GRO file.
    Frame(Frame<'a>),
    /// `energy`, `forces` and `velocities`: a quantity of a state.
    Measure(Measured<'a>),
    /// `--each` of `observe`, `frame`, `energy`, `forces` and `velocities`: a text for each state of a stream.
    Each(Each<'a>),
    /// `check`: the verdict on the compiled derivative of a job, or on a listing under the job.
    Check(Check<'a>),
    /// `code`: the compiled derivative of a job, or the compiled energy, as a listing.
    Code(Listing<'a>),
    /// `curve`: the potential of each pair of a job's types, with bounds on its errors.
    Curve(Curve<'a>),
    /// `explain`: the explanation for the code of an error, or an overview of all codes.
    Explain(Explain<'a>),
}

/// Arguments of `start`.
#[derive(Clone, Copy)]
pub struct Start<'a> {
    /// The path of the job.
    pub job: &'a str,
    /// The path of the GRO file.
    pub gro: &'a str,
    /// The number of the frame in the GRO file, from 1.
    pub frame: u64,
    ghost counted: { 1 ≤ frame },
    ghost fits: { frame < 2 ^ 64 },
}

/// Arguments of `run` and `back`.
#[derive(Clone, Copy)]
pub struct Run<'a> {
    /// The direction of the run.
    pub direction: Direction,
    /// The path of the job.
    pub job: &'a str,
    /// The path of the state.
    pub state: &'a str,
    /// The number of steps.
    pub steps: u64,
    /// The number of workers (threads), from 1.
    pub workers: u32,
    /// Whether the run reports its progress on standard error.
    pub progress: bool,
    ghost within: { steps ≤ 1000000000000 },
    ghost some: { 1 ≤ workers },
    ghost few: { workers ≤ 64 },
}

/// Arguments of `trajectory` and `states`, which show the states after 0, k, 2k, .. steps.
#[derive(Clone, Copy)]
pub struct Visits<'a> {
    /// The run.
    pub run: Run<'a>,
    /// The number k of steps from one shown state to the next, from 1.
    pub every: u64,
    ghost apart: { 1 ≤ every },
    ghost near: { every ≤ 1000000000000 },
}

/// Arguments of `replay`, which compares each state of a stream with the run of the state before it. Two neighbouring
/// states are a segment.
#[derive(Clone, Copy)]
pub struct Replay<'a> {
    /// The path of the job.
    pub job: &'a str,
    /// The path of the stream: states, one after another.
    pub states: &'a str,
    /// The number of workers (threads), from 1.
    pub workers: u32,
    /// The least counter of a state of a replayed segment.
    pub from: i64,
    /// The greatest.
    pub to: i64,
    /// The number of the part, from 1. Part i of n has each segment whose number, from 1, is i more than a multiple of n.
    pub part: u64,
    /// The number of parts that the segments are divided into, from 1.
    pub parts: u64,
    /// Whether the replay reports its progress on standard error.
    pub progress: bool,
    ghost some: { 1 ≤ workers },
    ghost few: { workers ≤ 64 },
    ghost first: { 1 ≤ part },
    ghost within: { part ≤ parts },
}

/// Which table `observe` prints.
#[derive(Clone, Copy)]
pub struct Table {
    /// Whether the table has exact integers instead of decimals.
    pub exact: bool,
    /// Whether the table has the components of the pressure tensor too.
    pub tensor: bool,
}

/// Arguments of `observe`, whose table has a row for each state after 0, k, 2k, .. steps.
#[derive(Clone, Copy)]
pub struct Observe<'a> {
    /// The states that the table has a row for.
    pub visits: Visits<'a>,
    /// The table.
    pub table: Table,
}

/// Arguments of `frame`.
#[derive(Clone, Copy)]
pub struct Frame<'a> {
    /// The path of the state.
    pub state: &'a str,
}

/// A quantity of a state under a job.
#[derive(Clone, Copy)]
pub enum Quantity {
    /// `energy`: the potential energy.
    Energy,
    /// `forces`: the force on each atom.
    Forces,
    /// `velocities`: the velocity of each atom in the last time step of the job.
    Velocities,
}

/// Arguments of `energy`, `forces` and `velocities`: a job, and a state under the job.
#[derive(Clone, Copy)]
pub struct Measured<'a> {
    /// What is printed of the state.
    pub quantity: Quantity,
    /// The path of the job.
    pub job: &'a str,
    /// The path of the state.
    pub state: &'a str,
}

/// What `--each` prints of each state of a stream.
#[derive(Clone, Copy)]
pub enum EachOutput {
    /// `frame`: the frame, with its time under the job.
    Frame,
    /// `observe`: a table row.
    Row {
        /// The table.
        table: Table,
    },
    /// `energy`, `forces` and `velocities`: a quantity.
    Measured {
        /// The quantity.
        quantity: Quantity,
    },
}

/// Arguments of a command with `--each`: a job, and a stream of states under the job.
#[derive(Clone, Copy)]
pub struct Each<'a> {
    /// The path of the job.
    pub job: &'a str,
    /// The path of the stream: states, one after another.
    pub states: &'a str,
    /// What the command prints of each state.
    pub shown: EachOutput,
}

/// Arguments of `check`.
#[derive(Clone, Copy)]
pub struct Check<'a> {
    /// The path of the job.
    pub job: &'a str,
    /// The path of the listing to verify under the job. Without a listing, `check` verifies the compiled derivative of
    /// the job.
    pub listing: Option<&'a str>,
    /// Whether `check` reports its progress on standard error.
    pub progress: bool,
}

/// Arguments of `code`.
#[derive(Clone, Copy)]
pub struct Listing<'a> {
    /// The path of the job.
    pub job: &'a str,
    /// Whether the listing is of the compiled energy instead of the compiled derivative.
    pub energy: bool,
}

/// Arguments of `curve`.
#[derive(Clone, Copy)]
pub struct Curve<'a> {
    /// The path of the job.
    pub job: &'a str,
    /// The number n of rows after the first, from 1.
    pub points: u32,
    /// Whether `--energy` is given. With only one of `--energy` and `--slope`, the table has only the columns of the
    /// energy, or of the slope.
    pub energy: bool,
    /// Whether `--slope` is given.
    pub slope: bool,
    /// Whether `--grid` is given: the table also has a bound on the part of the slope's error that comes from rounding the
    /// distance.
    pub grid: bool,
    /// The names of the two types whose table is printed, with the type of the atom with the lower index first.
    /// Without names, the table of each pair of types is printed.
    pub types: Option<(&'a str, &'a str)>,
    /// Whether `curve` reports its progress on standard error.
    pub progress: bool,
    ghost some: { 1 ≤ points },
    ghost few: { points ≤ 1000000 },
}

/// Arguments of `explain`, with the text to print for them.
#[derive(Clone, Copy)]
pub struct Explain<'a> {
    /// The code, if the arguments name one.
    pub code: Option<&'a str>,
    /// The explanation for the code; without a code, the overview of all codes.
    pub text: &'static str,
    ghost known: { text_for (option_map (λ code. code.now) code) ≡ Some text.now },
}
