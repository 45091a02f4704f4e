//! The command line: the commands of the program, which arguments name which command, and the texts that
//! `pairmd explain` prints.
#![tactic(auto)]

mod arguments;
mod commands;
mod explanations;
mod misuses;
mod parsing;
mod parts;
mod step_counts;
mod syntax;
mod values;

pub use commands::{
    Check, Command, Curve, Each, EachOutput, Explain, Frame, Listing, MAX_POINTS, MAX_STEPS,
    MAX_WORKERS, Measured, Observe, Quantity, Replay, Run, Start, Table, VERSION, Visits,
};
pub use parsing::parse;
