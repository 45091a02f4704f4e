//! The program `pairmd`: the command line over the system's files and standard streams.
#![tactic(auto)]

use host::run_process;
use std::process::ExitCode;

fn main(rt: HostRuntime) -> ExitCode {
    run_process(&rt, rt.stdout(), rt.stderr())
}
