//! Injects faults into commands of `pairmd` that no process can cause from outside: one request for memory fails, or an
//! output fails after some bytes.
//!
//! The arguments are commands, with the word `;` between two. A command is the name of a fault, then the arguments of
//! `pairmd`. It runs with the fault at each index from 0, up to the first run in which the fault doesn't occur. For each
//! run, the program prints a line with the exit status, the number of requests for memory, the number of leaked blocks
//! and the lengths of standard output and standard error; then the two outputs and a line feed.
#![tactic(auto)]

mod faults;
mod outcomes;
mod outputs;
mod refusing_memory;

use crate::faults::Fault;
use crate::outcomes::run;
use std::fs::Files;
use std::io::Input;
use std::thread::Threads;
use std::{env, io};

/// More indices than any command has requests or bytes of output.
const INDICES: u64 = 1_000_000;

fn main(rt: HostRuntime) -> io::Result<()> {
    let words: Vec<String> = env::args(&rt)?.skip(1).collect(rt.alloc())?;
    for command in words.split(|word| word.as_str() == ";") {
        run_all(&rt, command)?;
    }
    Ok(())
}

/// Runs a command with its fault at each index until the fault doesn't occur, and prints the outcomes. `InvalidInput`:
/// the command doesn't begin with the name of a fault. Other errors are of printing.
fn run_all<R: Files + Input + Threads + Sync + AllocGlobal + Print>(
    rt: &R,
    command: &[String],
) -> io::Result<()> {
    let [name, words @ ..] = command else {
        return Err(io::ErrorKind::InvalidInput.into());
    };
    let Some(fault) = Fault::named(name) else {
        return Err(io::ErrorKind::InvalidInput.into());
    };
    for index in 0..INDICES {
        let outcome = run(rt, fault, index, words);
        outcome.print(rt)?;
        if !outcome.is_faulty {
            break;
        }
    }
    Ok(())
}
