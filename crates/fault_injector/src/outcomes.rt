//! One run of a command with a fault.

use crate::faults::Fault;
use crate::outputs::Output;
use crate::refusing_memory::RefusingAllocator;
use cli::execute;
use host::{HostFiles, Stream};
use std::fs::Files;
use std::io::{self, Input};
use std::thread::Threads;

/// The outcome of a command.
#[derive(Drop)]
pub(crate) struct Outcome {
    status: u8,
    requests: u64,
    blocks: u64,
    out: Vec<u8>,
    err: Vec<u8>,
    /// Whether the fault occurred.
    pub(crate) is_faulty: bool,
}

impl Outcome {
    /// Prints a line of numbers, then standard output, standard error and a line feed.
    pub(crate) fn print<R: Print>(&self, rt: &R) -> io::Result<()> {
        print!(rt;
            "status {}, requests {}, leaked {}, ",
            self.status, self.requests, self.blocks
        )?;
        println!(rt; "output {}, error {}", self.out.len(), self.err.len())?;
        rt.write_all(&self.out)?;
        rt.write_all(&self.err)?;
        rt.write_all(b"\n")
    }
}

/// The outcome of `pairmd` with these arguments, and with the fault at this index.
///
/// All commands run here, with one type for each parameter of `execute`. Each further type would compile the program
/// once more.
pub(crate) fn run<R: Files + Input + Threads + Sync + AllocGlobal>(
    rt: &R,
    fault: Fault,
    index: u64,
    words: &[String],
) -> Outcome {
    let alloc = rt.alloc();
    let refused = (fault == Fault::Request).then_some(index);
    let memory = RefusingAllocator::new(alloc, refused);
    let mut out = Output::new(alloc, (fault == Fault::Output).then_some(index), false);
    let fails_once = fault == Fault::ErrorOnce;
    let mut err = Output::new(
        alloc,
        (fails_once || fault == Fault::Error).then_some(index),
        fails_once,
    );
    let status = execute(
        rt,
        alloc,
        &memory,
        words,
        &mut HostFiles::new(rt),
        &mut Stream::new(&mut out),
        &mut Stream::new(&mut err),
    );
    let requests = memory.requests();
    let is_refused = fault == Fault::Request && requests > index;
    Outcome {
        status,
        requests,
        blocks: memory.blocks(),
        is_faulty: is_refused || out.has_failed || err.has_failed,
        out: out.bytes,
        err: err.bytes,
    }
}
