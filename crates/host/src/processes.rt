//! The program as a process: its arguments, and its exit status.

ghost use Rattle.std.specs.Prelude.{◌≡◌, ◌≢◌, ◌⊎◌, ◌-◌, ◌<◌, ◌≤◌, ◌^◌, IfErr, IfOk, map, string_bytes};
ghost use Rattle.std.specs.Global.{Global};
ghost use Rattle.std.specs.IoError.{error_kind};
ghost use Rattle.cli.specs.Command.{IsAnswer, Prints};
ghost use Rattle.cli.specs.CommandFailure.{IsFailure};
ghost use Rattle.cli.specs.Progress.{IsTold};
ghost use Rattle.cli.specs.Refusals.{IsFaultOf};
ghost use Rattle.cli.specs.Reports.{IsReported};
ghost use Rattle.cli.specs.declared.faults.CommandFault.{CommandFault};
ghost use Rattle.cli.specs.declared.faults.CommandFault.TheVariants.{Memory, NotText};
ghost use Rattle.host.specs.SystemFaults.{words_fault_of};

use crate::files::HostFiles;
use crate::outputs::Stream;
use crate::stack::provide_stack;
use cli::{CommandFault, Files, execute, report};
use fallible::Out;
use std::alloc::Global;
use std::io::{Input, Write};
use std::process::ExitCode;
use std::rt::Env;
use std::thread::Threads;
use std::{env, fs, io};

/// Carries out the arguments of a process as [`execute`] does, and returns the exit status, from 0 to 5. If the
/// arguments aren't available, it reports the reason and returns the status of that fault.
pub fn execute_words<'a, R: Threads + Sync + AllocGlobal, F: Files, O: Out, E: Out>(
    rt: &R,
    words: Result<Vec<String>, CommandFault<'a, Global>>,
    files: &mut F,
    out: &mut O,
    err: &mut E,
) -> u8
    requires out { (O.output out.old).failed < 2 ^ 64 - 1 }
    requires err { (E.output err.old).failed < 2 ^ 64 - 1 }
    ensures most { result ≤ 5 }
    ensures answers { IfOk words.entry (λ ws. IsAnswer (map string_bytes ws.items) (F.held files.old) (F.requested files.old)
        (F.requested files.new) (O.output out.old) (O.output out.new) (E.output err.old) (E.output err.new) result) }
    ensures fails { IfOk words.entry (λ ws. result ≢ 0 → IsFailure (map string_bytes ws.items) (F.held files.old)
        (F.requested files.old) (F.requested files.new) (O.output out.old) (O.output out.new)
        (E.output err.old) (E.output err.new) result) }
    ensures undone { IfOk words.entry (λ ws. result ≢ 0 → (f : CommandFault Global) × IsFaultOf (map string_bytes ws.items)
        (F.held files.old) (F.requested files.old) (F.requested files.new) (O.output out.old) (O.output out.new) f
        × IsTold (map string_bytes ws.items) (F.held files.old) (O.output out.old) (O.output out.new) f result
        (E.output err.old) (E.output err.new)) }
    ensures refused { IfErr words.entry (λ f. IsReported f result (Prints (E.output err.old) (E.output err.new))
        × (O.output out.new ≡ O.output out.old)) }
{
    match words {
        Ok(words) => execute(
            rt,
            rt.alloc(),
            rt.alloc(),
            words.as_slice(),
            files,
            out,
            err,
        ),
        Err(fault) => {
            let status = report(rt.alloc(), &fault, err);
            drop(fault);
            status
        }
    }
}

/// Runs the program with the arguments of the process and the files of the system, and returns the exit status. `out`
/// and `err` are the writers for standard output and standard error.
pub fn run_process<
    R: Env + fs::Files + Input + Threads + Sync + AllocGlobal,
    O: Write + Drop,
    E: Write + Drop,
>(rt: &R, out: O, err: E) -> ExitCode {
    let mut out = Stream::new(out);
    let mut err = Stream::new(err);
    let mut files = HostFiles::new(rt);
    let words = match provide_stack(rt) {
        Ok(()) => words(rt),
        Err(fault) => Err(fault),
    };
    ExitCode::from(execute_words(rt, words, &mut files, &mut out, &mut err))
}

/// The arguments of the process after the program's own name.
///
/// `NotText`: the arguments aren't available as UTF-8 text. `Memory`: memory ran out. There are no other faults.
pub fn words<R: Env + AllocGlobal>(rt: &R) -> Result<Vec<String>, CommandFault<'static, Global>>
    ensures fault { IfErr result (λ f. (f ≡ Memory) ⊎ (f ≡ NotText)) }
{
    match env::args(rt) {
        Ok(words) => Ok(words.skip(1).collect(rt.alloc())?),
        Err(error) => Err(words_fault(&error)),
    }
}

/// The fault of getting the arguments that comes from this error: `Memory` if memory ran out, otherwise `NotText`.
fn words_fault(error: &io::Error) -> CommandFault<'static, Global>
    ensures { result ≡ words_fault_of (error_kind error.now) }
{
    match error.kind() {
        io::ErrorKind::OutOfMemory => CommandFault::Memory,
        _ => CommandFault::NotText,
    }
}
