//! Carrying out the arguments of the program.

ghost use Rattle.std.specs.List.{before_first};
ghost use Rattle.std.specs.Prelude.{◌≡◌, ◌≢◌, ◌<◌, ◌-◌, ◌^◌, ◌==◌, ℕ, List, [], Option, Some, None, true, IfOk, OnOk, IfErr, map, string_bytes};
ghost use Rattle.clap.specs.Words.{kind_of};
ghost use Rattle.clap.specs.declared.error.kind.ErrorKind.TheVariants.{DisplayHelp, DisplayVersion};
ghost use Rattle.command_line.specs.Views.{bytes_if, command_view};
ghost use Rattle.command_line.specs.declared.commands.Command.{Command};
ghost use Rattle.line_text.specs.Parts.{lacks};
ghost use Rattle.cli.specs.Actions.{action_of, check_action, check_work, work_of};
ghost use Rattle.cli.specs.Command.{IsAnswer, IsDone, IsQuiet, Prints, PrintsIfCounted, cannot_read, line, version_line};
ghost use Rattle.cli.specs.CommandFailure.{IsFailure};
ghost use Rattle.cli.specs.Performed.{EndsIn, HasAnswered, Performs};
ghost use Rattle.cli.specs.Progress.{IsTold, Reports};
ghost use Rattle.cli.specs.Refusals.{IsFaultOf, WhyNotAnswered};
ghost use Rattle.cli.specs.Reports.{IsReason, IsReported, no_such_type, said};
ghost use Rattle.cli.specs.Statuses.{status_of};
ghost use Rattle.cli.specs.declared.faults.CommandFault.{CommandFault};

use crate::conversions::{perform_code, perform_frame, perform_start};
use crate::curve_tables::curve_bytes;
use crate::faults::{CommandFault, Status, write_result};
use crate::files::{Files, read, read_two};
use crate::quantities::perform_quantity;
use crate::shown::{columns_of, perform_run, perform_visits};
use crate::state_streams::{perform_each, perform_replay};
use crate::verdicts::verdict_bytes;
use crate::writing::write_line;
use clap::Error;
use clap::error::ErrorKind;
use command_line::{Check, Command, Curve, Explain, VERSION, parse};
use fallible::{Out, write_all};
use line_text::cut;
use runs::{FrameTexts, Rows, StateTexts};
use std::alloc::{AllocError, Allocator, Global};
use std::convert::AsStr;
use std::thread::Threads;

/// Carries out the arguments of the program, and returns the exit status, from 0 to 5.
///
/// `words` are the arguments after the program's own name. The output of a command, help and the version are written to
/// `out`. Error lines, progress lines and the parser's text for arguments that name no command are written to `err`.
/// Workers are threads of `rt`. The parser uses the memory of `words_alloc`, and everything else the memory of `alloc`.
pub fn execute<
    R: Threads + Sync,
    A: Allocator + Copy + Send + Sync,
    S: AsStr,
    F: Files,
    O: Out,
    E: Out,
>(rt: &R, words_alloc: Global, alloc: A, words: &[S], files: &mut F, out: &mut O, err: &mut E) -> u8
    requires out { (O.output out.old).failed < 2 ^ 64 - 1 }
    requires err { (E.output err.old).failed < 2 ^ 64 - 1 }
    // The command specification.
    ensures answers { IsAnswer (map S.text words.now) (F.held files.old) (F.requested files.old) (F.requested files.new)
        (O.output out.old) (O.output out.new) (E.output err.old) (E.output err.new) result }
    // Its second half: how the program fails, by its exit status.
    ensures fails { result ≢ 0 → IsFailure (map S.text words.now) (F.held files.old) (F.requested files.old) (F.requested files.new)
        (O.output out.old) (O.output out.new) (E.output err.old) (E.output err.new) result }
    // On failure: the fault, which the exit status and standard error report.
    ensures undone { result ≢ 0 → (f : CommandFault A) × IsFaultOf (map S.text words.now) (F.held files.old)
        (F.requested files.old) (F.requested files.new) (O.output out.old) (O.output out.new) f
        × IsTold (map S.text words.now) (F.held files.old) (O.output out.old) (O.output out.new) f result
        (E.output err.old) (E.output err.new) }
{
    match respond(rt, words_alloc, alloc, words, files, out, err) {
        Ok(()) => Status::Done.code(),
        Err(fault) => {
            let status = report_if_counted(alloc, &fault, err);
            drop(fault);
            status
        }
    }
}

/// Carries out the arguments. An error of the parser that requests help or the version is answered on `out`.
fn respond<
    'a,
    R: Threads + Sync,
    A: Allocator + Copy + Send + Sync,
    S: AsStr,
    F: Files,
    O: Out,
    E: Out,
>(
    rt: &R,
    words_alloc: Global,
    alloc: A,
    words: &'a [S],
    files: &mut F,
    out: &mut O,
    err: &mut E,
) -> Result<(), CommandFault<'a, A>>
    requires { (O.output out.old).failed < 2 ^ 64 - 1 }
    ensures undone { IfErr result (EndsIn (map S.text words.entry.now) (F.held files.old) (F.requested files.old) (F.requested files.new)
        (O.output out.old) (O.output out.new) (E.output err.old) (E.output err.new)) }
    ensures quiet { OnOk result (IsQuiet (map S.text words.entry.now) (F.held files.old) (O.output out.old) (O.output out.new)
        (E.output err.old) (E.output err.new)) }
    ensures done { OnOk result (IsDone (map S.text words.entry.now) (F.held files.old) (F.requested files.old) (F.requested files.new)
        (O.output out.old) (O.output out.new)) }
{
    match parse(words_alloc, words) {
        Ok(command) => perform(rt, alloc, command, files, out, err),
        Err(error) => answer(alloc, error, out),
    }
}

/// Carries out a command.
fn perform<'a, R: Threads + Sync, A: Allocator + Copy + Send + Sync, F: Files, O: Out, E: Out>(
    rt: &R,
    alloc: A,
    command: Command<'a>,
    files: &mut F,
    out: &mut O,
    err: &mut E,
) -> Result<(), CommandFault<'a, A>>
    requires { (O.output out.old).failed < 2 ^ 64 - 1 }
    ensures performs { Performs (F.held files.old) (F.requested files.old) (F.requested files.new)
        (action_of (command_view command.entry)) (O.output out.old) (O.output out.new) result }
    ensures reports { Reports (work_of (F.held files.old) (O.output out.old) (O.output out.new) (command_view command.entry))
        (E.output err.old) (E.output err.new) result }
{
    match command {
        Command::Start(start) => perform_start(alloc, start, files, out),
        Command::Run(run) => perform_run(rt, alloc, &run, files, out, err),
        Command::Trajectory(v) => perform_visits(rt, alloc, &v, &FrameTexts, files, out, err),
        Command::States(v) => perform_visits(rt, alloc, &v, &StateTexts, files, out, err),
        Command::Replay(replay) => perform_replay(rt, alloc, &replay, files, out, err),
        Command::Observe(o) => {
            let rows = Rows {
                columns: columns_of(o.table),
            };
            perform_visits(rt, alloc, &o.visits, &rows, files, out, err)
        }
        Command::Frame(frame) => perform_frame(alloc, frame, files, out),
        Command::Measure(requested) => perform_quantity(alloc, requested, files, out),
        Command::Each(each) => perform_each(alloc, each, files, out),
        Command::Check(check) => perform_check(alloc, check, files, out, err),
        Command::Code(listing) => perform_code(alloc, listing, files, out),
        Command::Curve(curve) => perform_curve(alloc, curve, files, out, err),
        Command::Explain(explain) => perform_explain(explain, out),
    }
}

/// Prints the verdict on the listing if there is one, otherwise on the job's slope code, and reports its progress.
fn perform_check<'a, A: Allocator + Copy, F: Files, O: Out, E: Out>(
    alloc: A,
    check: Check<'a>,
    files: &mut F,
    out: &mut O,
    err: &mut E,
) -> Result<(), CommandFault<'a, A>>
    requires { (O.output out.old).failed < 2 ^ 64 - 1 }
    ensures performs { Performs (F.held files.old) (F.requested files.old) (F.requested files.new)
        (check_action check.entry.job.now (bytes_if check.entry.listing)) (O.output out.old) (O.output out.new) result }
    ensures reports { Reports (check_work (F.held files.old) check.entry.job.now (bytes_if check.entry.listing) check.entry.progress)
        (E.output err.old) (E.output err.new) result }
{
    match check.listing {
        None => judge_slope(alloc, check.job, check.progress, files, out, err),
        Some(listing) => {
            judge_listing(alloc, check.job, listing, check.progress, files, out, err)
        }
    }
}

/// Reads the job, and prints the verdict on its slope code.
fn judge_slope<'a, A: Allocator + Copy, F: Files, O: Out, E: Out>(
    alloc: A,
    job: &'a str,
    progress: bool,
    files: &mut F,
    out: &mut O,
    err: &mut E,
) -> Result<(), CommandFault<'a, A>>
    requires { (O.output out.old).failed < 2 ^ 64 - 1 }
    ensures performs { Performs (F.held files.old) (F.requested files.old) (F.requested files.new) (check_action job.entry.now None)
        (O.output out.old) (O.output out.new) result }
    ensures reports { Reports (check_work (F.held files.old) job.entry.now None progress) (E.output err.old) (E.output err.new) result }
{
    let job = read(alloc, job, files)?;
    verdict_bytes(alloc, &job, None, progress, out, err)
}

/// Reads the job and then the listing, and prints the verdict on the listing.
fn judge_listing<'a, A: Allocator + Copy, F: Files, O: Out, E: Out>(
    alloc: A,
    job: &'a str,
    listing: &'a str,
    progress: bool,
    files: &mut F,
    out: &mut O,
    err: &mut E,
) -> Result<(), CommandFault<'a, A>>
    requires { (O.output out.old).failed < 2 ^ 64 - 1 }
    ensures performs { Performs (F.held files.old) (F.requested files.old) (F.requested files.new)
        (check_action job.entry.now (Some listing.entry.now)) (O.output out.old) (O.output out.new) result }
    ensures reports { Reports (check_work (F.held files.old) job.entry.now (Some listing.entry.now) progress)
        (E.output err.old) (E.output err.new) result }
{
    let (job, listing) = read_two(alloc, job, listing, files)?;
    verdict_bytes(alloc, &job, Some(listing.as_slice()), progress, out, err)
}

/// Reads the job, and prints the table of its potential, and reports its progress.
fn perform_curve<'a, A: Allocator + Copy, F: Files, O: Out, E: Out>(
    alloc: A,
    curve: Curve<'a>,
    files: &mut F,
    out: &mut O,
    err: &mut E,
) -> Result<(), CommandFault<'a, A>>
    requires { (O.output out.old).failed < 2 ^ 64 - 1 }
    ensures performs { Performs (F.held files.old) (F.requested files.old) (F.requested files.new)
        (action_of (command_view (Command.Curve curve.entry))) (O.output out.old) (O.output out.new) result }
    ensures reports { Reports (work_of (F.held files.old) (O.output out.old) (O.output out.new) (command_view (Command.Curve curve.entry)))
        (E.output err.old) (E.output err.new) result }
{
    let job = read(alloc, curve.job, files)?;
    curve_bytes(alloc, &job, &curve, out, err)
}

/// Prints the explanation for the code of an error, or without a code the overview of all codes.
fn perform_explain<'a, A: Allocator, O: Out>(
    explain: Explain<'a>,
    out: &mut O,
) -> Result<(), CommandFault<'a, A>>
    requires { (O.output out.old).failed < 2 ^ 64 - 1 }
    ensures { (held : List ℕ → Option (List ℕ)) (requested : Option (List (List ℕ)))
        → Performs held requested requested (action_of (command_view (Command.Explain explain.entry)))
        (O.output out.old) (O.output out.new) result }
{
    write_result(write_all(out, explain.text.as_bytes()))
}

/// Prints help or the version if the parser's error requests it; any other error of the parser is a fault.
fn answer<'a, A: Allocator + Copy, O: Out>(
    alloc: A,
    error: Error,
    out: &mut O,
) -> Result<(), CommandFault<'a, A>>
    requires { (O.output out.old).failed < 2 ^ 64 - 1 }
    ensures answered { OnOk result (HasAnswered (kind_of error) (O.output out.old) (O.output out.new)) }
    ensures not_answered { IfErr result (WhyNotAnswered (kind_of error) (O.output out.old) (O.output out.new)) }
{
    match error.kind() {
        ErrorKind::OutOfMemory => Err(CommandFault::Memory),
        ErrorKind::DisplayHelp => write_line(help_text(alloc, &error), out),
        ErrorKind::DisplayVersion => write_line(version_text(alloc), out),
        _ => Err(CommandFault::CommandLine(error)),
    }
}

/// The text of the help.
fn help_text<A: Allocator + Copy>(alloc: A, help: &Error) -> Result<String<A>, AllocError>
    ensures { IfOk result (λ s. string_bytes s ≢ []) }
{
    let text = help.to_string(alloc)?;
    or_version(alloc, text)
}

/// The text itself if it isn't empty. The parser's contract doesn't exclude an empty text; the version replaces it.
fn or_version<A: Allocator + Copy>(alloc: A, text: String<A>) -> Result<String<A>, AllocError>
    ensures { IfOk result (λ s. string_bytes s ≢ []) }
{
    if text.is_empty() {
        version_text(alloc)
    } else {
        Ok(text)
    }
}

/// The line with the program's name and its version.
fn version_text<A: Allocator + Copy>(alloc: A) -> Result<String<A>, AllocError>
    ensures { IfOk result (λ s. string_bytes s ≡ version_line) }
{
    format!(in alloc; "pairmd {VERSION}\n")
}

/// Reports a fault as [`report`] does, and returns the exit status. It prints no text if the output can't count another
/// failed write.
fn report_if_counted<A: Allocator + Copy, E: Out>(
    alloc: A,
    fault: &CommandFault<'_, A>,
    err: &mut E,
) -> u8
    ensures { IsReported fault.now result (PrintsIfCounted (E.output err.old) (E.output err.new)) }
{
    if err.failures() < u64::MAX {
        report(alloc, fault, err)
    } else {
        fault.status().code()
    }
}

/// Prints the text of a fault, and returns its exit status.
///
/// If memory for the text runs out, it reports `Memory` instead. If a write fails, the output has a prefix of the text.
pub fn report<A: Allocator + Copy, E: Out>(alloc: A, fault: &CommandFault<'_, A>, err: &mut E) -> u8
    requires { (E.output err.old).failed < 2 ^ 64 - 1 }
    ensures { IsReported fault.now result (Prints (E.output err.old) (E.output err.new)) }
{
    match text_of(alloc, fault) {
        Ok(text) => {
            let _ = write_all(err, text.as_bytes());
            fault.status().code()
        }
        Err(_) => {
            let _ = write_all(err, b"pairmd: Memory\n");
            Status::Memory.code()
        }
    }
}

/// The text that reports a fault: the parser's own text for status 2, otherwise a line.
fn text_of<A: Allocator + Copy>(
    alloc: A,
    fault: &CommandFault<'_, A>,
) -> Result<String<A>, AllocError>
    ensures { IfOk result (λ s. (text : List ℕ) × IsReason (status_of fault.now) text
        × (string_bytes s ≡ said (status_of fault.now) text)) }
{
    match fault {
        CommandFault::CannotRead { path } => unread_line(alloc, path),
        CommandFault::NoSuchType { name } => untyped_line(alloc, first_line(name)),
        _ => own_text(alloc, fault),
    }
}

/// The line that the file at this path can't be read. A line feed in the path makes two lines.
fn unread_line<A: Allocator + Copy>(alloc: A, path: &str) -> Result<String<A>, AllocError>
    ensures { IfOk result (λ s. string_bytes s ≡ line (cannot_read path.now)) }
{
    format!(in alloc; "pairmd: O1 CannotRead {path}\n")
}

/// The line that no type of the job has this name. The name has no line feed.
fn untyped_line<A: Allocator + Copy>(alloc: A, name: &str) -> Result<String<A>, AllocError>
    ensures { IfOk result (λ s. string_bytes s ≡ line (no_such_type name.now)) }
{
    format!(in alloc; "pairmd: J6 NoSuchType {name}\n")
}

/// The text up to its first line feed.
fn first_line(text: &str) -> &str
    ensures { result.now ≡ before_first (λ byte. byte == 10) text.now }
{
    match text.split_once('\n') {
        Some((first, _)) => first,
        None => text,
    }
}

/// The text that reports a fault by its own `Display`: as it is for status 2, otherwise in one line.
fn own_text<A: Allocator + Copy>(
    alloc: A,
    fault: &CommandFault<'_, A>,
) -> Result<String<A>, AllocError>
    ensures { IfOk result (λ s. (text : List ℕ) × IsReason (status_of fault.now) text
        × (string_bytes s ≡ said (status_of fault.now) text)) }
{
    let text = fault.to_string(alloc)?;
    match fault.status() {
        Status::CommandLine => or_version(alloc, text),
        _ => line(alloc, &one_line(alloc, text)?),
    }
}

/// The text itself if it is one line that isn't empty. Every fault's text is; the contract of `Display` doesn't say so,
/// and another text would be replaced.
fn one_line<A: Allocator + Copy>(alloc: A, text: String<A>) -> Result<String<A>, AllocError>
    ensures some { IfOk result (λ s. string_bytes s ≢ []) }
    ensures one { IfOk result (λ s. lacks 10 (string_bytes s) ≡ true) }
{
    match cut(b'\n', text.as_bytes()) {
        None if !text.is_empty() => Ok(text),
        _ => format!(in alloc; "refused"),
    }
}

/// The line of an error with this text.
fn line<A: Allocator + Copy>(alloc: A, text: &String<A>) -> Result<String<A>, AllocError>
    ensures { IfOk result (λ s. string_bytes s ≡ line (string_bytes text.now)) }
{
    format!(in alloc; "pairmd: {text}\n")
}
