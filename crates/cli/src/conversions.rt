//! The output of `start`, `frame` and `code`: states from GRO files, GRO files from states, and listings from jobs.

ghost use Rattle.std.specs.Prelude.{◌≡◌, ◌-◌, ◌<◌, ◌^◌, List, Ok, IfErr, IfOk};
ghost use Rattle.gro.specs.Frames.{frame_view};
ghost use Rattle.energy_program.specs.Faults.{refusal_of};
ghost use Rattle.fallible.specs.Failures.{Gives};
ghost use Rattle.job.specs.JobText.{IsJobText, limits};
ghost use Rattle.job.specs.Values.{JobValue};
ghost use Rattle.kernel_code.specs.Listing.{listing_of};
ghost use Rattle.kernel_code.specs.declared.instructions.Instr.{Instr};
ghost use Rattle.state.specs.StateFrames.{frame_of};
ghost use Rattle.state.specs.StateText.{IsState, StateView, state_text};
ghost use Rattle.state.specs.StateViews.{state_view};
ghost use Rattle.job.specs.Views.{job_value};
ghost use Rattle.command_line.specs.Views.{command_view};
ghost use Rattle.command_line.specs.declared.commands.Command.{Command};
ghost use Rattle.cli.specs.Actions.{action_of};
ghost use Rattle.cli.specs.Conversions.{IsStartOf, listed_code_of};
ghost use Rattle.cli.specs.Performed.{Performs};
ghost use Rattle.cli.specs.Refusals.{RefusesCode, RefusesFrame, RefusesState, RefusesUnder};

use crate::faults::{CommandFault, write_result};
use crate::files::{Files, read, read_two};
use command_line::{Frame, Listing, Start};
use energy_program::ExprFault;
use fallible::{Failure, Out, write_all};
use gro::{GroFrame, pick, read_frames};
use job::Job;
use kernel_code::{Code, print};
use potential::{energy_code, slope_code};
use state::State;
use std::alloc::Allocator;

/// Reads the job and then the GRO file, and prints the state that starts at the frame with this number. Frames are
/// counted from 1.
///
/// Faults of the bytes come in this order, and before any output: the job, the GRO text, the number of the frame, the
/// frame's box.
pub(crate) fn perform_start<'a, A: Allocator + Copy, F: Files, O: Out>(
    alloc: A,
    start: Start<'a>,
    files: &mut F,
    out: &mut O,
) -> Result<(), CommandFault<'a, A>>
    requires { (O.output out.old).failed < 2 ^ 64 - 1 }
    ensures { Performs (F.held files.old) (F.requested files.old) (F.requested files.new)
        (action_of (command_view (Command.Start start.entry))) (O.output out.old) (O.output out.new) result }
{
    let (job, gro) = read_two(alloc, start.job, start.gro, files)?;
    let state = started(alloc, &job, &gro, start.frame)?;
    write_result(state.write(out))
}

/// The state that starts, under the job of a text, at the frame with this number of a GRO text.
fn started<'a, A: Allocator + Copy>(
    alloc: A,
    job: &[u8],
    gro: &[u8],
    frame: u64,
) -> Result<State<A>, CommandFault<'a, A>>
    ensures is { IfOk result (λ s. (said : JobValue) × IsJobText limits job.now said
        × IsStartOf said.frac said.time_step gro.now frame (state_view s)) }
    ensures refused { IfErr result (RefusesUnder job.now (RefusesFrame gro.now frame)) }
{
    let job = Job::read(alloc, job)?;
    let state = started_under(alloc, &job, gro, frame);
    drop(job);
    state
}

/// The state that starts, under a job, at the frame with this number of a GRO text.
fn started_under<'a, A: Allocator + Copy>(
    alloc: A,
    job: &Job<A>,
    gro: &[u8],
    frame: u64,
) -> Result<State<A>, CommandFault<'a, A>>
    ensures is { IfOk result (λ s. IsStartOf job.now.frac job.now.time_step gro.now frame (state_view s)) }
    ensures refused { IfErr result (RefusesFrame gro.now frame (job_value job.now)) }
{
    let frames = read_frames(alloc, gro)?;
    let frame = pick(&frames, frame)?;
    Ok(State::start(alloc, job, frame)?)
}

/// Reads the state, and prints its current frame as a GRO text. A fault of the state comes before any output.
pub(crate) fn perform_frame<'a, A: Allocator + Copy, F: Files, O: Out>(
    alloc: A,
    frame: Frame<'a>,
    files: &mut F,
    out: &mut O,
) -> Result<(), CommandFault<'a, A>>
    requires { (O.output out.old).failed < 2 ^ 64 - 1 }
    ensures { Performs (F.held files.old) (F.requested files.old) (F.requested files.new)
        (action_of (command_view (Command.Frame frame.entry))) (O.output out.old) (O.output out.new) result }
{
    let state = read(alloc, frame.state, files)?;
    let frame = frame_read(alloc, &state)?;
    write_result(gro::write(&frame, out))
}

/// The current frame of the state of a text.
fn frame_read<'a, A: Allocator + Copy>(
    alloc: A,
    state: &[u8],
) -> Result<GroFrame<A>, CommandFault<'a, A>>
    ensures is { IfOk result (λ f. (said : StateView) × IsState said × (state.now ≡ state_text said) × (frame_view f ≡ frame_of said)) }
    ensures refused { IfErr result (RefusesState state.now) }
{
    let frame = State::read(alloc, state)?.frame();
    Ok(frame?)
}

/// Reads the job, and prints the listing of its slope code, or with `--energy` of the code of the energy itself. A fault
/// of the job or its energy comes before any output.
pub(crate) fn perform_code<'a, A: Allocator + Copy, F: Files, O: Out>(
    alloc: A,
    listing: Listing<'a>,
    files: &mut F,
    out: &mut O,
) -> Result<(), CommandFault<'a, A>>
    requires { (O.output out.old).failed < 2 ^ 64 - 1 }
    ensures { Performs (F.held files.old) (F.requested files.old) (F.requested files.new)
        (action_of (command_view (Command.Code listing.entry))) (O.output out.old) (O.output out.new) result }
{
    let job = read(alloc, listing.job, files)?;
    let lines = code_listing(alloc, &job, listing.energy)?;
    write_result(write_all(out, &lines))
}

/// The listing of the slope code of the job of a text, or with `energy` of the code of the energy itself.
fn code_listing<'a, A: Allocator + Copy>(
    alloc: A,
    job: &[u8],
    energy: bool,
) -> Result<Vec<u8, A>, CommandFault<'a, A>>
    ensures is { IfOk result (λ v. (said : JobValue) × (code : List Instr) × IsJobText limits job.now said
        × (listed_code_of energy said ≡ Ok code) × (v.items ≡ listing_of code)) }
    ensures refused { IfErr result (RefusesUnder job.now (RefusesCode energy)) }
{
    let job = Job::read(alloc, job)?;
    let code = listed_code(alloc, &job, energy);
    drop(job);
    let listing = print(alloc, &code?);
    Ok(listing?)
}

/// The slope code of a job, or with `energy` the code of the energy itself.
fn listed_code<A: Allocator + Copy>(
    alloc: A,
    job: &Job<A>,
    energy: bool,
) -> Result<Code<A>, Failure<ExprFault<A>>>
    ensures { Gives (λ code. code) refusal_of result (listed_code_of energy (job_value job.now)) }
{
    match energy {
        true => energy_code(alloc, job),
        false => slope_code(alloc, job),
    }
}
