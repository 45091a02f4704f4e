//! Titles of the frames of a trajectory.

ghost use Rattle.std.specs.Prelude.{◌≡◌, ◌*◌, ◌<◌, ◌≤◌, length, pos, ◌*ℤ◌, true, IfOk, IsTrue};
ghost use Rattle.arrayvec.specs.ArrayVec.{array_vec_len};
ghost use Rattle.line_text.specs.Columns.{decimals_text};
ghost use Rattle.line_text.specs.Parts.{is_title, lacks};
ghost use Rattle.runs.specs.FrameTitles.{IsOwnEnd, IsTimedTitle, time_and_step, time_of};

use job::TimeStep;
use line_text::{Line, put, put_decimals, put_integer, put_right};
use std::alloc::{AllocError, Allocator};

/// The end of the state's own title: before the first ` t= `, or at the end.
fn own_end(title: &[u8]) -> usize
    ensures most { result ≤ length title.now }
    ensures ends { IsOwnEnd title.now result }
{
    let mut at = 0;
    while title.len() - at >= 4 {
        if &title[at..at + 4] == b" t= ".as_slice() {
            return at;
        }
        at += 1;
    }
    title.len()
}

/// The time of a step in 10^-5 ps.
fn time_number(time_step: TimeStep, step: i64) -> i128
    ensures value { result ≡ step *ℤ pos (time_step * 100) }
    ensures some { 0 < time_step }
    ensures most { time_step ≤ 1000 }
{
    i128::from(step) * i128::from(time_step.femtoseconds() * 100)
}

/// The time of a step in ps, with five decimals; it is an integer number of fs.
fn time(time_step: TimeStep, step: i64) -> Line
    ensures items { result.items ≡ decimals_text 5 (time_of time_step step) }
    ensures bare { lacks 10 result.items ≡ true }
    ensures len { array_vec_len result ≤ 60 }
{
    let mut line = Line::new();
    put_decimals(&mut line, 5, time_number(time_step, step));
    line
}

/// The end of a frame's title: ` t= %9.5f step= %d`.
fn time_and_step(time_step: TimeStep, step: i64) -> Line
    ensures items { result.items ≡ time_and_step time_step step }
    ensures bare { lacks 10 result.items ≡ true }
{
    let time = time(time_step, step);
    let mut line = Line::new();
    put(&mut line, b" t= ");
    put_right(&mut line, time.len().max(9), time.as_slice());
    put(&mut line, b" step= ");
    put_integer(&mut line, step);
    line
}

/// The title of a state's frame: the state's own title up to the first ` t= ` in it, then time and step as
/// ` t= %9.5f step= %d`, the time in ps.
///
/// `AllocError`: memory ran out.
pub(crate) fn timed_title<A: Allocator>(
    mut title: Vec<u8, A>,
    time_step: TimeStep,
    step: i64,
) -> Result<Vec<u8, A>, AllocError>
    requires fits { IsTrue (is_title title.items) }
    ensures timed { IfOk result (λ t. IsTimedTitle time_step step title.items t.items) }
    ensures fits { IfOk result (λ t. IsTrue (is_title t.items)) }
{
    let end = own_end(&title);
    title.truncate(end);
    title.extend_from_slice(time_and_step(time_step, step).as_slice())?;
    Ok(title)
}
