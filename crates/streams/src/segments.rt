//! Segments of a stream: the steps from one state to the next, and the line that says whether they lead there.

ghost use Rattle.std.specs.Prelude.{◌≡◌, ◌≤◌, ◌+◌, ◌++◌, Some, length};
ghost use Rattle.arrayvec.specs.ArrayVec.{array_vec_len};
ghost use Rattle.engine.specs.Counting.{AllFit};
ghost use Rattle.integrator.specs.States.{counter_after};
ghost use Rattle.streams.specs.Replays.{axis_words, difference_words, part_words, segment_line, verdict_words};

use crate::differences::{AtomPart, Difference};
use integrator::Direction;
use line_text::{Line, put, put_integer};
use ring_box::Axis;

/// The direction and the number of steps from one counter to another.
pub(crate) fn way(from: i64, to: i64) -> (Direction, u64)
    ensures counted { counter_after result.0 from result.1 ≡ Some to }
    ensures each { AllFit result.0 from result.1 }
{
    if from <= to {
        (Direction::Forward, to.abs_diff(from))
    } else {
        (Direction::Back, from.abs_diff(to))
    }
}

/// The line of a segment: its counters, and the first difference, if there is one.
pub(crate) fn segment_line(from: i64, to: i64, difference: Option<Difference>) -> Line
    ensures { result.items ≡ segment_line from to difference }
{
    let mut line = Line::new();
    put_integer(&mut line, from);
    put(&mut line, b" ");
    put_integer(&mut line, to);
    put(&mut line, b" ");
    put_verdict(&mut line, difference);
    put(&mut line, b"\n");
    line
}

/// Appends the words for the first difference, or for none.
fn put_verdict(line: &mut Line, difference: Option<Difference>)
    requires { array_vec_len line.old ≤ 50 }
    ensures items { line.new.items ≡ line.old.items ++ verdict_words difference }
    ensures len { array_vec_len line.new ≤ array_vec_len line.old + 60 }
{
    match difference {
        None => put(line, b"same"),
        Some(it) => {
            put(line, b"differs: ");
            put_difference(line, it);
        }
    }
}

/// Appends the words for a difference.
fn put_difference(line: &mut Line, difference: Difference)
    requires { array_vec_len line.old ≤ 60 }
    ensures items { line.new.items ≡ line.old.items ++ difference_words difference }
    ensures len { array_vec_len line.new ≤ array_vec_len line.old + 50 }
{
    match difference {
        Difference::Title => put(line, b"title"),
        Difference::Atoms => put(line, b"atoms"),
        Difference::Sides => put(line, b"box"),
        Difference::Atom { number, part } => {
            put(line, b"atom ");
            put_integer(line, number);
            put(line, b" ");
            put_part(line, part);
        }
    }
}

/// Appends the words for a part of an atom's line.
fn put_part(line: &mut Line, part: AtomPart)
    requires { array_vec_len line.old ≤ 100 }
    ensures items { line.new.items ≡ line.old.items ++ part_words part }
    ensures len { array_vec_len line.new ≤ array_vec_len line.old + 10 }
{
    match part {
        AtomPart::Name => put(line, b"name"),
        AtomPart::Previous(axis) => {
            put(line, b"previous ");
            put(line, axis_word(axis));
        }
        AtomPart::Current(axis) => put(line, axis_word(axis)),
    }
}

/// The letter of an axis.
fn axis_word(axis: Axis) -> &'static [u8]
    ensures word { result.now ≡ axis_words axis }
    ensures one { length result.now ≡ 1 }
{
    match axis {
        Axis::X => b"x",
        Axis::Y => b"y",
        Axis::Z => b"z",
    }
}
