//! The abstract states at instructions not yet visited. A state moves from instruction to instruction; it is copied
//! only if a conditional jump may go both ways.

ghost use Rattle.std.specs.Prelude.{◌≡◌, ◌+◌, ◌-◌, ◌<◌, ◌≤◌, ℕ, None, length, IfOk, OnOk, IfErr};
ghost use Rattle.fallible.specs.declared.failure.Failure.TheVariants.{Memory};
ghost use Rattle.verifier.specs.Slices.{Branches, CanMeet, Joins, Takes, frame_at};

use crate::frames::SpanFrame;
use fallible::Failure;
use fixed::{Fault, Fx};
use std::alloc::{AllocError, Allocator};
use std::marker::Model;

/// For each instruction index, and the code's end, the abstract state of the runs that reach it, if any do.
#[derive(Drop)]
pub struct AbstractStates<A: Allocator> {
    frames: Vec<Option<SpanFrame<A>>, A>,
}

impl<A: Allocator> Model for AbstractStates<A> {
    ghost use Rattle.std.specs.Prelude.{List, Option};
    ghost use Rattle.verifier.specs.Frames.{SpanFrameView};

    ghost Value = { List (Option SpanFrameView) };

    ghost view = { λ p. p.frames.items };
}

impl<A: Allocator> AbstractStates<A> {
    /// Space for at most 16,384 instructions and the end, without abstract states.
    pub fn new(alloc: A, instructions: usize) -> Result<AbstractStates<A>, AllocError>
        requires { instructions ≤ 16384 }
        ensures long { IfOk result (λ states. length states ≡ instructions + 1) }
        ensures none { IfOk result (λ states. (at : ℕ) → frame_at states at ≡ None) }
    {
        let mut frames = Vec::with_capacity(alloc, instructions + 1)?;
        frames.push(None)?;
        for _ in 0..instructions {
            frames.push(None)?;
        }
        Ok(AbstractStates { frames })
    }

    /// Removes and returns the abstract state at an instruction.
    pub fn take(&mut self, at: usize) -> Option<SpanFrame<A>>
        requires { at < length self.old }
        ensures { Takes at result self.old self.new }
    {
        self.frames[at].take()
    }

    /// Joins an abstract state to the state at instruction `to`.
    pub fn join(&mut self, to: usize, frame: SpanFrame<A>)
        requires index { to < length self.old }
        requires meet { CanMeet (frame_at self.old to) (length frame.stack) }
        ensures { Joins to frame self.old self.new }
    {
        match self.frames[to].take() {
            None => self.frames[to] = Some(frame),
            Some(mut earlier) => {
                earlier.widen(&frame);
                self.frames[to] = Some(earlier);
            }
        }
    }
}

/// Pops the condition, and joins the rest of the abstract state to `target` if the condition may be 0, and to `next` if
/// it may be another value. Error: `Memory` only.
pub fn branch<A: Allocator + Copy>(
    alloc: A,
    next: usize,
    target: usize,
    mut frame: SpanFrame<A>,
    states: &mut AbstractStates<A>,
) -> Result<(), Failure<Fault>>
    requires next { next < length states.old }
    requires target { target < length states.old }
    requires operand { 1 ≤ length frame.stack }
    requires meet_next { CanMeet (frame_at states.old next) (length frame.stack - 1) }
    requires meet_target { CanMeet (frame_at states.old target) (length frame.stack - 1) }
    ensures branches { OnOk result (Branches next target frame states.old states.new) }
    ensures memory { IfErr result (λ failure. failure ≡ Memory) }
    ensures long { length states.new ≡ length states.old }
{
    let span = frame.pop();
    if !span.contains(Fx::from_raw(0)) {
        states.join(next, frame);
    } else if span.lo == span.hi {
        states.join(target, frame);
    } else {
        states.join(next, frame.copy(alloc)?);
        states.join(target, frame);
    }
    Ok(())
}
