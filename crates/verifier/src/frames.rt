//! Abstract states: intervals for the stack and the locals at an instruction.

ghost use Rattle.std.specs.Prelude.{◌≡◌, ◌<◌, ◌≤◌, length, IfOk, OnOk, IfErr};
ghost use Rattle.fallible.specs.declared.failure.Failure.TheVariants.{Memory};
ghost use Rattle.verifier.specs.Frames.{IsStart, Pops, Pushes, Sets, Widens, local_of};

use crate::locals::{local_span, set_local};
use crate::widening::{widen_locals, widen_spans};
use fallible::Failure;
use fixed::Fault;
use interval_domain::Span;
use std::alloc::{AllocError, Allocator};
use std::marker::Model;

/// An abstract state: an interval for each value on the stack, and for each local that is set on all paths to here.
///
/// In contracts, the stack is a list with its top first.
#[derive(Drop)]
pub struct SpanFrame<A: Allocator> {
    // the top last
    stack: Vec<Span, A>,
    locals: Vec<Option<Span>, A>,
}

impl<A: Allocator> Model for SpanFrame<A> {
    ghost use Rattle.std.specs.Prelude.{reverse, length, ◌≤◌};
    ghost use Rattle.verifier.specs.Frames.{SpanFrameView};

    ghost Value = { SpanFrameView };

    ghost view = { λ f. record { stack = reverse f.stack.items; locals = f.locals.items } };

    ghost invariant = { λ f. length f.stack.items ≤ 64 };
}

impl<A: Allocator> SpanFrame<A> {
    /// The abstract state before the first instruction: an empty stack, and no local set.
    pub fn start(alloc: A) -> SpanFrame<A>
    where
        A: Copy,
        ensures { IsStart result }
    {
        SpanFrame {
            stack: Vec::new(alloc),
            locals: Vec::new(alloc),
        }
    }

    /// A copy of the abstract state.
    pub fn copy(&self, alloc: A) -> Result<SpanFrame<A>, AllocError>
    where
        A: Copy,
        ensures { IfOk result (λ copy. copy ≡ self.now) }
    {
        Ok(SpanFrame {
            stack: Vec::from_slice(alloc, self.stack.as_slice())?,
            locals: Vec::from_slice(alloc, self.locals.as_slice())?,
        })
    }

    /// Joins another abstract state with the same stack height: each interval becomes the smallest that contains both,
    /// and a local that isn't set in both becomes unset.
    pub fn widen(&mut self, other: &SpanFrame<A>)
        requires { length self.old.stack ≡ length other.now.stack }
        ensures { Widens self.old other.now self.new }
    {
        widen_spans(self.stack.as_mut_slice(), other.stack.as_slice());
        widen_locals(self.locals.as_mut_slice(), other.locals.as_slice());
    }

    /// Pushes an interval. Error: `Memory` only.
    pub fn push(&mut self, span: Span) -> Result<(), Failure<Fault>>
        requires { length self.old.stack < 64 }
        ensures pushes { OnOk result (Pushes span self.old self.new) }
        ensures memory { IfErr result (λ failure. failure ≡ Memory) }
    {
        self.stack.push(span)?;
        Ok(())
    }

    /// Pops the interval on top of the stack.
    pub fn pop(&mut self) -> Span
        requires { 1 ≤ length self.old.stack }
        ensures pops { Pops result self.old self.new }
        ensures room { length self.new.stack < 64 }
    {
        self.stack.pop().unwrap()
    }

    /// The interval of a local; `None` if the local may be unset.
    pub fn local(&self, local: u8) -> Option<Span>
        ensures { result ≡ local_of self.now local }
    {
        local_span(self.locals.as_slice(), local as usize)
    }

    /// Sets a local's interval. Error: `Memory` only.
    pub fn keep(&mut self, local: u8, span: Span) -> Result<(), Failure<Fault>>
        ensures keeps { OnOk result (Sets local span self.old self.new) }
        ensures memory { IfErr result (λ failure. failure ≡ Memory) }
    {
        set_local(&mut self.locals, local as usize, span)?;
        Ok(())
    }
}
