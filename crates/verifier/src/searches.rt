//! The search for faults: all ordered pairs of types, all slices of the distances.

ghost use Rattle.std.specs.Prelude.{◌≡◌, ◌↔◌, ◌+◌, ◌*◌, ◌<◌, ◌<ℤ◌, ◌≤ℤ◌, ℕ, pos, length, max, unsigned_abs, false, Err, IfOk, IfErr, IsTrue, OnOk};
ghost use Rattle.fallible.specs.Failures.{IfRefused};
ghost use Rattle.kernel_code.specs.Tables.{row_of};
ghost use Rattle.verifier.specs.Progress.{StopsAfter, slice_answer, slice_count};
ghost use Rattle.verifier.specs.Searches.{IsRepeated, IsWellUnder, range_of};
ghost use Rattle.verifier.specs.Verdicts.{AreInputSpans, IsAtOne, IsBounded, IsFoundOf, IsJoint, IsPieceAnswer, IsSliceAnswer, IsStopped, UnlessMemory};

use crate::faults::VerifyFault;
use crate::progress::Progress;
use crate::ranges::{share, slice_span, width_of};
use crate::slices::{Stopped, follow_slice};
use fallible::Failure;
use fixed::Fx;
use interval_domain::{Span, halves};
use kernel_code::{Code, InputNumber, TrapKind, TypeTable, run_checked};
use std::alloc::{AllocError, Allocator};

/// A pair of types of the table, numbered from 0.
#[derive(Clone, Copy)]
pub struct Pair {
    pub first: u32,
    pub second: u32,
}

/// The absolute value of the raw value.
fn magnitude(x: Fx) -> u64
    ensures { result ≡ unsigned_abs x }
{
    x.raw().unsigned_abs()
}

/// Code, and the distances at which its values are analysed. A slice with a possible fault is bisected, at most `depth`
/// times.
#[derive(Drop)]
pub struct Search<'a, A: Allocator + Copy, B: Allocator> {
    pub alloc: A,
    pub code: &'a Code<B>,
    pub table: &'a TypeTable<B>,
    pub core: Fx,
    pub cutoff: Fx,
    pub slices: u32,
    pub depth: u32,
}

impl<'a, A: Allocator + Copy, B: Allocator> Search<'a, A, B> {
    /// An interval for each input of the pair: the distances for input 0, and the one value of each other input.
    fn input_spans(&self, pair: Pair, distances: &Span) -> Result<Vec<Span, A>, AllocError>
        requires first { pair.first < length self.now.table.now.rows }
        requires second { pair.second < length self.now.table.now.rows }
        ensures { IfOk result (λ spans. AreInputSpans self.now.table.now pair.first pair.second distances.now spans.items) }
    {
        let count = 2 * self.table.parameters() + self.table.globals() + 1;
        let mut spans = Vec::new(self.alloc);
        spans.push(*distances)?;
        for number in 1..count {
            let number = InputNumber::new(number as u8);
            match self
                .table
                .input(pair.first, pair.second, distances.lo, number)
            {
                Some(value) => spans.push(Span::single(value))?,
                None => unreachable!(),
            }
        }
        Ok(spans)
    }

    /// The greatest magnitude in the interval of the code's values at these distances, or the first operation that may
    /// fault according to the intervals.
    fn try_slice(&self, pair: Pair, distances: &Span) -> Result<u64, Failure<Stopped>>
        requires well { IsWellUnder self.now.code.now self.now.table.now }
        requires first { pair.first < length self.now.table.now.rows }
        requires second { pair.second < length self.now.table.now.rows }
        ensures bounded { IfOk result (IsBounded self.now.code.now self.now.table.now pair.first pair.second distances.now) }
        ensures stopped { IfErr result (λ failure. IfRefused failure
            (λ stopped. IsStopped self.now.code.now self.now.table.now pair.first pair.second distances.now stopped.pc stopped.fault)) }
    {
        let Ok(inputs) = self.input_spans(pair, distances) else {
            return Err(Failure::Memory);
        };
        let frac = self.table.frac();
        let code = self.code.as_slice();
        let inputs = inputs.as_slice();
        match follow_slice(self.alloc, frac, code, inputs) {
            Ok(span) => Ok(magnitude(span.lo).max(magnitude(span.hi))),
            Err(failure) => Err(failure),
        }
    }

    /// The magnitude of the code's value at one distance, or its fault. The checked machine decides, not the intervals:
    /// so a fault that is reported is the machine's own, and bisection down to single distances decides every narrow
    /// range.
    fn judge_one(&self, pair: Pair, r: Fx) -> Result<u64, VerifyFault>
        requires well { IsWellUnder self.now.code.now self.now.table.now }
        requires first { pair.first < length self.now.table.now.rows }
        requires second { pair.second < length self.now.table.now.rows }
        ensures { IsAtOne self.now.code.now self.now.table.now pair.first pair.second r result }
    {
        match run_checked(self.code, self.table, pair.first, pair.second, r) {
            Ok(value) => Ok(magnitude(value)),
            Err(trap) => match trap.kind {
                TrapKind::Operation(fault) => Err(VerifyFault::Fault {
                    first: pair.first,
                    second: pair.second,
                    r,
                    pc: trap.pc,
                    fault,
                }),
                _ => unreachable!(),
            },
        }
    }

    /// The error for distances at which a fault is possible, and that aren't bisected further: the fault at the least
    /// or else at the greatest distance, if the code faults there, else `Undecided`.
    fn judge_ends(&self, pair: Pair, distances: &Span, stopped: Stopped) -> VerifyFault
        requires well { IsWellUnder self.now.code.now self.now.table.now }
        requires first { pair.first < length self.now.table.now.rows }
        requires second { pair.second < length self.now.table.now.rows }
        requires two { distances.now.lo <ℤ distances.now.hi }
        requires stopped { IsStopped self.now.code.now self.now.table.now pair.first pair.second distances.now stopped.pc stopped.fault }
        ensures { IsPieceAnswer self.now.code.now self.now.table.now pair.first pair.second 0 distances.now (Err result) }
    {
        if let Err(found) = self.judge_one(pair, distances.lo) {
            return found;
        }
        if let Err(found) = self.judge_one(pair, distances.hi) {
            return found;
        }
        VerifyFault::Undecided {
            first: pair.first,
            second: pair.second,
            lo: distances.lo,
            hi: distances.hi,
            pc: stopped.pc,
            fault: stopped.fault,
        }
    }

    /// An upper bound of the magnitude of the code's values at these distances, which are bisected at most `depth`
    /// times while a fault is possible.
    ///
    /// Errors: `Fault` or `Undecided`; never `Undecided` if `depth` bisections reach single distances. `Memory`: an
    /// allocation failed.
    fn judge(&self, pair: Pair, distances: &Span, depth: u32) -> Result<u64, Failure<VerifyFault>>
        requires well { IsWellUnder self.now.code.now self.now.table.now }
        requires first { pair.first < length self.now.table.now.rows }
        requires second { pair.second < length self.now.table.now.rows }
        ensures { UnlessMemory (IsPieceAnswer self.now.code.now self.now.table.now pair.first pair.second depth distances.now) result }
    {
        if distances.lo.raw() >= distances.hi.raw() {
            return match self.judge_one(pair, distances.lo) {
                Ok(bound) => Ok(bound),
                Err(found) => Err(Failure::Refused(found)),
            };
        }
        let stopped = match self.try_slice(pair, distances) {
            Ok(bound) => return Ok(bound),
            Err(Failure::Memory) => return Err(Failure::Memory),
            Err(Failure::Refused(stopped)) => stopped,
        };
        if depth == 0 {
            return Err(Failure::Refused(self.judge_ends(pair, distances, stopped)));
        }
        let (lower, upper) = halves(*distances);
        let low = match self.judge(pair, &lower, depth - 1) {
            Ok(low) => low,
            Err(failure) => return Err(failure),
        };
        match self.judge(pair, &upper, depth - 1) {
            Ok(high) => Ok(low.max(high)),
            Err(failure) => Err(failure),
        }
    }

    /// An upper bound of the magnitude of the values in slice `slice` of this pair; 0 if the slice is empty.
    fn judge_slice(&self, pair: Pair, slice: u32) -> Result<u64, Failure<VerifyFault>>
        requires well { IsWellUnder self.now.code.now self.now.table.now }
        requires first { pair.first < length self.now.table.now.rows }
        requires second { pair.second < length self.now.table.now.rows }
        requires core { pos 0 ≤ℤ self.now.core }
        requires range { self.now.core <ℤ self.now.cutoff }
        requires slice { slice < self.now.slices }
        ensures { UnlessMemory (IsSliceAnswer self.now.code.now self.now.table.now (range_of self.now) pair.first pair.second slice)
            result }
    {
        let width = width_of(self.core, self.cutoff);
        let from = share(width, slice, self.slices);
        let end = share(width, slice + 1, self.slices);
        if from >= end {
            return Ok(0);
        }
        let distances = slice_span(self.core, from, end);
        self.judge(pair, &distances, self.depth)
    }

    /// An upper bound of the magnitude of the values in all slices of this pair. Reports each slice.
    fn judge_pair<W: Progress>(
        &self,
        pair: Pair,
        watch: &mut W,
    ) -> Result<u64, Failure<VerifyFault>>
        requires well { IsWellUnder self.now.code.now self.now.table.now }
        requires first { pair.first < length self.now.table.now.rows }
        requires second { pair.second < length self.now.table.now.rows }
        requires core { pos 0 ≤ℤ self.now.core }
        requires range { self.now.core <ℤ self.now.cutoff }
        ensures answer { UnlessMemory (IsJoint (IsSliceAnswer self.now.code.now self.now.table.now (range_of self.now)
            pair.first pair.second) self.now.slices) result }
        ensures passed { OnOk result (W.passed watch.old watch.new self.now.slices) }
        ensures stopped { IfErr result (λ failure. (n : ℕ)
            × StopsAfter (IsSliceAnswer self.now.code.now self.now.table.now (range_of self.now) pair.first pair.second)
            self.now.slices n failure
            × W.passed watch.old watch.new n) }
    {
        let mut bound = 0u64;
        for slice in 0..self.slices {
            match self.judge_slice(pair, slice) {
                Ok(greatest) => bound = bound.max(greatest),
                Err(failure) => return Err(failure),
            }
            watch.pass(1);
        }
        Ok(bound)
    }

    /// Whether both types have the same parameter values. Input 1 is the first of them.
    fn are_alike(&self, first: u32, second: u32) -> bool
        requires first { first < length self.now.table.now.rows }
        requires second { second < length self.now.table.now.rows }
        ensures { IsTrue result ↔ (row_of self.now.table.now first ≡ row_of self.now.table.now second) }
    {
        for number in 1..self.table.parameters() + 1 {
            let number = InputNumber::new(number as u8);
            if self.table.input(first, first, self.core, number)
                != self.table.input(second, second, self.core, number)
            {
                return false;
            }
        }
        true
    }

    /// Whether an earlier type has the same parameter values.
    fn is_repeated(&self, later: u32) -> bool
        requires { later < length self.now.table.now.rows }
        ensures { IsTrue result ↔ IsRepeated self.now.table.now later }
    {
        for earlier in 0..later {
            if self.are_alike(earlier, later) {
                return true;
            }
        }
        false
    }

    /// An upper bound of the magnitude of the values in all slices of all pairs. Reports each slice. A pair with a
    /// repeated type has the inputs of an earlier pair, so it isn't judged again: its slices are reported at once.
    pub fn judge_all<W: Progress>(&self, watch: &mut W) -> Result<u64, Failure<VerifyFault>>
        requires well { IsWellUnder self.now.code.now self.now.table.now }
        requires core { pos 0 ≤ℤ self.now.core }
        requires range { self.now.core <ℤ self.now.cutoff }
        requires slices { 0 < self.now.slices }
        ensures answer { UnlessMemory (IsFoundOf self.now.code.now self.now.table.now (range_of self.now)) result }
        ensures passed { OnOk result (W.passed watch.old watch.new (slice_count self.now.table.now self.now.slices)) }
        ensures stopped { IfErr result (λ failure. (n : ℕ)
            × StopsAfter (slice_answer self.now.code.now self.now.table.now (range_of self.now))
            (slice_count self.now.table.now self.now.slices) n failure
            × W.passed watch.old watch.new n) }
    {
        let types = self.table.types();
        let mut bound = 0u64;
        for number in 0..types * types {
            let pair = Pair {
                first: number / types,
                second: number % types,
            };
            if self.is_repeated(pair.first) || self.is_repeated(pair.second) {
                watch.pass(self.slices);
                continue;
            }
            match self.judge_pair(pair, watch) {
                Ok(greatest) => bound = bound.max(greatest),
                Err(failure) => return Err(failure),
            }
        }
        Ok(bound)
    }
}
