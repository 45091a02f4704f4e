//! The verification of whole code: paths first, then values.

ghost use Rattle.std.specs.Prelude.{◌<◌, ◌≤ℤ◌, ◌<ℤ◌, ℕ, pos, Ok, Err, IfOk, IfErr, OnOk};
ghost use Rattle.fallible.specs.Failures.{IfRefused};
ghost use Rattle.kernel_code.specs.Code.{IsCode};
ghost use Rattle.kernel_code.specs.Paths.{IsLongest};
ghost use Rattle.verifier.specs.Progress.{PassedBefore, slice_count};
ghost use Rattle.verifier.specs.Searches.{range_of};
ghost use Rattle.verifier.specs.Verdicts.{IsVerdict};

use crate::faults::VerifyFault;
use crate::paths::longest_path;
use crate::progress::Progress;
use crate::searches::Search;
use fallible::Failure;
use std::alloc::Allocator;

/// The certificate of code that never faults.
#[derive(Clone, Copy)]
pub struct Certificate {
    /// The number of instructions on the longest path.
    pub steps: u32,
    /// An upper bound of the magnitude of the code's values, as raw values.
    pub bound: u64,
}

impl<'a, A: Allocator + Copy, B: Allocator> Search<'a, A, B> {
    /// The certificate of the code.
    pub fn certify<W: Progress>(&self, watch: &mut W) -> Result<Certificate, Failure<VerifyFault>>
        requires code { IsCode self.now.code.now }
        requires core { pos 0 ≤ℤ self.now.core }
        requires range { self.now.core <ℤ self.now.cutoff }
        requires slices { 0 < self.now.slices }
        ensures longest { IfOk result (λ c. IsLongest self.now.code.now c.steps) }
        ensures bound { IfOk result (λ c. IsVerdict self.now.code.now self.now.table.now (range_of self.now) (Ok c.bound)) }
        ensures verdict { IfErr result (λ failure. IfRefused failure
            (λ fault. IsVerdict self.now.code.now self.now.table.now (range_of self.now) (Err fault))) }
        ensures passed { OnOk result (W.passed watch.old watch.new (slice_count self.now.table.now self.now.slices)) }
        ensures stopped { IfErr result (λ failure. (n : ℕ)
            × PassedBefore self.now.code.now self.now.table.now (range_of self.now) n failure × W.passed watch.old watch.new n) }
    {
        let inputs = 2 * self.table.parameters() + self.table.globals() + 1;
        let steps = match longest_path(self.alloc, self.code, inputs) {
            Ok(steps) => steps,
            Err(failure) => return Err(failure),
        };
        match self.judge_all(watch) {
            Ok(bound) => Ok(Certificate { steps, bound }),
            Err(failure) => Err(failure),
        }
    }
}
