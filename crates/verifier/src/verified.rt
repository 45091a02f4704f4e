//! Accepted code, and the verifier's entry.

ghost use Rattle.std.specs.Prelude.{◌≡◌, ◌*◌, ◌^◌, ◌<◌, ◌≤ℤ◌, ◌<ℤ◌, ℕ, pos, Ok, Err, IfOk, IfErr, OnOk};
ghost use Rattle.fallible.specs.Failures.{IfRefused};
ghost use Rattle.verifier.specs.Kernels.{IsKernel};
ghost use Rattle.verifier.specs.Progress.{PassedBefore, slice_count};
ghost use Rattle.verifier.specs.Safety.{IsRefusal};
ghost use Rattle.verifier.specs.Verdicts.{Answer, IsVerdict, range};

use crate::faults::VerifyFault;
use crate::progress::Progress;
use crate::searches::Search;
use fallible::Failure;
use fixed::Fx;
use kernel_code::{Code, TypeTable};
use std::alloc::Allocator;
use std::marker::Model;

/// Code that gives a value for every pair of types of its table, at every distance from its core up to but not
/// including its cutoff. A `Verified` owns its code and its table, so it is all that an engine needs.
#[derive(Drop)]
pub struct Verified<A: Allocator> {
    code: Code<A>,
    table: TypeTable<A>,
    core: Fx,
    cutoff: Fx,
    steps: u32,
    bound: u64,
}

impl<A: Allocator> Model for Verified<A> {
    ghost use Rattle.verifier.specs.Kernels.{Kernel};
    ghost use Rattle.verifier.specs.Safety.{IsCertified};

    ghost Value = { Kernel };

    ghost view = { λ v. record { code = v.code; table = v.table; core = v.core; cutoff = v.cutoff; steps = v.steps; bound = v.bound } };

    ghost invariant = { λ v. IsCertified v.code v.table v.core v.cutoff v.steps v.bound };
}

impl<A: Allocator> Verified<A> {
    ghost use Rattle.verifier.specs.Kernels.{IsKernel};

    /// The verified code.
    pub fn code(&self) -> &Code<A>
        ensures code { result.now ≡ self.now.code }
        ensures kernel { IsKernel self.now }
    {
        &self.code
    }

    /// The table that the code was verified for.
    pub fn table(&self) -> &TypeTable<A>
        ensures { result.now ≡ self.now.table }
    {
        &self.table
    }

    /// The least distance.
    pub fn core(&self) -> Fx
        ensures { result ≡ self.now.core }
    {
        self.core
    }

    /// The upper end of the distances, which isn't included.
    pub fn cutoff(&self) -> Fx
        ensures { result ≡ self.now.cutoff }
    {
        self.cutoff
    }

    /// The number of instructions on the code's longest path.
    pub fn steps(&self) -> u32
        ensures { result ≡ self.now.steps }
    {
        self.steps
    }

    /// An upper bound of the magnitude of the code's values, as raw values: the greatest magnitude of the ends of the
    /// values' intervals, 0 if there are no types.
    pub fn bound(&self) -> u64
        ensures { result ≡ self.now.bound }
    {
        self.bound
    }
}

/// Verifies that the code gives a value for every pair of types of the table, at every distance from `core` up to but
/// not including `cutoff`. The distances are divided into `slices` slices. A slice on which some run may fault,
/// according to interval analysis, is bisected repeatedly, at most 24 levels deep. Reports each accepted slice to the
/// watcher, `types * types * slices` in all; the slices of a pair of types with the inputs of an earlier pair are
/// reported at once.
///
/// Errors: first, `Malformed` or `DepthOver64` if some control-flow path is malformed, regardless of values. Then, the
/// first in the order of the slices: `Fault` if an operation has no value, or `Undecided` if interval analysis can't
/// exclude a fault, which never happens with at most 2^24 distances per slice. `Memory`: an allocation failed.
pub fn verify<A: Allocator, B: Allocator, W: Progress>(
    alloc: A,
    code: Code<B>,
    table: TypeTable<B>,
    core: Fx,
    cutoff: Fx,
    slices: u32,
    watch: &mut W,
) -> Result<Verified<B>, Failure<VerifyFault>>
    requires core { pos 0 ≤ℤ core }
    requires range { core <ℤ cutoff }
    requires slices { 0 < slices }
    ensures code { IfOk result (λ v. v.code ≡ code) }
    ensures table { IfOk result (λ v. v.table ≡ table) }
    ensures core { IfOk result (λ v. v.core ≡ core) }
    ensures cutoff { IfOk result (λ v. v.cutoff ≡ cutoff) }
    // Accepted code never faults.
    ensures certified { IfOk result IsKernel }
    // The meaning of an error, in terms of the code's runs and paths.
    ensures refused { IfErr result (λ failure. IfRefused failure (IsRefusal code table core cutoff (slices * 2 ^ 24))) }
    // The bound and the error satisfy the specification of verdicts.
    ensures bound { IfOk result (λ v. IsVerdict code table (range core cutoff slices 24) (Ok v.bound)) }
    ensures verdict { IfErr result (λ failure. IfRefused failure
        (λ fault. IsVerdict code table (range core cutoff slices 24) (Err fault))) }
    // No other verdict satisfies the specification.
    ensures only_bound { (answer : Answer) → IsVerdict code table (range core cutoff slices 24) answer
        → IfOk result (λ v. answer ≡ Ok v.bound) }
    ensures only_refusal { (answer : Answer) → IsVerdict code table (range core cutoff slices 24) answer
        → IfErr result (λ failure. IfRefused failure (λ fault. answer ≡ Err fault)) }
    // The slices that are reported: all of them, or those before the error.
    ensures passed { OnOk result (W.passed watch.old watch.new (slice_count table slices)) }
    ensures stopped { IfErr result (λ failure. (n : ℕ) × PassedBefore code table (range core cutoff slices 24) n failure
        × W.passed watch.old watch.new n) }
{
    let search = Search {
        alloc: &alloc,
        code: &code,
        table: &table,
        core,
        cutoff,
        slices,
        depth: 24,
    };
    match search.certify(watch) {
        Ok(certificate) => Ok(Verified {
            code,
            table,
            core,
            cutoff,
            steps: certificate.steps,
            bound: certificate.bound,
        }),
        Err(failure) => Err(failure),
    }
}
