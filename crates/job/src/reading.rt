//! Reading the text of a job.

ghost use Rattle.std.specs.Prelude.{◌≡◌, ◌+◌, ◌<◌, ◌<ℤ◌, ◌^◌, [], Some, None, length, map, option_map, position, bytes_eq, IfErr, IfOk, IfSome};
ghost use Rattle.fallible.specs.Failures.{IfRefused};
ghost use Rattle.line_text.specs.Names.{name_text};
ghost use Rattle.std.specs.List.{All};
ghost use Rattle.job.specs.Words.{more_lines};
ghost use Rattle.job.specs.Faults.{AreFaultless, summary};
ghost use Rattle.job.specs.Drafts.{GivesJob};
ghost use Rattle.job.specs.JobFaults.{HasBadLine, HasOtherCount, LacksPart, numbers_lack};
ghost use Rattle.job.specs.JobLines.{header};
ghost use Rattle.job.specs.JobText.{limits};
ghost use Rattle.job.specs.Views.{said_of, type_line, job_value, refusal_of};

use crate::bits::frac_in;
use crate::drafts::{Draft, TypeLine};
use crate::faults::{JobFault, Key};
use crate::jobs::{AtomType, Job};
use crate::lines::take_line;
use crate::time_steps::TimeStep;
use crate::words::next_line;
use fallible::Failure;
use fixed::{Frac, Fx};
use std::alloc::{AllocError, Allocator};

/// The default number of slices.
const SLICES: u32 = 64;

/// The draft of these lines, numbered from 2, with numerals read at these fraction bits. The first fault of a line is
/// returned.
fn draft_of<A: Allocator + Copy>(
    alloc: A,
    frac: Frac,
    text: Option<&[u8]>,
) -> Result<Draft<A>, Failure<JobFault<A>>>
    requires { IfSome text (λ t. length t.now + 3 < 2 ^ 64) }
    ensures good { IfOk result (λ _. AreFaultless limits frac [] (more_lines (option_map (λ x. x.now) text.entry))) }
    ensures draft { IfOk result (λ d. said_of d ≡ summary frac (more_lines (option_map (λ x. x.now) text.entry))) }
    ensures fault { IfErr result (λ failure. IfRefused failure (λ fault.
        HasBadLine limits frac (more_lines (option_map (λ x. x.now) text.entry)) (refusal_of fault))) }
{
    let mut draft = Draft::new(alloc, frac);
    let mut number = 2;
    let mut rest = text;
    while let Some(lines) = rest {
        let (line, after) = next_line(lines);
        take_line(alloc, &mut draft, number, line)?;
        number += 1;
        rest = after;
    }
    Ok(draft)
}

/// The required numbers of a job.
#[derive(Clone, Copy)]
pub struct Numbers {
    /// The core in nm.
    pub core: Fx,
    /// The cutoff in nm.
    pub cutoff: Fx,
    /// The time step in fs.
    pub time_step: TimeStep,
}

/// The required numbers, with the cutoff above the core.
///
/// Errors, in this order: `Missing` for the core, the cutoff and the time step; `Range` if the cutoff isn't above the
/// core.
fn needed_numbers<A: Allocator>(
    core: Option<Fx>,
    cutoff: Option<Fx>,
    time_step: Option<TimeStep>,
) -> Result<Numbers, JobFault<A>>
    ensures fault { IfErr result (λ fault. numbers_lack core cutoff time_step ≡ Some (refusal_of fault)) }
    ensures none { IfOk result (λ _. numbers_lack core cutoff time_step ≡ None) }
    ensures found { IfOk result (λ n. (core ≡ Some n.core) × (cutoff ≡ Some n.cutoff) × (time_step ≡ Some n.time_step)) }
    ensures above { IfOk result (λ n. n.core <ℤ n.cutoff) }
{
    match (core, cutoff, time_step) {
        (None, _, _) => Err(JobFault::Missing { key: Key::Core }),
        (_, None, _) => Err(JobFault::Missing { key: Key::Cutoff }),
        (_, _, None) => Err(JobFault::Missing { key: Key::TimeStep }),
        (Some(core), Some(cutoff), Some(time_step)) => {
            if core.raw() < cutoff.raw() {
                Ok(Numbers {
                    core,
                    cutoff,
                    time_step,
                })
            } else {
                Err(JobFault::Range { key: Key::Cutoff })
            }
        }
    }
}

// Checks that each type has `count` values.
//
// `BadLine` for the first type that has another number of values.
fn check_counts<A: Allocator>(count: usize, types: &[TypeLine<A>]) -> Result<(), JobFault<A>>
    ensures fault { IfErr result (λ fault. HasOtherCount count (map type_line types.now) (refusal_of fault)) }
    ensures whole { IfOk result (λ _. All (λ t. length t.value.values.items ≡ count) types.now) }
{
    for line in types {
        if line.value.values.as_slice().len() != count {
            return Err(JobFault::BadLine { line: line.line });
        }
    }
    Ok(())
}

/// The types, without the numbers of their lines.
fn without_lines<A: Allocator>(
    alloc: A,
    lines: Vec<TypeLine<A>, A>,
) -> Result<Vec<AtomType<A>, A>, AllocError>
    ensures { IfOk result (λ v. v.items ≡ map (λ l. l.value) lines.items) }
{
    lines.into_iter().map(|line| line.value).collect(alloc)
}

/// The required numbers of a draft.
///
/// Errors, in this order: `Missing` for the energy, the errors of `needed_numbers`, the errors of `check_counts`.
fn complete_numbers<A: Allocator>(draft: &Draft<A>) -> Result<Numbers, JobFault<A>>
    ensures fault { IfErr result (λ fault. LacksPart (said_of draft.now) (refusal_of fault)) }
    ensures energy { IfOk result (λ _. 0 < length draft.now.energy.items) }
    ensures found { IfOk result (λ n. (draft.now.core ≡ Some n.core) × (draft.now.cutoff ≡ Some n.cutoff)
        × (draft.now.time_step ≡ Some n.time_step)) }
    ensures above { IfOk result (λ n. n.core <ℤ n.cutoff) }
    ensures whole { IfOk result (λ _.
        All (λ t. length t.value.values.items ≡ length draft.now.parameters.items) draft.now.types.items) }
{
    if draft.energy.is_empty() {
        return Err(JobFault::Missing { key: Key::Energy });
    }
    let numbers = needed_numbers(draft.core, draft.cutoff, draft.time_step)?;
    check_counts(draft.parameters.len(), draft.types.as_slice())?;
    Ok(numbers)
}

// The job of a draft with all lines. Errors: see `complete_numbers`.
fn finish<A: Allocator + Copy>(alloc: A, draft: Draft<A>) -> Result<Job<A>, Failure<JobFault<A>>>
    ensures job { IfOk result (λ job. GivesJob (said_of draft) (job_value job)) }
    ensures fault { IfErr result (λ failure. IfRefused failure (λ fault. LacksPart (said_of draft) (refusal_of fault))) }
{
    let numbers = complete_numbers(&draft)?;
    let Draft {
        frac,
        energy,
        slices,
        parameters,
        globals,
        types,
        ..
    } = draft;
    let types = without_lines(alloc, types)?;
    Ok(Job {
        frac,
        energy,
        core: numbers.core,
        cutoff: numbers.cutoff,
        time_step: numbers.time_step,
        slices: slices.unwrap_or(SLICES),
        parameters,
        globals,
        types,
    })
}

/// The index of the first type with this name, from 0; `None` if there is none.
fn type_index<A: Allocator>(types: &[AtomType<A>], name: &[u8]) -> Option<usize>
    ensures index { result ≡ position (λ t. bytes_eq (name_text t.name) name.now) types.now }
    ensures within { IfSome result (λ i. i < length types.now) }
{
    types.iter().position(|t| t.name.as_bytes() == name)
}

/// Whether the line is the first line of a job.
fn is_header(line: &[u8]) -> bool
    ensures { result ≡ bytes_eq line.now header }
{
    line == b"pairmd job 1".as_slice()
}

impl<A: Allocator + Copy> Job<A> {
    ghost use Rattle.std.specs.Prelude.{Ok, Err, IfErr, IfOk};
    ghost use Rattle.fallible.specs.Failures.{IfRefused};
    ghost use Rattle.job.specs.JobFaults.{JobReadsAs};
    ghost use Rattle.job.specs.JobText.{limits};
    ghost use Rattle.job.specs.Views.{job_value, refusal_of};

    /// Reads the text of a job.
    ///
    /// The first line is `pairmd job 1`. After it, blank lines and lines that start with `#` are skipped. The other
    /// lines start with a key, in any order: `energy TEXT`, `core X`, `cutoff X` and `dt N` once each; `slices N` and
    /// `bits N` at most once each; `parameter NAME`, `global NAME X` and `type NAME MASS X..` at most 8, 16 and 64
    /// times. Spaces or tabs separate words. Lines end with a line feed, possibly after one carriage return.
    ///
    /// `bits N` is the number of fraction bits of the job's numbers: 24, 32 or 40. All numerals, also those above this
    /// line, are read with the fraction bits of the first `bits` line with one of these values, or with 32 if there is
    /// none.
    ///
    /// Errors: the first fault is returned. Lines are checked from the top, and each line in this order: `BadLine` if
    /// it is malformed; `Repeated` or `RepeatedName` if a line above has its key or its name, `RepeatedType` if a type
    /// above has its name; `Range` if a number is out of range or there are too many lines of this key. After all lines
    /// follow `Missing` for `energy`, `core`, `cutoff` and `dt` in this order, `Range` if the cutoff isn't above the
    /// core, and `BadLine` for the first type that doesn't have one value per parameter. `Memory` if an allocation
    /// fails.
    pub fn read(alloc: A, bytes: &[u8]) -> Result<Job<A>, Failure<JobFault<A>>>
        ensures job { IfOk result (λ job. JobReadsAs limits bytes.now (Ok (job_value job))) }
        ensures fault { IfErr result (λ failure. IfRefused failure (λ fault. JobReadsAs limits bytes.now (Err (refusal_of fault)))) }
    {
        let (first, rest) = next_line(bytes);
        if !is_header(first) {
            return Err(Failure::Refused(JobFault::BadLine { line: 1 }));
        }
        let draft = draft_of(alloc, frac_in(rest), rest)?;
        finish(alloc, draft)
    }
}

impl<A: Allocator> Job<A> {
    /// The index of the type with this name; `None` if there is none.
    pub fn type_of(&self, name: &[u8]) -> Option<u32>
        ensures index { result ≡ position (λ t. bytes_eq (name_text t.name) name.now) self.now.types.items }
        ensures within { IfSome result (λ i. i < length self.now.types.items) }
    {
        match type_index(self.types.as_slice(), name) {
            Some(index) => Some(index as u32),
            None => None,
        }
    }
}
