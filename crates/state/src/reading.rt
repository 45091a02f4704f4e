//! Reading a state.

ghost use Rattle.std.specs.Prelude.{◌≡◌, ◌≤◌, ◌+◌, ◌++◌, length, map, Err, IfErr, IfOk, IsTrue, Ok};
ghost use Rattle.fallible.specs.Failures.{Answers, IfRefused};
ghost use Rattle.line_text.specs.Parts.{is_title, lacks};
ghost use Rattle.state.specs.StateFaults.{HasBadAtom, HasFault, IsCounted, ReadsAs, count_format};
ghost use Rattle.state.specs.StateReading.{atom_of, field_at, frac_at, line_at};
ghost use Rattle.state.specs.StateText.{atom_lines};
ghost use Rattle.state.specs.StateViews.{atom_view, state_view};

use crate::faults::StateFault;
use crate::lines;
use crate::states::{Atom, State};
use crate::versions::Version;
use fallible::Failure;
use fixed::Frac;
use line_text::cut;
use std::alloc::Allocator;

impl<A: Allocator + Copy> State<A> {
    ghost use Rattle.std.specs.Prelude.{Err, IfErr, IfOk, Ok};
    ghost use Rattle.fallible.specs.Failures.{IfRefused};
    ghost use Rattle.state.specs.StateFaults.{ReadsAs, ReadsOnce};
    ghost use Rattle.state.specs.StateViews.{state_view};

    /// Reads the text of a state.
    ///
    /// A text that starts with `pairmd state 2` has `bits 24` or `bits 40` on its fourth line, before the other lines.
    /// A text that starts with `pairmd state 1` has no such line.
    ///
    /// Errors: lines are checked from the top, and the first fault is returned. `Truncated` if the text ends before the
    /// LF of a required line, else `BadLine` if the line has another form or a number out of range. `Trailing` if bytes
    /// follow the last atom's line. `Memory` if an allocation fails.
    pub fn read(alloc: A, bytes: &[u8]) -> Result<State<A>, Failure<StateFault>>
        // The bytes are the text of the state that is returned.
        ensures found { IfOk result (λ s. ReadsAs bytes.now (Ok (state_view s))) }
        // The fault follows from the lines of the text, unless memory runs out.
        ensures fault { IfErr result (λ failure. IfRefused failure (λ f. ReadsAs bytes.now (Err f))) }
        // State and fault exclude each other, and each other result: a text determines the result.
        ensures once { ReadsOnce }
    {
        state(alloc, bytes)
    }
}

// Reads the text of a state.
fn state<A: Allocator + Copy>(alloc: A, bytes: &[u8]) -> Result<State<A>, Failure<StateFault>>
    ensures found { IfOk result (λ s. ReadsAs bytes.now (Ok (state_view s))) }
    ensures fault { IfErr result (λ failure. IfRefused failure (λ f. ReadsAs bytes.now (Err f))) }
{
    let (text, rest) = line(bytes)?;
    let version = lines::head(text).ok_or(bad(1))?;
    let (text, rest) = line(rest)?;
    let title = lines::title(text).ok_or(bad(2))?;
    let (text, rest) = line(rest)?;
    let step = lines::step(text).ok_or(bad(3))?;
    let (frac, rest) = frac(version, rest)?;
    from_count(alloc, title, step, frac, version.count_number(), rest)
}

/// The fraction bits, which only the second version has a line for, and the bytes after this line.
fn frac(version: Version, bytes: &[u8]) -> Result<(Frac, &[u8]), StateFault>
    ensures { Answers (λ x. (x.0, x.1.now)) (λ f. f) result (frac_at version bytes.now) }
{
    match version {
        Version::First => Ok((Frac::F32, bytes)),
        Version::Second => {
            let (text, rest) = line(bytes)?;
            let frac = lines::frac(text).ok_or(bad(4))?;
            Ok((frac, rest))
        }
    }
}

/// Reads a state from its number of atoms on, which is on the line with this number. Title, step and fraction bits have
/// been read.
fn from_count<A: Allocator + Copy>(
    alloc: A,
    title: &[u8],
    step: i64,
    frac: Frac,
    number: u64,
    bytes: &[u8],
) -> Result<State<A>, Failure<StateFault>>
    requires title { IsTrue (is_title title.now) }
    requires number { number ≤ 5 }
    ensures found { IfOk result (λ s. IsCounted title.now step frac bytes.now (state_view s)) }
    ensures fault { IfErr result (λ failure. IfRefused failure (HasFault (count_format title.now step frac) number bytes.now)) }
{
    let (text, rest) = line(bytes)?;
    let count = lines::count(text).ok_or(bad(number))?;
    let (text, rest) = line(rest)?;
    let ring = lines::sides(text).ok_or(bad(number + 1))?;
    let (atoms, rest) = atoms(alloc, number + 2, count, rest)?;
    if !rest.is_empty() {
        return Err(Failure::Refused(StateFault::Trailing));
    }
    let title = Vec::from_slice(alloc, title)?;
    Ok(State {
        title,
        step,
        frac,
        ring,
        atoms,
    })
}

/// The next line, and the bytes after its LF.
///
/// `Truncated` if it has no LF.
fn line(bytes: &[u8]) -> Result<(&[u8], &[u8]), StateFault>
    ensures exact { Answers (λ x. (x.0.now, x.1.now)) (λ f. f) result (line_at bytes.now) }
    ensures whole { IfOk result (λ x. IsTrue (lacks 10 x.0.now)) }
{
    cut(b'\n', bytes).ok_or(StateFault::Truncated)
}

// The fault of a bad line.
fn bad(line: u64) -> StateFault
    ensures { result ≡ StateFault.BadLine line }
{
    StateFault::BadLine { line }
}

/// `count` atoms, the first on the line with this number, and the bytes after them.
fn atoms<A: Allocator + Copy>(
    alloc: A,
    first: u64,
    count: u64,
    bytes: &[u8],
) -> Result<(Vec<Atom, A>, &[u8]), Failure<StateFault>>
    requires first { first ≤ 7 }
    requires count { count ≤ 65536 }
    ensures found { IfOk result (λ x. bytes.now ≡ atom_lines (map atom_view x.0.items) ++ x.1.now) }
    ensures fault { IfErr result (λ failure. IfRefused failure (HasBadAtom first count bytes.now)) }
    ensures len { IfOk result (λ x. length x.0.items ≡ count) }
{
    let mut atoms = Vec::new(alloc);
    let mut rest = bytes;
    for i in 0..count {
        let (atom, after) = atom(first + i, rest)?;
        atoms.push(atom)?;
        rest = after;
    }
    Ok((atoms, rest))
}

/// The atom on the line with this number, and the bytes after it.
fn atom(number: u64, bytes: &[u8]) -> Result<(Atom, &[u8]), StateFault>
    ensures { Answers (λ x. (atom_view x.0, x.1.now)) (λ f. f) result (field_at number atom_of bytes.now) }
{
    let (text, rest) = line(bytes)?;
    let atom = lines::atom(text).ok_or(bad(number))?;
    Ok((atom, rest))
}
