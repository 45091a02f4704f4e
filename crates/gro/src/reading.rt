//! Reading the frames of a GRO file.

ghost use Rattle.std.specs.Prelude.{◌≡◌, ◌≤◌, ◌<◌, ◌+◌, ◌^◌, ℕ, List, length, map, IfErr, IfOk};
ghost use Rattle.fallible.specs.Failures.{IfRefused};
ghost use Rattle.gro.specs.Frames.{atom_view, frame_view};
ghost use Rattle.gro.specs.GroFaults.{HasBadAtom, IsAtomFault, IsBoxFault, IsCountFault, IsFrameFault, IsNeeded, IsTextFault, ReadsOnce};
ghost use Rattle.gro.specs.GroText.{AreAtoms, IsAtomLine, IsBox, IsCount, IsFrame, IsGroText, IsLine, is_all_blank};
ghost use Rattle.gro.specs.GroReading.{Picks};

use crate::faults::GroFault;
use crate::frames::{GroAtom, GroFrame};
use crate::lines::next_line;
use crate::{atoms, boxes};
use fallible::Failure;
use line_text::{digits_up_to, trim};
use std::alloc::Allocator;

/// The largest number of atoms of a frame.
const MAX_ATOMS: u64 = 65_536;

/// Reads the frames of a GRO file (GROMACS manual, gro file format). Positions have three decimals, velocities four.
///
/// A frame is a title, the number of its atoms, their lines and its box. There is at least one frame. Frames follow one
/// another until only spaces, CRs and LFs are left. Lines end in LF or CR LF.
///
/// Errors: lines are checked from the top, and the first fault is returned.
/// - `Truncated`: a required line is missing, or the last line, without its LF, is an atom line of fewer than 44 bytes
///   or a box line of fewer than three values.
/// - `BadCount`: the line of the number of atoms isn't spaces, digits and spaces.
/// - `TooManyAtoms`: the number of atoms is above 65,536.
/// - `Precision`: the first two points at or after column 20 of an atom line aren't 8 columns apart.
/// - `BadColumns`: an atom line has a byte outside 32 to 126, fewer than two points, or another form.
/// - `BadBox`: a box line isn't 3 to 9 values of 1 to 12 digits and at most 5 decimals.
/// - `Triclinic`: a value after the third of a box line isn't zero.
/// - `Memory`: an allocation failed.
pub fn read_frames<A: Allocator + Copy>(
    alloc: A,
    bytes: &[u8],
) -> Result<Vec<GroFrame<A>, A>, Failure<GroFault>>
    // The text represents the frames that are returned.
    ensures found { IfOk result (λ v. IsGroText bytes.now (map frame_view v.items)) }
    // The fault follows from the lines of the text and their contents, unless memory runs out.
    ensures fault { IfErr result (λ failure. IfRefused failure (IsTextFault bytes.now)) }
    // Frames and fault exclude each other, and each other result: a text determines the result.
    ensures once { ReadsOnce }
{
    frames(alloc, bytes)
}

// Reads frames until only blanks are left.
fn frames<A: Allocator + Copy>(
    alloc: A,
    bytes: &[u8],
) -> Result<Vec<GroFrame<A>, A>, Failure<GroFault>>
    ensures found { IfOk result (λ v. IsGroText bytes.now (map frame_view v.items)) }
    ensures fault { IfErr result (λ failure. IfRefused failure (IsTextFault bytes.now)) }
{
    let mut frames = Vec::new(alloc);
    let mut number = 1;
    let mut rest = bytes;
    loop {
        let (frame, after) = frame(alloc, number, rest)?;
        number += frame.atoms.as_slice().len() as u64 + 3;
        frames.push(frame)?;
        if is_all_blank(after) {
            return Ok(frames);
        }
        rest = after;
    }
}

/// Whether there are only spaces, CRs and LFs.
fn is_all_blank(bytes: &[u8]) -> bool
    ensures { result ≡ is_all_blank bytes.now }
{
    bytes
        .iter()
        .all(|b| *b == b' ' || *b == b'\r' || *b == b'\n')
}

/// The frame whose title is on the line with this number, and the bytes after it.
fn frame<A: Allocator + Copy>(
    alloc: A,
    number: u64,
    bytes: &[u8],
) -> Result<(GroFrame<A>, &[u8]), Failure<GroFault>>
    requires { number + length bytes.now < 2 ^ 64 }
    ensures found { IfOk result (λ x. IsFrame bytes.now (frame_view x.0) x.1.now) }
    ensures fault { IfErr result (λ failure. IfRefused failure (IsFrameFault number bytes.now)) }
    ensures shorter { IfOk result (λ x. length x.1.now + (length x.0.atoms.items + 3) ≤ length bytes.now) }
{
    let (title, rest) = next_line(bytes)?;
    let (count, rest) = count(number + 1, rest)?;
    let (atoms, rest) = atoms(alloc, number + 2, count, rest)?;
    let (sides, rest) = sides(number + 2 + count, rest)?;
    let title = Vec::from_slice(alloc, title.text)?;
    Ok((
        GroFrame {
            title,
            atoms,
            sides,
        },
        rest,
    ))
}

/// The number of atoms on the line with this number, and the bytes after it.
fn count(number: u64, bytes: &[u8]) -> Result<(u64, &[u8]), GroFault>
    ensures found { IfOk result (λ x. (text : List ℕ) × IsLine bytes.now text x.1.now × IsCount text x.0) }
    ensures fault { IfErr result (IsNeeded (λ ended. IsCountFault number) bytes.now) }
    ensures few { IfOk result (λ x. x.0 ≤ 65536) }
    ensures shorter { IfOk result (λ x. length x.1.now < length bytes.now) }
{
    let (line, rest) = next_line(bytes)?;
    let count = line_count(number, line.text)?;
    Ok((count, rest))
}

/// The number of atoms on a line of spaces, digits and spaces.
///
/// `BadCount` for any other line, `TooManyAtoms` if the number is above 65,536.
fn line_count(number: u64, text: &[u8]) -> Result<u64, GroFault>
    ensures found { IfOk result (IsCount text.now) }
    ensures fault { IfErr result (IsCountFault number text.now) }
    ensures few { IfOk result (λ n. n ≤ 65536) }
{
    let digits = trim(text);
    if digits.is_empty() {
        return Err(GroFault::BadCount { line: number });
    }
    let Some(count) = digits_up_to(MAX_ATOMS + 1, digits) else {
        return Err(GroFault::BadCount { line: number });
    };
    if count > MAX_ATOMS {
        return Err(GroFault::TooManyAtoms { line: number });
    }
    Ok(count)
}

/// `count` atoms, the first on the line with this number, and the bytes after them.
fn atoms<A: Allocator + Copy>(
    alloc: A,
    number: u64,
    count: u64,
    bytes: &[u8],
) -> Result<(Vec<GroAtom, A>, &[u8]), Failure<GroFault>>
    requires { number + length bytes.now < 2 ^ 64 }
    ensures found { IfOk result (λ x. AreAtoms bytes.now (map atom_view x.0.items) x.1.now) }
    ensures fault { IfErr result (λ failure. IfRefused failure (HasBadAtom number count bytes.now)) }
    ensures len { IfOk result (λ x. length x.0.items ≡ count) }
    ensures shorter { IfOk result (λ x. length x.1.now + count ≤ length bytes.now) }
{
    let mut atoms = Vec::new(alloc);
    let mut rest = bytes;
    for i in 0..count {
        let (atom, after) = atom(number + i, rest)?;
        atoms.push(atom)?;
        rest = after;
    }
    Ok((atoms, rest))
}

/// The atom on the line with this number, and the bytes after it.
fn atom(number: u64, bytes: &[u8]) -> Result<(GroAtom, &[u8]), GroFault>
    ensures found { IfOk result (λ x. (text : List ℕ) × IsLine bytes.now text x.1.now × IsAtomLine text (atom_view x.0)) }
    ensures fault { IfErr result (IsNeeded (IsAtomFault number) bytes.now) }
    ensures shorter { IfOk result (λ x. length x.1.now < length bytes.now) }
{
    let (line, rest) = next_line(bytes)?;
    let atom = atoms::atom(number, line)?;
    Ok((atom, rest))
}

/// The sides of the box on the line with this number, and the bytes after it.
fn sides(number: u64, bytes: &[u8]) -> Result<([i64; 3], &[u8]), GroFault>
    ensures found { IfOk result (λ x. (text : List ℕ) × IsLine bytes.now text x.1.now × IsBox text x.0) }
    ensures fault { IfErr result (IsNeeded (IsBoxFault number) bytes.now) }
    ensures shorter { IfOk result (λ x. length x.1.now < length bytes.now) }
{
    let (line, rest) = next_line(bytes)?;
    let sides = boxes::sides(number, line)?;
    Ok((sides, rest))
}

/// The frame with this number, counted from 1. No memory is allocated.
///
/// `NoSuchFrame` if there is no such frame.
pub fn pick<A: Allocator>(frames: &[GroFrame<A>], number: u64) -> Result<&GroFrame<A>, GroFault>
    ensures { Picks frames.now number (λ x. x.now) result }
{
    if number == 0 || number > frames.len() as u64 {
        return Err(GroFault::NoSuchFrame);
    }
    Ok(&frames[(number - 1) as usize])
}
