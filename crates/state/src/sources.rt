//! Sources of lines, and the texts of states in them, one after another.

ghost use Rattle.std.specs.Prelude.{◌≡◌, ◌≤◌, ℕ, List, Option, None, drop, is_some, IfErr, IfOk, IfSome, OnOk};
ghost use Rattle.line_text.specs.Parts.{split_once};
ghost use Rattle.state.specs.Sources.{FaultsStartNoState, NoTextIsEmpty, StartsOneState, TakesLine, TakesText};
ghost use Rattle.state.specs.TakenLines.{TakesCount, TakesCountLine, TakesFront, TakesHead, TakesLines, count_in, lines_behind, version_in};
ghost use Rattle.state.specs.declared.sources.ReadFault.{ReadFault};

use crate::lines::{count, head};
use crate::versions::Version;
use line_text::cut;
use std::alloc::Allocator;

/// Why bytes weren't read.
#[derive(Clone, Copy, Debug, PartialEq, Eq)]
pub enum ReadFault {
    /// A file can't be read to its end.
    CannotRead,
    /// Memory ran out.
    Memory,
}

/// A source of lines, which are read as they come.
pub trait Lines {
    /// The bytes that aren't taken yet, if known. Those of the system's own files are unknown.
    ghost left: { Self → Option (List ℕ) };

    /// Appends the next line with its LF, or the rest if it has no LF. At the end nothing is appended.
    ///
    /// `CannotRead`: the source can't be read on; this happens only if its bytes are unknown. `Memory`: memory ran out.
    fn take<A: Allocator>(&mut self, text: &mut Vec<u8, A>) -> Result<(), ReadFault>
        ensures takes { OnOk result (TakesLine (left self.old) (left self.new) text.old.items text.new.items) }
        ensures untold { IfErr result (λ fault. fault ≡ ReadFault.CannotRead → left self.old ≡ None) };
}

/// Reads the text of the next state: its lines up to that of the last atom, as the line with the number of atoms gives
/// it. The text ends early if the source ends, or if the version or the number of atoms can't be read from its lines.
/// `text` is overwritten, and empty exactly at the end of the source.
///
/// `CannotRead`: the source can't be read on; this happens only if its bytes are unknown. `Memory`: memory ran out.
pub fn next_text<L: Lines, A: Allocator>(
    lines: &mut L,
    text: &mut Vec<u8, A>,
) -> Result<(), ReadFault>
    ensures takes { OnOk result (TakesText (L.left lines.old) (L.left lines.new) text.new.items) }
    ensures untold { IfErr result (λ fault. fault ≡ ReadFault.CannotRead → L.left lines.old ≡ None) }
{
    let more = take_front(lines, text)?;
    take_lines(lines, text, more)?;
    Ok(())
}

/// Takes the lines up to the number of atoms; `text` is overwritten. Returns the number of lines that the text lacks
/// then: 0 if it ends here.
fn take_front<L: Lines, A: Allocator>(
    lines: &mut L,
    text: &mut Vec<u8, A>,
) -> Result<u64, ReadFault>
    ensures takes { IfOk result (λ more. TakesFront more (L.left lines.old) (L.left lines.new) text.new.items) }
    ensures below { IfOk result (λ more. more ≤ 65537) }
    ensures untold { IfErr result (λ fault. fault ≡ ReadFault.CannotRead → L.left lines.old ≡ None) }
{
    match take_head(lines, text)? {
        Some(version) => take_count(lines, text, version),
        None => Ok(0),
    }
}

/// Takes the first line, which has the version; `text` is overwritten.
fn take_head<L: Lines, A: Allocator>(
    lines: &mut L,
    text: &mut Vec<u8, A>,
) -> Result<Option<Version>, ReadFault>
    ensures takes { IfOk result (λ version. TakesHead version (L.left lines.old) (L.left lines.new) text.new.items) }
    ensures untold { IfErr result (λ fault. fault ≡ ReadFault.CannotRead → L.left lines.old ≡ None) }
{
    text.clear();
    lines.take(text)?;
    Ok(version_in(text))
}

/// The version in a line with its LF.
fn version_in(line: &[u8]) -> Option<Version>
    ensures { result ≡ version_in line.now }
{
    let (line, _) = cut(b'\n', line)?;
    head(line)
}

/// Appends the lines after the first one to `text`, up to and with the line that has the number of atoms. Returns how
/// many lines of the state follow: 0 if the text ends here.
fn take_count<L: Lines, A: Allocator>(
    lines: &mut L,
    text: &mut Vec<u8, A>,
    version: Version,
) -> Result<u64, ReadFault>
    ensures takes { IfOk result (λ more. TakesCount version more (L.left lines.old) (L.left lines.new) text.old.items text.new.items) }
    ensures below { IfOk result (λ more. more ≤ 65537) }
    ensures untold { IfErr result (λ fault. fault ≡ ReadFault.CannotRead → L.left lines.old ≡ None) }
{
    if take_lines(lines, text, version.count_number() - 2)? {
        take_count_line(lines, text)
    } else {
        Ok(0)
    }
}

/// Appends the line with the number of atoms to `text`. Returns how many lines of the state follow: 0 if the text ends
/// here.
fn take_count_line<L: Lines, A: Allocator>(
    lines: &mut L,
    text: &mut Vec<u8, A>,
) -> Result<u64, ReadFault>
    ensures takes { IfOk result (λ more. TakesCountLine more (L.left lines.old) (L.left lines.new) text.old.items text.new.items) }
    ensures below { IfOk result (λ more. more ≤ 65537) }
    ensures untold { IfErr result (λ fault. fault ≡ ReadFault.CannotRead → L.left lines.old ≡ None) }
{
    let at = text.as_slice().len();
    lines.take(text)?;
    Ok(lines_behind(text_from(text, at)))
}

/// The text from an index on; empty if the index is beyond the text.
fn text_from(text: &[u8], at: usize) -> &[u8]
    ensures { result.now ≡ drop at text.now }
{
    text.get(at..).unwrap_or_default()
}

/// The number of lines that follow the line with the number of atoms: the box, and the atoms. 0 if the number can't be
/// read.
fn lines_behind(line: &[u8]) -> u64
    ensures value { result ≡ lines_behind line.now }
    ensures below { result ≤ 65537 }
{
    match count_in(line) {
        Some(count) => 1 + count,
        None => 0,
    }
}

/// The number of atoms in a line with its LF.
fn count_in(line: &[u8]) -> Option<u64>
    ensures exact { result ≡ count_in line.now }
    ensures below { IfSome result (λ n. n ≤ 65536) }
{
    let (line, _) = cut(b'\n', line)?;
    count(line)
}

/// Takes this number of lines. Fewer if a line has no LF: then the result is `false`, and the source is at its end.
fn take_lines<L: Lines, A: Allocator>(
    lines: &mut L,
    text: &mut Vec<u8, A>,
    count: u64,
) -> Result<bool, ReadFault>
    ensures takes { IfOk result (λ all. TakesLines all count (L.left lines.old) (L.left lines.new) text.old.items text.new.items) }
    ensures untold { IfErr result (λ fault. fault ≡ ReadFault.CannotRead → L.left lines.old ≡ None) }
{
    for _ in 0..count {
        if !take_line(lines, text)? {
            return Ok(false);
        }
    }
    Ok(true)
}

/// Takes the next line. `false` if it has no LF: then the source is at its end.
fn take_line<L: Lines, A: Allocator>(
    lines: &mut L,
    text: &mut Vec<u8, A>,
) -> Result<bool, ReadFault>
    ensures takes { IfOk result (λ all. TakesLines all 1 (L.left lines.old) (L.left lines.new) text.old.items text.new.items) }
    ensures untold { IfErr result (λ fault. fault ≡ ReadFault.CannotRead → L.left lines.old ≡ None) }
{
    let at = text.as_slice().len();
    lines.take(text)?;
    Ok(is_whole(text_from(text, at)))
}

/// Whether a line has its LF.
fn is_whole(line: &[u8]) -> bool
    ensures { result ≡ is_some (split_once 10 line.now) }
{
    cut(b'\n', line).is_some()
}

/// The law that a state's text isn't empty.
pub fn no_text_is_empty()
    ensures { NoTextIsEmpty }
{}

/// The law that bytes don't start with a state's text if they have a fault other than `Trailing`.
pub fn faults_start_no_state()
    ensures { FaultsStartNoState }
{}

/// The law that bytes start with at most one state's text.
pub fn starts_one_state()
    ensures { StartsOneState }
{}
