//! Summaries of a table's columns of errors.
ghost use Rattle.std.specs.Prelude.{◌≡◌, ◌<◌, ◌-◌, ◌^◌, ◌++◌, ℕ, List, None, Some, IfOk, codes, decimal};
ghost use Rattle.fixed.specs.Fractions.{bits_of};
ghost use Rattle.curve_lines.specs.SoFar.{with_bound, with_row};
ghost use Rattle.curve_lines.specs.Summaries.{AreNamed, IsGreatestText, IsLastLine, IsNamed, without_text};

use crate::columns::CurveColumns;
use crate::numbers::{put_bound, put_value};
use fixed::{Frac, Fx};
use line_text::{Line, put, put_integer};
use std::alloc::{AllocError, Allocator};

/// A column of errors over some rows.
#[derive(Clone, Copy)]
pub(crate) struct Summary {
    /// The greatest bound, with the distance of the first row that has it; `None` if no row has a bound.
    pub(crate) greatest: Option<(u64, Fx)>,
    /// The number of rows without a bound.
    pub(crate) without: u32,
}

impl Summary {
    /// The summary of no rows.
    pub(crate) fn empty() -> Summary
        ensures { result ≡ record { greatest = None; without = 0 } }
    {
        Summary {
            greatest: None,
            without: 0,
        }
    }

    /// The summary after one more row.
    pub(crate) fn with_row(self, distance: Fx, bound: Option<u64>) -> Summary
        requires { self.without < 2 ^ 32 - 1 }
        ensures { result ≡ with_row self distance bound }
    {
        Summary {
            greatest: with_bound(self.greatest, distance, bound),
            without: self.without + u32::from(bound.is_none()),
        }
    }
}

// The greatest bound after one more row.
fn with_bound(greatest: Option<(u64, Fx)>, distance: Fx, bound: Option<u64>) -> Option<(u64, Fx)>
    ensures { result ≡ with_bound greatest distance bound }
{
    match (greatest, bound) {
        (greatest, None) => greatest,
        (None, Some(first)) => Some((first, distance)),
        (Some(greatest), Some(bound)) => {
            if greatest.0 < bound {
                Some((bound, distance))
            } else {
                Some(greatest)
            }
        }
    }
}

// Appends a bound and the distance of its row.
fn put_bound_at<A: Allocator>(
    text: &mut Vec<u8, A>,
    frac: Frac,
    bound: u64,
    distance: Fx,
) -> Result<(), AllocError>
    ensures { IfOk result (λ _. (number : List ℕ) × IsGreatestText (bits_of frac) (Some (bound, distance)) number
        × (text.new.items ≡ text.old.items ++ number)) }
{
    put_bound(text, frac, bound)?;
    text.extend_from_slice(b" at ")?;
    put_value(text, frac, distance)?;
    Ok(())
}

// Appends the greatest bound with its distance, or `-`.
fn put_greatest<A: Allocator>(
    text: &mut Vec<u8, A>,
    frac: Frac,
    greatest: Option<(u64, Fx)>,
) -> Result<(), AllocError>
    ensures { IfOk result (λ _. (number : List ℕ) × IsGreatestText (bits_of frac) greatest number
        × (text.new.items ≡ text.old.items ++ number)) }
{
    match greatest {
        Some((bound, at)) => put_bound_at(text, frac, bound, at),
        None => text.extend_from_slice(b"-"),
    }
}

// Appends a number of rows without a bound.
fn put_count<A: Allocator>(text: &mut Vec<u8, A>, count: u32) -> Result<(), AllocError>
    ensures { IfOk result (λ _. text.new.items ≡ text.old.items ++ (codes " (" ++ (decimal count ++ codes " rows without)"))) }
{
    let mut line = Line::new();
    put(&mut line, b" (");
    put_integer(&mut line, count);
    put(&mut line, b" rows without)");
    text.extend_from_slice(line.as_slice())
}

// Appends the number of rows without a bound, unless it is 0.
fn put_without<A: Allocator>(text: &mut Vec<u8, A>, count: u32) -> Result<(), AllocError>
    ensures { IfOk result (λ _. text.new.items ≡ text.old.items ++ without_text count) }
{
    match count {
        0 => Ok(()),
        1 => text.extend_from_slice(b" (1 row without)"),
        _ => put_count(text, count),
    }
}

// Appends the summary of a column after the column's name.
fn put_summary<A: Allocator>(
    text: &mut Vec<u8, A>,
    frac: Frac,
    name: &[u8],
    summary: Summary,
) -> Result<(), AllocError>
    ensures { IfOk result (λ _. (piece : List ℕ) × IsNamed (bits_of frac) name.now summary piece
        × (text.new.items ≡ text.old.items ++ piece)) }
{
    text.extend_from_slice(name)?;
    text.push(b' ')?;
    put_greatest(text, frac, summary.greatest)?;
    put_without(text, summary.without)
}

// Appends the summary of each column of errors.
fn put_summaries<A: Allocator>(
    text: &mut Vec<u8, A>,
    frac: Frac,
    columns: CurveColumns,
    energy: Summary,
    slope: Summary,
) -> Result<(), AllocError>
    ensures { IfOk result (λ _. (piece : List ℕ) × AreNamed (bits_of frac) columns energy slope piece
        × (text.new.items ≡ text.old.items ++ piece)) }
{
    match columns {
        CurveColumns::All { .. } => {
            put_summary(text, frac, b"energy-error", energy)?;
            text.extend_from_slice(b", ")?;
            put_summary(text, frac, b"slope-error", slope)
        }
        CurveColumns::Energy => put_summary(text, frac, b"energy-error", energy),
        CurveColumns::Slope { .. } => put_summary(text, frac, b"slope-error", slope),
    }
}

/// Appends the line of the greatest bounds.
pub(crate) fn put_last<A: Allocator>(
    text: &mut Vec<u8, A>,
    frac: Frac,
    columns: CurveColumns,
    energy: Summary,
    slope: Summary,
) -> Result<(), AllocError>
    ensures { IfOk result (λ _. (line : List ℕ) × IsLastLine (bits_of frac) columns energy slope line
        × (text.new.items ≡ text.old.items ++ line)) }
{
    text.extend_from_slice(b"# greatest ")?;
    put_summaries(text, frac, columns, energy, slope)?;
    text.push(b'\n')?;
    Ok(())
}
