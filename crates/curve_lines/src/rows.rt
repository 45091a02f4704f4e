//! Lines of rows: values with bounds on their errors, and a line for each error without a bound.
ghost use Rattle.std.specs.Prelude.{◌≡◌, ◌++◌, ℕ, List, None, IfOk};
ghost use Rattle.fixed.specs.Fractions.{bits_of};
ghost use Rattle.curve_lines.specs.Rows.{AreColumns, IsGridText, IsRowText, IsWithError, has_grid, is_large, is_only_large, jump_mark, jumps_of, large_mark, large_of, missing_line, missing_lines};

use crate::columns::CurveColumns;
use crate::numbers::{put_bound_or_dash, put_value};
use fixed::{Frac, Fx};
use std::alloc::{AllocError, Allocator};

/// A row of a table: the energy and the slope that are computed at a distance, and bounds on their errors.
#[derive(Clone, Copy)]
pub struct Row {
    /// The distance in nm.
    pub distance: Fx,
    /// The energy in kJ/mol.
    pub energy: Fx,
    /// The bound on the energy's error, in units of 2^-(bits + 8); `None` if no bound is found.
    pub energy_error: Option<u64>,
    /// Whether the energy's bound is large because the energy jumps.
    pub energy_jumps: bool,
    /// The slope in kJ/mol/nm.
    pub slope: Fx,
    /// The bound on the slope's error, in units of 2^-(bits + 8); `None` if no bound is found.
    pub slope_error: Option<u64>,
    /// Whether the slope's bound is large because the slope jumps.
    pub slope_jumps: bool,
    /// A bound on the part of the slope's error that no spelling of the formula avoids, in units of 2^-(bits + 8); `None`
    /// if none is found, or if the table has no column for it.
    pub slope_grid: Option<u64>,
}

// Appends a value, a blank and the bound of its error.
fn put_with_error<A: Allocator>(
    text: &mut Vec<u8, A>,
    frac: Frac,
    value: Fx,
    bound: Option<u64>,
) -> Result<(), AllocError>
    ensures { IfOk result (λ _. (piece : List ℕ) × IsWithError (bits_of frac) value bound piece
        × (text.new.items ≡ text.old.items ++ piece)) }
{
    put_value(text, frac, value)?;
    text.push(b' ')?;
    put_bound_or_dash(text, frac, bound)
}

// Appends the energy and the slope of a row, or one of them, with the bounds of their errors.
fn put_columns<A: Allocator>(
    text: &mut Vec<u8, A>,
    frac: Frac,
    columns: CurveColumns,
    row: &Row,
) -> Result<(), AllocError>
    ensures { IfOk result (λ _. (piece : List ℕ) × AreColumns (bits_of frac) columns row.now piece
        × (text.new.items ≡ text.old.items ++ piece)) }
{
    match columns {
        CurveColumns::All { .. } => {
            put_with_error(text, frac, row.energy, row.energy_error)?;
            text.push(b' ')?;
            put_with_error(text, frac, row.slope, row.slope_error)
        }
        CurveColumns::Energy => put_with_error(text, frac, row.energy, row.energy_error),
        CurveColumns::Slope { .. } => put_with_error(text, frac, row.slope, row.slope_error),
    }
}

// Appends a blank and the column of the grid, if the table has it.
fn put_grid<A: Allocator>(
    text: &mut Vec<u8, A>,
    frac: Frac,
    columns: CurveColumns,
    row: &Row,
) -> Result<(), AllocError>
    ensures { IfOk result (λ _. (piece : List ℕ) × IsGridText (bits_of frac) (has_grid columns) row.now piece
        × (text.new.items ≡ text.old.items ++ piece)) }
{
    if columns.has_grid() {
        text.push(b' ')?;
        put_bound_or_dash(text, frac, row.slope_grid)
    } else {
        Ok(())
    }
}

/// Whether the bound of a value's error, in units of 2^-(bits + 8), exceeds a thousandth of the value's magnitude.
pub fn is_large(value: Fx, bound: Option<u64>) -> bool
    ensures { result ≡ is_large value bound }
{
    match bound {
        Some(bound) => 256 * u128::from(value.raw().unsigned_abs()) < 1000 * u128::from(bound),
        None => false,
    }
}

// Whether a value's bound is large, and not because it is a jump.
fn is_only_large(value: Fx, bound: Option<u64>, jumps: bool) -> bool
    ensures { result ≡ is_only_large value bound jumps }
{
    if jumps { false } else { is_large(value, bound) }
}

// The mark of jumps, by whether the energy and the slope have one.
fn jump_mark(energy: bool, slope: bool) -> &'static [u8]
    ensures { result.now ≡ jump_mark energy slope }
{
    match (energy, slope) {
        (true, true) => b" # jump energy-error slope-error",
        (true, false) => b" # jump energy-error",
        (false, true) => b" # jump slope-error",
        (false, false) => b"",
    }
}

// The mark of large bounds, by whether the energy and the slope have one.
fn large_mark(energy: bool, slope: bool) -> &'static [u8]
    ensures { result.now ≡ large_mark energy slope }
{
    match (energy, slope) {
        (true, true) => b" # large energy-error slope-error",
        (true, false) => b" # large energy-error",
        (false, true) => b" # large slope-error",
        (false, false) => b"",
    }
}

// The mark of a row's jumps, for its columns.
fn jumps_of(columns: CurveColumns, row: &Row) -> &'static [u8]
    ensures { result.now ≡ jumps_of columns row.now }
{
    match columns {
        CurveColumns::All { .. } => jump_mark(row.energy_jumps, row.slope_jumps),
        CurveColumns::Energy => jump_mark(row.energy_jumps, false),
        CurveColumns::Slope { .. } => jump_mark(false, row.slope_jumps),
    }
}

// The mark of a row's large bounds, for its columns.
fn large_of(columns: CurveColumns, row: &Row) -> &'static [u8]
    ensures { result.now ≡ large_of columns row.now }
{
    let energy = is_only_large(row.energy, row.energy_error, row.energy_jumps);
    let slope = is_only_large(row.slope, row.slope_error, row.slope_jumps);
    match columns {
        CurveColumns::All { .. } => large_mark(energy, slope),
        CurveColumns::Energy => large_mark(energy, false),
        CurveColumns::Slope { .. } => large_mark(false, slope),
    }
}

/// Appends the line of a row.
pub(crate) fn put_row<A: Allocator>(
    text: &mut Vec<u8, A>,
    frac: Frac,
    columns: CurveColumns,
    row: &Row,
) -> Result<(), AllocError>
    ensures { IfOk result (λ _. (line : List ℕ) × IsRowText (bits_of frac) columns row.now line
        × (text.new.items ≡ text.old.items ++ line)) }
{
    put_value(text, frac, row.distance)?;
    text.push(b' ')?;
    put_columns(text, frac, columns, row)?;
    put_grid(text, frac, columns, row)?;
    text.extend_from_slice(jumps_of(columns, row))?;
    text.extend_from_slice(large_of(columns, row))?;
    text.push(b'\n')?;
    Ok(())
}

// Appends the line for the error of this name, which has no bound from this distance up to the next row's.
fn put_no_bound<A: Allocator>(
    text: &mut Vec<u8, A>,
    frac: Frac,
    name: &[u8],
    distance: Fx,
) -> Result<(), AllocError>
    ensures { IfOk result (λ _. text.new.items ≡ text.old.items ++ missing_line (bits_of frac) name.now distance None) }
{
    text.extend_from_slice(b"# no ")?;
    text.extend_from_slice(name)?;
    text.extend_from_slice(b" from ")?;
    put_value(text, frac, distance)?;
    text.push(b'\n')?;
    Ok(())
}

// Appends the line for an error if it has no bound.
fn put_missing<A: Allocator>(
    text: &mut Vec<u8, A>,
    frac: Frac,
    name: &[u8],
    distance: Fx,
    bound: Option<u64>,
) -> Result<(), AllocError>
    ensures { IfOk result (λ _. text.new.items ≡ text.old.items ++ missing_line (bits_of frac) name.now distance bound) }
{
    match bound {
        Some(_) => Ok(()),
        None => put_no_bound(text, frac, name, distance),
    }
}

/// Appends the lines for a row's errors without a bound.
pub(crate) fn put_missing_lines<A: Allocator>(
    text: &mut Vec<u8, A>,
    frac: Frac,
    columns: CurveColumns,
    row: &Row,
) -> Result<(), AllocError>
    ensures { IfOk result (λ _. text.new.items ≡ text.old.items ++ missing_lines (bits_of frac) columns row.now) }
{
    let distance = row.distance;
    match columns {
        CurveColumns::All { .. } => {
            put_missing(text, frac, b"energy-error", distance, row.energy_error)?;
            put_missing(text, frac, b"slope-error", distance, row.slope_error)
        }
        CurveColumns::Energy => put_missing(
            text,
            frac,
            b"energy-error",
            distance,
            row.energy_error,
        ),
        CurveColumns::Slope { .. } => put_missing(
            text,
            frac,
            b"slope-error",
            distance,
            row.slope_error,
        ),
    }
}
