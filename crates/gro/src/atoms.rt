//! Reading the line of an atom.

ghost use Rattle.std.specs.Prelude.{◌≡◌, ◌≤◌, ◌<◌, ◌^◌, length, option_map, pos, negsuc, ◌≤ℤ◌, IfErr, IfOk, IfSome};
ghost use Rattle.gro.specs.Frames.{atom_view};
ghost use Rattle.gro.specs.GroFaults.{IsAtomFault};
ghost use Rattle.gro.specs.GroText.{are_spaces, IsAtomLine};
ghost use Rattle.gro.specs.GroReading.{whole_of, points_of, residue_number_of, three_columns_of, velocity_of, fields_of};

use crate::faults::GroFault;
use crate::frames::GroAtom;
use crate::lines::InputLine;
use line_text::{Name, cut, decimal_column, digits, is_printable, trim};

/// The length of an atom line without its velocity: residue number, two names, index and position.
const COLUMNS: usize = 44;

/// The atom on the line with this number.
///
/// Errors, in this order: `Truncated` for an unfinished line of fewer than 44 bytes; `BadColumns` for a byte outside 32
/// to 126, or fewer than two points; `Precision` if the positions don't have three decimals; `BadColumns` for any other
/// form.
pub fn atom(number: u64, line: InputLine<'_>) -> Result<GroAtom, GroFault>
    ensures found { IfOk result (λ a. IsAtomLine line.entry.text.now (atom_view a)) }
    ensures fault { IfErr result (IsAtomFault number line.entry.ended line.entry.text.now) }
{
    if !line.ended && line.text.len() < COLUMNS {
        return Err(GroFault::Truncated);
    }
    if !is_printable(line.text) {
        return Err(GroFault::BadColumns { line: number });
    }
    match point_distance(line.text) {
        None => Err(GroFault::BadColumns { line: number }),
        Some(8) => match fields(line.text) {
            Some(atom) => Ok(atom),
            None => Err(GroFault::BadColumns { line: number }),
        },
        Some(_) => Err(GroFault::Precision { line: number }),
    }
}

/// The distance of the first two points at or after column 20. It is the width of a position's column, which depends on
/// the number of decimals.
#[tactic(auto, unfolding(crate::specs::GroReading::points_of))]
fn point_distance(text: &[u8]) -> Option<usize>
    ensures { result ≡ points_of text.now }
{
    if text.len() < 20 {
        return None;
    }
    let (_, after) = cut(b'.', text.split_at(20).1)?;
    let (between, _) = cut(b'.', after)?;
    Some(between.len() + 1)
}

#[tactic(auto, unfolding(crate::specs::GroReading::fields_of))]
// The atom on a line, from its columns; `None` if a column has another form.
fn fields(text: &[u8]) -> Option<GroAtom>
    ensures { option_map atom_view result ≡ fields_of text.now }
{
    if text.len() < COLUMNS {
        return None;
    }
    let number = residue_number(&text[0..5])?;
    let residue = Name::new(trim(&text[5..10]))?;
    let name = Name::new(trim(&text[10..15]))?;
    let at = three_columns(3, &text[20..44])?;
    let velocity = velocity(text.split_at(COLUMNS).1)?;
    Some(GroAtom {
        number,
        residue,
        name,
        at,
        velocity,
    })
}

/// The residue number in a column: spaces, an optional `-`, digits and spaces, from -9999 to 99999.
#[tactic(auto, unfolding(crate::specs::GroReading::residue_number_of))]
fn residue_number(column: &[u8]) -> Option<i32>
    requires { length column.now ≤ 12 }
    ensures exact { result ≡ residue_number_of column.now }
    ensures low { IfSome result (λ z. negsuc 9998 ≤ℤ z) }
    ensures high { IfSome result (λ z. z ≤ℤ pos 99999) }
{
    let text = trim(column);
    let number = if text.is_empty() || text[0] != b'-' {
        whole(text)? as i64
    } else {
        -(whole(text.split_at(1).1)? as i64)
    };
    if number < -9999 || number > 99999 {
        return None;
    }
    Some(number as i32)
}

/// The number that one or more digits denote.
fn whole(text: &[u8]) -> Option<u64>
    requires { length text.now ≤ 12 }
    ensures exact { result ≡ whole_of text.now }
    ensures below { IfSome result (λ n. n < 10 ^ 12) }
{
    if text.is_empty() {
        return None;
    }
    digits(text)
}

/// Three numbers with `decimals` decimals, each in a column of eight bytes.
#[tactic(auto, unfolding(crate::specs::GroReading::three_columns_of))]
fn three_columns(decimals: usize, text: &[u8]) -> Option<[i64; 3]>
    requires few { decimals ≤ 5 }
    requires long { 24 ≤ length text.now }
    ensures { result ≡ three_columns_of decimals text.now }
{
    let x = decimal_column(decimals, &text[0..8])?;
    let y = decimal_column(decimals, &text[8..16])?;
    let z = decimal_column(decimals, &text[16..24])?;
    Some([x, y, z])
}

/// The velocity after the position's columns, zero if there are only spaces.
#[tactic(auto, unfolding(crate::specs::GroReading::velocity_of))]
fn velocity(tail: &[u8]) -> Option<[i64; 3]>
    ensures { result ≡ velocity_of tail.now }
{
    if are_spaces(tail) {
        return Some([0, 0, 0]);
    }
    if tail.len() < 24 {
        return None;
    }
    if are_spaces(tail.split_at(24).1) {
        three_columns(4, tail)
    } else {
        None
    }
}

// Whether all bytes are spaces.
fn are_spaces(text: &[u8]) -> bool
    ensures { result ≡ are_spaces text.now }
{
    text.iter().all(|b| *b == b' ')
}
