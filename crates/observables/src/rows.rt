//! The lines of a table: its head, and the row of an observation.

ghost use Rattle.std.specs.Prelude.{◌≡◌, ◌+◌, ◌-◌, ◌<◌, ◌≤◌, ◌++◌, ◌∷◌, [], length, take};
ghost use Rattle.arrayvec.specs.ArrayVec.{array_vec_len};
ghost use Rattle.observables.specs.Columns.{number_text};

use crate::columns::{Columns, MOST_COLUMNS};
use crate::observations::Observation;
use crate::scales::Scales;
use arrayvec::ArrayVec;
use line_text::{Line, put_decimals, put_integer};

/// The most bytes of a column: a number has at most 48, and a space or a LF follows.
pub const COLUMN_BYTES: usize = 49;

/// The most bytes of a line.
pub const ROW_BYTES: usize = MOST_COLUMNS * COLUMN_BYTES;

/// A line of a table, on the stack.
pub type Row = ArrayVec<u8, ROW_BYTES>;

// Appends a text and a space.
fn put(row: &mut Row, text: &[u8])
    requires { array_vec_len row.old + length text.now < ROW_BYTES }
    ensures items { row.new.items ≡ row.old.items ++ (text.now ++ 32 ∷ []) }
    ensures len { array_vec_len row.new ≡ array_vec_len row.old + length text.now + 1 }
{
    let _ = row.try_extend_from_slice(text);
    row.push(b' ');
}

// The text of a number in units of its last decimal, `-` if there is none.
fn number_line(decimals: usize, number: Option<i128>) -> Line
    requires { decimals ≤ 6 }
    ensures items { result.items ≡ number_text decimals number }
    ensures len { array_vec_len result < COLUMN_BYTES }
{
    let mut line = Line::new();
    let Some(number) = number else {
        line.push(b'-');
        return line;
    };
    if decimals == 0 {
        put_integer(&mut line, number);
        return line;
    }
    put_decimals(&mut line, decimals, number);
    line
}

// Ends a line: its last space becomes a LF.
fn end(row: &mut Row)
    requires { array_vec_len row.old ≤ ROW_BYTES }
    ensures { row.new.items ≡ take (array_vec_len row.old - 1) row.old.items ++ 10 ∷ [] }
{
    let _ = row.pop();
    row.push(b'\n');
}

impl Columns {
    ghost use Rattle.std.specs.Prelude.{◌≡◌};
    ghost use Rattle.observables.specs.Columns.{head_by, row_by};

    /// The line before the first row, with the heads of the columns after `# `. One space separates the heads, and LF
    /// ends the line.
    pub fn head(self) -> Row
        ensures { result.items ≡ head_by self }
    {
        let mut row = Row::new();
        put(&mut row, b"#");
        for column in self.list() {
            put(&mut row, column.head());
        }
        end(&mut row);
        row
    }

    /// The row of an observation: its number in each column, `-` if there is none. One space separates the columns, and
    /// LF ends the row.
    pub fn row(self, observation: &Observation, scales: &Scales) -> Row
        ensures { result.items ≡ row_by self scales.now observation.now }
    {
        let mut row = Row::new();
        for column in self.list() {
            let text = number_line(column.decimals(), column.number(observation, scales));
            put(&mut row, text.as_slice());
        }
        end(&mut row);
        row
    }
}
