//! A walk over the rows of a tile, in the order of the pairs' numbers. Only its beginning needs a division or a root.

ghost use Rattle.std.specs.Prelude.{◌≡◌, ℕ, ◌+◌, ◌^◌, ◌<◌, ◌≤◌, List, [], ◌++◌, ◌-◌, length, drop, take, IfSome, IfNone};
ghost use Rattle.cell_tiles.specs.Tiles.{pairs_among, pairs_between, pairs_with};
ghost use Rattle.cell_tiles.specs.Walks.{width_of};

use crate::pairs::{count_among, count_between, indices_of_pair};
use std::marker::Model;

// The position of a pair: its row, its column, and the number of columns of the row.
#[derive(Clone, Copy)]
struct WalkCursor {
    row: u64,
    column: u64,
    width: u64,
}

// The beginning of the next row. In a tile of one cell, each row has one column more than the row before it.
fn next_row(cursor: WalkCursor, one_cell: bool) -> WalkCursor
    requires { cursor.row < 65536 }
    ensures row { result.row ≡ cursor.row + 1 }
    ensures column { result.column ≡ 0 }
    ensures width { (ys : List ℕ) → cursor.width ≡ width_of one_cell ys cursor.row → result.width ≡ width_of one_cell ys (cursor.row + 1) }
{
    let row = cursor.row + 1;
    WalkCursor {
        row,
        column: 0,
        width: if one_cell { row } else { cursor.width },
    }
}

/// A row of a tile, or the rest of one: an atom, and others with each of which it forms a pair. The others are a slice
/// of the atoms of a cell, from the column on.
#[derive(Clone, Copy)]
pub struct TileRow<'a> {
    pub atom: u32,
    pub column: u64,
    pub others: &'a [u32],
}

/// The rows of a tile that are still to come. Contracts see the list of their pairs, and the atoms that the rows are
/// slices of.
#[derive(Drop)]
pub struct TileRows<'a> {
    atoms: &'a [u32],
    others: &'a [u32],
    one_cell: bool,
    cursor: WalkCursor,
    left: u64,
}

impl<'a> Model for TileRows<'a> {
    ghost use Rattle.cell_tiles.specs.Walks.{IsWalk, Walk, last_of, pairs_over};

    ghost Value = { Walk };

    ghost view = { λ t. record { pairs = last_of t.left (pairs_over t.one_cell t.atoms.now t.others.now); others = t.others.now } };

    ghost invariant = { λ t. IsWalk t.one_cell t.atoms.now t.others.now t.cursor.row t.cursor.column t.cursor.width t.left };
}

/// The rows of the pairs among these atoms, from the pair `k` on.
pub(crate) fn walk_among(atoms: &[u32], k: u64) -> TileRows<'_>
    requires few { length atoms.now ≤ 65536 }
    requires within { k ≤ length (pairs_among atoms.now (length atoms.now)) }
    ensures walk { result ≡ record { pairs = drop k (pairs_among atoms.now (length atoms.now)); others = atoms.now } }
    ensures few { length (pairs_among atoms.now (length atoms.now)) < 2 ^ 64 }
{
    let (column, row) = indices_of_pair(k);
    TileRows {
        atoms,
        others: atoms,
        one_cell: true,
        cursor: WalkCursor {
            row,
            column,
            width: row,
        },
        left: count_among(atoms) - k,
    }
}

/// The rows of the pairs of one of these atoms with one of the others, from the pair `k` on.
pub(crate) fn walk_between<'a>(atoms: &'a [u32], others: &'a [u32], k: u64) -> TileRows<'a>
    requires atoms { length atoms.now ≤ 65536 }
    requires others { length others.now ≤ 65536 }
    requires within { k ≤ length (pairs_between atoms.now others.now) }
    ensures walk { result ≡ record { pairs = drop k (pairs_between atoms.now others.now); others = others.now } }
    ensures few { length (pairs_between atoms.now others.now) < 2 ^ 64 }
{
    let width = others.len() as u64;
    let (row, column) = if width == 0 {
        (0, 0)
    } else {
        (k / width, k % width)
    };
    TileRows {
        atoms,
        others,
        one_cell: false,
        cursor: WalkCursor { row, column, width },
        left: count_between(atoms, others) - k,
    }
}

impl<'a> TileRows<'a> {
    /// The next row, or the rest of it; `None` at the end.
    #[tactic(auto, using(crate::proofs::WalkLemmas::walk_row, crate::proofs::WalkLemmas::walk_columns, crate::proofs::WalkLemmas::walk_within))]
    pub fn next(&mut self) -> Option<TileRow<'a>>
        ensures some { IfSome result (λ row. self.old.pairs ≡ pairs_with row.atom row.others.now ++ self.new.pairs) }
        ensures there { IfSome result (λ row. 0 < length row.others.now) }
        ensures part { IfSome result (λ row. row.others.now ≡ take (length row.others.now) (drop row.column self.old.others)) }
        ensures within { IfSome result (λ row. row.column + length row.others.now ≤ length self.old.others) }
        ensures others { self.new.others ≡ self.old.others }
        ensures none { IfNone result (self.old.pairs ≡ []) }
    {
        if self.left == 0 {
            return None;
        }
        let cursor = self.cursor;
        let row = TileRow {
            atom: self.atoms[cursor.row as usize],
            column: cursor.column,
            others: &self.others[cursor.column as usize..cursor.width as usize],
        };
        self.left -= cursor.width - cursor.column;
        self.cursor = next_row(cursor, self.one_cell);
        Some(row)
    }
}
