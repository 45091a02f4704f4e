//! The atoms of each cell, and blocks of their coarse coordinates.
//!
//! Each cell has its own list of atoms and its own blocks, which keep their memory from step to step. Filling the cells
//! may allocate; listing pairs never does, so workers may share filled cells.
//!
//! In a tile of two cells, a call that begins with a row and whose second cell has at most 128 atoms uses gathered
//! atoms (`gathered`). All other calls process the cell's own blocks row by row. There a row may be cut, so a cell may
//! have any number of atoms.

ghost use Rattle.std.specs.Prelude.{◌≡◌, ◌+◌, ◌^◌, ◌<◌, ◌≤◌, [], ◌∷◌, ◌++◌, drop, length, map, replicate, slice_get, slice_index_or, slice_set, Some, IfOk, OnOk, OnErr, All};
ghost use Rattle.cell_tiles.specs.Cells.{AreBeside, CellAtoms, cells_of, members_of};
ghost use Rattle.cell_tiles.specs.Tiles.{members_at, pairs_in};
ghost use Rattle.ring_box.specs.Places.{ArePlaces};

use crate::cell_blocks::lay_out_all;
use crate::grids::Grid;
use crate::lists::PairList;
use crate::near::{FrameInBox, NearPairs};
use crate::pairs::{count_among, count_between, pair_among, pair_between};
use crate::tiles::Tile;
use crate::walks::{TileRow, TileRows, walk_among, walk_between};
use place_blocks::{Block, CellSpan, UpperHalves};
use ring_box::{AtomPair, Place3};
use std::alloc::{AllocError, Allocator};
use std::marker::Model;

/// The atoms of each cell of a grid, ascending, and blocks of their coarse coordinates.
#[derive(Drop)]
pub struct Cells<A: Allocator + Copy> {
    grid: Grid,
    members: Vec<Vec<u32, A>, A>,
    blocks: Vec<Vec<Block, A>, A>,
}

impl<A: Allocator + Copy> Model for Cells<A> {
    ghost use Rattle.std.specs.Prelude.{◌≡◌, ◌≤◌, length, map, All};
    ghost use Rattle.cell_tiles.specs.Cells.{CellAtoms, cells_of};

    ghost Value = { CellAtoms };

    ghost view = { λ c. record {
      bits = c.grid.bits;
      members = map (λ m. m.items) c.members.items;
      blocks = map (λ b. b.items) c.blocks.items;
    } };

    ghost invariant = { λ c. (length c.members.items ≡ cells_of c.grid.bits)
        × All (λ m. length m.items ≤ 65536) c.members.items × (length c.blocks.items ≡ cells_of c.grid.bits) };
}

// Empties each cell and keeps its memory.
fn clear_all<A: Allocator + Copy>(members: &mut Vec<Vec<u32, A>, A>)
    ensures { map (λ m. m.items) members.new.items ≡ replicate (length members.old.items) [] }
{
    for cell in 0..members.len() {
        members[cell].clear();
    }
}

// Appends an atom to a cell.
#[tactic(auto, using(crate::proofs::VectorLemmas::on_err, crate::proofs::VectorLemmas::put_none, crate::proofs::VectorLemmas::put_one))]
fn put<A: Allocator + Copy>(
    members: &mut Vec<Vec<u32, A>, A>,
    cell: u32,
    atom: u32,
) -> Result<(), AllocError>
    requires { cell < length members.old.items }
    ensures ok { OnOk result (map (λ m. m.items) members.new.items
        ≡ slice_set (map (λ m. m.items) members.old.items) cell
        (members_at (map (λ m. m.items) members.old.items) cell ++ atom ∷ [])) }
    ensures err { OnErr result (map (λ m. m.items) members.new.items ≡ map (λ m. m.items) members.old.items) }
{
    members[cell as usize].push(atom)?;
    Ok(())
}

// Puts each atom of a frame into its cell.
fn put_all<A: Allocator + Copy>(
    members: &mut Vec<Vec<u32, A>, A>,
    grid: &Grid,
    frame: &[Place3],
) -> Result<(), AllocError>
    requires few { length frame.now ≤ 65536 }
    requires empty { map (λ m. m.items) members.old.items ≡ replicate (cells_of grid.now.bits) [] }
    ensures ok { OnOk result (map (λ m. m.items) members.new.items ≡ members_of grid.now.bits frame.now) }
    ensures on_ring { OnOk result (All ArePlaces frame.now) }
    ensures few { All (λ m. length m.items ≤ 65536) members.new.items }
    ensures cells { length members.new.items ≡ cells_of grid.now.bits }
{
    for (atom, places) in frame.iter().enumerate() {
        put(members, grid.cell_of(*places), atom as u32)?;
    }
    Ok(())
}

// An empty list for each cell.
fn empty_cells<T: Drop, A: Allocator + Copy>(
    alloc: A,
    grid: &Grid,
) -> Result<Vec<Vec<T, A>, A>, AllocError>
    ensures { IfOk result (λ v. map (λ m. m.items) v.items ≡ replicate (cells_of grid.now.bits) []) }
{
    let mut members = Vec::new(alloc);
    for _ in 0..grid.cells() {
        members.push(Vec::new(alloc))?;
    }
    Ok(members)
}

impl<A: Allocator + Copy> Cells<A> {
    /// The cells of this grid, all empty. `AllocError` if an allocation fails.
    pub fn new(alloc: A, grid: Grid) -> Result<Cells<A>, AllocError>
        ensures bits { IfOk result (λ c. c.bits ≡ grid.bits) }
        ensures empty { IfOk result (λ c. c.members ≡ replicate (cells_of grid.bits) []) }
    {
        let members = empty_cells(alloc, &grid)?;
        let blocks = empty_cells(alloc, &grid)?;
        Ok(Cells {
            grid,
            members,
            blocks,
        })
    }

    /// Replaces the contents of the cells by the atoms of a frame, of at most 65,536, and lays out their coarse
    /// coordinates. The cells keep their memory.
    ///
    /// `AllocError` if an allocation fails: the cells then hold some of the atoms, and can be filled again.
    pub fn fill(&mut self, frame: &[Place3]) -> Result<(), AllocError>
        requires { length frame.now ≤ 65536 }
        ensures bits { self.new.bits ≡ self.old.bits }
        ensures ok { OnOk result (self.new.members ≡ members_of self.old.bits frame.now) }
        ensures beside { OnOk result (AreBeside frame.now self.new) }
        // Known of each atom by its type, and stated here for all of them.
        ensures on_ring { OnOk result (All ArePlaces frame.now) }
    {
        clear_all(&mut self.members);
        put_all(&mut self.members, &self.grid, frame)?;
        lay_out_all(&mut self.blocks, &self.members, frame)
    }

    // The atoms of a cell.
    fn atoms(&self, cell: u32) -> &[u32]
        ensures value { result.now ≡ members_at self.now.members cell }
        ensures few { length result.now ≤ 65536 }
    {
        match self.members.get(cell as usize) {
            Some(members) => members.as_slice(),
            None => &[],
        }
    }

    // The blocks beside the atoms of a cell.
    fn blocks(&self, cell: u32) -> &[Block]
        ensures { result.now ≡ slice_index_or self.now.blocks cell [] }
    {
        match self.blocks.get(cell as usize) {
            Some(blocks) => blocks.as_slice(),
            None => &[],
        }
    }

    /// The number of pairs of atoms in a tile.
    pub fn pairs(&self, tile: Tile) -> u64
        ensures { result ≡ length (pairs_in self.now.members (tile.first, tile.second)) }
    {
        let atoms = self.atoms(tile.first);
        if tile.first == tile.second {
            count_among(atoms)
        } else {
            count_between(atoms, self.atoms(tile.second))
        }
    }

    /// The pair of atoms with the number `k` in a tile. The caller ensures that there is one.
    pub fn pair(&self, tile: Tile, k: u64) -> AtomPair
        requires { k < length (pairs_in self.now.members (tile.first, tile.second)) }
        ensures { slice_get (pairs_in self.now.members (tile.first, tile.second)) k ≡ Some (result.low, result.high) }
    {
        let atoms = self.atoms(tile.first);
        if tile.first == tile.second {
            pair_among(atoms, k)
        } else {
            pair_between(atoms, self.atoms(tile.second), k)
        }
    }

    // The rows of a tile in order, from the pair `k` on.
    fn rows_from(&self, tile: Tile, k: u64) -> TileRows<'_>
        requires { k ≤ length (pairs_in self.now.members (tile.first, tile.second)) }
        ensures pairs { result.pairs ≡ drop k (pairs_in self.now.members (tile.first, tile.second)) }
        ensures others { result.others ≡ members_at self.now.members tile.second }
        ensures few { length (pairs_in self.now.members (tile.first, tile.second)) < 2 ^ 64 }
    {
        let atoms = self.atoms(tile.first);
        if tile.first == tile.second {
            walk_among(atoms, k)
        } else {
            walk_between(atoms, self.atoms(tile.second), k)
        }
    }
}

// ---- pairs that may interact

impl<A: Allocator + Copy> Cells<A> {
    ghost use Rattle.std.specs.Prelude.{◌≡◌, ◌≢◌, ◌+◌, ◌*◌, ◌<◌, ◌≤◌, ◌++◌, IfSome, drop, length, take, None};
    ghost use Rattle.cell_tiles.specs.Cells.{AreBeside, cell_number, members_of};
    ghost use Rattle.cell_tiles.specs.Near.{AreNearIn, ArePairsIn, acting_in};
    ghost use Rattle.cell_tiles.specs.Tiles.{members_at, pairs_between, pairs_with};
    ghost use Rattle.place_blocks.specs.Blocks.{AreInSpan};
    ghost use Rattle.ring_box.specs.declared.vectors.Place3.{Place3};

    // Appends the pairs of a row of a tile, or of the rest of one, that may interact, as long as there is room. Returns
    // the number of pairs of the row that were examined.
    #[tactic(auto, using(crate::proofs::NearLemmas::first_inside))]
    fn list_row(
        &self,
        frame: &FrameInBox,
        tile: Tile,
        row: &TileRow<'_>,
        near: &mut PairList,
    ) -> usize
        requires cell { tile.second < cells_of self.now.bits }
        requires members { self.now.members ≡ members_of self.now.bits frame.now.places.now }
        requires beside { AreBeside frame.now.places.now self.now }
        requires there { 0 < length row.now.others.now }
        requires part { row.now.others.now
            ≡ take (length row.now.others.now) (drop row.now.column (members_at self.now.members tile.second)) }
        requires within { row.now.column + length row.now.others.now ≤ length (members_at self.now.members tile.second) }
        requires pairs { ArePairsIn frame.now (pairs_with row.now.atom row.now.others.now) }
        ensures acting { acting_in frame.now near.new
            ≡ acting_in frame.now near.old ++ acting_in frame.now (take result (pairs_with row.now.atom row.now.others.now)) }
        ensures listed { ArePairsIn frame.now near.old → ArePairsIn frame.now near.new }
        ensures within { result ≤ length row.now.others.now }
        ensures onward { length near.old ≤ 64 → 0 < result }
        ensures few { length near.new ≤ length near.old + result }
    {
        let place = frame.places[row.atom as usize];
        if tile.first != tile.second
            && frame.ring.is_cell_far(
                frame.reach,
                place,
                self.grid.bits,
                self.grid.numbers(tile.second),
            )
        {
            return row.others.len();
        }
        let halves = UpperHalves::of(place);
        let blocks = self.blocks(tile.second);
        near.add_row(
            frame,
            row.atom,
            halves,
            blocks,
            row.column as usize,
            row.others,
        )
    }

    // Replaces `near` by the pairs of a tile that may interact, from the pair `k` on, row by row. Returns the number of
    // the pair with which to continue.
    fn near_by_rows(&self, frame: &FrameInBox, tile: Tile, k: u64, near: &mut PairList) -> u64
        requires k { k < length (pairs_in self.now.members (tile.first, tile.second)) }
        requires cell { tile.second < cells_of self.now.bits }
        requires members { self.now.members ≡ members_of self.now.bits frame.now.places.now }
        requires beside { AreBeside frame.now.places.now self.now }
        requires pairs { ArePairsIn frame.now (pairs_in self.now.members (tile.first, tile.second)) }
        ensures near { AreNearIn frame.now (pairs_in self.now.members (tile.first, tile.second)) k near.new result }
        ensures listed { ArePairsIn frame.now near.new }
    {
        near.clear();
        let mut rows = self.rows_from(tile, k);
        let mut next = k;
        while let Some(row) = rows.next() {
            let seen = self.list_row(frame, tile, &row, near);
            next += seen as u64;
            if seen < row.others.len() {
                return next;
            }
        }
        next
    }

    // The span of the coarse coordinates in a cell.
    fn span(&self, cell: u32) -> CellSpan
        requires { cell < cells_of self.now.bits }
        ensures { (p : Place3) → ArePlaces p → cell_number self.now.bits p ≡ cell → AreInSpan result p }
    {
        CellSpan::of(self.grid.bits, self.grid.numbers(cell))
    }

    // The row of a tile of two cells that begins with the pair `k`; `None` if `k` begins no row, if the tile is one
    // cell, or if the second cell has more than 128 atoms.
    #[tactic(auto, using(crate::proofs::NumberLemmas::between_row, crate::proofs::NumberLemmas::between_some, crate::proofs::PairLemmas::pairs_of_two))]
    fn short_row(&self, tile: Tile, k: u64) -> Option<usize>
        requires { k < length (pairs_in self.now.members (tile.first, tile.second)) }
        ensures two { IfSome result (λ row. tile.first ≢ tile.second) }
        ensures row { IfSome result (λ row. row < length (members_at self.now.members tile.first)) }
        ensures begins { IfSome result (λ row. row * length (members_at self.now.members tile.second) ≡ k) }
        ensures few { IfSome result (λ row. length (members_at self.now.members tile.second) ≤ 128) }
    {
        if tile.first == tile.second {
            return None;
        }
        let width = self.atoms(tile.second).len() as u64;
        if width <= 128 && k % width == 0 {
            Some((k / width) as usize)
        } else {
            None
        }
    }

    // Replaces `near` by the pairs of a tile of two cells that may interact, from the beginning of a row on. Only atoms
    // of the second cell that may interact with some atom of the first are considered, and conversely. The second cell
    // has at most 128 atoms. Returns the number of the pair with which to continue.
    fn near_between(&self, frame: &FrameInBox, tile: Tile, row: usize, near: &mut NearPairs) -> u64
        requires row { row < length (members_at self.now.members tile.first) }
        requires few { length (members_at self.now.members tile.second) ≤ 128 }
        requires some { 0 < length (members_at self.now.members tile.second) }
        requires first { tile.first < cells_of self.now.bits }
        requires second { tile.second < cells_of self.now.bits }
        requires members { self.now.members ≡ members_of self.now.bits frame.now.places.now }
        requires beside { AreBeside frame.now.places.now self.now }
        requires pairs { ArePairsIn frame.now
            (pairs_between (members_at self.now.members tile.first) (members_at self.now.members tile.second)) }
        ensures near { AreNearIn frame.now
            (pairs_between (members_at self.now.members tile.first) (members_at self.now.members tile.second))
            (row * length (members_at self.now.members tile.second)) near.new result }
        ensures listed { ArePairsIn frame.now near.new }
    {
        let others = self.atoms(tile.second);
        near.gathered.gather(
            frame,
            others,
            self.blocks(tile.second),
            &self.span(tile.first),
        );
        near.marks.clear();
        let next = near.marks.mark_cell(
            frame,
            &near.gathered,
            &self.span(tile.second),
            self.atoms(tile.first),
            self.blocks(tile.first),
            row,
        );
        near.list.resolve(&near.marks, near.gathered.atoms());
        next as u64 * others.len() as u64
    }

    /// Replaces `near` by the pairs of a tile that interact, from the pair `k` on, in order, with some that may not: at
    /// most 128 in all. Returns the number of the pair with which to continue. The caller ensures that the cells hold
    /// the atoms of the frame, and that there is a pair `k`.
    #[tactic(auto, using(crate::proofs::MemberLemmas::cell_inside, crate::proofs::NumberLemmas::between_some, crate::proofs::PairLemmas::pairs_of_two))]
    pub fn near_from(&self, frame: &FrameInBox, tile: Tile, k: u64, near: &mut NearPairs) -> u64
        requires k { k < length (pairs_in self.now.members (tile.first, tile.second)) }
        requires cell { tile.second < cells_of self.now.bits }
        requires members { self.now.members ≡ members_of self.now.bits frame.now.places.now }
        requires beside { AreBeside frame.now.places.now self.now }
        requires pairs { ArePairsIn frame.now (pairs_in self.now.members (tile.first, tile.second)) }
        ensures near { AreNearIn frame.now (pairs_in self.now.members (tile.first, tile.second)) k near.new result }
        ensures listed { ArePairsIn frame.now near.new }
    {
        match self.short_row(tile, k) {
            Some(row) => self.near_between(frame, tile, row, near),
            None => self.near_by_rows(frame, tile, k, &mut near.list),
        }
    }
}
