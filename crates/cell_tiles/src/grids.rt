//! The division of a box into cells, and the numbering of the cells.

ghost use Rattle.std.specs.Prelude.{◌≡◌, ◌^◌, ◌<◌, ◌≤◌, false};
ghost use Rattle.cell_tiles.specs.Cells.{IsBits, IsGrid, are_near, cell_number, cells_of, numbers_of};
ghost use Rattle.cell_tiles.specs.Tiles.{AreFar};
ghost use Rattle.ring_box.specs.Acting.{AreCellNumbers};
ghost use Rattle.ring_box.specs.Places.{ArePlaces};

use ring_box::{CellBits, CellNumbers, Place3, are_near_cells, cell};

/// The division of a box into cells: each side into 2^b cells, `b` from 1 to 4.
#[derive(Clone, Copy, PartialEq, Eq, Debug)]
pub struct Grid {
    /// The `b` of each side.
    pub bits: CellBits,
    pub ghost in_range: { IsGrid bits },
}

// The number of cells along a side.
#[tactic(auto, using(crate::proofs::CellLemmas::along_bound))]
fn along(b: u32) -> u32
    requires { IsBits b }
    ensures value { result ≡ 2 ^ b }
    ensures positive { 0 < result }
    ensures bound { result ≤ 16 }
{
    1 << b
}

impl Grid {
    /// The grid with these bits, each from 1 to 4, as `RingBox::cell_bits` returns them.
    pub fn new(bits: CellBits) -> Grid
        requires { IsGrid bits }
        ensures { result.bits ≡ bits }
    {
        Grid { bits }
    }

    /// The number of cells, at most 4,096.
    pub fn cells(&self) -> u32
        ensures value { result ≡ cells_of self.now.bits }
        ensures bound { result ≤ 4096 }
    {
        along(self.bits.x) * along(self.bits.y) * along(self.bits.z)
    }

    /// The number of the cell that contains an atom at `p`.
    pub fn cell_of(&self, p: Place3) -> u32
        ensures value { result ≡ cell_number self.now.bits p }
        ensures bound { result < cells_of self.now.bits }
        ensures on_ring { ArePlaces p }
    {
        let CellBits { x, y, z } = self.bits;
        let (i, j, k) = (cell(p.x, x), cell(p.y, y), cell(p.z, z));
        (i * along(y) + j) * along(z) + k
    }

    // The indices of a cell along the sides.
    pub(crate) fn numbers(&self, c: u32) -> CellNumbers
        requires { c < cells_of self.now.bits }
        ensures value { result ≡ numbers_of self.now.bits c }
        ensures cell { AreCellNumbers self.now.bits result }
    {
        let rows = along(self.bits.y);
        let columns = along(self.bits.z);
        CellNumbers {
            x: c / columns / rows,
            y: c / columns % rows,
            z: c % columns,
        }
    }

    // Whether two cells are equal or neighbours.
    pub(crate) fn are_near(&self, c: u32, d: u32) -> bool
        requires c { c < cells_of self.now.bits }
        requires d { d < cells_of self.now.bits }
        ensures { result ≡ are_near self.now.bits c d }
    {
        let CellBits { x, y, z } = self.bits;
        let c = self.numbers(c);
        let d = self.numbers(d);
        are_near_cells(x, c.x, d.x) && are_near_cells(y, c.y, d.y) && are_near_cells(z, c.z, d.z)
    }

    // The next cell after `c` that may be near `d`; `c` itself isn't. A slab or a row without any cell near `d` is
    // skipped as a whole.
    pub(crate) fn past_far(&self, c: u32, d: u32) -> u32
        requires order { c ≤ d }
        requires d { d < cells_of self.now.bits }
        requires far { are_near self.now.bits c d ≡ false }
        ensures after { c < result }
        ensures order { result ≤ d }
        ensures far { AreFar self.now.bits d c result }
    {
        let CellBits { x, y, .. } = self.bits;
        let rows = along(y);
        let columns = along(self.bits.z);
        let here = self.numbers(c);
        let other = self.numbers(d);
        if !are_near_cells(x, here.x, other.x) {
            (here.x + 1) * rows * columns
        } else if !are_near_cells(y, here.y, other.y) {
            (c / columns + 1) * columns
        } else {
            c + 1
        }
    }
}
