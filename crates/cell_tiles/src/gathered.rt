//! Gathered atoms: those atoms of a cell that may interact with some atom of another cell, copied from the cell's
//! blocks into contiguous blocks.
//!
//! In a tile of two cells, the atoms of the second cell are gathered once per call, and the atoms of the first that may
//! reach the second are found sixteen at once. So a box whose cells are much longer than the cutoff costs hardly more
//! than a box whose cells fit the cutoff. A row whose pairs don't all fit the list is left to the next call, so such a
//! call ends at the end of a row.

ghost use Rattle.std.specs.Prelude.{◌≡◌, ℕ, ◌+◌, ◌^◌, ◌<◌, ◌≤◌, ◌++◌, Bool, true, List, length, map, slice_index, All};
ghost use Rattle.place_blocks.specs.Blocks.{AreInSpan};
ghost use Rattle.ring_box.specs.Places.{places_of};
ghost use Rattle.ring_box.specs.declared.vectors.Place3.{Place3};
ghost use Rattle.cell_tiles.specs.Cells.{AreBlocks, AreInBlocks, AreLanes};
ghost use Rattle.cell_tiles.specs.Near.{IsPairOf, acting_in, lanes_of};
ghost use Rattle.cell_tiles.specs.Tiles.{pairs_with};

use crate::lanes::{bits_of, next_lane};
use crate::near::FrameInBox;
use place_blocks::{Block, CellSpan};
use std::marker::Model;

/// At most 128 atoms, in order, and their coarse coordinates in blocks of sixteen.
#[derive(Drop)]
pub(crate) struct Gathered {
    atoms: [u32; 128],
    blocks: [Block; 8],
    count: usize,
}

impl Model for Gathered {
    ghost use Rattle.std.specs.Prelude.{◌≡◌, ◌≤◌, length, take};
    ghost use Rattle.cell_tiles.specs.Cells.{BlockAtoms};

    ghost Value = { BlockAtoms };

    ghost view = { λ g. record { atoms = take g.count g.atoms; blocks = g.blocks } };

    ghost invariant = { λ g. g.count ≤ 128 };
}

impl Gathered {
    ghost use Rattle.std.specs.Prelude.{[]};

    /// No atoms.
    pub(crate) fn new() -> Gathered
        ensures { result.atoms ≡ [] }
    {
        Gathered {
            atoms: [0; 128],
            blocks: [Block::empty(); 8],
            count: 0,
        }
    }

    /// The gathered atoms, at most 128.
    #[inline(always)]
    pub(crate) fn atoms(&self) -> &[u32]
        ensures value { result.now ≡ self.now.atoms }
        ensures few { length result.now ≤ 128 }
    {
        &self.atoms[..self.count]
    }

    /// The blocks; the atoms have their first lanes.
    #[inline(always)]
    pub(crate) fn blocks(&self) -> &[Block]
        ensures value { result.now ≡ self.now.blocks }
        ensures long { length result.now ≡ 8 }
    {
        &self.blocks
    }

    // Appends the atoms whose bits in `marked` are set. `atoms` has the first lanes of this block.
    #[tactic(auto, using(crate::proofs::LaneLemmas::lane_below))]
    #[inline(always)]
    fn add_marked(&mut self, block: &Block, atoms: &[u32], marked: u64)
        requires few { length atoms.now ≤ 16 }
        requires room { length self.old.atoms + length atoms.now ≤ 128 }
        requires marked { marked < 2 ^ length atoms.now }
        ensures atoms { self.new.atoms ≡ self.old.atoms ++ map (λ j. slice_index atoms.now j) (lanes_of marked) }
        ensures lanes { (frame : List Place3) → AreInBlocks frame self.old.blocks 0 self.old.atoms → AreLanes frame block.now 0 atoms.now
            → AreInBlocks frame self.new.blocks 0 self.new.atoms }
    {
        let mut count = self.count;
        let mut left = marked;
        while left != 0 {
            let (lane, rest) = next_lane(left);
            self.atoms[count] = atoms[lane];
            self.blocks[count / 16].set(count % 16, block.at(lane));
            count += 1;
            left = rest;
        }
        self.count = count;
    }

    /// Replaces the gathered atoms by the atoms of a list of at most 128 that may interact with some atom in this span.
    /// `blocks` has the coarse coordinates of `atoms`.
    pub(crate) fn gather(
        &mut self,
        frame: &FrameInBox,
        atoms: &[u32],
        blocks: &[Block],
        span: &CellSpan,
    )
        requires few { length atoms.now ≤ 128 }
        requires beside { AreBlocks frame.now.places.now atoms.now blocks.now }
        ensures lanes { AreInBlocks frame.now.places.now self.new.blocks 0 self.new.atoms }
        ensures those { (p : ℕ → Bool) → All (λ a. p a ≡ true) atoms.now → All (λ a. p a ≡ true) self.new.atoms }
        ensures pairs { (n a : ℕ) → All (IsPairOf n) (pairs_with a atoms.now) → All (IsPairOf n) (pairs_with a self.new.atoms) }
        ensures acting { (a : ℕ) → AreInSpan span.now (places_of frame.now.places.now a)
            → acting_in frame.now (pairs_with a self.new.atoms)
            ≡ acting_in frame.now (pairs_with a atoms.now) }
    {
        self.count = 0;
        let mut seen = 0;
        while seen < atoms.len() {
            let end = atoms.len().min(seen + 16);
            let block = &blocks[seen / 16];
            let near = frame.coarse.near_cell(block, span);
            self.add_marked(block, &atoms[seen..end], bits_of(near, 0, end - seen));
            seen = end;
        }
    }
}
