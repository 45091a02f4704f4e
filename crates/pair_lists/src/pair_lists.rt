//! The pairs of the frame that was prepared last, tile by tile.
//!
//! Lists are made once enough frames in a row were near the first of them: then they are likely to serve the next ones
//! too. If atoms move farther than half the margin from frame to frame, or if there is one frame only, no list is made,
//! and each tile's pairs are found in the cells.

ghost use Rattle.std.specs.Prelude.{◌≡◌, ◌<◌, ◌≤◌, ◌*◌, ◌^◌, ◌≤ℤ◌, ◌<ℤ◌, pos, true, false, drop, length, map, slice_get, Some, IfOk, IsTrue, OnOk, All};
ghost use Rattle.fixed.specs.Fractions.{bits_of};
ghost use Rattle.ring_box.specs.Cells.{has_room};
ghost use Rattle.cell_tiles.specs.Near.{AreNear, IsPairOf};
ghost use Rattle.pair_lists.specs.PairLists.{IsPrepared, list_at, lists_of};

use crate::listed_pairs::ListedPairs;
use crate::wide_cells::WideCells;
use cell_tiles::{Cells, FrameInBox, Grid, NearPairs, Tiles};
use fixed::{Frac, Fx};
use place_blocks::CoarseReach;
use ring_box::{AtomPair, Place3, Reach, RingBox};
use std::alloc::{AllocError, Allocator};
use std::marker::Model;

/// The pairs of a frame that may interact, in tiles: all pairs of each tile's cells, or lists that are kept.
#[derive(Drop)]
pub struct PairLists<A: Allocator + Copy> {
    ring: RingBox,
    reach: Reach,
    tiles: Tiles<A>,
    cells: Cells<A>,
    // none if the box has no room for a margin
    wide_cells: Option<WideCells<A>>,
    lists: ListedPairs<A>,
    // the frame in which the lists were made, or the first of the frames in a row that are near it
    reference: Vec<Place3, A>,
    kept: bool,
    // the number of frames in a row that were near the reference, with it
    served: u32,
}

impl<A: Allocator + Copy> Model for PairLists<A> {
    ghost use Rattle.pair_lists.specs.PairLists.{FitTogether, PreparedPairs};

    ghost Value = { PreparedPairs };

    ghost view = { λ p. record { ring = p.ring; reach = p.reach; cells = p.cells; lists = p.lists.lists; kept = p.kept } };

    ghost invariant = { λ p. FitTogether
        (record { ring = p.ring; reach = p.reach; cells = p.cells; lists = p.lists.lists; kept = p.kept })
        p.tiles.grid.bits p.wide_cells p.reference.items };
}

// Makes a frame the reference. `AllocError`: memory ran out.
fn set_reference<A: Allocator>(
    reference: &mut Vec<Place3, A>,
    frame: &[Place3],
) -> Result<(), AllocError>
    ensures { OnOk result (reference.new.items ≡ frame.now) }
{
    reference.clear();
    reference.extend_from_slice(frame)
}

impl<A: Allocator + Copy> PairLists<A> {
    /// No pairs yet, for this box and range of distances. The caller ensures 0 <= `core` < `cutoff` <= 80 nm, and that
    /// each side is at least twice the cutoff. `AllocError`: memory ran out.
    pub fn new(
        alloc: A,
        ring: RingBox,
        frac: Frac,
        core: Fx,
        cutoff: Fx,
    ) -> Result<PairLists<A>, AllocError>
        requires core { pos 0 ≤ℤ core }
        requires order { core <ℤ cutoff }
        requires most { cutoff ≤ℤ pos (80 * 2 ^ bits_of frac) }
        requires room { has_room frac ring cutoff ≡ true }
        ensures ring { IfOk result (λ p. p.ring ≡ ring) }
        ensures reach { IfOk result (λ p. p.reach ≡ record { frac = frac; core = core; cutoff = cutoff }) }
    {
        let grid = Grid::new(ring.cell_bits(frac, cutoff));
        let tiles = Tiles::new(alloc, grid)?;
        let cells = Cells::new(alloc, grid)?;
        Ok(PairLists {
            ring,
            reach: Reach::new(frac, core, cutoff),
            tiles,
            cells,
            wide_cells: WideCells::new(alloc, &ring, frac, core, cutoff)?,
            lists: ListedPairs::new(alloc),
            reference: Vec::new(alloc),
            kept: false,
            served: 0,
        })
    }

    // Puts the atoms of a frame into the cells, and keeps no list. `AllocError`: memory ran out.
    fn fill(&mut self, frame: &[Place3]) -> Result<(), AllocError>
        requires { length frame.now ≤ 65536 }
        ensures prepared { OnOk result (IsPrepared self.new frame.now) }
        ensures cells { self.new.kept ≡ false }
        ensures ring { self.new.ring ≡ self.old.ring }
        ensures reach { self.new.reach ≡ self.old.reach }
    {
        self.kept = false;
        self.cells.fill(frame)
    }

    // Lists the pairs of a frame with the margin, if there is one. `AllocError`: memory ran out.
    fn list(
        &mut self,
        near: &mut NearPairs,
        frame: &[Place3],
        workers: usize,
    ) -> Result<(), AllocError>
        requires { length frame.now ≤ 65536 }
        ensures prepared { OnOk result (IsPrepared self.new frame.now) }
        ensures ring { self.new.ring ≡ self.old.ring }
        ensures reach { self.new.reach ≡ self.old.reach }
    {
        self.kept = false;
        self.served = 0;
        let Some(wide_cells) = &mut self.wide_cells else {
            return self.fill(frame);
        };
        set_reference(&mut self.reference, frame)?;
        wide_cells.list(&self.ring, near, frame, workers, &mut self.lists)?;
        self.kept = true;
        self.served = 1;
        Ok(())
    }

    // Whether each atom is nearer than half the margin to where it was in the reference. Then lists that are kept serve
    // this frame too.
    fn is_near(&self, frame: &[Place3]) -> bool
        ensures { IsTrue result → IsTrue self.now.kept → IsPrepared self.now frame.now }
    {
        match &self.wide_cells {
            Some(wide_cells) => {
                self.reference.len() == frame.len()
                    && wide_cells
                        .margin()
                        .covers(&self.ring, self.reference.as_slice(), frame)
            }
            None => false,
        }
    }

    // The fewest frames that lists must serve to save time: 2, or 16 if their cells are longer than those for the cutoff,
    // in which finding pairs takes up to eight times as long. `None`: there is no margin.
    fn least_served(&self) -> Option<u32> {
        let wide_cells = self.wide_cells.as_ref()?;
        Some(if wide_cells.margin().grid == self.tiles.grid {
            2
        } else {
            16
        })
    }

    /// Prepares a frame of at most 65,536 atoms: the other functions return its pairs. `near` is work space. New lists
    /// are ordered for this many workers. `AllocError`: memory ran out, and no frame is prepared.
    pub fn prepare(
        &mut self,
        near: &mut NearPairs,
        frame: &[Place3],
        workers: usize,
    ) -> Result<(), AllocError>
        requires { length frame.now ≤ 65536 }
        ensures prepared { OnOk result (IsPrepared self.new frame.now) }
        ensures ring { self.new.ring ≡ self.old.ring }
        ensures reach { self.new.reach ≡ self.old.reach }
    {
        let Some(least) = self.least_served() else {
            return self.fill(frame);
        };
        let is_near = self.is_near(frame);
        if is_near {
            self.served = self.served.saturating_add(1);
        }
        if is_near && self.kept {
            return Ok(());
        }
        if self.served >= least {
            return self.list(near, frame, workers);
        }
        self.fill(frame)?;
        if is_near {
            return Ok(());
        }
        self.served = 1;
        set_reference(&mut self.reference, frame)
    }
}

// ---- the pairs of the frame that was prepared last

impl<A: Allocator + Copy> PairLists<A> {
    /// Whether the pairs are those of lists that are kept.
    pub fn are_kept(&self) -> bool
        ensures { result ≡ self.now.kept }
    {
        self.kept
    }

    /// The number of tiles.
    pub fn tiles(&self) -> u64
        ensures value { result ≡ length (lists_of self.now) }
        ensures few { result < 2 ^ 63 }
    {
        if self.kept {
            self.lists.len()
        } else {
            self.tiles.len()
        }
    }

    /// The number of pairs of a tile.
    pub fn pairs(&self, tile: u64) -> u64
        requires { tile < length (lists_of self.now) }
        ensures { result ≡ length (list_at self.now tile) }
    {
        if self.kept {
            self.lists.list(tile).len() as u64
        } else {
            self.cells.pairs(self.tiles.get(tile))
        }
    }

    /// The pair with the number `k` of a tile.
    pub fn pair(&self, tile: u64, k: u64) -> AtomPair
        requires tile { tile < length (lists_of self.now) }
        requires pair { k < length (list_at self.now tile) }
        ensures { slice_get (list_at self.now tile) k ≡ Some (result.low, result.high) }
    {
        if self.kept {
            self.lists.list(tile)[k as usize]
        } else {
            self.cells.pair(self.tiles.get(tile), k)
        }
    }

    /// The pairs of a kept list from the pair `k` on.
    pub fn kept_from(&self, tile: u64, k: u64) -> &[AtomPair]
        requires kept { self.now.kept ≡ true }
        requires tile { tile < length (lists_of self.now) }
        requires start { k < length (list_at self.now tile) }
        ensures pairs { map (λ p. (p.low, p.high)) result.now ≡ drop k (list_at self.now tile) }
        ensures few { length (list_at self.now tile) < 2 ^ 64 }
    {
        let list = self.lists.list(tile);
        let end = list.len();
        let start = k as usize;
        &list[start..end]
    }

    /// Replaces `near` by the pairs of a tile that interact, from the pair `k` on, in order, with some that may not: at
    /// most 128 in all. Returns the number of the pair with which to continue.
    pub fn near_from(&self, frame: &[Place3], tile: u64, k: u64, near: &mut NearPairs) -> u64
        requires cells { self.now.kept ≡ false }
        requires prepared { IsPrepared self.now frame.now }
        requires tile { tile < length (lists_of self.now) }
        requires start { k < length (list_at self.now tile) }
        ensures near { AreNear self.now.reach self.now.ring frame.now (list_at self.now tile) k near.new result }
        ensures listed { All (IsPairOf (length frame.now)) near.new }
    {
        let frame = FrameInBox {
            ring: &self.ring,
            reach: &self.reach,
            coarse: CoarseReach::new(&self.ring, &self.reach),
            places: frame,
        };
        self.cells.near_from(&frame, self.tiles.get(tile), k, near)
    }
}
