//! The cells in which the pairs of kept lists are found.

ghost use Rattle.std.specs.Prelude.{◌≡◌, ◌≤◌, ◌*◌, ◌^◌, ◌≤ℤ◌, ◌<ℤ◌, pos, length, IfOk, IfSome, OnOk};
ghost use Rattle.fixed.specs.Fractions.{bits_of};
ghost use Rattle.pair_lists.specs.Margins.{AreKept, IsMargin};
ghost use Rattle.ring_box.specs.Cells.{NearAreNeighbours};

use crate::listed_pairs::ListedPairs;
use crate::listing::list_all;
use crate::margins::Margin;
use cell_tiles::{Cells, FrameInBox, NearPairs, Tiles};
use fixed::{Frac, Fx};
use place_blocks::CoarseReach;
use ring_box::{Place3, RingBox};
use std::alloc::{AllocError, Allocator};
use std::marker::Model;

/// A margin, and cells that are at least as long as cutoff and margin. Contracts see the margin.
///
/// Where the cells for the cutoff have no room for the margin, these are longer: half as many along the side.
#[derive(Drop)]
pub(crate) struct WideCells<A: Allocator + Copy> {
    margin: Margin,
    tiles: Tiles<A>,
    cells: Cells<A>,
}

impl<A: Allocator + Copy> Model for WideCells<A> {
    ghost use Rattle.std.specs.Prelude.{◌≡◌};
    ghost use Rattle.pair_lists.specs.declared.margins.Margin.{Margin};

    ghost Value = { Margin };

    ghost view = { λ w. w.margin };

    ghost invariant = { λ w. (w.tiles.grid.bits ≡ w.margin.grid.bits) × (w.cells.bits ≡ w.margin.grid.bits) };
}

impl<A: Allocator + Copy> WideCells<A> {
    /// Empty cells for the margin of a box; `None` if the box has none. `AllocError`: memory ran out.
    pub(crate) fn new(
        alloc: A,
        ring: &RingBox,
        frac: Frac,
        core: Fx,
        cutoff: Fx,
    ) -> Result<Option<WideCells<A>>, AllocError>
        requires core { pos 0 ≤ℤ core }
        requires order { core <ℤ cutoff }
        requires most { cutoff ≤ℤ pos (80 * 2 ^ bits_of frac) }
        ensures { IfOk result (λ wide_cells. IfSome wide_cells (IsMargin ring.now (record { frac = frac; core = core; cutoff = cutoff }))) }
    {
        let Some(margin) = Margin::of(ring, frac, core, cutoff) else {
            return Ok(None);
        };
        let tiles = Tiles::new(alloc, margin.grid)?;
        let cells = Cells::new(alloc, margin.grid)?;
        Ok(Some(WideCells {
            margin,
            tiles,
            cells,
        }))
    }

    /// The margin.
    pub(crate) fn margin(&self) -> &Margin
        ensures { result.now ≡ self.now }
    {
        &self.margin
    }

    /// Replaces the lists by those of the pairs of a frame of at most 65,536 atoms, up to the margin, in the order for
    /// this many workers. `AllocError`: memory ran out.
    pub(crate) fn list(
        &mut self,
        ring: &RingBox,
        near: &mut NearPairs,
        frame: &[Place3],
        workers: usize,
        lists: &mut ListedPairs<A>,
    ) -> Result<(), AllocError>
        requires few { length frame.now ≤ 65536 }
        requires neighbours { NearAreNeighbours self.old.reach.frac ring.now self.old.reach.cutoff self.old.grid.bits }
        ensures kept { OnOk result (AreKept ring.now self.old frame.now lists.new.lists) }
        ensures same { self.new ≡ self.old }
    {
        self.cells.fill(frame)?;
        let reach = &self.margin.reach;
        let frame = FrameInBox {
            ring,
            reach,
            coarse: CoarseReach::new(ring, reach),
            places: frame,
        };
        list_all(&self.cells, &self.tiles, &frame, near, lists)?;
        lists.spread(workers);
        Ok(())
    }
}
