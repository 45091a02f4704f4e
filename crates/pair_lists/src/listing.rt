//! Lists of the pairs of all tiles that may interact.

ghost use Rattle.std.specs.Prelude.{◌≡◌, ◌<◌, ◌++◌, OnOk, All};
ghost use Rattle.cell_tiles.specs.Cells.{AreBeside, cells_of, members_of};
ghost use Rattle.cell_tiles.specs.Near.{ArePairsIn, acting_in};
ghost use Rattle.cell_tiles.specs.Tiles.{pairs_in};
ghost use Rattle.pair_lists.specs.Lists.{all_pairs, pairs_of, tiles_in};

use crate::listed_pairs::ListedPairs;
use cell_tiles::{Cells, FrameInBox, NearPairs, Tile, Tiles};
use std::alloc::{AllocError, Allocator};

// The fewest pairs of a list, except for the last. Tiles with fewer pairs share a list, so that no empty tile is visited
// and most batches are full. A worker claims a list as a whole: with much longer lists, the workers of a small system
// would wait for the last.
const FEWEST: usize = 256;

// Appends the pairs of a tile that may interact.
fn list_tile<A: Allocator + Copy>(
    cells: &Cells<A>,
    frame: &FrameInBox,
    tile: Tile,
    near: &mut NearPairs,
    lists: &mut ListedPairs<A>,
) -> Result<(), AllocError>
    requires cell { tile.second < cells_of cells.now.bits }
    requires members { cells.now.members ≡ members_of cells.now.bits frame.now.places.now }
    requires beside { AreBeside frame.now.places.now cells.now }
    requires pairs { ArePairsIn frame.now (pairs_in cells.now.members (tile.first, tile.second)) }
    requires inside { All (ArePairsIn frame.now) lists.old.lists }
    requires rest { ArePairsIn frame.now lists.old.rest }
    ensures acting { OnOk result (acting_in frame.now (pairs_of lists.new)
        ≡ acting_in frame.now (pairs_of lists.old) ++ acting_in frame.now (pairs_in cells.now.members (tile.first, tile.second))) }
    ensures inside { OnOk result (All (ArePairsIn frame.now) lists.new.lists) }
    ensures rest { OnOk result (ArePairsIn frame.now lists.new.rest) }
{
    let pairs = cells.pairs(tile);
    let mut k = 0;
    while k < pairs {
        k = cells.near_from(frame, tile, k, near);
        lists.append(near.as_slice())?;
    }
    lists.close_from(FEWEST)
}

/// Replaces the lists by those of the pairs that interact, tile by tile, with some that may not. The caller ensures that
/// the cells hold the atoms of the frame. `AllocError`: memory ran out.
pub(crate) fn list_all<A: Allocator + Copy>(
    cells: &Cells<A>,
    tiles: &Tiles<A>,
    frame: &FrameInBox,
    near: &mut NearPairs,
    lists: &mut ListedPairs<A>,
) -> Result<(), AllocError>
    requires grid { cells.now.bits ≡ tiles.now.grid.bits }
    requires members { cells.now.members ≡ members_of cells.now.bits frame.now.places.now }
    requires beside { AreBeside frame.now.places.now cells.now }
    requires pairs { All (ArePairsIn frame.now) (tiles_in cells.now) }
    ensures acting { OnOk result (acting_in frame.now (all_pairs lists.new.lists)
        ≡ acting_in frame.now (all_pairs (tiles_in cells.now))) }
    ensures inside { OnOk result (All (ArePairsIn frame.now) lists.new.lists) }
{
    lists.clear();
    for tile in 0..tiles.len() {
        list_tile(cells, frame, tiles.get(tile), near, lists)?;
    }
    lists.close_from(1)
}
