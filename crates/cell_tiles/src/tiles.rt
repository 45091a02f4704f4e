//! Tiles: pairs of neighbouring cells, and each cell with itself.
//!
//! The tiles are made once for a grid. For each cell all cells up to it are tried, and slabs and rows without a
//! neighbour are skipped: about 400,000 tests for 4,096 cells.
//!
//! Four tiles in a row come from the four quarters of the list by cells, so from four distant parts of the box. The aim
//! is speed: workers that draw tiles at the same time add to the forces of different cells, and seldom wait for a cache
//! line that another worker holds.

ghost use Rattle.std.specs.Prelude.{◌≡◌, ◌<◌, ◌≤◌, ◌++◌, drop, length, map, slice_get, take, Some, IfOk, OnOk};
ghost use Rattle.cell_tiles.specs.Cells.{cells_of};
ghost use Rattle.cell_tiles.specs.Tiles.{by_halves, by_quarters, in_turn, tiles_of, tiles_with};

use crate::grids::Grid;
use std::alloc::{AllocError, Allocator};

/// Two neighbouring cells, or one cell twice; the first number is at most the second.
#[derive(Clone, Copy, PartialEq, Eq, Debug)]
pub struct Tile {
    pub first: u32,
    pub second: u32,
}

/// All tiles of a grid: each pair of neighbouring cells, and each cell with itself, once.
#[derive(Drop)]
pub struct Tiles<A: Allocator + Copy> {
    /// The grid of the cells.
    pub grid: Grid,
    tiles: Vec<Tile, A>,
    ghost are_all: { map (λ t. (t.first, t.second)) tiles.items ≡ tiles_of grid.bits },
}

// Appends the tiles of the cell `d` with the cells up to it.
fn add_tiles_with<A: Allocator + Copy>(
    tiles: &mut Vec<Tile, A>,
    grid: &Grid,
    d: u32,
) -> Result<(), AllocError>
    requires { d < cells_of grid.now.bits }
    ensures { OnOk result (map (λ t. (t.first, t.second)) tiles.new.items
        ≡ map (λ t. (t.first, t.second)) tiles.old.items ++ tiles_with grid.now.bits d) }
{
    let mut c = 0;
    while c <= d {
        if grid.are_near(c, d) {
            tiles.push(Tile {
                first: c,
                second: d,
            })?;
            c += 1;
        } else {
            c = grid.past_far(c, d);
        }
    }
    Ok(())
}

// Appends the tile number `k` of the list, if there is one.
fn add_tile<A: Allocator + Copy>(
    tiles: &mut Vec<Tile, A>,
    list: &[Tile],
    k: usize,
) -> Result<(), AllocError>
    ensures { OnOk result (tiles.new.items ≡ tiles.old.items ++ take 1 (drop k list.now)) }
{
    if k < list.len() {
        tiles.push(list[k])?;
    }
    Ok(())
}

// A tile of each list in turn, then the rest of the longer list.
#[tactic(auto, using(crate::proofs::TurnLaws::turn_more, crate::proofs::TurnLaws::turn_all))]
fn in_turn<A: Allocator + Copy>(
    alloc: A,
    first: &[Tile],
    second: &[Tile],
) -> Result<Vec<Tile, A>, AllocError>
    ensures { IfOk result (λ tiles. tiles.items ≡ in_turn first.now second.now) }
{
    let mut tiles = Vec::new(alloc);
    for k in 0..first.len().max(second.len()) {
        add_tile(&mut tiles, first, k)?;
        add_tile(&mut tiles, second, k)?;
    }
    Ok(tiles)
}

// The tiles of the two halves of the list in turn.
fn by_halves<A: Allocator + Copy>(alloc: A, tiles: &[Tile]) -> Result<Vec<Tile, A>, AllocError>
    ensures { IfOk result (λ mixed. mixed.items ≡ by_halves tiles.now) }
{
    let half = tiles.len() / 2;
    in_turn(alloc, &tiles[..half], &tiles[half..])
}

// The tiles of the four quarters of the list in turn.
fn by_quarters<A: Allocator + Copy>(alloc: A, tiles: &[Tile]) -> Result<Vec<Tile, A>, AllocError>
    ensures { IfOk result (λ mixed. mixed.items ≡ by_quarters tiles.now) }
{
    let half = tiles.len() / 2;
    let first = by_halves(alloc, &tiles[..half])?;
    let second = by_halves(alloc, &tiles[half..])?;
    in_turn(alloc, &first, &second)
}

impl<A: Allocator + Copy> Tiles<A> {
    /// The tiles of this grid. `AllocError` if an allocation fails.
    #[tactic(auto, using(crate::proofs::TileLemmas::all_none, crate::proofs::TileLemmas::all_more, crate::proofs::TileLemmas::all_turned))]
    pub fn new(alloc: A, grid: Grid) -> Result<Tiles<A>, AllocError>
        ensures { IfOk result (λ t. t.grid ≡ grid) }
    {
        let mut by_cell = Vec::new(alloc);
        for d in 0..grid.cells() {
            add_tiles_with(&mut by_cell, &grid, d)?;
        }
        Ok(Tiles {
            grid,
            tiles: by_quarters(alloc, &by_cell)?,
        })
    }

    /// The number of tiles.
    pub fn len(&self) -> u64
        ensures { result ≡ length (tiles_of self.now.grid.bits) }
    {
        self.tiles.len() as u64
    }

    /// The tile with this number. The caller ensures that there is one.
    pub fn get(&self, tile: u64) -> Tile
        requires { tile < length (tiles_of self.now.grid.bits) }
        ensures value { slice_get (tiles_of self.now.grid.bits) tile ≡ Some (result.first, result.second) }
        ensures order { result.first ≤ result.second }
        ensures bound { result.second < cells_of self.now.grid.bits }
    {
        self.tiles[tile as usize]
    }
}
