//! The coarse coordinates of the atoms of each cell, in blocks of sixteen that are tested at once.

ghost use Rattle.std.specs.Prelude.{◌≡◌, ℕ, ◌+◌, ◌*◌, ◌<◌, length, map, slice_index, OnOk, All};
ghost use Rattle.place_blocks.specs.Blocks.{IsLane};
ghost use Rattle.ring_box.specs.Places.{places_of};
ghost use Rattle.cell_tiles.specs.Cells.{AreBlocks, AreBlocksOfEach};

use place_blocks::Block;
use ring_box::Place3;
use std::alloc::{AllocError, Allocator};

// The block of the first sixteen of these atoms of a frame.
fn block_of(atoms: &[u32], frame: &[Place3]) -> Block
    requires { All (λ a. a < length frame.now) atoms.now }
    ensures { (i : ℕ) → i < 16 → i < length atoms.now → IsLane result i (places_of frame.now (slice_index atoms.now i)) }
{
    let mut places = [Place3 { x: 0, y: 0, z: 0 }; 16];
    for i in 0..atoms.len().min(16) {
        places[i] = frame[atoms[i] as usize];
    }
    Block::of(&places)
}

// Replaces `blocks` by the blocks of these atoms of a frame.
fn lay_out<A: Allocator + Copy>(
    blocks: &mut Vec<Block, A>,
    atoms: &[u32],
    frame: &[Place3],
) -> Result<(), AllocError>
    requires { All (λ a. a < length frame.now) atoms.now }
    ensures { OnOk result (AreBlocks frame.now atoms.now blocks.new.items) }
{
    blocks.clear();
    for block in 0..atoms.len().div_ceil(16) {
        blocks.push(block_of(&atoms[16 * block..], frame))?;
    }
    Ok(())
}

/// Replaces `blocks` by the blocks of the atoms of each cell. `AllocError` if an allocation fails.
pub(crate) fn lay_out_all<A: Allocator + Copy>(
    blocks: &mut Vec<Vec<Block, A>, A>,
    members: &[Vec<u32, A>],
    frame: &[Place3],
) -> Result<(), AllocError>
    requires cells { length blocks.old.items ≡ length members.now }
    requires inside { All (λ m. All (λ a. a < length frame.now) m.items) members.now }
    ensures blocks { OnOk result (AreBlocksOfEach frame.now (map (λ m. m.items) members.now) (map (λ b. b.items) blocks.new.items)) }
    ensures cells { length blocks.new.items ≡ length blocks.old.items }
{
    for cell in 0..members.len() {
        lay_out(&mut blocks[cell], members[cell].as_slice(), frame)?;
    }
    Ok(())
}
