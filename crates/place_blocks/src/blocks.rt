//! Blocks of the coarse coordinates of sixteen atoms.
//!
//! A block is three arrays, which become vectors when it is tested. The first test waits once for lanes that were just
//! written one by one; selecting each lane of a vector would cost more.

use crate::upper_halves::UpperHalves;
use ring_box::Place3;

/// The coarse coordinates of sixteen atoms by axis, one lane for each atom.
#[derive(Clone, Copy)]
pub struct Block {
    pub x: [u16; 16],
    pub y: [u16; 16],
    pub z: [u16; 16],
}

impl Block {
    ghost use Rattle.std.specs.Prelude.{ℕ, ◌≡◌, ◌≢◌, ◌<◌, slice_index_or};
    ghost use Rattle.place_blocks.specs.Blocks.{IsLane, halves_at};
    ghost use Rattle.ring_box.specs.Places.{no_place};

    /// A block whose lanes are all 0.
    #[inline(always)]
    pub fn empty() -> Block
        ensures { (k : ℕ) → k < 16 → IsLane result k no_place }
    {
        Block {
            x: [0; 16],
            y: [0; 16],
            z: [0; 16],
        }
    }

    /// The block of the first sixteen of these positions; lanes beyond the last position are 0.
    pub fn of(places: &[Place3]) -> Block
        ensures { (k : ℕ) → k < 16 → IsLane result k (slice_index_or places.now k no_place) }
    {
        let mut x = [0; 16];
        let mut y = [0; 16];
        let mut z = [0; 16];
        for i in 0..places.len().min(16) {
            let halves = UpperHalves::of(places[i]);
            x[i] = halves.x;
            y[i] = halves.y;
            z[i] = halves.z;
        }
        Block { x, y, z }
    }

    /// The coarse coordinates in a lane.
    #[inline(always)]
    pub fn at(&self, lane: usize) -> UpperHalves
        requires { lane < 16 }
        ensures { result ≡ halves_at self.now lane }
    {
        UpperHalves {
            x: self.x[lane],
            y: self.y[lane],
            z: self.z[lane],
        }
    }

    /// Replaces the coarse coordinates in a lane.
    #[inline(always)]
    pub fn set(&mut self, lane: usize, halves: UpperHalves)
        requires { lane < 16 }
        ensures here { halves_at self.new lane ≡ halves }
        ensures others { (k : ℕ) → k ≢ lane → halves_at self.new k ≡ halves_at self.old k }
    {
        self.x[lane] = halves.x;
        self.y[lane] = halves.y;
        self.z[lane] = halves.z;
    }
}
