//! A table of the set bits of each byte. A look-up needs no loop over bits, whose end a processor would mispredict.

ghost use Rattle.std.specs.Prelude.{◌<◌, ℕ, slice_index_or};
ghost use Rattle.cell_tiles.specs.Near.{AreByteLanes, no_byte};

use crate::lanes::next_lane;

/// The set bits of a byte as lanes, ascending: the first `count` of eight entries are valid.
#[derive(Clone, Copy)]
pub(crate) struct ByteLanes {
    pub lanes: [u8; 8],
    pub count: usize,
}

/// The lanes of a byte, by a loop over its bits.
#[tactic(auto, using(crate::proofs::LaneLemmas::length_lanes))]
fn lanes_of_byte(byte: u64) -> ByteLanes
    requires { byte < 256 }
    ensures { AreByteLanes byte result }
{
    let mut lanes = [0; 8];
    let mut count = 0;
    let mut left = byte;
    while left != 0 {
        let (lane, rest) = next_lane(left);
        lanes[count] = lane as u8;
        count += 1;
        left = rest;
    }
    ByteLanes { lanes, count }
}

/// The lanes of all 256 bytes.
#[derive(Drop)]
pub(crate) struct ByteTable {
    pub bytes: [ByteLanes; 256],
    ghost each: { (b : ℕ) → b < 256 → AreByteLanes b (slice_index_or bytes b no_byte) },
}

impl ByteTable {
    /// The table, filled.
    pub(crate) fn new() -> ByteTable {
        let none = ByteLanes {
            lanes: [0; 8],
            count: 0,
        };
        let mut bytes = [none; 256];
        for b in 0..256 {
            bytes[b] = lanes_of_byte(b as u64);
        }
        ByteTable { bytes }
    }
}
