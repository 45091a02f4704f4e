//! Coarse coordinates: the upper 16 of the 32 bits of a grid coordinate. In the code's names they are *upper halves*.

ghost use Rattle.std.specs.Prelude.{◌≡◌, ◌*◌, ◌-◌, ◌^◌, ◌≤◌};
ghost use Rattle.ring_box.specs.Acting.{IsCellNumber};
ghost use Rattle.place_blocks.specs.Blocks.{IsUpperHalf};

use ring_box::{CellBits, CellNumbers, Place3};

/// The coarse coordinates of an atom along each axis.
#[derive(Clone, Copy, PartialEq, Eq, Debug)]
pub struct UpperHalves {
    pub x: u16,
    pub y: u16,
    pub z: u16,
}

/// A span of coarse coordinates along each axis, such as the coordinates in a cell: `width` of them from `first` on.
#[derive(Clone, Copy, PartialEq, Eq, Debug)]
pub struct CellSpan {
    pub first: UpperHalves,
    pub width: UpperHalves,
}

#[inline(always)]
fn upper_half(x: u32) -> u16
    ensures { IsUpperHalf result x }
{
    (x >> 16) as u16
}

impl UpperHalves {
    ghost use Rattle.place_blocks.specs.Blocks.{AreUpperHalves};

    /// The coarse coordinates of an atom at `place`.
    #[inline(always)]
    pub fn of(place: Place3) -> UpperHalves
        ensures { AreUpperHalves result place }
    {
        UpperHalves {
            x: upper_half(place.x),
            y: upper_half(place.y),
            z: upper_half(place.z),
        }
    }
}

#[tactic(auto, using(std::proofs::lemmas::Nat::pow_pos, crate::proofs::BlockLemmas::cell_fits))]
fn first_half(b: u32, cell: u32) -> u16
    requires { IsCellNumber b cell }
    ensures { result ≡ cell * 2 ^ (16 - b) }
{
    (cell << (16 - b)) as u16
}

fn halves_of_a_cell(b: u32) -> u16
    requires some { 1 ≤ b }
    requires few { b ≤ 4 }
    ensures { result ≡ 2 ^ (16 - b) }
{
    1 << (16 - b)
}

impl CellSpan {
    ghost use Rattle.std.specs.Prelude.{◌≡◌};
    ghost use Rattle.ring_box.specs.Acting.{AreCellNumbers, AreInCell};
    ghost use Rattle.place_blocks.specs.Blocks.{AreInSpan, cell_span_of};
    ghost use Rattle.ring_box.specs.declared.vectors.Place3.{Place3};

    /// The span of the coarse coordinates in a cell, given by its indices along the sides. The sides are cut into
    /// 2^bits cells, 1 to 4 bits each.
    #[tactic(auto, using(crate::proofs::BlockLemmas::in_cell))]
    pub fn of(bits: CellBits, cell: CellNumbers) -> CellSpan
        requires { AreCellNumbers bits cell }
        ensures value { result ≡ cell_span_of bits cell }
        ensures whole { (q : Place3) → AreInCell bits cell q → AreInSpan result q }
    {
        CellSpan {
            first: UpperHalves {
                x: first_half(bits.x, cell.x),
                y: first_half(bits.y, cell.y),
                z: first_half(bits.z, cell.z),
            },
            width: UpperHalves {
                x: halves_of_a_cell(bits.x),
                y: halves_of_a_cell(bits.y),
                z: halves_of_a_cell(bits.z),
            },
        }
    }
}
