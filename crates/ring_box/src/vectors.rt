//! Positions, vectors and cells, by their components along the axes.
//!
//! The axes are named fields, since laws about lists of three numbers would need cases for lists of other lengths.

/// An axis of the box.
#[derive(Clone, Copy, PartialEq, Eq, Debug)]
pub enum Axis {
    X,
    Y,
    Z,
}

/// The position of an atom: its grid coordinate along each axis, an integer below 2^32.
#[derive(Clone, Copy, PartialEq, Eq, Debug)]
pub struct Place3 {
    pub x: u32,
    pub y: u32,
    pub z: u32,
}

/// A vector by its components along the axes. A force is a vector of integers in units of 2^-bits kJ/mol/nm, for a job
/// with that many fraction bits. A vector is generic over its number, since sums of forces need more bits than forces.
#[derive(Clone, Copy, PartialEq, Eq, Debug)]
pub struct Vector<N> {
    pub x: N,
    pub y: N,
    pub z: N,
}

impl<N: Copy> Vector<N> {
    ghost use Rattle.std.specs.Prelude.{◌≡◌};
    ghost use Rattle.ring_box.specs.Axes.{component_along};

    /// The component along an axis.
    pub fn along(&self, axis: Axis) -> N
        ensures { result ≡ component_along axis self.now }
    {
        match axis {
            Axis::X => self.x,
            Axis::Y => self.y,
            Axis::Z => self.z,
        }
    }
}

/// The number of bits that index the cells along each axis.
#[derive(Clone, Copy, PartialEq, Eq, Debug)]
pub struct CellBits {
    pub x: u32,
    pub y: u32,
    pub z: u32,
}

/// The indices of a cell along the axes.
#[derive(Clone, Copy, PartialEq, Eq, Debug)]
pub struct CellNumbers {
    pub x: u32,
    pub y: u32,
    pub z: u32,
}
