//! Pairs of a frame that may interact.
//!
//! The list misses no interacting pair (`AreNear`); that it has few others only matters for speed. A row may be tested
//! from either atom, since the interaction of two atoms is symmetric (`idle_turned`, proved in `ring_box`).

ghost use Rattle.std.specs.Prelude.{◌≡◌, ◌≤◌, length, map, All};
ghost use Rattle.place_blocks.specs.Blocks.{IsCoarseReach};
ghost use Rattle.ring_box.specs.Places.{ArePlaces};

use crate::gathered::Gathered;
use crate::lists::PairList;
use crate::marks::Marks;
use place_blocks::CoarseReach;
use ring_box::{AtomPair, Place3, Reach, RingBox};
use std::marker::Model;

/// The positions of a frame's atoms in a box, and the reach of the pair force.
#[derive(Clone, Copy)]
pub struct FrameInBox<'a> {
    pub ring: &'a RingBox,
    pub reach: &'a Reach,
    /// The result of `CoarseReach::new` for this box and this reach.
    pub coarse: CoarseReach,
    pub places: &'a [Place3],
    pub ghost on_ring: { All ArePlaces places.now },
    pub ghost is_coarse: { ∥ IsCoarseReach reach.now ring.now coarse ∥₁ },
}

/// At most 128 pairs of atoms, in order, and work space for listing them. Contracts see the list of pairs.
#[derive(Drop)]
pub struct NearPairs {
    pub(crate) list: PairList,
    // atoms of a cell that may interact with some atom of another cell
    pub(crate) gathered: Gathered,
    // marks of pairs with gathered atoms
    pub(crate) marks: Marks,
}

impl Model for NearPairs {
    ghost use Rattle.std.specs.Prelude.{ℕ, List};

    ghost Value = { List (ℕ × ℕ) };

    ghost view = { λ n. n.list };
}

impl NearPairs {
    ghost use Rattle.std.specs.Prelude.{[]};

    /// An empty list.
    pub fn new() -> NearPairs
        ensures { result ≡ [] }
    {
        NearPairs {
            list: PairList::new(),
            gathered: Gathered::new(),
            marks: Marks::new(),
        }
    }

    /// The pairs, in order.
    pub fn as_slice(&self) -> &[AtomPair]
        ensures value { map (λ p. (p.low, p.high)) result.now ≡ self.now }
        ensures few { length result.now ≤ 128 }
    {
        self.list.as_slice()
    }
}
