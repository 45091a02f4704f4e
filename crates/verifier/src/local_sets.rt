//! Sets of locals.

ghost use Rattle.std.specs.Prelude.{◌≡◌, ℕ, false, true, ◌&&◌, replicate, length, slice_index_or, slice_set};

use std::marker::Model;

/// A set of the 256 locals. In contracts, it is the list of its 256 membership flags.
#[derive(Clone, Copy)]
pub struct Locals {
    members: [bool; 256],
}

impl Model for Locals {
    ghost use Rattle.std.specs.Prelude.{List, Bool, length, ◌≡◌};

    ghost Value = { List Bool };

    ghost view = { λ l. l.members };

    ghost invariant = { λ l. length l.members ≡ 256 };

    ghost inverse = { λ bs. record { members = bs } };
}

impl Locals {
    /// The empty set.
    pub fn new() -> Locals
        ensures { result ≡ replicate 256 false }
    {
        Locals {
            members: [false; 256],
        }
    }

    /// Whether the local is in the set.
    pub fn contains(&self, local: u8) -> bool
        ensures { result ≡ slice_index_or self.now local false }
    {
        self.members[local as usize]
    }

    /// The set with this local added.
    pub fn with(&self, local: u8) -> Locals
        ensures { result ≡ slice_set self.now local true }
    {
        let mut members = self.members;
        members[local as usize] = true;
        Locals { members }
    }

    /// The locals that are in both sets.
    pub fn intersection(&self, other: &Locals) -> Locals
        ensures long { length result ≡ length other.now }
        ensures members { (k : ℕ) → slice_index_or result k false ≡ (slice_index_or self.now k false && slice_index_or other.now k false) }
    {
        let mut members = self.members;
        for k in 0..256 {
            members[k] = members[k] && other.members[k];
        }
        Locals { members }
    }
}
