//! The work of a round: tiles of pairs of atoms, and the forces that the pairs add.

ghost use Rattle.std.specs.Prelude.{◌≡◌, ◌+◌, ◌<◌, ◌≤◌, ℕ, List, length, slice_get, Option, Some, IfSome, All};
ghost use Rattle.rounds.specs.declared.work.PairAdd.{PairAdd};
ghost use Rattle.rounds.specs.Tiles.{additions_of, along, against, pairs_at, AreNextActing, IsPairOf};

/// The force of an interacting pair, as it is added: the force itself to the atom `low`, its negative to the atom
/// `high`.
#[derive(Clone, Copy, PartialEq, Eq, Default, Debug)]
pub struct PairAdd {
    /// The index of the atom on which the force acts, from 0: the lower of the two.
    pub low: u32,
    /// The index of the atom on which the negative force acts: the higher of the two.
    pub high: u32,
    /// The components of the force on `low` along x, y and z, in units of 2^-bits kJ/mol/nm for a job with that many
    /// fraction bits.
    pub force: [i64; 3],
}

impl PairAdd {
    /// The number of additions that an interacting pair makes.
    pub const PARTS: usize = 6;

    /// The entry of the sums and the amount, modulo 2^64, of an addition of the pair; `part` is its number below 6. The
    /// first three additions are the force on `low`, the last three its negative on `high`. The entry of component
    /// `axis` of atom `a` is `3a + axis`.
    pub fn addition(&self, part: usize) -> (usize, u64)
        requires { part < 6 }
        ensures { slice_get (additions_of (Some self.now)) part ≡ Some result }
    {
        if part < 3 {
            (3 * self.low as usize + part, self.along(part))
        } else {
            let axis = part - 3;
            (3 * self.high as usize + axis, self.against(axis))
        }
    }

    // The component of the force along `axis`, modulo 2^64.
    fn along(&self, axis: usize) -> u64
        requires { axis < 3 }
        ensures { result ≡ along self.now.force axis }
    {
        self.force[axis].cast_unsigned()
    }

    // The negative of the component of the force along `axis`, modulo 2^64.
    fn against(&self, axis: usize) -> u64
        requires { axis < 3 }
        ensures { result ≡ against self.now.force axis }
    {
        self.force[axis].wrapping_neg().cast_unsigned()
    }
}

/// Work that is cut into tiles, each a list of pairs of atoms. The results depend only on the value, which a loan by
/// `&self` doesn't change.
pub trait Work {
    /// The tiles, each with its pairs in order. A pair that doesn't interact is `None`.
    ghost plan: { Self → List (List (Option PairAdd)) };

    /// The number of atoms.
    ghost atoms: { Self → ℕ };

    /// The number of tiles.
    fn tiles(&self) -> u64
        ensures { result ≡ length (plan self.now) };

    /// The number of pairs of a tile. The caller ensures that there is such a tile.
    fn pairs(&self, tile: u64) -> u64
        requires { tile < length (plan self.now) }
        ensures { result ≡ length (pairs_at (plan self.now) tile) };

    /// The force of a pair of a tile, by the pair's number in the tile, or `None` if the pair doesn't interact. `low`
    /// is less than `high`, and both are below the number of atoms. The caller ensures that there is such a tile, and
    /// such a pair in it.
    fn pair(&self, tile: u64, k: u64) -> Option<PairAdd>
        requires tile { tile < length (plan self.now) }
        requires pair { k < length (pairs_at (plan self.now) tile) }
        ensures planned { slice_get (pairs_at (plan self.now) tile) k ≡ Some result }
        ensures atoms { IfSome result (IsPairOf (atoms self.now)) };
}

/// Work that returns the forces of its pairs in batches. The caller lends one `S` per worker as scratch memory, which
/// holds the forces of the last batch, outlives a step and changes no result.
///
/// `S` is a parameter of the trait and no associated type, since a closure that holds a value of such a type can't be
/// handed to a thread. `next_adds` isn't a call of `Work`, since the state machine of a round doesn't need it.
pub trait RowWork<S>: Work {
    /// The forces that a scratch holds, in order.
    ghost held: { S → List PairAdd };

    /// Replaces the forces that the scratch holds by the forces of the next interacting pairs from the pair `k` on, in
    /// order. Returns the number of the pair with which the next call continues. The caller ensures that there is such
    /// a tile, and that it has more than `k` pairs.
    fn next_adds(&self, scratch: &mut S, tile: u64, k: u64) -> u64
        requires tile { tile < length (Self.plan self.now) }
        requires start { k < length (pairs_at (Self.plan self.now) tile) }
        ensures next { AreNextActing (pairs_at (Self.plan self.now) tile) k (held scratch.new) result }
        ensures atoms { All (IsPairOf (Self.atoms self.now)) (held scratch.new) };

    /// The number of forces that the scratch holds.
    fn count(&self, scratch: &S) -> usize
        ensures { result ≡ length (held scratch.now) };

    /// The force with this index among the forces that the scratch holds. The caller ensures that there is such a
    /// force.
    fn add_at(&self, scratch: &S, l: usize) -> PairAdd
        requires { l < length (held scratch.now) }
        ensures { slice_get (held scratch.now) l ≡ Some result };
}
