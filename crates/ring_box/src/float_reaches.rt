//! The range of distances at which pairs interact, in floating point.

ghost use Rattle.std.specs.Prelude.{◌≡◌, nat_lt};
ghost use Rattle.float_filters.specs.Near.{IsNear};
ghost use Rattle.ring_box.specs.FloatSeparations.{grid_square};

use crate::boxes::RingBox;
use crate::reaches::Reach;
use crate::separations::GridSeparation;
use float_filters::{FloatLimit, around, near_reach};

/// The limit of squares and its root in floating point: an interval around the limit, and a float near the root.
#[derive(Clone, Copy)]
pub(crate) struct FloatReach {
    pub limit: FloatLimit,
    pub longest: f64,
}

impl Reach {
    ghost use Rattle.ring_box.specs.Acting.{limit_of};
    ghost use Rattle.ring_box.specs.FloatReaches.{IsNearReach};

    /// The reach in floating point.
    pub(crate) fn in_floats(&self) -> FloatReach
        ensures { IsNearReach self.now result }
    {
        let limit = self.limit();
        FloatReach {
            limit: around(limit),
            longest: near_reach(limit),
        }
    }

    /// Whether a separation's square is below the limit, in exact arithmetic.
    #[cold]
    #[inline(never)]
    fn is_in_reach(&self, ring: &RingBox, grid: &GridSeparation) -> bool
        ensures { result ≡ nat_lt (grid_square ring.now grid.now) (limit_of self.now.frac self.now.cutoff) }
    {
        ring.scaled(*grid).square() < self.limit()
    }

    /// Whether a separation's square is below the limit; the float `square` is near it. Exact arithmetic decides only
    /// next to the limit.
    #[inline(always)]
    pub(crate) fn reaches(
        &self,
        near: FloatReach,
        square: f64,
        ring: &RingBox,
        grid: &GridSeparation,
    ) -> bool
        requires reach { IsNearReach self.now near }
        requires square { IsNear 5 square (grid_square ring.now grid.now) 1 }
        ensures { result ≡ nat_lt (grid_square ring.now grid.now) (limit_of self.now.frac self.now.cutoff) }
    {
        let verdict = near.limit.compare(square);
        if verdict.sure {
            verdict.below
        } else {
            self.is_in_reach(ring, grid)
        }
    }
}
