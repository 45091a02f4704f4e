//! The margin beyond the cutoff, up to which pairs are listed.

ghost use Rattle.std.specs.Prelude.{ℕ, ◌≡◌, ◌<◌, ◌*◌, ◌^◌, ◌+ℤ◌, ◌≤ℤ◌, ◌<ℤ◌, pos, length, IsTrue, IfSome, All};
ghost use Rattle.fixed.specs.Fractions.{bits_of};
ghost use Rattle.ring_box.specs.Distances.{square_of};
ghost use Rattle.ring_box.specs.Places.{ArePlaces, places_of};
ghost use Rattle.pair_lists.specs.Margins.{IsMargin};

use cell_tiles::Grid;
use fixed::{Frac, Fx};
use ring_box::{Place3, Reach, RingBox};

/// The margin of pair lists, a twelfth of the cutoff in all. Longer lists serve longer, and cost more at each step.
#[derive(Clone, Copy)]
pub(crate) struct Margin {
    /// Half the margin in nm. Lists serve as long as each atom is nearer than this to where it was.
    pub half: Fx,
    /// The range of distances at which pairs are listed: to the cutoff and the margin.
    pub reach: Reach,
    /// The square of half the margin, in units of (10^-5 nm / 2^32)^2: of an atom that is nearer, the square is below.
    pub limit: u128,
    /// The cells in which pairs are found: each is at least as long as cutoff and margin.
    pub grid: Grid,
}

// Half the margin for a cutoff.
fn half_margin(cutoff: Fx) -> Fx
    requires { pos 0 <ℤ cutoff }
    ensures low { pos 0 ≤ℤ result }
    ensures high { result ≤ℤ cutoff }
{
    Fx::from_raw(cutoff.raw() / 24)
}

// The cutoff and the margin.
fn with_margin(cutoff: Fx, half: Fx) -> Fx
    requires cutoff { cutoff ≤ℤ pos (2 ^ 60) }
    requires low { pos 0 ≤ℤ half }
    requires high { half ≤ℤ cutoff }
    ensures { result ≡ cutoff +ℤ half +ℤ half }
{
    Fx::from_raw(cutoff.raw() + 2 * half.raw())
}

// Whether a cutoff is at most 80 nm.
fn is_in_range(frac: Frac, cutoff: Fx) -> bool
    ensures { IsTrue result → cutoff ≤ℤ pos (80 * 2 ^ bits_of frac) }
{
    cutoff.raw() <= 80 * frac.one()
}

impl Margin {
    /// The margin for a box. `None` if half the margin is 0, if cutoff and margin exceed 80 nm, or if a side is less than
    /// twice as long as both together.
    pub(crate) fn of(ring: &RingBox, frac: Frac, core: Fx, cutoff: Fx) -> Option<Margin>
        requires core { pos 0 ≤ℤ core }
        requires order { core <ℤ cutoff }
        requires most { cutoff ≤ℤ pos (80 * 2 ^ bits_of frac) }
        ensures { IfSome result (IsMargin ring.now (record { frac = frac; core = core; cutoff = cutoff })) }
    {
        let half = half_margin(cutoff);
        let listed = with_margin(cutoff, half);
        if half.raw() == 0 || !is_in_range(frac, listed) || !ring.has_room(frac, listed) {
            return None;
        }
        Some(Margin {
            half,
            reach: Reach::new(frac, core, listed),
            limit: Reach::new(frac, Fx::from_raw(0), half).limit(),
            grid: Grid::new(ring.cell_bits(frac, listed)),
        })
    }

    // Whether an atom at `now` is nearer than half the margin to where it was, at `from`.
    fn has_stayed(&self, ring: &RingBox, from: Place3, now: Place3) -> bool
        ensures near { IsTrue result → square_of ring.now from now < self.now.limit }
        // Known by the type, and stated here for `covers`.
        ensures on_ring { ArePlaces now }
    {
        ring.square(from, now) < self.limit
    }

    /// Whether each atom is nearer than half the margin to where it was in the frame `from`.
    pub(crate) fn covers(&self, ring: &RingBox, from: &[Place3], frame: &[Place3]) -> bool
        requires { length from.now ≡ length frame.now }
        ensures on_ring { IsTrue result → All ArePlaces frame.now }
        ensures near { IsTrue result → (a : ℕ) → a < length frame.now
            → square_of ring.now (places_of from.now a) (places_of frame.now a) < self.now.limit }
    {
        for a in 0..frame.len() {
            if !self.has_stayed(ring, from[a], frame[a]) {
                return false;
            }
        }
        true
    }
}
