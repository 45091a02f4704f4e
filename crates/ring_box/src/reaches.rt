//! The range of distances at which pairs interact.

ghost use Rattle.std.specs.Prelude.{◌≡◌, ◌*◌, ◌^◌, ◌<◌, ◌≤ℤ◌, ◌<ℤ◌, pos, unsigned_abs};
ghost use Rattle.fixed.specs.Fractions.{bits_of};
ghost use Rattle.ring_box.specs.Acting.{IsReach, limit_of};

use crate::distances::{distance_by_root, edge};
use crate::forces::outside_core;
use fixed::{Frac, Fx};
use float_filters::DistanceFilter;
use std::marker::Model;

/// The core and the cutoff of a pair force. The square of the cutoff is computed once, so that pairs are rejected by a
/// comparison of squares.
#[derive(Clone, Copy)]
pub struct Reach {
    frac: Frac,
    core: Fx,
    cutoff: Fx,
    limit: u128,
}

impl Model for Reach {
    ghost use Rattle.std.specs.Prelude.{◌≡◌};
    ghost use Rattle.ring_box.specs.Acting.{IsReach, Reach, limit_of};

    ghost Value = { Reach };

    ghost view = { λ r. record { frac = r.frac; core = r.core; cutoff = r.cutoff } };

    ghost inverse = { λ d. record { frac = d.frac; core = d.core; cutoff = d.cutoff; limit = limit_of d.frac d.cutoff } };

    ghost invariant = { λ r. IsReach (record { frac = r.frac; core = r.core; cutoff = r.cutoff }) × (r.limit ≡ limit_of r.frac r.cutoff) };
}

fn limit(frac: Frac, cutoff: Fx) -> u128
    requires positive { pos 0 <ℤ cutoff }
    requires bound { cutoff ≤ℤ pos (80 * 2 ^ bits_of frac) }
    ensures { result ≡ limit_of frac cutoff }
{
    let edge = edge(frac, cutoff);
    let square = edge * edge;
    match frac {
        Frac::F24 | Frac::F32 => square,
        Frac::F40 => square / 65_536 + u128::from(square % 65_536 != 0),
    }
}

impl Reach {
    ghost use Rattle.std.specs.Prelude.{◌≡◌, ◌*◌, ◌^◌, ◌<◌, ◌≤ℤ◌, ◌<ℤ◌, pos};
    ghost use Rattle.std.specs.Int.{int_max};
    ghost use Rattle.fixed.specs.Fractions.{bits_of};
    ghost use Rattle.ring_box.specs.Acting.{IsReach, length_of, limit_of};
    ghost use Rattle.ring_box.specs.Distances.{distance_at, unit_of};
    ghost use Rattle.ring_box.specs.FloatReaches.{IsFilter, scale_of};

    /// The reach with this core and this cutoff, in nm. The caller ensures 0 <= `core` < `cutoff` <= 80 nm.
    pub fn new(frac: Frac, core: Fx, cutoff: Fx) -> Reach
        requires core { pos 0 ≤ℤ core }
        requires order { core <ℤ cutoff }
        requires cutoff { cutoff ≤ℤ pos (80 * 2 ^ bits_of frac) }
        ensures { result ≡ record { frac = frac; core = core; cutoff = cutoff } }
    {
        Reach {
            frac,
            core,
            cutoff,
            limit: limit(frac, cutoff),
        }
    }

    /// The factor of lengths that gives distances: a dividend and a divisor.
    fn ratio(&self) -> (u32, u32)
        ensures { result ≡ (scale_of self.now.frac, unit_of self.now.frac) }
    {
        match self.frac {
            Frac::F24 => (1, 25_600_000),
            Frac::F32 => (1, 100_000),
            Frac::F40 => (256, 100_000),
        }
    }

    /// The filter of the distances of pairs within reach.
    pub(crate) fn filter(&self) -> DistanceFilter
        ensures { IsFilter self.now result }
    {
        let (dividend, divisor) = self.ratio();
        DistanceFilter::new(self.limit(), dividend, divisor, self.core.raw() as u64)
    }

    /// The least square of a separation that is out of reach, in units of (10^-5 nm / 2^32)^2.
    pub fn limit(&self) -> u128
        ensures value { result ≡ limit_of self.now.frac self.now.cutoff }
        ensures reach { IsReach self.now }
    {
        self.limit
    }

    /// The distance in nm at which the force of a pair is evaluated, `s` being the square of its separation and
    /// `length` the length of its line: the pair's own, or the core if that is greater.
    pub(crate) fn distance(&self, s: u128, length: u64) -> Fx
        requires near { s < limit_of self.now.frac self.now.cutoff }
        requires bound { s < 2 ^ 112 }
        requires length { length ≡ length_of s }
        ensures value { result ≡ int_max (pos (distance_at self.now.frac s)) self.now.core }
        ensures low { self.now.core ≤ℤ result }
        ensures high { result <ℤ self.now.cutoff }
    {
        outside_core(
            distance_by_root(self.frac, s, length),
            self.core,
            self.cutoff,
        )
    }
}
