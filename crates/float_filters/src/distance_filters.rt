//! The filter of distances: four distances at once, if all of them are sure.

ghost use Rattle.std.specs.Prelude.{false, ◌≡◌, ◌^◌, ◌<◌, max, IfSome};
ghost use Rattle.float_filters.specs.DistanceFilters.{AreDistances, IsMargin, IsScale, margin_prop};
ghost use Rattle.float_filters.specs.Near.{IsNear};
ghost use Rattle.float_filters.specs.Propositions.{near_prop};

use crate::distance_lanes::distances;
use crate::lengths::{near_margin, near_products, near_ratio, near_reach};
use std::simd::prelude::*;

/// The filter of distances up to a reach. A distance is the root of a square, times a dividend, divided by a divisor,
/// and rounded down; the squares are at most a limit. The filter decides no distance below the core.
#[derive(Clone, Copy)]
pub struct DistanceFilter {
    pub limit: u128,
    pub dividend: u32,
    pub divisor: u32,
    pub core: u64,
    pub factor: f64,
    pub margin: f64,

    ghost scale: { IsScale limit dividend divisor },
    ghost core_some: { 0 < core },
    ghost core_few: { core < 2 ^ 51 },
    ghost factor_is: { IsNear 1 factor dividend divisor } by { near_prop 1 false factor dividend divisor },
    ghost margin_is: { IsMargin limit dividend divisor margin } by { margin_prop limit dividend divisor margin },
}

impl DistanceFilter {
    /// The filter of distances whose squares are at most a limit. The core is below 2^51; a core of 0 counts as 1.
    pub fn new(limit: u128, dividend: u32, divisor: u32, core: u64) -> DistanceFilter
        requires scale { IsScale limit dividend divisor }
        requires core { core < 2 ^ 51 }
        ensures limit { result.limit ≡ limit }
        ensures dividend { result.dividend ≡ dividend }
        ensures divisor { result.divisor ≡ divisor }
        ensures core { result.core ≡ max core 1 }
    {
        let factor = near_ratio(dividend, divisor);
        DistanceFilter {
            limit,
            dividend,
            divisor,
            core: core.max(1),
            factor,
            margin: near_margin(near_reach(limit), factor),
        }
    }

    /// The distances of four pairs from the lengths of their lines, if all are sure and none is below the core.
    #[inline(always)]
    pub fn distances(&self, lengths: f64x4) -> Option<[i64; 4]>
        ensures { IfSome result (λ z. AreDistances self.now.core self.now.limit self.now.dividend self.now.divisor lengths z) }
    {
        distances(near_products(lengths, self.factor), self.margin, self.core)
    }
}
