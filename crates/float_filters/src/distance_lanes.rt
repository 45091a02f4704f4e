//! Distances in floating point, for four pairs at once: floors of roots.

ghost use Rattle.std.specs.Prelude.{◌^◌, ◌<◌, IfSome};
ghost use Rattle.float_filters.specs.DistanceFloors.{AreFloorsOfRoots, AreRootFloors};

use crate::conversions::exact_u64;
use crate::floor_lanes::{MIDDLE, floors, integers};
use crate::vectors::{are_all_set, are_at_least, both, half_less, minus};
use std::simd::prelude::*;

/// Floats that hold the floors of four products, each plus 3 * 2^51, and a mask of the lanes in which they are right. A
/// margin is about 2^-49 of the greatest product.
#[inline(always)]
fn root_floors(products: f64x4, margins: f64x4) -> (f64x4, Mask<i64, 4>)
    ensures { AreRootFloors products margins result.0 result.1 }
{
    floors(products, half_less(margins), minus(margins, 0.5))
}

/// The floors of four products; none if one isn't sure or is less than the core. The margin is about 2^-49 of the
/// greatest product.
///
/// The contract leaves open when there are none; this only decides how often the exact form runs.
#[inline(always)]
pub fn distances(products: f64x4, margin: f64, core: u64) -> Option<[i64; 4]>
    requires some { 0 < core }
    requires few { core < 2 ^ 51 }
    ensures { IfSome result (λ v. AreFloorsOfRoots products margin core v) }
{
    let (t, sure) = root_floors(products, f64x4::splat(margin));
    let far = are_at_least(t, exact_u64(core) + MIDDLE);
    if are_all_set(both(sure, far)) {
        Some(integers(t))
    } else {
        None
    }
}
