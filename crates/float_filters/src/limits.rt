//! Comparison of a square with a limit, in floating point.

ghost use Rattle.std.specs.Prelude.{ℕ, ◌≡◌, nat_lt, IsTrue};
ghost use Rattle.float_filters.specs.Limits.{IsAround};
ghost use Rattle.float_filters.specs.Near.{IsNear};

use crate::conversions::near_u128;

// 1 - 2^-49 and 1 + 2^-49. Nine roundings change a number by less than 2^-49 of it.
const LESS: f64 = 1.0 - 1.0 / 562949953421312.0;

const MORE: f64 = 1.0 + 1.0 / 562949953421312.0;

/// The ends of an interval around a limit. Squares in between aren't decided.
#[derive(Clone, Copy)]
pub struct FloatLimit {
    pub low: f64,
    pub high: f64,
}

/// The result of a comparison with a limit: whether the square is below it, if that is sure.
#[derive(Clone, Copy)]
pub struct Comparison {
    pub below: bool,
    pub sure: bool,
}

/// The interval around `limit`.
pub fn around(limit: u128) -> FloatLimit
    ensures { IsAround limit result }
{
    let near = near_u128(limit);
    FloatLimit {
        low: near * LESS,
        high: near * MORE,
    }
}

impl FloatLimit {
    /// Whether a square is below the limit, if the float `square` is near it with five roundings.
    #[inline(always)]
    pub fn compare(self, square: f64) -> Comparison
        ensures { (s limit : ℕ) → IsAround limit self → IsNear 5 square s 1 → IsTrue result.sure → result.below ≡ nat_lt s limit }
    {
        let below = square < self.low;
        let above = square > self.high;
        // Never both. With `|` the compiler makes a branch of each, and `below` can't be predicted.
        Comparison {
            below,
            sure: below != above,
        }
    }
}
