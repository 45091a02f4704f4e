//! Constants: numbers of a text as they were read.
ghost use Rattle.std.specs.Prelude.{◌≡◌, ◌^◌, ◌<ℤ◌, pos, neg_ℤ};
ghost use Rattle.fixed.specs.Constants.{exactly, negated};

use crate::number::Fx;

/// A number of a text as it was read: the nearest number, and bounds on its error. The error is the number that was
/// read less the decimal of the text, in units of 2^-(bits + 8), 256 to a unit of the raw value. Between the bounds is
/// at most one unit.
#[derive(Clone, Copy)]
pub struct Constant {
    /// The number nearest to the decimal.
    pub value: Fx,
    /// The error, rounded down.
    pub low: i16,
    /// The error, rounded up.
    pub high: i16,
}

impl Constant {
    /// The constant that was read without an error.
    pub fn exactly(value: Fx) -> Constant
        ensures { result ≡ exactly value }
    {
        Constant {
            value,
            low: 0,
            high: 0,
        }
    }

    /// The negative.
    pub fn negated(self) -> Constant
        requires value { neg_ℤ (pos (2 ^ 63)) <ℤ self.value }
        requires low { neg_ℤ (pos (2 ^ 15)) <ℤ self.low }
        requires high { neg_ℤ (pos (2 ^ 15)) <ℤ self.high }
        ensures { result ≡ negated self }
    {
        Constant {
            value: Fx::from_raw(-self.value.raw()),
            low: opposite(self.high),
            high: opposite(self.low),
        }
    }
}

/// `-n`, exact.
pub(crate) fn opposite(n: i16) -> i16
    requires { neg_ℤ (pos (2 ^ 15)) <ℤ n }
    ensures { result ≡ neg_ℤ n }
{
    -n
}
