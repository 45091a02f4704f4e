//! Joining and cutting intervals.
ghost use Rattle.std.specs.Prelude.{◌≡◌, pos, ◌≤ℤ◌, ◌<ℤ◌, ◌+ℤ◌, ◌-ℤ◌};
ghost use Rattle.fixed.specs.Arithmetic.{floor_over};
ghost use Rattle.interval_domain.specs.Spans.{AreHalves, ArePartsOf, IsHull};
ghost use Rattle.interval_domain.specs.Ranges.{hull};
ghost use Rattle.interval_domain.specs.Views.{span_range};

use crate::span::Span;
use fixed::{Fx, floor_div};

/// The smallest interval that contains both `a` and `b`.
pub fn hull(a: Span, b: Span) -> Span
    ensures least { IsHull a b result }
    ensures ends { span_range result ≡ hull (span_range a) (span_range b) }
{
    Span {
        lo: fixed::min(a.lo, b.lo),
        hi: fixed::max(a.hi, b.hi),
    }
}

// Half the distance from `lo` to `hi`, rounded down.
fn half_way(lo: Fx, hi: Fx) -> i128
    requires { lo <ℤ hi }
    ensures value { result ≡ floor_over (hi -ℤ lo) 2 }
    ensures low { pos 0 ≤ℤ result }
    ensures high { result <ℤ (hi -ℤ lo) }
{
    floor_div(i128::from(hi.raw()) - i128::from(lo.raw()), 2)
}

// The last number of the lower half.
fn middle(lo: Fx, hi: Fx) -> i64
    requires { lo <ℤ hi }
    ensures value { result ≡ lo +ℤ floor_over (hi -ℤ lo) 2 }
    ensures low { lo ≤ℤ result }
    ensures high { result <ℤ hi }
{
    (i128::from(lo.raw()) + half_way(lo, hi)) as i64
}

/// The two halves of an interval: from `lo` to `lo + (hi - lo) / 2`, rounded down, and from the next number to `hi`.
///
/// The interval must have at least two members.
pub fn halves(span: Span) -> (Span, Span)
    requires { span.lo <ℤ span.hi }
    ensures cut { AreHalves span result.0 result.1 }
    ensures members { ArePartsOf span result.0 result.1 }
{
    let last = middle(span.lo, span.hi);
    let lower = Span {
        lo: span.lo,
        hi: Fx::from_raw(last),
    };
    let upper = Span {
        lo: Fx::from_raw(last + 1),
        hi: span.hi,
    };
    (lower, upper)
}
