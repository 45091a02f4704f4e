//! The type of intervals.
ghost use Rattle.std.specs.Prelude.{◌≡◌, ◌≤ℤ◌, ◌↔◌, IsSome, IfSome, IsTrue};

use fixed::Fx;

/// A closed interval of fixed-point numbers: all raw values from `lo` to `hi`. It is never empty.
#[derive(Clone, Copy, PartialEq, Eq, Debug)]
pub struct Span {
    /// The least member.
    pub lo: Fx,
    /// The greatest member.
    pub hi: Fx,
    ghost ordered: { lo ≤ℤ hi },
}

impl Span {
    ghost use Rattle.interval_domain.specs.Spans.{IsMember};

    /// The interval with these ends; `None` if `lo` is above `hi`.
    pub fn new(lo: Fx, hi: Fx) -> Option<Span>
        ensures ordered { IsSome result ↔ (lo ≤ℤ hi) }
        ensures ends { IfSome result (λ s. (s.lo ≡ lo) × (s.hi ≡ hi)) }
    {
        if lo.raw() <= hi.raw() {
            Some(Span { lo, hi })
        } else {
            None
        }
    }

    /// The interval of one number.
    pub fn single(x: Fx) -> Span
        ensures lo { result.lo ≡ x }
        ensures hi { result.hi ≡ x }
    {
        Span { lo: x, hi: x }
    }

    /// Whether `x` is a member.
    pub fn contains(self, x: Fx) -> bool
        ensures { IsTrue result ↔ IsMember x self }
    {
        self.lo.raw() <= x.raw() && x.raw() <= self.hi.raw()
    }
}
