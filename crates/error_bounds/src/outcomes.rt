//! Outcomes of several walks: any of the computed values may meet any of the exact values.
ghost use Rattle.std.specs.Prelude.{◌≡◌};
ghost use Rattle.error_bounds.specs.Approximations.{outcomes_of};
ghost use Rattle.error_bounds.specs.Rules.{either_outcomes, of_outcomes};

use crate::approximations::{Approximation, bounded};
use crate::flats::apart;
use interval_domain::{Ends, Span, ends_hull, hull};
use std::marker::Model;

/// The raw values that may be computed, and the exact values, in units of 2^-(bits + 8).
#[derive(Drop)]
pub struct Outcomes {
    computed: Span,
    exact: Ends,
}

impl Model for Outcomes {
    ghost use Rattle.std.specs.Prelude.{◌^◌};
    ghost use Rattle.error_bounds.specs.Approximations as a;

    ghost Value = { a.Outcomes };

    ghost use Rattle.interval_domain.specs.Ranges.{IsWithin};
    ghost use Rattle.interval_domain.specs.Views.{range_of, span_range};

    ghost view = { λ s. a.outcomes (span_range s.computed) (range_of s.exact) };

    ghost invariant = { λ s. IsWithin (2 ^ 73) (range_of s.exact) };
}

impl Outcomes {
    /// The outcomes of one walk.
    pub fn of(approximation: &Approximation) -> Outcomes
        ensures { result ≡ outcomes_of approximation.now }
    {
        Outcomes {
            computed: approximation.computed(),
            exact: approximation.exact(),
        }
    }

    /// The outcomes of either.
    pub fn either(&self, other: &Outcomes) -> Outcomes
        ensures { result ≡ either_outcomes self.now other.now }
    {
        Outcomes {
            computed: hull(self.computed, other.computed),
            exact: ends_hull(self.exact, other.exact),
        }
    }

    /// The approximation of a value with these outcomes.
    ///
    /// `None` if an error may be too large.
    pub fn approximation(&self) -> Option<Approximation>
        ensures { result ≡ of_outcomes self.now }
    {
        let error = apart(&self.computed, self.exact);
        bounded(self.computed, error)
    }
}
