//! Time steps.

ghost use Rattle.std.specs.Prelude.{ℕ, ◌≡◌, ◌<◌, ◌≤◌};

use std::marker::Model;

/// A time step in fs, from 1 to 1,000.
#[derive(Clone, Copy)]
pub struct TimeStep(u32);

impl Model for TimeStep {
    ghost Value = { ℕ };

    ghost view = { λ t. t.0 };

    ghost invariant = { λ t. (0 < t.0) × (t.0 ≤ 1000) };

    ghost inverse = { λ n. record { 0 = n } };
}

impl TimeStep {
    /// The time step in fs.
    pub const fn femtoseconds(self) -> u32
        ensures value { result ≡ self }
        ensures positive { 0 < result }
        ensures bound { result ≤ 1000 }
    {
        self.0
    }

    /// The time step of `femtoseconds` fs.
    pub const fn new(femtoseconds: u32) -> TimeStep
        requires positive { 0 < femtoseconds }
        requires bound { femtoseconds ≤ 1000 }
        ensures { result ≡ femtoseconds }
    {
        TimeStep(femtoseconds)
    }
}
