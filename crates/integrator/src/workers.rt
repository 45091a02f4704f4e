//! Numbers of workers.
//! The range is in the type, so that no call tests a number of workers again.

ghost use Rattle.std.specs.Prelude.{ℕ, ◌≡◌, ◌<◌, ◌≤◌};

use std::marker::Model;

/// The number of workers (threads) that make the steps of a run, from 1 to 64. The caller's thread is the first worker.
#[derive(Clone, Copy)]
pub struct Workers(u32);

impl Model for Workers {
    ghost Value = { ℕ };

    ghost view = { λ w. w.0 };

    ghost invariant = { λ w. (0 < w.0) × (w.0 ≤ 64) };

    ghost inverse = { λ n. record { 0 = n } };
}

impl Workers {
    /// The number of workers.
    pub const fn count(self) -> u32
        ensures value { result ≡ self }
        ensures some { 0 < result }
        ensures few { result ≤ 64 }
    {
        self.0
    }

    /// This number of workers.
    pub const fn new(count: u32) -> Workers
        requires some { 0 < count }
        requires few { count ≤ 64 }
        ensures { result ≡ count }
    {
        Workers(count)
    }
}
