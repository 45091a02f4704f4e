//! The ends of a range of integers.
ghost use Rattle.std.specs.Prelude.{◌≤ℤ◌};

/// The integers from `low` to `high`. There is at least one.
#[derive(Clone, Copy)]
pub struct Ends {
    pub low: i128,
    pub high: i128,
    ghost ordered: { low ≤ℤ high },
}
