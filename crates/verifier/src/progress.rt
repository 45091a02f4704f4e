//! Progress of work that consists of equal parts.

ghost use Rattle.std.specs.Prelude.{ℕ, ◌+◌};

/// A watcher of work that consists of equal parts, such as the slices of a verification.
pub trait Progress {
    /// The number of parts that were reported between an earlier value of the watcher and a later one.
    ghost passed: { Self → Self → ℕ → Type 0 };

    /// Reports that this many further parts are complete.
    fn pass(&mut self, parts: u32)
        ensures { passed self.old self.new parts };

    /// A watcher that hasn't changed got no report.
    ghost passed_none: { (w : Self) → passed w w 0 };

    /// The parts reported between u and v and those between v and w are the parts reported between u and w.
    ghost passed_more: { (u v w : Self) (first more : ℕ)
        → passed u v first → passed v w more → passed u w (first + more) };
}

/// A watcher that ignores progress.
#[derive(Clone, Copy)]
pub struct IgnoredProgress;

impl Progress for IgnoredProgress {
    ghost passed = { λ _ _ _. Unit {0} };

    fn pass(&mut self, _parts: u32) {}

    ghost passed_none = { λ _. tt };

    ghost passed_more = { λ _ _ _ _ _ _ _. tt };
}
