//! Progress reporting.

ghost use Rattle.std.specs.Prelude.{◌≡◌, ◌++◌, ◌∷◌, [], List, false};
ghost use Rattle.runs.specs.Watching.{Report};

use fallible::Out;

/// A watcher, which is called as a run progresses.
pub trait Watch {
    /// The reports to the watcher between an earlier value of it and a later one, in order.
    ghost told: { Self → Self → List Report → Type 0 };

    /// Whether to report progress. If false, `tell` has no effect.
    fn watches(&self) -> bool
        ensures { result ≡ false → (reports : List Report) → told self.now self.now reports };

    /// Reports that `done` of `all` steps are made, and shows the output as it is then. So reports and texts have one
    /// order.
    fn tell<O: Out>(&mut self, done: u64, all: u64, out: &O)
        ensures { told self.old self.new (record { done = done; all = all; output = O.output out.now } ∷ []) };

    /// A watcher that hasn't changed got no report.
    ghost told_nothing: { (w : Self) → told w w [] };

    /// The reports between u and v followed by those between v and w are the reports between u and w.
    ghost told_more: { (u v w : Self) (first more : List Report)
        → told u v first → told v w more → told u w (first ++ more) };
}

/// A watcher that ignores progress, for a run that isn't watched.
#[derive(Clone, Copy)]
pub struct Unwatched;

impl Watch for Unwatched {
    ghost told = { λ _ _ _. Unit {0} };

    fn watches(&self) -> bool {
        false
    }

    fn tell<O: Out>(&mut self, _done: u64, _all: u64, _out: &O) {}

    ghost told_nothing = { λ _. tt };

    ghost told_more = { λ _ _ _ _ _ _ _. tt };
}
