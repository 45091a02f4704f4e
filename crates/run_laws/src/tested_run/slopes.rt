//! The derivative of a pair potential, which may have no value.

ghost use Rattle.std.specs.Prelude.{◌≡◌, ℕ, ℤ, Option, Some, None, IfOk, IfErr, unsigned_abs, ◌<◌, ◌≤◌, ◌^◌};
ghost use Rattle.run_laws.specs.declared.tested_run.slope_faults.SlopeFault.{SlopeFault};

use crate::tested_run::slope_faults::SlopeFault;
use fixed::Fx;

/// A pair potential that is run with every operation tested.
pub(crate) trait TestedSlope {
    /// The number of types of atoms.
    ghost types: { Self → ℕ };

    /// The derivative for two types of atoms, the lower atom's first, at a distance.
    ghost slope: { Self → ℕ → ℕ → ℤ → Option ℤ };

    /// Why there is no derivative.
    ghost fault: { Self → ℕ → ℕ → ℤ → Option SlopeFault };

    /// The derivative for the types `a` and `b` at the distance `r`, or why there is none.
    fn slope(&self, a: u32, b: u32, r: Fx) -> Result<Fx, SlopeFault>
        requires lower { a < types self.now }
        requires higher { b < types self.now }
        ensures value { IfOk result (λ g. slope self.now a b r ≡ Some g) }
        ensures none { IfErr result (λ _. slope self.now a b r ≡ None) }
        ensures fault { IfErr result (λ f. fault self.now a b r ≡ Some f) };

    /// A derivative has a magnitude of at most 2^63.
    ghost bounded: { (k : Self) (a b : ℕ) (r g : ℤ) → slope k a b r ≡ Some g → unsigned_abs g ≤ 2 ^ 63 };
}
