//! The theorem that slopes are derivatives, for every tree and every ring of exact numbers.

ghost use Rattle.std.specs.Prelude.{◌≡◌, ℕ, ℤ, List, Ok};
ghost use Rattle.energy_program.specs.Tree.{Tree};
ghost use Rattle.energy_program.specs.Programs.{Trees};
ghost use Rattle.derivative.specs.Derive.{slope_program};
ghost use Rattle.derivative.specs.Exact.{AreExact, IsRing, Numbers, Ring, StandsForFraction, whole_numbers};
ghost use Rattle.derivative.specs.DualNumbers.{IsDerivative, IsDerivativeProgram, IsScoped, dual};

/// Evaluated over exact numbers (fractions, say), the table of derivatives computes derivatives, and so does the
/// program built from the table.
///
/// Precisely: in dual numbers, with e e = 0, an expression at the distance r + e is v + s e if and only if v is its
/// value and s its slope at r, both defined.
pub fn slopes_are_derivatives<V>()
    // Exact numbers exist: the integers, with a quotient or root only if it is an integer.
    ensures whole { AreExact whole_numbers }
    // Dual numbers x + x' e over a commutative ring form a commutative ring.
    ensures duals { (r : Ring V) → IsRing r → IsRing (dual r) }
    ensures table { (k : Numbers V) → AreExact k → (inputs : List V) (tree : Tree) → IsDerivative k inputs tree }
    ensures program { (k : Numbers V) → AreExact k → (bits : ℕ) → ((z : ℤ) → StandsForFraction k bits z)
        → (inputs : List V) (count : ℕ) (program slope : Trees) → IsScoped count program
        → slope_program bits program ≡ Ok slope → IsDerivativeProgram k inputs program slope }
{}
