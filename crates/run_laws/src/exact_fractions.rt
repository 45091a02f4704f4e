//! The laws of rational numbers: they are exact numbers, with derivatives and in order.

ghost use Rattle.std.specs.Prelude.{◌≡◌, ◌≢◌, ℕ, ℤ, Some};
ghost use Rattle.error_bounds.specs.Meanings.{IsDecimal};
ghost use Rattle.error_bounds.specs.Ordered.{AreOrdered};
ghost use Rattle.run_laws.specs.Fractions.{AreKept, Fraction, HaveDerivatives, fraction, fractions, quotient, square_root, times};
ghost use Rattle.run_laws.specs.WrittenFractions.{natural};

/// Rational numbers are exact numbers, their operations don't depend on how a fraction is written, and every constant
/// of a tree is one, with any number of fraction bits (24, 32 and 40 included). So the table of derivatives computes
/// derivatives over rational numbers, and so does the program built from the table.
pub fn fractions_have_derivatives()
    ensures kept { AreKept }
    ensures derivatives { (kept : AreKept) (bits : ℕ) → HaveDerivatives kept bits }
{}

/// Rational numbers are ordered exact numbers. Quotients by numbers other than 0, rational roots and decimals exist. So
/// the error bounds of a potential hold over rational numbers, at rational distances.
pub fn fractions_are_ordered()
    ensures order { (kept : AreKept) (bits : ℕ) → AreOrdered (fractions kept bits) }
    // A quotient is missing only if the divisor is 0.
    ensures quotients { (kept : AreKept) (n d : Fraction) → d ≢ fraction (natural 0)
        → (q : Fraction) × (quotient kept n d ≡ Some q) }
    // The square of each rational number has a root.
    ensures roots { (kept : AreKept) (x : Fraction) → (y : Fraction) × (square_root kept (times kept x x) ≡ Some y) }
    // Each decimal is a rational number.
    ensures decimals { (kept : AreKept) (bits m : ℕ) (p : ℤ) → (x : Fraction) × IsDecimal (fractions kept bits) m p x }
{}
