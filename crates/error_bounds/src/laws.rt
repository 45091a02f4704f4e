//! Ordered exact numbers exist, and decimals were read as their constants.

ghost use Rattle.std.specs.Prelude.{ℕ, ℤ};
ghost use Rattle.fixed.specs.Constants.{IsConstantOf, negated};
ghost use Rattle.fixed.specs.declared.constants.Constant.{Constant};
ghost use Rattle.derivative.specs.Exact.{Numbers, whole_numbers};
ghost use Rattle.error_bounds.specs.Meanings.{IsDecimal, WasRead};
ghost use Rattle.error_bounds.specs.Ordered.{AreOrdered};

/// The integers, with a quotient or a root only if it is an integer, are ordered exact numbers. So the laws of ordered
/// exact numbers don't contradict one another.
pub fn integers_are_ordered()
    ensures { AreOrdered whole_numbers }
{}

/// Over all ordered exact numbers, a decimal was read as its constant, and its negative as the negative constant. So the
/// exact numbers of a formula are the decimals of its text.
pub fn decimals_are_read<V>()
    // A decimal was read as its constant.
    ensures decimals { (k : Numbers V) → AreOrdered k → (bits m : ℕ) (p : ℤ) (c : Constant) (x : V) → IsConstantOf bits m p c
        → IsDecimal k m p x → WasRead k bits c x }
    // The negative of a number was read as the negative constant.
    ensures negatives { (k : Numbers V) → AreOrdered k → (bits : ℕ) (c : Constant) (x : V) → WasRead k bits c x
        → WasRead k bits (negated c) (k.ring.negative x) }
{}
