//! Law of powers: the definition by recursion satisfies the table of squarings.
ghost use Rattle.std.specs.Prelude.{◌≢◌, ℕ, ℤ, pos};
ghost use Rattle.fixed.specs.Arithmetic.{signed_power_of};
ghost use Rattle.fixed.specs.Powers.{IsSignedPower};

/// Powers with an exponent other than 0 are computed by squaring. Exponent 1 gives the number itself, `2k` the square
/// of the power `k`, and `2k + 1` the product of the power `2k` and the number; each product is rounded down. A
/// negative exponent gives one divided by the power. The first fault is the result.
pub fn powers_by_squaring()
    ensures { (bits : ℕ) (x n : ℤ) → n ≢ pos 0 → IsSignedPower bits x n (signed_power_of bits x n) }
{}
