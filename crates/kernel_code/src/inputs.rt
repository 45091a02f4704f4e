ghost use Rattle.std.specs.Prelude.{ℕ, ◌≡◌, ◌≤◌};

use std::marker::Model;

/// The number of an input, 0 to 32: there are at most 1 + 2 * 8 + 16 inputs. Input 0 is the distance `r`; then come the
/// parameters of particle 1, the parameters of particle 2, and the globals.
#[derive(Clone, Copy, PartialEq, Eq)]
pub struct InputNumber(u8);

impl Model for InputNumber {
    ghost Value = { ℕ };

    ghost view = { λ x. x.0 };

    ghost invariant = { λ x. x.0 ≤ 32 };

    ghost inverse = { λ n. record { 0 = n } };
}

impl InputNumber {
    /// The input with this number, at most 32.
    pub const fn new(number: u8) -> InputNumber
        requires { number ≤ 32 }
        ensures { result ≡ number }
    {
        InputNumber(number)
    }

    /// The number, at most 32.
    pub const fn get(self) -> u8
        ensures value { result ≡ self }
        ensures bound { result ≤ 32 }
    {
        self.0
    }
}
