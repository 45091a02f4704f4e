//! Versions of a state's text.

ghost use Rattle.std.specs.Prelude.{◌≡◌, ◌≤◌};
ghost use Rattle.state.specs.StateText.{version_of};
ghost use Rattle.state.specs.StateReading.{count_number};

use fixed::Frac;

/// A version of the text. The fraction bits of the state determine it, so that a state has only one text.
#[derive(Clone, Copy)]
pub enum Version {
    /// 32 fraction bits, without a line for them.
    First,
    /// 24 or 40 fraction bits, on the fourth line.
    Second,
}

impl Version {
    /// The version of a state with these fraction bits.
    pub fn of(frac: Frac) -> Version
        ensures { result ≡ version_of frac }
    {
        match frac {
            Frac::F32 => Version::First,
            Frac::F24 | Frac::F40 => Version::Second,
        }
    }

    /// The number of the line with the number of atoms.
    pub fn count_number(self) -> u64
        ensures value { result ≡ count_number self }
        ensures bound { result ≤ 5 }
    {
        match self {
            Version::First => 4,
            Version::Second => 5,
        }
    }
}
