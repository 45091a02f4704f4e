//! Parts of a work, as the option `--part` takes them.

ghost use Rattle.std.specs.Prelude.{◌≡◌, ◌++◌, ◌∷◌, ℕ, MatchOption};
ghost use Rattle.command_line.specs.CommandLine.{WritesPart};

use crate::step_counts::plain_numeral;

/// The part that a text writes as `i/n`, and the number of all parts: two decimal numerals without a sign, with i from 1
/// to n, and n below 2^64.
pub(crate) fn part_of_all(text: &str) -> Option<(u64, u64)>
    ensures { MatchOption result ((part : ℕ × ℕ) → WritesPart text.now part → ⊥) (WritesPart text.now) }
{
    let (part, parts) = text.split_once('/')?;
    let part = plain_numeral(part)?;
    let parts = plain_numeral(parts)?;
    if 1 <= part && part <= parts {
        Some((part, parts))
    } else {
        None
    }
}
