//! The fraction bits of a job. They are found before its lines are read, because numerals above the `bits` line are
//! read with them too.

ghost use Rattle.std.specs.Prelude.{◌≡◌, option_map};
ghost use Rattle.line_text.specs.Words.{words};
ghost use Rattle.job.specs.Numbers.{alone, frac_of};
ghost use Rattle.job.specs.Bits.{bits_said, frac_in};
ghost use Rattle.job.specs.Words.{more_lines};

use crate::faults::Key;
use crate::forms::key_of;
use crate::numbers::whole;
use crate::words::{next_line, only_word};
use fixed::{Frac, NumFault};
use line_text::next_word;

/// The fraction bits in a text of one word.
///
/// `BadNumber` if it isn't one word of digits; `NumberRange` if the number isn't 24, 32 or 40.
#[tactic(auto, unfolding(crate::specs::Numbers::frac_of))]
pub fn bits_in(text: &[u8]) -> Result<Frac, NumFault>
    ensures { result ≡ alone frac_of (words text.now) }
{
    match whole(24, 40, only_word(text)?)? {
        24 => Ok(Frac::F24),
        32 => Ok(Frac::F32),
        40 => Ok(Frac::F40),
        _ => Err(NumFault::NumberRange),
    }
}

// The fraction bits of a line `bits N` with N = 24, 32 or 40; `None` for any other line.
#[tactic(auto, unfolding(crate::specs::Bits::bits_said))]
fn bits_said(line: &[u8]) -> Option<Frac>
    ensures { result ≡ bits_said line.now }
{
    if let [b'#', ..] = line {
        return None;
    }
    let (word, text) = next_word(line)?;
    match key_of(word) {
        Some(Key::Bits) => bits_in(text).ok(),
        _ => None,
    }
}

/// The number of fraction bits with which the numerals of these lines are read: the value of the first `bits` line with
/// an allowed value, or 32.
pub fn frac_in(text: Option<&[u8]>) -> Frac
    ensures { result ≡ frac_in (more_lines (option_map (λ x. x.now) text.entry)) }
{
    let mut rest = text;
    while let Some(lines) = rest {
        let (line, after) = next_line(lines);
        if let Some(frac) = bits_said(line) {
            return frac;
        }
        rest = after;
    }
    Frac::F32
}
