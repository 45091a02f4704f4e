//! The lines of a text, and texts of one or two words.

ghost use Rattle.std.specs.Prelude.{◌≡◌, ◌+◌, ◌<◌, ◌≤◌, ◌∷◌, length, option_map, IfSome};
ghost use Rattle.line_text.specs.Words.{words};
ghost use Rattle.job.specs.Words.{without_return, lines_of, more_lines, two};
ghost use Rattle.job.specs.Numbers.{only, mapped};

use fixed::NumFault;
use line_text::{cut, next_word};

/// The line without a CR at its end.
fn without_return(line: &[u8]) -> &[u8]
    ensures value { result.now ≡ without_return line.now }
    ensures shorter { length result.now ≤ length line.now }
{
    match line {
        [before @ .., b'\r'] => before,
        _ => line,
    }
}

/// The first line without its line end, and the text after its line feed, if it has one.
pub fn next_line(text: &[u8]) -> (&[u8], Option<&[u8]>)
    ensures lines { lines_of text.now ≡ result.0.now ∷ more_lines (option_map (λ x. x.now) result.1) }
    ensures shorter { IfSome result.1 (λ x. length result.0.now + length x.now < length text.now) }
{
    match cut(b'\n', text) {
        Some((line, rest)) => (without_return(line), Some(rest)),
        None => (text, None),
    }
}

/// The only word of a text.
///
/// `BadNumber` if there are none or several.
pub fn only_word(text: &[u8]) -> Result<&[u8], NumFault>
    ensures { mapped (λ x. x.now) result ≡ only (words text.now) }
{
    match next_word(text) {
        Some((word, rest)) if next_word(rest).is_none() => Ok(word),
        _ => Err(NumFault::BadNumber),
    }
}

/// The two words of a text; `None` if it has fewer or more.
pub fn two_words(text: &[u8]) -> Option<(&[u8], &[u8])>
    ensures { option_map (λ x. (x.0.now, x.1.now)) result ≡ two (words text.now) }
{
    let (first, rest) = next_word(text)?;
    match only_word(rest) {
        Ok(second) => Some((first, second)),
        Err(_) => None,
    }
}
