//! Reading the line of a box.

ghost use Rattle.std.specs.Prelude.{◌≡◌, ◌≤◌, ◌<◌, ◌^◌, true, false, length, take, drop, option_map, IfErr, IfOk, IfSome};
ghost use Rattle.std.specs.List.{list_all};
ghost use Rattle.line_text.specs.Words.{words};
ghost use Rattle.gro.specs.GroReading.{few_digits_of, length_of, value_of, values_of, is_zero};
ghost use Rattle.gro.specs.GroFaults.{IsBoxFault};
ghost use Rattle.gro.specs.GroText.{IsBox};
ghost use Rattle.gro.specs.declared.faults.GroFault.TheVariants.{Triclinic};

use crate::faults::GroFault;
use crate::lines::InputLine;
use arrayvec::ArrayVec;
use line_text::{cut, digits, next_word, power_of_ten};

/// The sides of the box on the line with this number, in 10^-5 nm.
///
/// Errors, in this order: `Truncated` for an unfinished line of fewer than three words; `BadBox` if the line isn't
/// three to nine values; `Triclinic` if a value after the third isn't zero.
pub fn sides(number: u64, line: InputLine<'_>) -> Result<[i64; 3], GroFault>
    ensures found { IfOk result (IsBox line.entry.text.now) }
    ensures fault { IfErr result (IsBoxFault number line.entry.ended line.entry.text.now) }
{
    let count = word_count(line.text);
    if count < 3 && !line.ended {
        return Err(GroFault::Truncated);
    }
    if count < 3 || count > 9 {
        return Err(GroFault::BadBox { line: number });
    }
    let Some(values) = values(line.text) else {
        return Err(GroFault::BadBox { line: number });
    };
    rectangular(number, values.as_slice())
}

/// The first three values.
///
/// `Triclinic` if another value isn't zero.
fn rectangular(number: u64, values: &[i64]) -> Result<[i64; 3], GroFault>
    requires { 3 ≤ length values.now }
    ensures found { IfOk result (λ sides. (sides ≡ take 3 values.now) × (list_all is_zero (drop 3 values.now) ≡ true)) }
    ensures fault { IfErr result (λ fault. (fault ≡ Triclinic number) × (list_all is_zero (drop 3 values.now) ≡ false)) }
{
    let (sides, others) = values.split_at(3);
    if are_zero(others) {
        Ok([sides[0], sides[1], sides[2]])
    } else {
        Err(GroFault::Triclinic { line: number })
    }
}

// Whether all values are zero.
fn are_zero(values: &[i64]) -> bool
    ensures { result ≡ list_all is_zero values.now }
{
    values.iter().all(|v| *v == 0)
}

// The number of words.
fn word_count(text: &[u8]) -> usize
    ensures { result ≡ length (words text.now) }
{
    let mut count = 0;
    let mut rest = text;
    while let Some((_, after)) = next_word(rest) {
        count += 1;
        rest = after;
    }
    count
}

/// The values on a line of at most nine words; `None` if a word isn't a value.
fn values(text: &[u8]) -> Option<ArrayVec<i64, 9>>
    requires { length (words text.now) ≤ 9 }
    ensures exact { option_map (λ v. v.items) result ≡ values_of (words text.now) }
    ensures len { IfSome result (λ v. length v.items ≡ length (words text.now)) }
{
    let mut values = ArrayVec::new();
    let mut rest = text;
    while let Some((word, after)) = next_word(rest) {
        values.push(value(word)?);
        rest = after;
    }
    Some(values)
}

/// A length in 10^-5 nm, possibly with a minus.
#[tactic(auto, unfolding(crate::specs::GroReading::value_of))]
fn value(word: &[u8]) -> Option<i64>
    ensures { result ≡ value_of word.now }
{
    if word.is_empty() || word[0] != b'-' {
        Some(unsigned_length(word)? as i64)
    } else {
        Some(-(unsigned_length(word.split_at(1).1)? as i64))
    }
}

/// A length in 10^-5 nm: 1 to 12 digits, possibly a point and then 1 to 5 digits.
#[tactic(auto, unfolding(crate::specs::GroReading::length_of))]
fn unsigned_length(text: &[u8]) -> Option<u64>
    ensures exact { result ≡ length_of text.now }
    ensures below { IfSome result (λ n. n < 10 ^ 18) }
{
    match cut(b'.', text) {
        None => Some(few_digits(12, text)? * 100_000),
        Some((whole, part)) => {
            let whole = few_digits(12, whole)?;
            let rest = few_digits(5, part)?;
            Some(whole * 100_000 + rest * power_of_ten(5 - part.len()))
        }
    }
}

/// The number that 1 to `most` digits denote.
#[tactic(auto, unfolding(crate::specs::GroReading::few_digits_of))]
fn few_digits(most: usize, text: &[u8]) -> Option<u64>
    requires { most ≤ 12 }
    ensures exact { result ≡ few_digits_of most text.now }
    ensures below { IfSome result (λ n. n < 10 ^ 12) }
    ensures few { IfSome result (λ n. length text.now ≤ most) }
{
    if text.is_empty() || text.len() > most {
        return None;
    }
    digits(text)
}
