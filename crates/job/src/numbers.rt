//! Numbers of a job. Errors: `BadNumber` if a word is malformed, else `NumberRange` if its number is out of range.

ghost use Rattle.std.specs.Prelude.{◌≡◌, ◌≤◌, ◌≤ℤ◌, ◌*◌, ◌^◌, pos, IfOk};
ghost use Rattle.fixed.specs.Constants.{IsRead};
ghost use Rattle.fixed.specs.Fractions.{bits_of};
ghost use Rattle.line_text.specs.Words.{words};
ghost use Rattle.job.specs.Numbers.{alone, constant_of, numeral_of, signed_of, cutoff_of, within, whole_of, mass_from, mass_of, values_of, HasRead};

use crate::words::only_word;
use fixed::{Constant, Frac, Fx, NumFault};
use line_text::{cut, digits, digits_up_to, next_word, power_of_ten};
use std::alloc::{AllocError, Allocator};

/// The number with these fraction bits that is nearest to a numeral.
pub fn numeral(frac: Frac, word: &[u8]) -> Result<Fx, NumFault>
    ensures value { result ≡ numeral_of frac word.now }
    ensures least { IfOk result (λ v. pos 0 ≤ℤ v) }
{
    fixed::numeral(frac, word)
}

/// A numeral with its error of reading.
#[tactic(auto, unfolding(crate::specs::Numbers::constant_of))]
fn constant(frac: Frac, word: &[u8]) -> Result<Constant, NumFault>
    ensures value { result ≡ constant_of frac word.now }
    ensures read { IfOk result IsRead }
{
    fixed::constant(frac, word)
}

/// A numeral with its error of reading, possibly with a minus. The range is tested without the minus, so -2^63 as a raw
/// value is out of range.
#[tactic(auto, unfolding(crate::specs::Numbers::signed_of))]
pub fn signed_constant(frac: Frac, word: &[u8]) -> Result<Constant, NumFault>
    ensures { result ≡ signed_of frac word.now }
{
    if let [b'-', numeral @ ..] = word {
        Ok(constant(frac, numeral)?.negated())
    } else {
        constant(frac, word)
    }
}

/// The cutoff in nm in a text of one word: a numeral above 0 and at most 80 after rounding.
#[tactic(auto, unfolding(crate::specs::Numbers::cutoff_of))]
pub fn cutoff(frac: Frac, text: &[u8]) -> Result<Fx, NumFault>
    ensures value { result ≡ alone (cutoff_of frac) (words text.now) }
    ensures most { IfOk result (λ v. v ≤ℤ pos (80 * 2 ^ bits_of frac)) }
{
    let value = numeral(frac, only_word(text)?)?;
    if 1 <= value.raw() && value.raw() <= 80 * frac.one() {
        Ok(value)
    } else {
        Err(NumFault::NumberRange)
    }
}

// The number, if it is from `least` to `most`.
fn within(least: u32, most: u32, value: u64) -> Result<u32, NumFault>
    ensures value { result ≡ within least most value }
    ensures range { IfOk result (λ n. (least ≤ n) × (n ≤ most)) }
{
    if u64::from(least) <= value && value <= u64::from(most) {
        Ok(value as u32)
    } else {
        Err(NumFault::NumberRange)
    }
}

/// An integer from `least` to `most`; leading zeros are allowed.
pub fn whole(least: u32, most: u32, word: &[u8]) -> Result<u32, NumFault>
    ensures value { result ≡ whole_of least most word.now }
    ensures range { IfOk result (λ n. (least ≤ n) × (n ≤ most)) }
{
    if word.is_empty() {
        return Err(NumFault::BadNumber);
    }
    let Some(value) = digits_up_to(u64::from(most) + 1, word) else {
        return Err(NumFault::BadNumber);
    };
    within(least, most, value)
}

/// The mass in 10^-5 u, 1 to 100,000,000, from the digits before and after the point.
///
/// `BadNumber` if `whole` is empty, if a byte isn't a digit, or if `part` has more than 5 bytes; `NumberRange` if the
/// mass is out of range.
fn decimal_mass(whole: &[u8], part: &[u8]) -> Result<u32, NumFault>
    ensures value { result ≡ mass_from whole.now part.now }
    ensures range { IfOk result (λ n. (1 ≤ n) × (n ≤ 100000000)) }
{
    if whole.is_empty() || part.len() > 5 {
        return Err(NumFault::BadNumber);
    }
    let Some(units) = digits_up_to(1001, whole) else {
        return Err(NumFault::BadNumber);
    };
    let Some(decimals) = digits(part) else {
        return Err(NumFault::BadNumber);
    };
    let mass = units * 100_000 + decimals * power_of_ten(5 - part.len());
    within(1, 100_000_000, mass)
}

/// A mass in units of 10^-5 u, 1 to 100,000,000. The word is the mass in u: digits, possibly a point and then one to
/// five digits.
#[tactic(auto, unfolding(crate::specs::Numbers::mass_of))]
pub fn mass(word: &[u8]) -> Result<u32, NumFault>
    ensures value { result ≡ mass_of word.now }
    ensures range { IfOk result (λ n. (1 ≤ n) × (n ≤ 100000000)) }
{
    match cut(b'.', word) {
        None => decimal_mass(word, &[]),
        Some((_, part)) if part.is_empty() => Err(NumFault::BadNumber),
        Some((whole, part)) => decimal_mass(whole, part),
    }
}

/// The words of the text as numerals with their errors of reading, each possibly with a minus.
///
/// `BadNumber` if a word is malformed, else `NumberRange` if a number is out of range.
pub fn values<A: Allocator>(
    alloc: A,
    frac: Frac,
    text: &[u8],
) -> Result<Result<Vec<Constant, A>, NumFault>, AllocError>
    ensures { HasRead (λ v. v.items) result (values_of frac (words text.now)) }
{
    let mut values = Vec::new(alloc);
    let mut in_range = true;
    let mut rest = text;
    while let Some((word, after)) = next_word(rest) {
        match signed_constant(frac, word) {
            Ok(value) => values.push(value)?,
            Err(NumFault::NumberRange) => in_range = false,
            Err(NumFault::BadNumber) => return Ok(Err(NumFault::BadNumber)),
        }
        rest = after;
    }
    if in_range {
        Ok(Ok(values))
    } else {
        Ok(Err(NumFault::NumberRange))
    }
}
