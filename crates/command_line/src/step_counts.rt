//! Numbers of steps, as the options `--steps` and `--every` take them.

ghost use Rattle.std.specs.Prelude.{◌≡◌, ◌≤◌, ◌<◌, ◌^◌, ◌∷◌, ◌++◌, ℕ, MatchOption};
ghost use Rattle.std.specs.Str.Parse.{IsNumeral, digits_value};
ghost use Rattle.command_line.specs.CommandLine.{HasNoExponentLetter, IsExponentLetter, IsScaled, WritesNumber, WritesPlain, WritesSteps};

/// The largest exponent of 10 in a number of steps.
const MAX_EXPONENT: u64 = 12;

/// The number of steps that a text writes, if it is below 2^64: a decimal numeral, or two with an `e` between them.
pub(crate) fn step_count(text: &str) -> Option<u64>
    ensures { MatchOption result ((n : ℕ) → n < 2 ^ 64 → WritesSteps text.now n → ⊥) (WritesSteps text.now) }
{
    match around_letter(text) {
        Some((number, exponent)) => scaled(number, exponent),
        None => numeral(text),
    }
}

/// The texts before and after the first `e`, or before and after the first `E` if the text has no `e`.
fn around_letter(text: &str) -> Option<(&str, &str)>
    ensures { MatchOption result (HasNoExponentLetter text.now)
        (λ parts. (letter : ℕ) × IsExponentLetter letter × (text.now ≡ parts.0.now ++ letter ∷ parts.1.now)) }
{
    match text.split_once('e') {
        Some(parts) => Some(parts),
        None => text.split_once('E'),
    }
}

/// The number times the power of 10 with this exponent, if it is below 2^64.
fn scaled(number: &str, exponent: &str) -> Option<u64>
    ensures { MatchOption result ((n : ℕ) → n < 2 ^ 64 → IsScaled number.now exponent.now n → ⊥) (IsScaled number.now exponent.now) }
{
    let number = numeral(number)?;
    let power = power_of_ten(exponent)?;
    number.checked_mul(power)
}

/// The number that a decimal numeral writes, if it is below 2^64. A plus may be in front.
fn numeral(text: &str) -> Option<u64>
    ensures { MatchOption result ((n : ℕ) → n < 2 ^ 64 → WritesNumber text.now n → ⊥) (WritesNumber text.now) }
{
    match text.parse::<u64>() {
        Ok(number) => Some(number),
        Err(_) => None,
    }
}

/// 10 to the power of the exponent, which is a decimal numeral without a sign, of at most 12.
fn power_of_ten(exponent: &str) -> Option<u64>
    ensures { MatchOption result (IsNumeral 10 exponent.now → digits_value 10 exponent.now ≤ 12 → ⊥)
        (λ power. IsNumeral 10 exponent.now × (digits_value 10 exponent.now ≤ 12) × (power ≡ 10 ^ digits_value 10 exponent.now)) }
{
    let exponent = plain_numeral(exponent)?;
    if exponent <= MAX_EXPONENT {
        Some(10u64.pow(exponent as u32))
    } else {
        None
    }
}

/// The number that a decimal numeral without a sign writes, if it is below 2^64.
pub(crate) fn plain_numeral(text: &str) -> Option<u64>
    ensures { MatchOption result ((n : ℕ) → n < 2 ^ 64 → WritesPlain text.now n → ⊥) (WritesPlain text.now) }
{
    if text.starts_with('+') {
        None
    } else {
        numeral(text)
    }
}
