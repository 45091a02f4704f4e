//! Numbers of the table as text.
ghost use Rattle.std.specs.Prelude.{◌≡◌, ◌≤◌, ◌<◌, ◌≤ℤ◌, ◌+◌, ◌*◌, ◌*ℤ◌, ◌^◌, ◌++◌, ℕ, List, IfOk, Some, neg_ℤ, pos};
ghost use Rattle.fixed.specs.Fractions.{bits_of};
ghost use Rattle.error_bounds.specs.Approximations.{scale};
ghost use Rattle.line_text.specs.Columns.{decimals_text};
ghost use Rattle.curve_lines.specs.Numbers.{IsBoundText, IsRoundedUp, places, three_digits, value_text};

use fixed::{Frac, Fx, round_div};
use line_text::{Line, put, put_decimals, put_integer};
use std::alloc::{AllocError, Allocator};

// The number of decimals of a value. The last decimal is smaller than a unit of the value, so different values differ
// in their texts; values with 24 bits have as many decimals as those with 32.
fn places_of(frac: Frac) -> usize
    ensures value { result ≡ places (bits_of frac) }
    ensures some { 12 ≤ result }
    ensures few { result ≤ 14 }
{
    match frac {
        Frac::F24 | Frac::F32 => 12,
        Frac::F40 => 14,
    }
}

// A raw value times ten to the power of its number of decimals.
fn scaled(frac: Frac, value: Fx) -> i128
    ensures value { result ≡ value *ℤ pos (10 ^ places (bits_of frac)) }
    ensures low { neg_ℤ (pos (2 ^ 110)) ≤ℤ result }
    ensures high { result ≤ℤ pos (2 ^ 110) }
{
    let raw = i128::from(value.raw());
    match frac {
        Frac::F24 | Frac::F32 => raw * 1_000_000_000_000,
        Frac::F40 => raw * 100_000_000_000_000,
    }
}

// A value in units of its last decimal, the nearest number of them.
fn decimal_of(frac: Frac, value: Fx) -> i128
    ensures { decimals_text (places (bits_of frac)) result ≡ value_text (bits_of frac) value }
{
    round_div(scaled(frac, value), i128::from(frac.one()))
}

/// Appends a value as the nearest decimal: with 12 decimals, or 14 at 40 fraction bits.
pub(crate) fn put_value<A: Allocator>(
    text: &mut Vec<u8, A>,
    frac: Frac,
    value: Fx,
) -> Result<(), AllocError>
    ensures { IfOk result (λ _. text.new.items ≡ text.old.items ++ value_text (bits_of frac) value) }
{
    let mut line = Line::new();
    put_decimals(&mut line, places_of(frac), decimal_of(frac, value));
    text.extend_from_slice(line.as_slice())
}

/// A number of three digits, and the exponent k: the number times 10^k.
#[derive(Drop)]
struct ThreeDigits {
    digits: u64,
    exponent: u32,
}

// The numerator over the denominator, rounded up.
fn up_over(numerator: u128, denominator: u128) -> u128
    requires positive { 0 < denominator }
    requires numerator_bound { numerator < 2 ^ 121 }
    requires denominator_bound { denominator < 2 ^ 115 }
    ensures covered { numerator ≤ result * denominator }
    ensures nearest { result * denominator < numerator + denominator }
{
    (numerator + (denominator - 1)) / denominator
}

// The numerator over the denominator, which is above 99, rounded up to three digits.
fn rounded_up(numerator: u128, denominator: u128) -> ThreeDigits
    requires positive { 0 < denominator }
    requires enough { 99 * denominator < numerator }
    requires numerator_bound { numerator < 2 ^ 121 }
    requires denominator_bound { denominator < 2 ^ 115 }
    ensures is { IsRoundedUp numerator denominator result.digits result.exponent }
    ensures few { result.exponent < 115 }
{
    let mut unit = denominator;
    let mut exponent = 0;
    while 999 * unit < numerator {
        unit *= 10;
        exponent += 1;
    }
    ThreeDigits {
        digits: up_over(numerator, unit) as u64,
        exponent,
    }
}

// Appends digits times 10^(k - 17): a digit, two decimals, and an exponent.
fn put_three_digits<A: Allocator>(
    text: &mut Vec<u8, A>,
    number: &ThreeDigits,
) -> Result<(), AllocError>
    requires digits { number.now.digits ≤ 999 }
    requires exponent { number.now.exponent < 2 ^ 16 }
    ensures { IfOk result (λ _. text.new.items ≡ text.old.items ++ three_digits number.now.digits number.now.exponent) }
{
    let mut line = Line::new();
    put_decimals(&mut line, 2, i128::from(number.digits));
    put(&mut line, b"e");
    put_integer(&mut line, i64::from(number.exponent) - 15);
    text.extend_from_slice(line.as_slice())
}

// Appends a bound that isn't 0, in error units, rounded up to three digits.
fn put_some_bound<A: Allocator>(
    text: &mut Vec<u8, A>,
    frac: Frac,
    bound: u64,
) -> Result<(), AllocError>
    requires { 0 < bound }
    ensures { IfOk result (λ _. (m : ℕ) × (k : ℕ) × IsRoundedUp (bound * 10 ^ 17) (scale (bits_of frac)) m k
        × (text.new.items ≡ text.old.items ++ three_digits m k)) }
{
    let numerator = u128::from(bound) * 100_000_000_000_000_000;
    let number = rounded_up(numerator, 256 * (frac.one() as u128));
    put_three_digits(text, &number)
}

/// Appends a bound in error units, rounded up to three digits.
pub(crate) fn put_bound<A: Allocator>(
    text: &mut Vec<u8, A>,
    frac: Frac,
    bound: u64,
) -> Result<(), AllocError>
    ensures { IfOk result (λ _. (number : List ℕ) × IsBoundText (bits_of frac) (Some bound) number
        × (text.new.items ≡ text.old.items ++ number)) }
{
    if bound == 0 {
        text.extend_from_slice(b"0")
    } else {
        put_some_bound(text, frac, bound)
    }
}

/// Appends a bound in error units, rounded up to three digits, or `-` if there is none.
pub(crate) fn put_bound_or_dash<A: Allocator>(
    text: &mut Vec<u8, A>,
    frac: Frac,
    bound: Option<u64>,
) -> Result<(), AllocError>
    ensures { IfOk result (λ _. (number : List ℕ) × IsBoundText (bits_of frac) bound number
        × (text.new.items ≡ text.old.items ++ number)) }
{
    match bound {
        Some(bound) => put_bound(text, frac, bound),
        None => text.extend_from_slice(b"-"),
    }
}
