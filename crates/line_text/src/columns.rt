//! Numbers with a fixed number of decimals, as integers in units of the last decimal.

ghost use Rattle.std.specs.Prelude.{◌≡◌, ◌+◌, ◌^◌, ◌<◌, ◌≤◌, ◌++◌, length, min, option_map, IfSome, decimal};
ghost use Rattle.arrayvec.specs.ArrayVec.{array_vec_len};
ghost use Rattle.line_text.specs.Parts.{right_in};
ghost use Rattle.line_text.specs.Columns.{digits_of, decimals_of, decimal_column_of, zeros_in, decimals_text};

use crate::line::{Line, put, put_copies, put_integer};
use crate::text::trim_front;
use itoa::Buffer;

/// The integer that these digits denote. Leading zeros are allowed, and no digits denote 0. The text has at most 12
/// bytes.
///
/// `None` if a byte isn't a digit.
#[tactic(auto, unfolding(crate::specs::Columns::digits_of))]
pub fn digits(text: &[u8]) -> Option<u64>
    requires { length text.now ≤ 12 }
    ensures exact { result ≡ digits_of text.now }
    ensures below { IfSome result (λ n. n < 10 ^ 12) }
{
    let mut number = 0;
    for byte in text {
        if !byte.is_ascii_digit() {
            return None;
        }
        number = number * 10 + (*byte - b'0') as u64;
    }
    Some(number)
}

/// The integer that these digits denote, or `limit` if it is more. Leading zeros are allowed, and no digits denote 0.
/// The limit is at most 2^32.
///
/// `None` if a byte isn't a digit.
pub fn digits_up_to(limit: u64, text: &[u8]) -> Option<u64>
    requires { limit ≤ 2 ^ 32 }
    ensures exact { result ≡ option_map (λ n. min n limit) (digits_of text.now) }
    ensures most { IfSome result (λ n. n ≤ limit) }
{
    let mut number: u64 = 0;
    for byte in text {
        if !byte.is_ascii_digit() {
            return None;
        }
        number = (number * 10 + (*byte - b'0') as u64).min(limit);
    }
    Some(number)
}

/// Ten to the power `decimals`, which is at most 14.
pub fn power_of_ten(decimals: usize) -> u64
    requires { decimals ≤ 14 }
    ensures exact { result ≡ 10 ^ decimals }
    ensures some { 0 < result }
    ensures few { decimals ≤ 5 → result ≤ 100000 }
{
    10u64.pow(decimals as u32)
}

/// The number that one or more digits, a point and `decimals` digits denote, in units of the last digit; `None` for any
/// other text.
#[tactic(auto, unfolding(crate::specs::Columns::decimals_of))]
fn unsigned_decimals(decimals: usize, text: &[u8]) -> Option<u64>
    requires few { decimals ≤ 5 }
    requires short { length text.now ≤ 12 }
    ensures exact { result ≡ decimals_of decimals text.now }
    ensures below { IfSome result (λ n. n < 10 ^ 18) }
{
    let len = text.len();
    if len < decimals + 2 || text[len - (decimals + 1)] != b'.' {
        return None;
    }
    let whole = digits(text.split_at(len - (decimals + 1)).0)?;
    let part = digits(text.split_at(len - decimals).1)?;
    Some(whole * power_of_ten(decimals) + part)
}

/// The number in a column, in units of its last digit: spaces, an optional `-`, one or more digits, a point and
/// `decimals` digits. For example, `  -1.250` is -1250 with three decimals. The column has at most 12 bytes, and
/// `decimals` is at most 5.
///
/// `None` for any other text.
#[tactic(auto, unfolding(crate::specs::Columns::decimal_column_of))]
pub fn decimal_column(decimals: usize, column: &[u8]) -> Option<i64>
    requires few { decimals ≤ 5 }
    requires short { length column.now ≤ 12 }
    ensures { result ≡ decimal_column_of decimals column.now }
{
    let text = trim_front(column);
    if text.is_empty() || text[0] != b'-' {
        Some(unsigned_decimals(decimals, text)? as i64)
    } else {
        let (_, rest) = text.split_at(1);
        Some(-(unsigned_decimals(decimals, rest)? as i64))
    }
}

/// Appends a number below ten to the power `width` as `width` digits, with zeros in front.
fn put_digits(line: &mut Line, width: usize, number: u64)
    requires room { array_vec_len line.old + width ≤ 160 }
    requires some { 0 < width }
    requires fits { number < 10 ^ width }
    ensures items { line.new.items ≡ line.old.items ++ zeros_in width (decimal number) }
    ensures len { array_vec_len line.new ≡ array_vec_len line.old + width }
{
    let mut buffer = Buffer::new();
    let digits = buffer.format(number).as_bytes();
    put_copies(line, width - digits.len(), b'0');
    put(line, digits);
}

/// Appends a number with `decimals` decimals (1 to 14), given in units of its last decimal: -1250 with three decimals
/// is `-1.250`. At most 42 bytes and the decimals.
pub fn put_decimals(line: &mut Line, decimals: usize, number: i128)
    requires room { array_vec_len line.old + 42 + decimals ≤ 160 }
    requires some { 0 < decimals }
    requires few { decimals ≤ 14 }
    ensures items { line.new.items ≡ line.old.items ++ decimals_text decimals number }
    ensures len { array_vec_len line.new ≤ array_vec_len line.old + 42 + decimals }
{
    let magnitude = number.unsigned_abs();
    let unit = u128::from(power_of_ten(decimals));
    if number < 0 {
        put(line, b"-");
    }
    put_integer(line, magnitude / unit);
    put(line, b".");
    put_digits(line, decimals, (magnitude % unit) as u64);
}

/// Appends a number like [`put_decimals`], at the right of a column of `width` bytes, as C's `%8.3f` does. A longer
/// number isn't cut; it moves the text after it.
pub fn put_decimals_right(line: &mut Line, width: usize, decimals: usize, number: i64)
    requires room { array_vec_len line.old + width + 32 ≤ 160 }
    requires some { 0 < decimals }
    requires few { decimals ≤ 5 }
    ensures items { line.new.items ≡ line.old.items ++ right_in width (decimals_text decimals number) }
    ensures len { array_vec_len line.new ≤ array_vec_len line.old + width + 32 }
{
    let mut text = Line::new();
    put_decimals(&mut text, decimals, i128::from(number));
    put_copies(line, width.saturating_sub(text.len()), b' ');
    put(line, text.as_slice());
}
