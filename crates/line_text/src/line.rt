//! Writing a line, part by part. Lines are on the stack, so writing needs no allocation.

ghost use Rattle.std.specs.Prelude.{◌≡◌, ◌+◌, ◌≤◌, ◌++◌, ◌∷◌, length, replicate};
ghost use Rattle.arrayvec.specs.ArrayVec.{array_vec_len};
ghost use Rattle.line_text.specs.Parts.{right_in, left_in};

use arrayvec::ArrayVec;
use itoa::{Buffer, Integer};

/// A line under construction: at most 160 bytes, on the stack.
pub type Line = ArrayVec<u8, 160>;

/// Appends the text. The line must have room for it.
pub fn put(line: &mut Line, text: &[u8])
    requires { array_vec_len line.old + length text.now ≤ 160 }
    ensures items { line.new.items ≡ line.old.items ++ text.now }
    ensures len { array_vec_len line.new ≡ array_vec_len line.old + length text.now }
{
    let _ = line.try_extend_from_slice(text);
}

/// Appends the byte `count` times.
pub(crate) fn put_copies(line: &mut Line, count: usize, byte: u8)
    requires { array_vec_len line.old + count ≤ 160 }
    ensures items { line.new.items ≡ line.old.items ++ replicate count byte }
    ensures len { array_vec_len line.new ≡ array_vec_len line.old + count }
{
    for _ in 0..count {
        line.push(byte);
    }
}

/// Appends the text with `before` spaces before it and `after` spaces after it.
fn put_between(line: &mut Line, before: usize, text: &[u8], after: usize)
    requires { array_vec_len line.old + before + length text.now + after ≤ 160 }
    ensures items { line.new.items ≡ line.old.items ++ (replicate before 32 ++ text.now ++ replicate after 32) }
    ensures len { array_vec_len line.new ≡ array_vec_len line.old + before + length text.now + after }
{
    put_copies(line, before, b' ');
    put(line, text);
    put_copies(line, after, b' ');
}

/// Appends the text at the right of a column of `width` bytes, with spaces before it. The text must not be longer than
/// the column.
pub fn put_right(line: &mut Line, width: usize, text: &[u8])
    requires room { array_vec_len line.old + width ≤ 160 }
    requires fits { length text.now ≤ width }
    ensures items { line.new.items ≡ line.old.items ++ right_in width text.now }
    ensures len { array_vec_len line.new ≡ array_vec_len line.old + width }
{
    put_between(line, width - text.len(), text, 0);
}

/// Appends the text at the left of a column of `width` bytes, with spaces after it. The text must not be longer than
/// the column.
pub fn put_left(line: &mut Line, width: usize, text: &[u8])
    requires room { array_vec_len line.old + width ≤ 160 }
    requires fits { length text.now ≤ width }
    ensures items { line.new.items ≡ line.old.items ++ left_in width text.now }
    ensures len { array_vec_len line.new ≡ array_vec_len line.old + width }
{
    put_between(line, 0, text, width - text.len());
}

/// Appends a space and the integer, as [`put_integer`] does.
pub fn put_word<I: Integer>(line: &mut Line, value: I)
    requires { array_vec_len line.old + I.MAX_STR_LEN + 1 ≤ 160 }
    ensures items { line.new.items ≡ line.old.items ++ 32 ∷ I.text value }
    ensures len { array_vec_len line.new ≤ array_vec_len line.old + I.MAX_STR_LEN + 1 }
{
    put(line, b" ");
    put_integer(line, value);
}

/// Appends the integer in decimal, without leading zeros, and with a `-` if it is below 0: at most 20 bytes for 64 bits
/// and 40 for 128 bits.
pub fn put_integer<I: Integer>(line: &mut Line, value: I)
    requires { array_vec_len line.old + I.MAX_STR_LEN ≤ 160 }
    ensures items { line.new.items ≡ line.old.items ++ I.text value }
    ensures len { array_vec_len line.new ≤ array_vec_len line.old + I.MAX_STR_LEN }
{
    let mut buffer = Buffer::new();
    put(line, buffer.format(value).as_bytes());
}
