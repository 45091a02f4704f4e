//! Reading a line, part by part.

ghost use Rattle.std.specs.Prelude.{◌≡◌, ◌==◌, ◌<◌, ◌≤◌, [], ◌∷◌, length, option_map, IfSome};
ghost use Rattle.std.specs.List.{position_or_len};
ghost use Rattle.line_text.specs.Parts.{natural_of, integer_of, split_once, after, word_at, three_at, without_spaces, without_end_spaces, trimmed, without_returns};

use itoa::Buffer;

/// The number below `limit` that the text spells in its only accepted form: decimal digits without leading zeros.
///
/// `None` for any other text, such as the empty text, `007`, `+1` or ` 1`, and for a number of `limit` or more.
pub fn natural(limit: u64, text: &[u8]) -> Option<u64>
    ensures exact { result ≡ natural_of limit text.now }
    ensures below { IfSome result (λ n. n < limit) }
{
    let Ok(words) = std::str::from_utf8(text) else {
        return None;
    };
    let Ok(number) = words.parse::<u64>() else {
        return None;
    };
    let mut buffer = Buffer::new();
    if number >= limit {
        return None;
    }
    if buffer.format(number).as_bytes() == text {
        Some(number)
    } else {
        None
    }
}

/// The 64-bit signed integer that the text spells in its only accepted form: decimal digits without leading zeros,
/// after a `-` only if it is below 0.
///
/// `None` for any other text, such as the empty text, `007`, `-0` or `+1`, and for a number outside -2^63 to 2^63 - 1.
pub fn integer(text: &[u8]) -> Option<i64>
    ensures { result ≡ integer_of text.now }
{
    let Ok(words) = std::str::from_utf8(text) else {
        return None;
    };
    let Ok(value) = words.parse::<i64>() else {
        return None;
    };
    let mut buffer = Buffer::new();
    if buffer.format(value).as_bytes() == text {
        Some(value)
    } else {
        None
    }
}

/// The index of the first occurrence of `byte`, or the length of the text if there is none.
fn first_index(byte: u8, text: &[u8]) -> usize
    ensures index { result ≡ position_or_len (λ b. b == byte) text.now }
    ensures within { result ≤ length text.now }
{
    for (i, b) in text.iter().enumerate() {
        if *b == byte {
            return i;
        }
    }
    text.len()
}

/// The parts of a text before and after the first occurrence of `byte`; `None` if there is none.
#[tactic(auto, unfolding(crate::specs::Parts::split_once))]
pub fn cut(byte: u8, text: &[u8]) -> Option<(&[u8], &[u8])>
    ensures { option_map (λ x. (x.0.now, x.1.now)) result ≡ split_once byte text.now }
{
    let at = first_index(byte, text);
    if at < text.len() {
        Some((&text[..at], &text[at + 1..]))
    } else {
        None
    }
}

/// The text after the prefix `front`; `None` if the text doesn't start with it.
#[tactic(auto, unfolding(crate::specs::Parts::after))]
pub fn strip<'a>(front: &[u8], text: &'a [u8]) -> Option<&'a [u8]>
    ensures { option_map (λ x. x.now) result ≡ after front.now text.now }
{
    text.strip_prefix(front)
}

/// The number after a space at the start of the text, and the rest of the text. The number is below `limit` and ends at
/// the next space or at the end. `None` for any other text.
#[tactic(auto, unfolding(crate::specs::Parts::word_at))]
pub(crate) fn word(limit: u64, text: &[u8]) -> Option<(u64, &[u8])>
    ensures exact { option_map (λ x. (x.0, x.1.now)) result ≡ word_at limit text.now }
    ensures below { IfSome result (λ x. x.0 < limit) }
{
    let rest = strip(b" ", text)?;
    let at = first_index(b' ', rest);
    let (front, rest) = rest.split_at(at);
    let number = natural(limit, front)?;
    Some((number, rest))
}

/// Three numbers, each after a space and below `limit`, and the rest of the text; `None` if one of them is missing.
#[tactic(auto, unfolding(crate::specs::Parts::three_at))]
pub fn three_words(limit: u64, text: &[u8]) -> Option<(u64, u64, u64, &[u8])>
    ensures exact { option_map (λ x. (x.0 ∷ x.1 ∷ x.2 ∷ [], x.3.now)) result ≡ three_at limit text.now }
    ensures below { IfSome result (λ x. (x.0 < limit) × (x.1 < limit) × (x.2 < limit)) }
{
    let (x, rest) = word(limit, text)?;
    let (y, rest) = word(limit, rest)?;
    let (z, rest) = word(limit, rest)?;
    Some((x, y, z, rest))
}

/// The text without the spaces at its start.
pub fn trim_front(text: &[u8]) -> &[u8]
    ensures trimmed { result.now ≡ without_spaces text.now }
    ensures shorter { length result.now ≤ length text.now }
{
    let mut rest = text;
    while let [b' ', after @ ..] = rest {
        rest = after;
    }
    rest
}

/// The text without the spaces at its end.
pub fn trim_end(text: &[u8]) -> &[u8]
    ensures trimmed { result.now ≡ without_end_spaces text.now }
    ensures shorter { length result.now ≤ length text.now }
{
    let mut rest = text;
    while let [before @ .., b' '] = rest {
        rest = before;
    }
    rest
}

/// The text without the spaces at both ends.
pub fn trim(text: &[u8]) -> &[u8]
    ensures trimmed { result.now ≡ trimmed text.now }
    ensures shorter { length result.now ≤ length text.now }
{
    trim_end(trim_front(text))
}

/// The line without the carriage returns at its end.
pub fn trim_returns(line: &[u8]) -> &[u8]
    ensures { result.now ≡ without_returns line.now }
{
    let mut rest = line;
    while let [before @ .., b'\r'] = rest {
        rest = before;
    }
    rest
}
