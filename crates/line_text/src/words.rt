//! The words of a line, which spaces and tabs separate.

ghost use Rattle.std.specs.Prelude.{◌≡◌, ◌<◌, ◌≤◌, length, option_map, IfSome};
ghost use Rattle.std.specs.List.{position_or_len};
ghost use Rattle.line_text.specs.Words.{is_blank, words, without_blanks, after_word, more_words};

// Whether the byte is a space or a tab.
fn is_blank(byte: u8) -> bool
    ensures { result ≡ is_blank byte }
{
    byte == b' ' || byte == b'\t'
}

/// The text without the spaces and tabs at its start.
pub fn skip_blanks(text: &[u8]) -> &[u8]
    ensures value { result.now ≡ without_blanks text.now }
    ensures shorter { length result.now ≤ length text.now }
{
    let mut rest = text;
    while let [b' ' | b'\t', after @ ..] = rest {
        rest = after;
    }
    rest
}

// The number of bytes before the first space or tab.
fn word_len(text: &[u8]) -> usize
    ensures value { result ≡ position_or_len is_blank text.now }
    ensures within { result ≤ length text.now }
{
    text.iter().take_while(|b| !is_blank(**b)).count()
}

/// The first word and the text after it; `None` if there is no word.
pub fn next_word(text: &[u8]) -> Option<(&[u8], &[u8])>
    ensures word { words text.now ≡ more_words (option_map (λ x. (x.0.now, x.1.now)) result) }
    ensures rest { IfSome result (λ x. x.1.now ≡ after_word text.now) }
    ensures shorter { IfSome result (λ x. length x.1.now < length text.now) }
{
    let text = skip_blanks(text);
    if text.is_empty() {
        None
    } else {
        Some(text.split_at(word_len(text)))
    }
}
