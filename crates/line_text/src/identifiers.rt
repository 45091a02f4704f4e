//! Identifiers: the names of parameters, globals, variables and definitions.

ghost use Rattle.std.specs.Prelude.{◌≡◌};
ghost use Rattle.std.specs.List.{list_all};
ghost use Rattle.line_text.specs.Identifiers.{is_identifier_start, is_identifier_continue, is_identifier};

/// Whether an identifier may start with the byte: `_` or a letter, `A` to `Z` or `a` to `z`.
pub fn is_identifier_start(byte: u8) -> bool
    ensures { result ≡ is_identifier_start byte }
{
    byte == b'_' || byte.is_ascii_alphabetic()
}

/// Whether an identifier may have the byte after its first one: `_`, a letter or a digit.
pub fn is_identifier_continue(byte: u8) -> bool
    ensures { result ≡ is_identifier_continue byte }
{
    is_identifier_start(byte) || byte.is_ascii_digit()
}

// Whether an identifier may have each of these bytes after its first one.
fn all_continue(bytes: &[u8]) -> bool
    ensures { result ≡ list_all is_identifier_continue bytes.now }
{
    bytes.iter().all(|b| is_identifier_continue(*b))
}

/// Whether the text is an identifier: `_` or a letter, then letters, digits and `_`.
#[tactic(auto, unfolding(crate::specs::Identifiers::is_identifier))]
pub fn is_identifier(text: &[u8]) -> bool
    ensures { result ≡ is_identifier text.now }
{
    match text {
        [] => false,
        [first, rest @ ..] => is_identifier_start(*first) && all_continue(rest),
    }
}
