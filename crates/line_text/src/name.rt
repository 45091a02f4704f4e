//! Names of residues, atoms and atom types.

ghost use Rattle.std.specs.Prelude.{◌≡◌, ◌≤◌, length, take, option_map, bytes_eq, IsTrue, Some};
ghost use Rattle.std.specs.Cmp.{partial_equiv_from_equiv};
ghost use Rattle.std.specs.Ordering.{on};
ghost use Rattle.std.proofs.lemmas.Cmp.{on_equiv, nat_list_eq_equiv};
ghost use Rattle.line_text.specs.Parts.{is_name, is_printable, has_clean_ends, name_of};

use std::fmt;

/// A name: at most five bytes, each from 32 to 126, without spaces at its ends. It may be empty.
#[derive(Clone, Copy, Debug)]
pub struct Name {
    bytes: [u8; 5],
    len: usize,
    ghost within: { len ≤ 5 },
    ghost named: { IsTrue (is_name (take len bytes)) },
}

impl Name {
    ghost use Rattle.line_text.specs.Names.{name_text};

    /// The name with this text.
    ///
    /// `None` if the text is longer than five bytes, has a byte outside 32 to 126, or a space at either end.
    #[tactic(auto, unfolding(crate::specs::Parts::name_of))]
    pub fn new(text: &[u8]) -> Option<Name>
        ensures { option_map name_text result ≡ name_of text.now }
    {
        if !is_name(text) {
            return None;
        }
        let len = text.len();
        let mut bytes = [0; 5];
        bytes[..len].copy_from_slice(text);
        Some(Name { bytes, len })
    }

    /// The name's text.
    pub fn as_bytes(&self) -> &[u8]
        ensures text { result.now ≡ name_text self.now }
        ensures short { length result.now ≤ 5 }
        ensures named { IsTrue (is_name result.now) }
    {
        &self.bytes[..self.len]
    }
}

/// Names are equal if and only if their texts are.
impl PartialEq for Name {
    ghost use Rattle.line_text.specs.Names.{name_text};

    ghost eq = { on name_text bytes_eq };

    ghost laws = { partial_equiv_from_equiv (on_equiv name_text nat_list_eq_equiv) };

    fn eq(&self, other: &Name) -> bool {
        self.as_bytes() == other.as_bytes()
    }
}

impl Eq for Name {
    ghost use Rattle.line_text.specs.Names.{name_text};

    ghost laws = { on_equiv name_text nat_list_eq_equiv };
}

/// Prints the name's text.
impl fmt::Display for Name {
    ghost use Rattle.line_text.specs.Names.{name_text};

    ghost output = { λ n. Some (name_text n) };

    fn fmt<W: fmt::Write>(&self, f: &mut fmt::Formatter<W>) -> fmt::Result {
        match std::str::from_utf8(self.as_bytes()) {
            Ok(text) => f.write_str(text),
            Err(_) => unreachable!(),
        }
    }
}

// Whether the text is a name.
fn is_name(text: &[u8]) -> bool
    ensures exact { result ≡ is_name text.now }
    ensures short { IsTrue result → length text.now ≤ 5 }
{
    text.len() <= 5 && is_printable(text) && has_clean_ends(text)
}

// Whether neither end of the text is a space.
fn has_clean_ends(text: &[u8]) -> bool
    ensures { result ≡ has_clean_ends text.now }
{
    text.is_empty() || (text[0] != b' ' && text[text.len() - 1] != b' ')
}

/// Whether all bytes are from 32 to 126.
pub fn is_printable(text: &[u8]) -> bool
    ensures { result ≡ is_printable text.now }
{
    text.iter().all(|b| 32 <= *b && *b <= 126)
}
