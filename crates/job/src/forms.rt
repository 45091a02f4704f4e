//! The forms of type names and keys.

ghost use Rattle.std.specs.Prelude.{◌≡◌, map};
ghost use Rattle.std.specs.List.{list_all};
ghost use Rattle.job.specs.Forms.{is_graphic, is_type_name};
ghost use Rattle.job.specs.Statements.{key_among, key_of};

use crate::faults::Key;

/// Whether all bytes are from 33 to 126.
fn are_graphic(bytes: &[u8]) -> bool
    ensures { result ≡ list_all is_graphic bytes.now }
{
    bytes.iter().all(|b| 33 <= *b && *b <= 126)
}

/// Whether the word is a type name: one to five bytes from 33 to 126.
#[tactic(auto, unfolding(crate::specs::Forms::is_type_name))]
pub fn is_type_name(word: &[u8]) -> bool
    ensures { result ≡ is_type_name word.now }
{
    1 <= word.len() && word.len() <= 5 && are_graphic(word)
}

// The keys and their words.
const KEYS: [(&[u8], Key); 9] = [
    (b"energy", Key::Energy),
    (b"core", Key::Core),
    (b"cutoff", Key::Cutoff),
    (b"dt", Key::TimeStep),
    (b"slices", Key::Slices),
    (b"parameter", Key::Parameter),
    (b"global", Key::Global),
    (b"type", Key::Types),
    (b"bits", Key::Bits),
];

// The key of the first table entry with this word.
fn key_among(mut table: &[(&[u8], Key)], word: &[u8]) -> Option<Key>
    ensures { result ≡ key_among (map (λ e. (e.0.now, e.1)) table.entry.now) word.now }
{
    while let [entry, rest @ ..] = table {
        if word == entry.0 {
            return Some(entry.1);
        }
        table = rest;
    }
    None
}

/// The key with this word; `None` if there is none.
#[tactic(auto, unfolding(crate::specs::Statements::key_of))]
pub fn key_of(word: &[u8]) -> Option<Key>
    ensures { result ≡ key_of word.now }
{
    key_among(&KEYS, word)
}
