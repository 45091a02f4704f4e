//! Reading and writing the parts of a line of text, shared by all formats: decimals with one spelling, columns, words,
//! cutting at a byte, trimming, names and identifiers. `proofs/` shows for each writer that its reader reads the
//! written text back to the same value.
#![tactic(auto)]

mod columns;
mod identifiers;
mod line;
mod name;
mod text;
mod words;

pub use columns::{
    decimal_column, digits, digits_up_to, power_of_ten, put_decimals, put_decimals_right,
};
pub use identifiers::{is_identifier, is_identifier_continue, is_identifier_start};
pub use line::{Line, put, put_integer, put_left, put_right, put_word};
pub use name::{Name, is_printable};
pub use text::{
    cut, integer, natural, strip, three_words, trim, trim_end, trim_front, trim_returns,
};
pub use words::{next_word, skip_blanks};
