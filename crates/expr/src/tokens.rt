/// The kind of a token, with its value.
#[derive(Clone, Copy)]
pub enum Kind<'a> {
    /// A numeral: the raw value of its constant, the bounds of its error of reading, and the integer that it spells in
    /// plain digits (100 if greater, 0 if it isn't plain digits).
    Number(i64, i16, i16, u8),
    Name(&'a [u8]),
    Plus,
    Minus,
    Star,
    Slash,
    Caret,
    Open,
    Close,
    Comma,
    Semicolon,
    Equals,
}

/// A token, and the offset of its first byte in the text.
#[derive(Clone, Copy)]
pub struct Token<'a> {
    pub kind: Kind<'a>,
    pub at: usize,
}
