//! The tokens of an OData expression, and where they stand in its text.

/// The most tokens of a text.
pub const MAX_TOKENS: usize = 1024;

/// The most digits of a number.
pub const MAX_DIGITS: usize = 38;

/// The most digits of a decimal before its point.
pub const MAX_WHOLE_DIGITS: usize = 32;

/// The most digits of a decimal after its point, which is read in millionths.
pub const MAX_FRACTION_DIGITS: usize = 6;

/// What a token is. Letters and digits are those of ASCII.
#[derive(Clone, Copy, Debug, PartialEq, Eq)]
pub enum TokenKind {
    /// `'`, any characters with each `'` doubled, `'`.
    Text,
    /// Four digits, `-`, two digits, `-`, two digits: a day of the calendar in the years 0001 to 9999.
    Date,
    /// One to [`MAX_WHOLE_DIGITS`] digits, `.`, one to [`MAX_FRACTION_DIGITS`] digits.
    Decimal,
    /// One to [`MAX_DIGITS`] digits.
    Number,
    /// A letter or `_`, then letters, digits and `_`.
    Word,
    /// `$` and a word.
    Dollar,
    OpenParenthesis,
    CloseParenthesis,
    Comma,
    Slash,
    Minus,
    Star,
    EqualsSign,
}

/// A token of a text: its kind, and its bytes in the text from `start` up to `end`, both boundaries of characters.
#[derive(Clone, Copy, PartialEq, Eq)]
pub struct Token {
    pub kind: TokenKind,
    pub start: usize,
    pub end: usize,
}
