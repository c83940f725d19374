//! Tokens, and where they stand in their text.

use quartz_tree::Place;

/// The kinds of token. Which keyword or sign a token is, is said by its text.
#[derive(Clone, Copy, Debug, PartialEq, Eq)]
pub enum TokenKind {
    /// A letter or `_`, then letters, digits and `_`, and no keyword.
    Name,
    Keyword,
    /// 1 to 38 decimal digits.
    Number,
    /// `0b`, then one or more digits 0 and 1.
    Bits,
    Sign,
}

/// A token of a text: its bytes are those from `start` to before `end`, and `place` is the first
/// byte's.
#[derive(Clone, Copy, Debug, PartialEq, Eq)]
pub struct Token {
    pub kind: TokenKind,
    pub start: u32,
    pub end: u32,
    pub place: Place,
}

/// The tokens of a text in order, and the place after its last byte.
#[derive(Debug, Drop)]
pub struct Tokens {
    pub items: Vec<Token>,
    pub end: Place,
}
