//! Tokens and their kinds.

/// What a token is.
#[derive(Clone, Copy, Debug, PartialEq, Eq)]
pub enum TokenKind {
    Open,
    Close,
    Name,
    Variable,
    Keyword,
    Number,
    Mark,
    Time,
}

/// A token of a text: the bytes from `at` up to `end`.
#[derive(Clone, Copy, Debug, PartialEq, Eq)]
pub struct Token {
    pub kind: TokenKind,
    pub at: u32,
    pub end: u32,
    /// Of a parenthesis, the number of the token that it belongs to; of another token, its own.
    pub mate: u32,
}
