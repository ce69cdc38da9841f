//! What a token is.

use crate::tokens::keyword::Keyword;

/// A kind of bracket.
#[derive(Clone, Copy, PartialEq, Eq)]
pub(crate) enum Bracket {
    /// `(` and `)`
    Round,
    /// `[` and `]`
    Square,
    /// `{` and `}`
    Curly,
}

/// A kind of token.
#[derive(Clone, Copy, PartialEq, Eq)]
pub(crate) enum TokenKind {
    /// A name that is no keyword.
    Name,
    /// `r#` and a name, which is never a keyword.
    RawName,
    /// A keyword.
    Keyword(Keyword),
    /// `'a`
    Lifetime,
    /// A number, with its suffix.
    Number,
    /// A character in quotes.
    Char,
    /// `b` and a character in quotes.
    Byte,
    /// A string of any kind.
    Text,
    /// One character of punctuation.
    Punct(u8),
    /// A bracket that opens a group.
    Open(Bracket),
    /// A bracket that closes a group.
    Close(Bracket),
}

/// A token.
#[derive(Clone, Copy, PartialEq, Eq)]
pub(crate) struct Token {
    pub kind: TokenKind,
    /// How many bytes of the source stand before it.
    pub start: u32,
    /// How many bytes of the source stand before what follows it.
    pub end: u32,
    /// The index of a bracket's partner.
    pub partner: u32,
}
