//! Tokens, and the faults of a text that has no tokens.

/// The class of a token.
#[derive(Clone, Copy, Debug, PartialEq, Eq)]
pub enum TokenKind {
    /// An unquoted word, reserved or not.
    Word,
    /// A name in `"`.
    Quoted,
    Number,
    /// A text in `'`.
    Text,
    Symbol,
}

/// A token as it is written, with its delimiters, and the place of its first byte in the text, from 0 on.
#[derive(Clone, Copy, Debug)]
pub struct Token<'a> {
    pub kind: TokenKind,
    pub text: &'a [u8],
    pub start: usize,
}

/// What is wrong with a text that does not go on with a token.
#[derive(Clone, Copy, Debug, PartialEq, Eq)]
pub enum LexCode {
    /// A byte that begins no token, blank or comment.
    BadByte,
    /// A text that does not end.
    OpenString,
    /// A comment that does not end.
    OpenComment,
    /// A quoted name that does not end, or is empty.
    OpenName,
    /// A number directly followed by a letter, `_` or a point.
    BadNumber,
}

/// A fault, and the place of its first byte in the text, from 0 on.
#[derive(Clone, Copy, Debug, PartialEq, Eq)]
pub struct LexFault {
    pub code: LexCode,
    pub at: usize,
}
