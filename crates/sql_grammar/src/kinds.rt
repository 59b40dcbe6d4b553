//! The kinds of tokens that the grammar tells apart.
ghost use Rattle.std.specs.Prelude.{◌≡◌};
ghost use Rattle.sql_lex.specs.Lexemes.{lexeme_of};
ghost use Rattle.sql_grammar.specs.Kinds.{among, kind_in, kind_of, same, symbol_kinds};

use crate::words::word_kind;
use sql_lex::{Token, TokenKind};

/// A kind for each word that the grammar uses and for each symbol, `<>` and `!=` being one. Words that are never used are
/// `LeftOut`.
#[derive(Clone, Copy)]
pub enum Kind {
    All,
    And,
    As,
    Between,
    By,
    Constraint,
    Create,
    Cross,
    Distinct,
    Except,
    Exists,
    Foreign,
    From,
    Group,
    Having,
    In,
    Inner,
    Intersect,
    Join,
    Like,
    Not,
    Null,
    On,
    Or,
    Primary,
    References,
    Select,
    Table,
    Union,
    Unique,
    Where,
    Count,
    Sum,
    Avg,
    Min,
    Max,
    Key,
    View,
    Index,
    Word,
    Quoted,
    Number,
    Text,
    LeftOut,
    Open,
    Close,
    Comma,
    Semicolon,
    Dot,
    Star,
    Equals,
    Differs,
    Less,
    AtMost,
    Greater,
    AtLeast,
    Plus,
    Minus,
    Slash,
    Concat,
}

/// The kinds of names: unreserved words and quoted names.
pub const NAME_KINDS: [Kind; 10] = [
    Kind::Word,
    Kind::Count,
    Kind::Sum,
    Kind::Avg,
    Kind::Min,
    Kind::Max,
    Kind::Key,
    Kind::View,
    Kind::Index,
    Kind::Quoted,
];

/// Whether the two kinds are one.
pub fn is_same(a: Kind, b: Kind) -> bool
    ensures { result ≡ same a b }
{
    a as u8 == b as u8
}

/// Whether the kind is one of these.
pub fn is_among(kinds: &[Kind], kind: Kind) -> bool
    ensures { result ≡ among kinds.now kind }
{
    kinds.iter().any(|other| is_same(*other, kind))
}

fn symbol_kind(text: &[u8]) -> Kind
    ensures { result ≡ kind_in symbol_kinds Kind.LeftOut text.now }
{
    match text {
        b"(" => Kind::Open,
        b")" => Kind::Close,
        b"," => Kind::Comma,
        b";" => Kind::Semicolon,
        b"." => Kind::Dot,
        b"*" => Kind::Star,
        b"=" => Kind::Equals,
        b"<>" | b"!=" => Kind::Differs,
        b"<" => Kind::Less,
        b"<=" => Kind::AtMost,
        b">" => Kind::Greater,
        b">=" => Kind::AtLeast,
        b"+" => Kind::Plus,
        b"-" => Kind::Minus,
        b"/" => Kind::Slash,
        b"||" => Kind::Concat,
        _ => Kind::LeftOut,
    }
}

/// The kind of a token.
pub fn kind_of(token: &Token<'_>) -> Kind
    ensures { result ≡ kind_of (lexeme_of token.now) }
{
    match token.kind {
        TokenKind::Word => word_kind(token.text),
        TokenKind::Quoted => Kind::Quoted,
        TokenKind::Number => Kind::Number,
        TokenKind::Text => Kind::Text,
        TokenKind::Symbol => symbol_kind(token.text),
    }
}
