//! What stands at the front of a text.
ghost use Rattle.std.specs.Prelude.{◌≡◌, ◌<◌, ◌≤◌, ◌^◌, false, length, IfSome};
ghost use Rattle.std.specs.List.{prefix_len};
ghost use Rattle.sql_lex.specs.Bytes.{goes_on_word, is_digit, quote, double_quote};
ghost use Rattle.sql_lex.specs.Classes.{is_pair, is_single};
ghost use Rattle.sql_lex.specs.Gaps.{is_in_line};
ghost use Rattle.sql_lex.specs.Front.{begins_number, close_len, comment_piece, end_len, first_piece, fraction_len, marked_piece, name_piece, number_len, number_piece, symbol_piece, text_piece};

use crate::bytes::{begins_word, goes_on_word, is_blank};
use crate::token::{LexCode, TokenKind};

/// What a text begins with, and how many bytes that takes.
pub enum Piece {
    /// A blank, or a comment.
    Gap(usize),
    Lexeme(TokenKind, usize),
}

fn tail_len(bytes: &[u8]) -> usize
    ensures value { result ≡ prefix_len goes_on_word bytes.now }
    ensures within { result ≤ length bytes.now }
{
    bytes.iter().take_while(|byte| goes_on_word(**byte)).count()
}

fn digits_len(bytes: &[u8]) -> usize
    ensures value { result ≡ prefix_len is_digit bytes.now }
    ensures within { result ≤ length bytes.now }
{
    bytes
        .iter()
        .take_while(|byte| byte.is_ascii_digit())
        .count()
}

/// The length of a line without its line feed.
fn line_len(bytes: &[u8]) -> usize
    ensures value { result ≡ prefix_len is_in_line bytes.now }
    ensures within { result ≤ length bytes.now }
{
    bytes.iter().take_while(|byte| **byte != b'\n').count()
}

/// The length of a point and the digits behind it, or 0.
fn fraction_len(bytes: &[u8]) -> usize
    requires { length bytes.now < 2 ^ 63 }
    ensures value { result ≡ fraction_len bytes.now }
    ensures within { result ≤ length bytes.now }
{
    match bytes {
        [b'.', digits @ ..] => 1 + digits_len(digits),
        _ => 0,
    }
}

/// The length of the longest number that the bytes begin with, or 0.
fn number_len(bytes: &[u8]) -> usize
    requires { length bytes.now < 2 ^ 63 }
    ensures value { result ≡ number_len bytes.now }
    ensures within { result ≤ length bytes.now }
{
    let whole = digits_len(bytes);
    whole + fraction_len(&bytes[whole..])
}

/// How many bytes there are up to the end of what a mark began.
#[tactic(auto, using(crate::proofs::Steps::ends))]
fn end_len(mark: u8, bytes: &[u8]) -> Option<usize>
    ensures value { result ≡ end_len mark false bytes.now }
    ensures within { IfSome result (λ len. len ≤ length bytes.now) }
{
    let mut marked = false;
    for (index, byte) in bytes.iter().enumerate() {
        if *byte == mark {
            marked = !marked;
        } else if marked {
            return Some(index);
        }
    }
    if marked { Some(bytes.len()) } else { None }
}

/// How many bytes there are up to the end of a comment.
#[tactic(auto, using(crate::proofs::Steps::closes))]
fn close_len(bytes: &[u8]) -> Option<usize>
    ensures value { result ≡ close_len false bytes.now }
    ensures within { IfSome result (λ len. len ≤ length bytes.now) }
{
    let mut star = false;
    for (index, byte) in bytes.iter().enumerate() {
        if star && *byte == b'/' {
            return Some(index + 1);
        }
        star = *byte == b'*';
    }
    None
}

/// The number that the bytes begin with.
#[tactic(auto, unfolding(crate::specs::Front::number_piece))]
fn number_piece(bytes: &[u8]) -> Result<Piece, LexCode>
    requires { length bytes.now < 2 ^ 63 }
    ensures { result ≡ number_piece bytes.now }
{
    let len = number_len(bytes);
    match &bytes[len..] {
        [next, ..] if begins_word(*next) || *next == b'.' => Err(LexCode::BadNumber),
        _ => Ok(Piece::Lexeme(TokenKind::Number, len)),
    }
}

/// The text whose quote stands before the bytes.
fn text_piece(bytes: &[u8]) -> Result<Piece, LexCode>
    requires { length bytes.now < 2 ^ 63 }
    ensures { result ≡ text_piece (end_len quote false bytes.now) }
{
    match end_len(b'\'', bytes) {
        Some(len) => Ok(Piece::Lexeme(TokenKind::Text, 1 + len)),
        None => Err(LexCode::OpenString),
    }
}

/// The name whose double quote stands before the bytes.
fn name_piece(bytes: &[u8]) -> Result<Piece, LexCode>
    requires { length bytes.now < 2 ^ 63 }
    ensures { result ≡ name_piece (end_len double_quote false bytes.now) }
{
    match end_len(b'"', bytes) {
        Some(len) if len > 1 => Ok(Piece::Lexeme(TokenKind::Quoted, 1 + len)),
        _ => Err(LexCode::OpenName),
    }
}

/// The comment whose `/*` stands before the bytes.
fn comment_piece(bytes: &[u8]) -> Result<Piece, LexCode>
    requires { length bytes.now < 2 ^ 63 }
    ensures { result ≡ comment_piece (close_len false bytes.now) }
{
    match close_len(bytes) {
        Some(len) => Ok(Piece::Gap(2 + len)),
        None => Err(LexCode::OpenComment),
    }
}

fn is_pair(first: u8, second: u8) -> bool
    ensures { result ≡ is_pair first second }
{
    matches!(
        (first, second),
        (b'<', b'>') | (b'!', b'=') | (b'<', b'=') | (b'>', b'=') | (b'|', b'|')
    )
}

fn is_single(byte: u8) -> bool
    ensures { result ≡ is_single byte }
{
    b"(),;.*=<>+-/".contains(&byte)
}

/// The symbol that the bytes begin with.
fn symbol_piece(first: u8, rest: &[u8]) -> Result<Piece, LexCode>
    ensures { result ≡ symbol_piece first rest.now }
{
    match rest {
        [second, ..] if is_pair(first, *second) => Ok(Piece::Lexeme(TokenKind::Symbol, 2)),
        _ if is_single(first) => Ok(Piece::Lexeme(TokenKind::Symbol, 1)),
        _ => Err(LexCode::BadByte),
    }
}

/// Whether a number begins with this byte, before the rest.
fn begins_number(first: u8, rest: &[u8]) -> bool
    ensures { result ≡ begins_number first rest.now }
{
    match rest {
        [second, ..] if first == b'.' => second.is_ascii_digit(),
        _ => first.is_ascii_digit(),
    }
}

/// A text, a quoted name, a comment or a symbol.
fn marked_piece(first: u8, rest: &[u8]) -> Result<Piece, LexCode>
    requires { length rest.now < 2 ^ 63 }
    ensures { result ≡ marked_piece first rest.now }
{
    match (first, rest) {
        (b'\'', _) => text_piece(rest),
        (b'"', _) => name_piece(rest),
        (b'-', [b'-', line @ ..]) => Ok(Piece::Gap(2 + line_len(line))),
        (b'/', [b'*', comment @ ..]) => comment_piece(comment),
        _ => symbol_piece(first, rest),
    }
}

/// What stands at the front of the bytes; of no bytes that is nothing.
#[tactic(auto, unfolding(crate::specs::Front::first_piece))]
pub fn first_piece(bytes: &[u8]) -> Result<Piece, LexCode>
    requires { length bytes.now < 2 ^ 63 }
    ensures { result ≡ first_piece bytes.now }
{
    match bytes {
        [] => Ok(Piece::Gap(0)),
        [first, ..] if is_blank(*first) => Ok(Piece::Gap(1)),
        [first, rest @ ..] if begins_word(*first) => {
            Ok(Piece::Lexeme(TokenKind::Word, 1 + tail_len(rest)))
        }
        [first, rest @ ..] if begins_number(*first, rest) => number_piece(bytes),
        [first, rest @ ..] => marked_piece(*first, rest),
    }
}
