//! What single tokens stand for: names, numbers and texts.
ghost use Rattle.std.specs.Prelude.{◌≡◌, ◌++◌, IfOk};
ghost use Rattle.sql_lex.specs.Lexemes.{lexeme_of};
ghost use Rattle.sql_grammar.specs.QueryTrees.{number_of, text_of};
ghost use Rattle.sql_grammar.specs.TokenValues.{after_point, before_point, inside, name_of, normalised, undoubled, with_fraction, without_leading_zeros, without_trailing_zeros};

use crate::names::folded_name;
use sql_lex::{Token, TokenKind};
use sql_model::{Lit, LitKind, Name, NameBuilder, NoMemory};
use std::alloc::Global;

/// The bytes before the last one, with each doubled mark once.
fn undoubled(alloc: Global, mark: u8, text: &[u8]) -> Result<NameBuilder, NoMemory>
    ensures { IfOk result (λ found. found ≡ undoubled mark text.now) }
{
    let mut found = NameBuilder::with_capacity(alloc, text.len().saturating_sub(1))?;
    let mut rest = text;
    'bytes: while let [byte, after @ ..] = rest {
        match after {
            [] => break,
            [_, later @ ..] => {
                found.push(*byte)?;
                rest = if *byte == mark { later } else { after };
            }
        }
    }
    Ok(found)
}

/// What stands between two marks.
fn inside(alloc: Global, text: &[u8]) -> Result<Name, NoMemory>
    ensures { IfOk result (λ name. name ≡ inside text.now) }
{
    match text {
        [] => Name::new(alloc, text),
        [mark, rest @ ..] => {
            let found = undoubled(alloc, *mark, rest)?;
            found.into_name(alloc)
        }
    }
}

/// The name that a word or a quoted name stands for.
pub fn name_in(alloc: Global, token: &Token<'_>) -> Result<Name, NoMemory>
    ensures { IfOk result (λ name. name ≡ name_of (lexeme_of token.now)) }
{
    match token.kind {
        TokenKind::Quoted => inside(alloc, token.text),
        _ => folded_name(alloc, token.text),
    }
}

/// The text that a token in quotes stands for.
pub fn text_in(alloc: Global, token: &Token<'_>) -> Result<Lit, NoMemory>
    ensures { IfOk result (λ literal. literal ≡ text_of (lexeme_of token.now)) }
{
    let text = inside(alloc, token.text)?;
    Ok(Lit {
        kind: LitKind::Text,
        text,
    })
}

fn before_point(text: &[u8]) -> &[u8]
    ensures { result.now ≡ before_point text.now }
{
    for (at, byte) in text.iter().enumerate() {
        if *byte == b'.' {
            return &text[..at];
        }
    }
    text
}

fn after_point(text: &[u8]) -> &[u8]
    ensures { result.now ≡ after_point text.now }
{
    let mut rest = text;
    'bytes: while let [byte, after @ ..] = rest {
        if *byte == b'.' {
            return after;
        }
        rest = after;
    }
    rest
}

fn without_leading_zeros(digits: &[u8]) -> &[u8]
    ensures { result.now ≡ without_leading_zeros digits.now }
{
    let mut rest = digits;
    'zeros: while let [b'0', more @ ..] = rest {
        rest = more;
    }
    rest
}

fn without_trailing_zeros(digits: &[u8]) -> &[u8]
    ensures { result.now ≡ without_trailing_zeros digits.now }
{
    let mut rest = digits;
    'zeros: while let [more @ .., last] = rest {
        if *last != b'0' {
            return rest;
        }
        rest = more;
    }
    rest
}

fn normalised(alloc: Global, text: &[u8]) -> Result<Name, NoMemory>
    ensures { IfOk result (λ name. name ≡ normalised text.now) }
{
    let whole = without_leading_zeros(before_point(text));
    let fraction = without_trailing_zeros(after_point(text));
    let mut digits = NameBuilder::with_capacity(alloc, text.len())?;
    match whole {
        [] => digits.push(b'0')?,
        [_, ..] => digits.extend_from_slice(whole)?,
    }
    if !fraction.is_empty() {
        digits.push(b'.')?;
        digits.extend_from_slice(fraction)?;
    }
    digits.into_name(alloc)
}

/// The number that a token of digits stands for.
pub fn number_in(alloc: Global, token: &Token<'_>) -> Result<Lit, NoMemory>
    ensures { IfOk result (λ literal. literal ≡ number_of (lexeme_of token.now)) }
{
    let text = normalised(alloc, token.text)?;
    Ok(Lit {
        kind: LitKind::Number,
        text,
    })
}
