//! The names and words that tokens spell.
ghost use Rattle.std.specs.Prelude.{◌≡◌, ◌↔◌, ℕ, List, map, false, IfOk, IfSome, IfNone, IsTrue};
ghost use Rattle.std.specs.Option.{option_map};
ghost use Rattle.sql_lex.specs.Bytes.{folded_byte};
ghost use Rattle.sql_cursor.specs.Names.{SpellsName};
ghost use Rattle.sql_cursor.specs.Refusals.{is_left_out_word};
ghost use Rattle.sql_cursor.specs.Unquoting.{quoted_name, some_name, unquoted};

use sql_grammar::words::{is_left_out, is_reserved};
use sql_lex::bytes::folded;
use sql_lex::{Token, TokenKind};
use sql_model::{Name, NameBuilder, NoMemory};
use std::alloc::Global;

/// The name with these bytes in lower case.
pub fn folded_name(alloc: Global, text: &[u8]) -> Result<Name, NoMemory>
    ensures { IfOk result (λ name. name ≡ map folded_byte text.now) }
{
    let mut name = NameBuilder::with_capacity(alloc, text.len())?;
    for byte in text {
        name.push(folded(*byte))?;
    }
    name.into_name(alloc)
}

/// What stands before the mark that ends the bytes, with doubled marks made single; `None` where another mark is not doubled.
#[tactic(auto, using(crate::proofs::code::Unquoting::unquoting))]
fn unquoted(alloc: Global, mark: u8, bytes: &[u8]) -> Result<Option<Vec<u8>>, NoMemory>
    ensures { IfOk result (λ found. option_map (λ inside. inside.items) found ≡ unquoted mark false bytes.now) }
{
    let mut inside = Vec::new(alloc);
    let mut marked = false;
    for byte in bytes {
        if *byte == mark {
            marked = !marked;
            if marked {
                continue;
            }
        } else if marked {
            return Ok(None);
        }
        inside.push(*byte)?;
    }
    Ok(if marked { Some(inside) } else { None })
}

/// The name with these bytes, if there are any.
fn some_name(alloc: Global, bytes: &[u8]) -> Result<Option<Name>, NoMemory>
    ensures { IfOk result (λ found. found ≡ some_name bytes.now) }
{
    match bytes {
        [] => Ok(None),
        [_, ..] => Ok(Some(Name::new(alloc, bytes)?)),
    }
}

/// The name in double quotes that the bytes are, if they are one.
fn quoted_name(alloc: Global, bytes: &[u8]) -> Result<Option<Name>, NoMemory>
    ensures { IfOk result (λ found. found ≡ quoted_name bytes.now) }
{
    let [b'"', rest @ ..] = bytes else {
        return Ok(None);
    };
    match unquoted(alloc, b'"', rest)? {
        Some(inside) => some_name(alloc, inside.as_slice()),
        None => Ok(None),
    }
}

/// Whether the token is a word that the grammar leaves out.
pub fn is_left_out_word(token: &Token<'_>) -> bool
    ensures { result ≡ is_left_out_word token.now.kind token.now.text.now }
{
    match token.kind {
        TokenKind::Word => is_left_out(token.text),
        _ => false,
    }
}

/// The name that the token spells, if it spells one: an unreserved word is folded, a quoted name stands for what is inside.
pub fn name_of(alloc: Global, token: &Token<'_>) -> Result<Option<Name>, NoMemory>
    ensures name { IfOk result (λ found. IfSome found (λ name. SpellsName token.now.kind token.now.text.now name)) }
    ensures none { IfOk result (λ found. IfNone found ((name : List ℕ) → SpellsName token.now.kind token.now.text.now name → ⊥)) }
{
    match token.kind {
        TokenKind::Word if !is_reserved(token.text) => Ok(Some(folded_name(alloc, token.text)?)),
        TokenKind::Quoted => quoted_name(alloc, token.text),
        _ => Ok(None),
    }
}

/// Whether the text folds to this word, which is in lower case.
fn folds_to(text: &[u8], word: &[u8]) -> bool
    ensures { IsTrue result ↔ (map folded_byte text.now ≡ word.now) }
{
    text.len() == word.len()
        && text
            .iter()
            .zip(word)
            .all(|(byte, other)| folded(*byte) == *other)
}

/// Whether the token is a word that folds to this one, which is in lower case.
pub fn is_word(token: &Token<'_>, word: &[u8]) -> bool
    ensures { IsTrue result ↔ ((token.now.kind ≡ TokenKind.Word) × (map folded_byte token.now.text.now ≡ word.now)) }
{
    token.kind == TokenKind::Word && folds_to(token.text, word)
}
