//! Names, lists of them, and types.
ghost use Rattle.std.specs.Prelude.{◌≡◌, ◌<◌, ◌^◌, IfOk, Result};
ghost use Rattle.sql_lex.specs.Lexemes.{lexeme_of};
ghost use Rattle.sql_cursor.specs.Eating.{Extends};
ghost use Rattle.sql_cursor.specs.Readers.{Gives};
ghost use Rattle.schema_read.specs.StatementReaders as reader;
ghost use Rattle.schema_read.specs.StatementTrees as t;

use plain_data::List;
use sql_cursor::{ReadFault, Tokens, place};
use sql_grammar::kinds::{Kind, NAME_KINDS};
use sql_lex::Token;
use sql_model::{NameAt, NoMemory};
use sql_read::MOST_SEPARATORS;
use std::alloc::Global;

/// Unreserved words.
const WORD_KINDS: [Kind; 9] = [
    Kind::Word,
    Kind::Count,
    Kind::Sum,
    Kind::Avg,
    Kind::Min,
    Kind::Max,
    Kind::Key,
    Kind::View,
    Kind::Index,
];

/// The name that a token spells, with its place.
fn named(alloc: Global, tokens: &Tokens<'_>, token: &Token<'_>) -> Result<NameAt, NoMemory>
    requires { token.now.start < 2 ^ 32 }
    ensures { IfOk result (λ name. name ≡ t.named (lexeme_of token.now)) }
{
    Ok(NameAt {
        name: tokens.name(alloc, token)?,
        at: place(token),
    })
}

/// A name, with its place.
#[tactic(auto, unfolding(crate::specs::StatementReaders::name))]
pub fn name(alloc: Global, tokens: &mut Tokens<'_>) -> Result<NameAt, ReadFault>
    ensures does { Gives result tokens.new (reader.name tokens.old) }
    ensures extends { Extends tokens.old tokens.new }
{
    let token = tokens.expect_any(alloc, &NAME_KINDS)?;
    Ok(named(alloc, tokens, &token)?)
}

/// `( name {, name} )`
#[tactic(auto, unfolding(crate::specs::StatementReaders::names))]
pub fn names(alloc: Global, tokens: &mut Tokens<'_>) -> Result<List<NameAt>, ReadFault>
    ensures does { Gives result tokens.new (reader.names tokens.old) }
    ensures extends { Extends tokens.old tokens.new }
{
    tokens.expect(alloc, Kind::Open)?;
    names_behind(alloc, tokens)
}

/// `name {, name} )`: names behind their parenthesis.
#[tactic(auto, unfolding(crate::specs::StatementReaders::names_behind))]
pub fn names_behind(alloc: Global, tokens: &mut Tokens<'_>) -> Result<List<NameAt>, ReadFault>
    ensures does { Gives result tokens.new (reader.names_behind tokens.old) }
    ensures extends { Extends tokens.old tokens.new }
{
    let names = listed_names(alloc, tokens)?;
    tokens.expect(alloc, Kind::Close)?;
    Ok(names)
}

/// `name {, name}`
#[tactic(auto, unfolding(crate::specs::StatementReaders::listed_names))]
fn listed_names(alloc: Global, tokens: &mut Tokens<'_>) -> Result<List<NameAt>, ReadFault>
    ensures does { Gives result tokens.new (reader.listed_names tokens.old) }
    ensures extends { Extends tokens.old tokens.new }
{
    let first = name(alloc, tokens)?;
    let mut names = List::new(alloc);
    names.push(first)?;
    let mut room = MOST_SEPARATORS;
    'more: while let Some(_) = tokens.eat_within(&[Kind::Comma], room)? {
        room -= 1;
        let next = name(alloc, tokens)?;
        names.push(next)?;
    }
    Ok(names)
}

/// A type, of which nothing is kept.
#[tactic(auto, unfolding(crate::specs::StatementReaders::type_name))]
pub fn type_name(alloc: Global, tokens: &mut Tokens<'_>) -> Result<(), ReadFault>
    ensures does { Gives result tokens.new (reader.type_name tokens.old) }
    ensures extends { Extends tokens.old tokens.new }
{
    tokens.expect_any(alloc, &WORD_KINDS)?;
    more_words(tokens);
    sizes(alloc, tokens)
}

/// `[word [word]]`
#[tactic(auto, unfolding(crate::specs::StatementReaders::more_words))]
fn more_words(tokens: &mut Tokens<'_>)
    ensures does { Gives (Result.Ok tt) tokens.new (reader.more_words tokens.old) }
    ensures extends { Extends tokens.old tokens.new }
{
    if let Some(_) = tokens.eat_any(&WORD_KINDS) {
        let _word = tokens.eat_any(&WORD_KINDS);
    }
}

/// `[( number [, number] )]`
#[tactic(auto, unfolding(crate::specs::StatementReaders::sizes))]
fn sizes(alloc: Global, tokens: &mut Tokens<'_>) -> Result<(), ReadFault>
    ensures does { Gives result tokens.new (reader.sizes tokens.old) }
    ensures extends { Extends tokens.old tokens.new }
{
    match tokens.eat(Kind::Open) {
        Some(_) => {
            sizes_inside(alloc, tokens)?;
            tokens.expect(alloc, Kind::Close)?;
            Ok(())
        }
        None => Ok(()),
    }
}

/// `number [, number]`
#[tactic(auto, unfolding(crate::specs::StatementReaders::sizes_inside))]
fn sizes_inside(alloc: Global, tokens: &mut Tokens<'_>) -> Result<(), ReadFault>
    ensures does { Gives result tokens.new (reader.sizes_inside tokens.old) }
    ensures extends { Extends tokens.old tokens.new }
{
    tokens.expect(alloc, Kind::Number)?;
    match tokens.eat(Kind::Comma) {
        Some(_) => {
            tokens.expect(alloc, Kind::Number)?;
            Ok(())
        }
        None => Ok(()),
    }
}
