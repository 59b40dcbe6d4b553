//! Items, and the names behind them.
ghost use Rattle.std.specs.Prelude.{IfOk, IfSome, Result, ◌<◌, ◌^◌};
ghost use Rattle.sql_lex.specs.Lexemes.{lexeme_of};
ghost use Rattle.sql_cursor.specs.Eating.{Extends};
ghost use Rattle.sql_read.specs.Reading as reading;
ghost use Rattle.sql_read.specs.Reading.{Does};
ghost use Rattle.sql_cursor.specs.Readers.{Gives, lexeme, lexeme_if_any};

use super::expr::{expr, expr_tail};
use super::primary::{Named, call_or_word};
use crate::trees::{bare_column, qualified_column};
use plain_data::Kept;
use sql_cursor::{ReadFault, Tokens, place};
use sql_grammar::kinds::{Kind, NAME_KINDS};
use sql_lex::Token;
use sql_model::{Expr, Item, Name};
use std::alloc::Global;

/// What stands at the head of an item that begins with a name.
#[derive(Drop)]
pub enum Starred {
    /// The whole item `name.*`.
    All(Item),
    /// The first part of an expression.
    First(Expr),
}

/// `*`, `name.*`, or an expression with or without an alias.
#[tactic(auto, unfolding(crate::specs::Reading::item))]
#[cycle(read)]
pub fn item(alloc: Global, tokens: &mut Tokens<'_>, levels: u8) -> Result<Item, ReadFault>
    ensures does { Does reading.item levels tokens.old result tokens.new }
    ensures extends { Extends tokens.old tokens.new }
{
    if let Some(star) = tokens.eat(Kind::Star) {
        return Ok(Item::Star { at: place(&star) });
    }
    if tokens.sees_any(&NAME_KINDS) {
        return named_item(alloc, tokens, levels);
    }
    let expr = Kept::new(expr(alloc, tokens, levels)?);
    let name = item_name(alloc, tokens)?;
    Ok(Item::Value {
        expr: expr.into_inner(),
        name,
    })
}

/// An item that begins with a name.
#[tactic(auto, unfolding(crate::specs::Reading::named_item))]
#[cycle(read)]
fn named_item(alloc: Global, tokens: &mut Tokens<'_>, levels: u8) -> Result<Item, ReadFault>
    ensures does { Does reading.named_item levels tokens.old result tokens.new }
    ensures extends { Extends tokens.old tokens.new }
{
    let start = tokens.mark();
    let first = match name_or_star(alloc, tokens, levels)? {
        Starred::All(item) => return Ok(item),
        Starred::First(first) => first,
    };
    let expr = Kept::new(expr_tail(alloc, tokens, levels, start, first)?);
    let name = item_name(alloc, tokens)?;
    Ok(Item::Value {
        expr: expr.into_inner(),
        name,
    })
}

/// `name.*`, or what begins with a name otherwise.
#[tactic(auto, unfolding(crate::specs::Reading::name_or_star))]
#[cycle(read)]
fn name_or_star(alloc: Global, tokens: &mut Tokens<'_>, levels: u8) -> Result<Starred, ReadFault>
    ensures does { Does reading.name_or_star levels tokens.old result tokens.new }
    ensures extends { Extends tokens.old tokens.new }
{
    match call_or_word(alloc, tokens, levels)? {
        Named::Word(word) => column_or_star(alloc, tokens, &word),
        Named::Call(call) => Ok(Starred::First(call)),
    }
}

/// What may follow this name: a column, `.*`, or nothing.
#[tactic(auto, unfolding(crate::specs::Reading::column_or_star))]
fn column_or_star(
    alloc: Global,
    tokens: &mut Tokens<'_>,
    word: &Token<'_>,
) -> Result<Starred, ReadFault>
    requires { word.now.start < 2 ^ 32 }
    ensures does { Gives result tokens.new (reading.column_or_star (lexeme_of word.now) tokens.old) }
    ensures extends { Extends tokens.old tokens.new }
{
    let Some(_) = tokens.eat(Kind::Dot) else {
        return Ok(Starred::First(bare_column(alloc, tokens, word)?));
    };
    if let Some(_) = tokens.eat(Kind::Star) {
        return Ok(Starred::All(Item::AliasStar {
            alias: tokens.name(alloc, word)?,
            at: place(word),
        }));
    }
    let name = tokens.expect_any(alloc, &NAME_KINDS)?;
    Ok(Starred::First(qualified_column(alloc, tokens, word, &name)?))
}

/// The name of an item, where one is written.
#[tactic(auto, unfolding(crate::specs::Reading::item_name))]
fn item_name(alloc: Global, tokens: &mut Tokens<'_>) -> Result<Option<Name>, ReadFault>
    ensures does { Gives result tokens.new (reading.item_name tokens.old) }
    ensures extends { Extends tokens.old tokens.new }
{
    match optional_alias(alloc, tokens)? {
        Some(alias) => Ok(Some(tokens.name(alloc, &alias)?)),
        None => Ok(None),
    }
}

/// `[AS] name`
#[tactic(auto, unfolding(crate::specs::Reading::alias))]
pub fn alias<'a>(alloc: Global, tokens: &mut Tokens<'a>) -> Result<Token<'a>, ReadFault>
    ensures does { Gives (lexeme result) tokens.new (reading.alias tokens.old) }
    ensures place { IfOk result (λ token. token.start < 2 ^ 32) }
    ensures extends { Extends tokens.old tokens.new }
{
    let _word = tokens.eat(Kind::As);
    tokens.expect_any(alloc, &NAME_KINDS)
}

/// The same, where it is written.
#[tactic(auto, unfolding(crate::specs::Reading::optional_alias))]
pub fn optional_alias<'a>(
    alloc: Global,
    tokens: &mut Tokens<'a>,
) -> Result<Option<Token<'a>>, ReadFault>
    ensures does { Gives (lexeme_if_any result) tokens.new (reading.optional_alias tokens.old) }
    ensures place { IfOk result (λ found. IfSome found (λ token. token.start < 2 ^ 32)) }
    ensures extends { Extends tokens.old tokens.new }
{
    if let Some(_) = tokens.eat(Kind::As) {
        return Ok(Some(tokens.expect_any(alloc, &NAME_KINDS)?));
    }
    Ok(tokens.eat_any(&NAME_KINDS))
}
