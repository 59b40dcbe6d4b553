//! Literals, columns and calls.
ghost use Rattle.std.specs.Prelude.{IfOk, Result, ◌<◌, ◌^◌, ◌≡◌};
ghost use Rattle.sql_lex.specs.Lexemes.{lexeme_of};
ghost use Rattle.sql_grammar.specs.QueryTrees as trees;
ghost use Rattle.sql_cursor.specs.Eating.{Extends};
ghost use Rattle.sql_read.specs.Parts.{IfWord, named_of};
ghost use Rattle.sql_read.specs.Reading as reading;
ghost use Rattle.sql_read.specs.Reading.{Does};
ghost use Rattle.sql_cursor.specs.Readers.{Gives};

use super::MOST_SEPARATORS;
use super::deeper::{deeper_argument, deeper_exprs};
use super::expr::expr;
use super::inside::enclosed;
use crate::growing::{fitted, push};
use crate::trees::{bare_column, qualified_column};
use plain_data::{Boxed, Kept, List};
use sql_cursor::{ReadFault, Tokens, name_in, number_in, place, text_in};
use sql_grammar::kinds::{Kind, NAME_KINDS, kind_of};
use sql_lex::Token;
use sql_model::{AggFun, Expr, NoMemory};
use std::alloc::Global;

/// The kinds with which an expression may begin.
const EXPR_KINDS: [Kind; 16] = [
    Kind::Exists,
    Kind::Not,
    Kind::Count,
    Kind::Sum,
    Kind::Avg,
    Kind::Min,
    Kind::Max,
    Kind::Key,
    Kind::View,
    Kind::Index,
    Kind::Word,
    Kind::Quoted,
    Kind::Number,
    Kind::Text,
    Kind::Open,
    Kind::Minus,
];

/// Unreserved words that name no aggregate.
const CALLED_KINDS: [Kind; 4] = [Kind::Word, Kind::Key, Kind::View, Kind::Index];

/// Aggregates but for COUNT.
const OTHER_AGGREGATES: [Kind; 4] = [Kind::Sum, Kind::Avg, Kind::Min, Kind::Max];

/// What begins with a name.
#[derive(Drop)]
pub enum Named<'a> {
    /// The word that begins a column.
    Word(Token<'a>),
    Call(Expr),
}

/// A literal, a column, a call, or what stands in parentheses.
#[tactic(auto, unfolding(crate::specs::Reading::primary))]
#[cycle(read)]
pub fn primary(alloc: Global, tokens: &mut Tokens<'_>, levels: u8) -> Result<Expr, ReadFault>
    ensures does { Does reading.primary levels tokens.old result tokens.new }
    ensures extends { Extends tokens.old tokens.new }
{
    if let Some(literal) = literal(alloc, tokens)? {
        return Ok(literal);
    }
    if tokens.sees(Kind::Open) {
        return enclosed(alloc, tokens, levels);
    }
    named_first(alloc, tokens, levels)
}

/// A number or a text, if one stands next.
#[tactic(auto, unfolding(crate::specs::Reading::literal))]
fn literal(alloc: Global, tokens: &mut Tokens<'_>) -> Result<Option<Expr>, NoMemory>
    ensures does { IfOk result (λ found. Gives (Result.Ok found) tokens.new (reading.literal tokens.old)) }
    ensures extends { Extends tokens.old tokens.new }
{
    if let Some(token) = tokens.eat(Kind::Number) {
        let lit = tokens.literal_number(number_in(alloc, &token)?)?;
        return Ok(Some(Expr::Lit {
            lit,
            at: place(&token),
        }));
    }
    let Some(token) = tokens.eat(Kind::Text) else {
        return Ok(None);
    };
    let lit = tokens.literal_number(text_in(alloc, &token)?)?;
    Ok(Some(Expr::Lit {
        lit,
        at: place(&token),
    }))
}

/// What begins with a name: a column or a call.
#[tactic(auto, unfolding(crate::specs::Reading::named_first))]
#[cycle(read)]
fn named_first(alloc: Global, tokens: &mut Tokens<'_>, levels: u8) -> Result<Expr, ReadFault>
    ensures does { Does reading.named_first levels tokens.old result tokens.new }
    ensures extends { Extends tokens.old tokens.new }
{
    match call_or_word(alloc, tokens, levels)? {
        Named::Word(word) => column(alloc, tokens, &word),
        Named::Call(call) => Ok(call),
    }
}

/// A call, or the word alone that begins a column.
#[tactic(auto, unfolding(crate::specs::Reading::call_or_word))]
#[cycle(read)]
pub fn call_or_word<'a>(
    alloc: Global,
    tokens: &mut Tokens<'a>,
    levels: u8,
) -> Result<Named<'a>, ReadFault>
    ensures does { Does reading.call_or_word levels tokens.old (named_of result) tokens.new }
    ensures place { IfOk result (λ named. IfWord named (λ word. word.start < 2 ^ 32)) }
    ensures extends { Extends tokens.old tokens.new }
{
    if let Some(word) = tokens.eat(Kind::Quoted) {
        return Ok(Named::Word(word));
    }
    if let Some(word) = tokens.eat_any(&CALLED_KINDS) {
        if tokens.sees(Kind::Open) {
            return Ok(Named::Call(arguments(alloc, tokens, levels, &word)?));
        }
        return Ok(Named::Word(word));
    }
    if let Some(word) = tokens.eat(Kind::Count) {
        if tokens.sees(Kind::Open) {
            return Ok(Named::Call(count_arguments(alloc, tokens, levels, &word)?));
        }
        return Ok(Named::Word(word));
    }
    let word = tokens.expect_any(alloc, &OTHER_AGGREGATES)?;
    if tokens.sees(Kind::Open) {
        return Ok(Named::Call(aggregate(alloc, tokens, levels, &word)?));
    }
    Ok(Named::Word(word))
}

/// A column with or without a qualifier.
#[tactic(auto, unfolding(crate::specs::Reading::reference))]
pub fn reference(alloc: Global, tokens: &mut Tokens<'_>) -> Result<Expr, ReadFault>
    ensures does { Gives result tokens.new (reading.reference tokens.old) }
    ensures extends { Extends tokens.old tokens.new }
{
    let word = tokens.expect_any(alloc, &NAME_KINDS)?;
    column(alloc, tokens, &word)
}

/// The column that begins with this word.
#[tactic(auto, unfolding(crate::specs::Reading::column))]
fn column(alloc: Global, tokens: &mut Tokens<'_>, word: &Token<'_>) -> Result<Expr, ReadFault>
    requires { word.now.start < 2 ^ 32 }
    ensures does { Gives result tokens.new (reading.column (lexeme_of word.now) tokens.old) }
    ensures extends { Extends tokens.old tokens.new }
{
    let Some(_) = tokens.eat(Kind::Dot) else {
        return Ok(bare_column(alloc, tokens, word)?);
    };
    let name = tokens.expect_any(alloc, &NAME_KINDS)?;
    Ok(qualified_column(alloc, tokens, word, &name)?)
}

/// The arguments of a called name.
#[tactic(auto, unfolding(crate::specs::Reading::arguments))]
#[cycle(read)]
fn arguments(
    alloc: Global,
    tokens: &mut Tokens<'_>,
    levels: u8,
    word: &Token<'_>,
) -> Result<Expr, ReadFault>
    requires { word.now.start < 2 ^ 32 }
    ensures does { Does (λ levels deeper. reading.arguments levels deeper (lexeme_of word.now)) levels tokens.old result tokens.new }
    ensures extends { Extends tokens.old tokens.new }
{
    tokens.expect_within(alloc, &[Kind::Open], levels)?;
    let sym = tokens.symbol_number(name_in(alloc, word)?)?;
    let args = deeper_exprs(alloc, tokens, levels)?;
    tokens.expect(alloc, Kind::Close)?;
    Ok(Expr::Call {
        sym,
        args,
        at: place(word),
    })
}

/// Expressions with commas between them, or none.
#[tactic(auto, unfolding(crate::specs::Reading::exprs))]
#[cycle(read)]
pub fn exprs(alloc: Global, tokens: &mut Tokens<'_>, levels: u8) -> Result<List<Expr>, ReadFault>
    ensures does { Does reading.exprs levels tokens.old result tokens.new }
    ensures extends { Extends tokens.old tokens.new }
{
    let mut exprs = List::new(alloc);
    if !tokens.sees_any(&EXPR_KINDS) {
        return Ok(exprs);
    }
    let first = expr(alloc, tokens, levels)?;
    push(&mut exprs, alloc, first)?;
    let mut room = MOST_SEPARATORS;
    'more: while let Some(_) = tokens.eat_within(&[Kind::Comma], room)? {
        room -= 1;
        let next = expr(alloc, tokens, levels)?;
        exprs.push(next)?;
    }
    Ok(fitted(exprs))
}

/// The arguments of COUNT.
#[tactic(auto, unfolding(crate::specs::Reading::count_arguments))]
#[cycle(read)]
fn count_arguments(
    alloc: Global,
    tokens: &mut Tokens<'_>,
    levels: u8,
    word: &Token<'_>,
) -> Result<Expr, ReadFault>
    requires { word.now.start < 2 ^ 32 }
    ensures does { Does (λ levels deeper. reading.count_arguments levels deeper (lexeme_of word.now)) levels tokens.old result tokens.new }
    ensures extends { Extends tokens.old tokens.new }
{
    tokens.expect_within(alloc, &[Kind::Open], levels)?;
    if let Some(_) = tokens.eat(Kind::Star) {
        tokens.expect(alloc, Kind::Close)?;
        return Ok(Expr::Agg {
            fun: AggFun::Count,
            distinct: false,
            arg: None,
            at: place(word),
        });
    }
    let found = Kept::new(deeper_argument(alloc, tokens, levels, word)?);
    tokens.expect(alloc, Kind::Close)?;
    Ok(found.into_inner())
}

/// The argument of another aggregate.
#[tactic(auto, unfolding(crate::specs::Reading::aggregate))]
#[cycle(read)]
fn aggregate(
    alloc: Global,
    tokens: &mut Tokens<'_>,
    levels: u8,
    word: &Token<'_>,
) -> Result<Expr, ReadFault>
    requires { word.now.start < 2 ^ 32 }
    ensures does { Does (λ levels deeper. reading.aggregate levels deeper (lexeme_of word.now)) levels tokens.old result tokens.new }
    ensures extends { Extends tokens.old tokens.new }
{
    tokens.expect_within(alloc, &[Kind::Open], levels)?;
    let found = Kept::new(deeper_argument(alloc, tokens, levels, word)?);
    tokens.expect(alloc, Kind::Close)?;
    Ok(found.into_inner())
}

/// The aggregate of an argument, with or without DISTINCT.
#[tactic(auto, unfolding(crate::specs::Reading::argument))]
#[cycle(read)]
pub fn argument(
    alloc: Global,
    tokens: &mut Tokens<'_>,
    levels: u8,
    word: &Token<'_>,
) -> Result<Expr, ReadFault>
    requires { word.now.start < 2 ^ 32 }
    ensures does { Does (λ levels deeper. reading.argument levels deeper (lexeme_of word.now)) levels tokens.old result tokens.new }
    ensures extends { Extends tokens.old tokens.new }
{
    let distinct = tokens.accept(Kind::Distinct);
    let arg = expr(alloc, tokens, levels)?;
    Ok(Expr::Agg {
        fun: aggregate_function(kind_of(word)),
        distinct,
        arg: Some(Boxed::new(alloc, arg)?),
        at: place(word),
    })
}

fn aggregate_function(word: Kind) -> AggFun
    ensures { result ≡ trees.aggregate word }
{
    match word {
        Kind::Count => AggFun::Count,
        Kind::Sum => AggFun::Sum,
        Kind::Avg => AggFun::Avg,
        Kind::Min => AggFun::Min,
        _ => AggFun::Max,
    }
}
