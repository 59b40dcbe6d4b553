//! What is read one level deeper, where one may be opened.
ghost use Rattle.std.specs.Prelude.{◌<◌, ◌^◌};
ghost use Rattle.sql_lex.specs.Lexemes.{lexeme_of};
ghost use Rattle.sql_cursor.specs.Eating.{Extends};
ghost use Rattle.sql_read.specs.Reading.{at};
ghost use Rattle.sql_cursor.specs.Readers.{Gives};

use super::expr::{neg, unary};
use super::inside::{Inside, in_inner, inner};
use super::primary::{argument, exprs};
use super::query::query;
use super::test::Sought;
use plain_data::List;
use sql_cursor::{ReadFault, Tokens};
use sql_lex::Token;
use sql_model::{Expr, Query};
use std::alloc::Global;

/// A query behind a parenthesis.
#[cycle(read)]
pub fn deeper_query(alloc: Global, tokens: &mut Tokens<'_>, levels: u8) -> Result<Query, ReadFault>
    requires { 0 < levels }
    ensures does { Gives result tokens.new ((at levels).query tokens.old) }
    ensures extends { Extends tokens.old tokens.new }
{
    query(alloc, tokens, levels - 1)
}

/// What stands behind NOT.
#[cycle(read)]
pub fn deeper_neg(alloc: Global, tokens: &mut Tokens<'_>, levels: u8) -> Result<Expr, ReadFault>
    requires { 0 < levels }
    ensures does { Gives result tokens.new ((at levels).neg tokens.old) }
    ensures extends { Extends tokens.old tokens.new }
{
    neg(alloc, tokens, levels - 1)
}

/// The operand of a prefix minus.
#[cycle(read)]
pub fn deeper_unary(alloc: Global, tokens: &mut Tokens<'_>, levels: u8) -> Result<Expr, ReadFault>
    requires { 0 < levels }
    ensures does { Gives result tokens.new ((at levels).unary tokens.old) }
    ensures extends { Extends tokens.old tokens.new }
{
    unary(alloc, tokens, levels - 1)
}

/// Expressions in the parentheses of a call, or none.
#[cycle(read)]
pub fn deeper_exprs(
    alloc: Global,
    tokens: &mut Tokens<'_>,
    levels: u8,
) -> Result<List<Expr>, ReadFault>
    requires { 0 < levels }
    ensures does { Gives result tokens.new ((at levels).exprs tokens.old) }
    ensures extends { Extends tokens.old tokens.new }
{
    exprs(alloc, tokens, levels - 1)
}

/// The argument in the parentheses of an aggregate, which is made.
#[cycle(read)]
pub fn deeper_argument(
    alloc: Global,
    tokens: &mut Tokens<'_>,
    levels: u8,
    word: &Token<'_>,
) -> Result<Expr, ReadFault>
    requires place { word.now.start < 2 ^ 32 }
    requires level { 0 < levels }
    ensures does { Gives result tokens.new ((at levels).argument (lexeme_of word.now) tokens.old) }
    ensures extends { Extends tokens.old tokens.new }
{
    argument(alloc, tokens, levels - 1, word)
}

/// What stands in parentheses.
#[cycle(read)]
pub fn deeper_inner(alloc: Global, tokens: &mut Tokens<'_>, levels: u8) -> Result<Inside, ReadFault>
    requires { 0 < levels }
    ensures does { Gives result tokens.new ((at levels).inner tokens.old) }
    ensures extends { Extends tokens.old tokens.new }
{
    inner(alloc, tokens, levels - 1)
}

/// What stands in the parentheses of IN, and the test that it makes.
#[cycle(read)]
pub fn deeper_in_inner(
    alloc: Global,
    tokens: &mut Tokens<'_>,
    levels: u8,
    sought: &Sought,
) -> Result<Expr, ReadFault>
    requires { 0 < levels }
    ensures does { Gives result tokens.new ((at levels).in_inner sought.now tokens.old) }
    ensures extends { Extends tokens.old tokens.new }
{
    in_inner(alloc, tokens, levels - 1, sought)
}
