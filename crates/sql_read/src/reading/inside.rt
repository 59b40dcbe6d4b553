//! What stands in parentheses: a query or an expression, which only what follows may tell apart.
ghost use Rattle.std.specs.Prelude.{◌≡◌};
ghost use Rattle.sql_cursor.specs.Eating.{Extends, IsBehind};
ghost use Rattle.sql_read.specs.Parts.{grouped_of};
ghost use Rattle.sql_read.specs.Reading as reading;
ghost use Rattle.sql_read.specs.Reading.{Does};

use super::block::block;
use super::deeper::deeper_inner;
use super::expr::{expr, expr_tail};
use super::query::set_tail;
use super::test::{Sought, members};
use crate::trees::{in_query, subquery};
use plain_data::Kept;
use sql_cursor::{Mark, ReadFault, Tokens, place};
use sql_grammar::Kind;
use sql_model::{Expr, Query};
use std::alloc::Global;

/// What stands in parentheses.
#[derive(Drop)]
pub enum Inside {
    /// A query that is not in parentheses as a whole.
    Query(Query),
    /// A query in more parentheses, the first of which is at this place.
    Enclosed { query: Query, at: u32 },
    Expr(Expr),
}

/// What is in parentheses, with them.
#[derive(Drop)]
pub enum Grouped {
    /// A query, and the place of its parenthesis.
    Query { query: Query, at: u32 },
    Expr(Expr),
}

/// The words that may follow a query in parentheses so that it goes on.
const SET_KINDS: [Kind; 3] = [Kind::Except, Kind::Intersect, Kind::Union];

/// The kinds that may follow the first part of an expression so that it goes on.
const TAIL_KINDS: [Kind; 17] = [
    Kind::And,
    Kind::Between,
    Kind::In,
    Kind::Like,
    Kind::Not,
    Kind::Or,
    Kind::Star,
    Kind::Equals,
    Kind::Differs,
    Kind::Less,
    Kind::AtMost,
    Kind::Greater,
    Kind::AtLeast,
    Kind::Plus,
    Kind::Minus,
    Kind::Slash,
    Kind::Concat,
];

/// A subquery or an expression in parentheses, as the first part of an expression.
#[tactic(auto, unfolding(crate::specs::Reading::enclosed))]
#[cycle(read)]
pub fn enclosed(alloc: Global, tokens: &mut Tokens<'_>, levels: u8) -> Result<Expr, ReadFault>
    ensures does { Does reading.enclosed levels tokens.old result tokens.new }
    ensures extends { Extends tokens.old tokens.new }
{
    match in_parentheses(alloc, tokens, levels)? {
        Grouped::Query { query, at } => Ok(subquery(alloc, query, at)?),
        Grouped::Expr(inside) => Ok(inside),
    }
}

#[tactic(auto, unfolding(crate::specs::Reading::in_parentheses))]
#[cycle(read)]
fn in_parentheses(alloc: Global, tokens: &mut Tokens<'_>, levels: u8) -> Result<Grouped, ReadFault>
    ensures does { Does reading.in_parentheses levels tokens.old result tokens.new }
    ensures extends { Extends tokens.old tokens.new }
{
    let open = tokens.expect_within(alloc, &[Kind::Open], levels)?;
    let inside = Kept::new(deeper_inner(alloc, tokens, levels)?);
    tokens.expect(alloc, Kind::Close)?;
    Ok(with_parentheses(inside.into_inner(), place(&open)))
}

/// What stands in the parentheses that open at this place, with them.
fn with_parentheses(inside: Inside, at: u32) -> Grouped
    ensures { result ≡ grouped_of inside at }
{
    match inside {
        Inside::Query(query) | Inside::Enclosed { query, .. } => Grouped::Query { query, at },
        Inside::Expr(inside) => Grouped::Expr(inside),
    }
}

#[tactic(auto, unfolding(crate::specs::Reading::inner))]
#[cycle(read)]
pub fn inner(alloc: Global, tokens: &mut Tokens<'_>, levels: u8) -> Result<Inside, ReadFault>
    ensures does { Does reading.inner levels tokens.old result tokens.new }
    ensures extends { Extends tokens.old tokens.new }
{
    if tokens.sees(Kind::Select) {
        let first = block(alloc, tokens, levels)?;
        return Ok(Inside::Query(set_tail(alloc, tokens, levels, first)?));
    }
    if !tokens.sees(Kind::Open) {
        return Ok(Inside::Expr(expr(alloc, tokens, levels)?));
    }
    let start = tokens.mark();
    let group = in_parentheses(alloc, tokens, levels)?;
    after_group(alloc, tokens, levels, start, group)
}

/// What follows what stands in parentheses, which began at the mark.
#[cycle(read)]
fn after_group(
    alloc: Global,
    tokens: &mut Tokens<'_>,
    levels: u8,
    start: Mark,
    group: Grouped,
) -> Result<Inside, ReadFault>
    requires { IsBehind start tokens.old }
    ensures does { Does (λ levels deeper. reading.after_group levels deeper start group) levels tokens.old result tokens.new }
    ensures extends { Extends tokens.old tokens.new }
{
    match group {
        Grouped::Query { query, at } => after_query(alloc, tokens, levels, start, query, at),
        Grouped::Expr(first) => {
            let whole = expr_tail(alloc, tokens, levels, start, first)?;
            Ok(Inside::Expr(whole))
        }
    }
}

/// What follows a query in parentheses, which began at the mark: it may go on as a query or as an expression.
#[tactic(auto, unfolding(crate::specs::Reading::after_query))]
#[cycle(read)]
fn after_query(
    alloc: Global,
    tokens: &mut Tokens<'_>,
    levels: u8,
    start: Mark,
    query: Query,
    at: u32,
) -> Result<Inside, ReadFault>
    requires { IsBehind start tokens.old }
    ensures does { Does (λ levels deeper. reading.after_query levels deeper start query at) levels tokens.old result tokens.new }
    ensures extends { Extends tokens.old tokens.new }
{
    if tokens.sees_any(&SET_KINDS) {
        return Ok(Inside::Query(set_tail(alloc, tokens, levels, query)?));
    }
    if tokens.sees_any(&TAIL_KINDS) {
        let first = subquery(alloc, query, at)?;
        let whole = expr_tail(alloc, tokens, levels, start, first)?;
        return Ok(Inside::Expr(whole));
    }
    Ok(Inside::Enclosed { query, at })
}

/// What stands in the parentheses of IN, and the test that it makes.
#[tactic(auto, unfolding(crate::specs::Reading::in_inner))]
#[cycle(read)]
pub fn in_inner(
    alloc: Global,
    tokens: &mut Tokens<'_>,
    levels: u8,
    sought: &Sought,
) -> Result<Expr, ReadFault>
    ensures does { Does (λ levels deeper. reading.in_inner levels deeper sought.now) levels tokens.old result tokens.new }
    ensures extends { Extends tokens.old tokens.new }
{
    if tokens.sees(Kind::Select) {
        let first = block(alloc, tokens, levels)?;
        let query = set_tail(alloc, tokens, levels, first)?;
        return Ok(in_query(alloc, &sought.value, query, sought.in_at)?);
    }
    if !tokens.sees(Kind::Open) {
        let first = expr(alloc, tokens, levels)?;
        return members(alloc, tokens, levels, sought, first);
    }
    let start = tokens.mark();
    let group = in_parentheses(alloc, tokens, levels)?;
    in_after_group(alloc, tokens, levels, sought, start, group)
}

/// The same, behind what stands in parentheses, which began at the mark.
#[cycle(read)]
fn in_after_group(
    alloc: Global,
    tokens: &mut Tokens<'_>,
    levels: u8,
    sought: &Sought,
    start: Mark,
    group: Grouped,
) -> Result<Expr, ReadFault>
    requires { IsBehind start tokens.old }
    ensures does { Does (λ levels deeper. reading.in_after_group levels deeper sought.now start group) levels tokens.old result tokens.new }
    ensures extends { Extends tokens.old tokens.new }
{
    match group {
        Grouped::Query { query, at } => {
            in_after_query(alloc, tokens, levels, sought, start, query, at)
        }
        Grouped::Expr(first) => {
            let first = expr_tail(alloc, tokens, levels, start, first)?;
            members(alloc, tokens, levels, sought, first)
        }
    }
}

/// The same, behind a query in parentheses that began at the mark.
#[tactic(auto, unfolding(crate::specs::Reading::in_after_query))]
#[cycle(read)]
fn in_after_query(
    alloc: Global,
    tokens: &mut Tokens<'_>,
    levels: u8,
    sought: &Sought,
    start: Mark,
    query: Query,
    at: u32,
) -> Result<Expr, ReadFault>
    requires { IsBehind start tokens.old }
    ensures does { Does (λ levels deeper. reading.in_after_query levels deeper sought.now start query at) levels tokens.old result tokens.new }
    ensures extends { Extends tokens.old tokens.new }
{
    if tokens.sees_any(&SET_KINDS) {
        let query = set_tail(alloc, tokens, levels, query)?;
        return Ok(in_query(alloc, &sought.value, query, sought.in_at)?);
    }
    if tokens.sees_any(&TAIL_KINDS) {
        let first = subquery(alloc, query, at)?;
        let first = expr_tail(alloc, tokens, levels, start, first)?;
        return members(alloc, tokens, levels, sought, first);
    }
    if tokens.sees(Kind::Comma) {
        let first = subquery(alloc, query, at)?;
        return members(alloc, tokens, levels, sought, first);
    }
    Ok(in_query(alloc, &sought.value, query, sought.in_at)?)
}
