//! Expressions: chains of OR and AND, and operators.
ghost use Rattle.sql_cursor.specs.Eating.{Extends, IsBehind};
ghost use Rattle.sql_read.specs.Reading as reading;
ghost use Rattle.sql_read.specs.Reading.{Does};

use super::deeper::{deeper_neg, deeper_unary};
use super::primary::primary;
use super::test::{test, tested};
use super::{MOST_OPERATORS, MOST_SEPARATORS};
use crate::growing::fitted;
use crate::trees::{minus, not_at, operated, place_of};
use plain_data::{Kept, List, SharedList};
use sql_cursor::{Mark, ReadFault, Tokens, place};
use sql_grammar::kinds::{Kind, kind_of};
use sql_model::Expr;
use std::alloc::Global;

/// `conj {OR conj}`
#[tactic(auto, unfolding(crate::specs::Reading::expr))]
#[cycle(read)]
pub fn expr(alloc: Global, tokens: &mut Tokens<'_>, levels: u8) -> Result<Expr, ReadFault>
    ensures does { Does reading.expr levels tokens.old result tokens.new }
    ensures extends { Extends tokens.old tokens.new }
{
    let first = conj(alloc, tokens, levels)?;
    ors(alloc, tokens, levels, first)
}

/// `neg {AND neg}`
#[tactic(auto, unfolding(crate::specs::Reading::conj))]
#[cycle(read)]
fn conj(alloc: Global, tokens: &mut Tokens<'_>, levels: u8) -> Result<Expr, ReadFault>
    ensures does { Does reading.conj levels tokens.old result tokens.new }
    ensures extends { Extends tokens.old tokens.new }
{
    let first = neg(alloc, tokens, levels)?;
    ands(alloc, tokens, levels, first)
}

/// `NOT neg`, or a test.
#[tactic(auto, unfolding(crate::specs::Reading::neg))]
#[cycle(read)]
pub fn neg(alloc: Global, tokens: &mut Tokens<'_>, levels: u8) -> Result<Expr, ReadFault>
    ensures does { Does reading.neg levels tokens.old result tokens.new }
    ensures extends { Extends tokens.old tokens.new }
{
    match tokens.eat_within(&[Kind::Not], levels)? {
        Some(word) => {
            let part = deeper_neg(alloc, tokens, levels)?;
            Ok(not_at(alloc, part, place(&word))?)
        }
        None => test(alloc, tokens, levels),
    }
}

/// `term {(+ | - | ||) term}`
#[tactic(auto, unfolding(crate::specs::Reading::value))]
#[cycle(read)]
pub fn value(alloc: Global, tokens: &mut Tokens<'_>, levels: u8) -> Result<Expr, ReadFault>
    ensures does { Does reading.value levels tokens.old result tokens.new }
    ensures extends { Extends tokens.old tokens.new }
{
    let first = term(alloc, tokens, levels)?;
    sums(alloc, tokens, levels, first)
}

/// `unary {(* | /) unary}`
#[tactic(auto, unfolding(crate::specs::Reading::term))]
#[cycle(read)]
fn term(alloc: Global, tokens: &mut Tokens<'_>, levels: u8) -> Result<Expr, ReadFault>
    ensures does { Does reading.term levels tokens.old result tokens.new }
    ensures extends { Extends tokens.old tokens.new }
{
    let first = unary(alloc, tokens, levels)?;
    products(alloc, tokens, levels, first)
}

/// `- unary`, or a primary expression.
#[tactic(auto, unfolding(crate::specs::Reading::unary))]
#[cycle(read)]
pub fn unary(alloc: Global, tokens: &mut Tokens<'_>, levels: u8) -> Result<Expr, ReadFault>
    ensures does { Does reading.unary levels tokens.old result tokens.new }
    ensures extends { Extends tokens.old tokens.new }
{
    if tokens.sees(Kind::Minus) {
        return negative(alloc, tokens, levels);
    }
    primary(alloc, tokens, levels)
}

/// A prefix minus with its operand.
#[tactic(auto, unfolding(crate::specs::Reading::negative))]
#[cycle(read)]
fn negative(alloc: Global, tokens: &mut Tokens<'_>, levels: u8) -> Result<Expr, ReadFault>
    ensures does { Does reading.negative levels tokens.old result tokens.new }
    ensures extends { Extends tokens.old tokens.new }
{
    let sign = tokens.expect_within(alloc, &[Kind::Minus], levels)?;
    let part = deeper_unary(alloc, tokens, levels)?;
    Ok(minus(alloc, part, place(&sign))?)
}

/// What may follow the first part of an expression, which began at the mark.
#[tactic(auto, unfolding(crate::specs::Reading::expr_tail))]
#[cycle(read)]
pub fn expr_tail(
    alloc: Global,
    tokens: &mut Tokens<'_>,
    levels: u8,
    start: Mark,
    first: Expr,
) -> Result<Expr, ReadFault>
    requires { IsBehind start tokens.old }
    ensures does { Does (λ levels deeper. reading.expr_tail levels deeper start first) levels tokens.old result tokens.new }
    ensures extends { Extends tokens.old tokens.new }
{
    let left = products(alloc, tokens, levels, first)?;
    let left = sums(alloc, tokens, levels, left)?;
    let left = tested(alloc, tokens, levels, start, left)?;
    let left = ands(alloc, tokens, levels, left)?;
    ors(alloc, tokens, levels, left)
}

/// The parts behind `OR`.
#[tactic(auto, unfolding(crate::specs::Reading::ors))]
#[cycle(read)]
fn ors(alloc: Global, tokens: &mut Tokens<'_>, levels: u8, first: Expr) -> Result<Expr, ReadFault>
    ensures does { Does (λ levels deeper. reading.ors levels deeper first) levels tokens.old result tokens.new }
    ensures extends { Extends tokens.old tokens.new }
{
    if !tokens.sees(Kind::Or) {
        return Ok(first);
    }
    let at = place_of(&first);
    let mut parts = List::new(alloc);
    parts.push(first)?;
    let mut room = MOST_SEPARATORS;
    'more: while let Some(_) = tokens.eat_within(&[Kind::Or], room)? {
        room -= 1;
        let part = conj(alloc, tokens, levels)?;
        parts.push(part)?;
    }
    Ok(Expr::Or {
        parts: fitted(parts),
        at,
    })
}

/// The parts behind `AND`.
#[tactic(auto, unfolding(crate::specs::Reading::ands))]
#[cycle(read)]
fn ands(alloc: Global, tokens: &mut Tokens<'_>, levels: u8, first: Expr) -> Result<Expr, ReadFault>
    ensures does { Does (λ levels deeper. reading.ands levels deeper first) levels tokens.old result tokens.new }
    ensures extends { Extends tokens.old tokens.new }
{
    if !tokens.sees(Kind::And) {
        return Ok(first);
    }
    let at = place_of(&first);
    let mut parts = List::new(alloc);
    parts.push(first)?;
    let mut room = MOST_SEPARATORS;
    'more: while let Some(_) = tokens.eat_within(&[Kind::And], room)? {
        room -= 1;
        let part = neg(alloc, tokens, levels)?;
        parts.push(part)?;
    }
    let parts = SharedList::new(alloc, fitted(parts))?;
    Ok(Expr::And { parts, at })
}

/// The operands behind `*` and `/`.
#[tactic(auto, unfolding(crate::specs::Reading::products))]
#[cycle(read)]
fn products(
    alloc: Global,
    tokens: &mut Tokens<'_>,
    levels: u8,
    first: Expr,
) -> Result<Expr, ReadFault>
    ensures does { Does (λ levels deeper. reading.products levels deeper first) levels tokens.old result tokens.new }
    ensures extends { Extends tokens.old tokens.new }
{
    let mut left = Kept::new(first);
    let mut room = MOST_OPERATORS;
    'more: while let Some(sign) = tokens.eat_within(&[Kind::Star, Kind::Slash], room)? {
        room -= 1;
        let right = unary(alloc, tokens, levels)?;
        left = Kept::new(operated(alloc, kind_of(&sign), left.into_inner(), right)?);
    }
    Ok(left.into_inner())
}

/// The operands behind `+`, `-` and `||`.
#[tactic(auto, unfolding(crate::specs::Reading::sums))]
#[cycle(read)]
fn sums(alloc: Global, tokens: &mut Tokens<'_>, levels: u8, first: Expr) -> Result<Expr, ReadFault>
    ensures does { Does (λ levels deeper. reading.sums levels deeper first) levels tokens.old result tokens.new }
    ensures extends { Extends tokens.old tokens.new }
{
    let mut left = Kept::new(first);
    let mut room = MOST_OPERATORS;
    'more: while let Some(sign) = tokens.eat_within(
        &[Kind::Plus, Kind::Minus, Kind::Concat],
        room,
    )? {
        room -= 1;
        let right = term(alloc, tokens, levels)?;
        left = Kept::new(operated(alloc, kind_of(&sign), left.into_inner(), right)?);
    }
    Ok(left.into_inner())
}
