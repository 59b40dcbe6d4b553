//! Queries, and the set operators between them.
ghost use Rattle.std.specs.Prelude.{IfOk, IfSome, ◌<◌};
ghost use Rattle.sql_cursor.specs.Eating.{Extends};
ghost use Rattle.sql_read.specs.Reading as reading;
ghost use Rattle.sql_read.specs.Reading.{Does};
ghost use Rattle.sql_cursor.specs.Readers.{Gives};

use super::MOST_OPERATORS;
use super::block::block;
use super::deeper::deeper_query;
use crate::trees::set_query;
use plain_data::Kept;
use sql_cursor::{ReadFault, Tokens, place};
use sql_grammar::Kind;
use sql_model::{Query, SetOp};
use std::alloc::Global;

/// `part {(UNION [ALL] | EXCEPT) part}`
#[tactic(auto, unfolding(crate::specs::Reading::query))]
#[cycle(read)]
pub fn query(alloc: Global, tokens: &mut Tokens<'_>, levels: u8) -> Result<Query, ReadFault>
    ensures does { Does reading.query levels tokens.old result tokens.new }
    ensures extends { Extends tokens.old tokens.new }
{
    let first = part(alloc, tokens, levels)?;
    unions(alloc, tokens, levels, first)
}

/// `operand {INTERSECT operand}`
#[tactic(auto, unfolding(crate::specs::Reading::part))]
#[cycle(read)]
fn part(alloc: Global, tokens: &mut Tokens<'_>, levels: u8) -> Result<Query, ReadFault>
    ensures does { Does reading.part levels tokens.old result tokens.new }
    ensures extends { Extends tokens.old tokens.new }
{
    let first = operand(alloc, tokens, levels)?;
    intersects(alloc, tokens, levels, first)
}

/// `( query )`, or a block.
#[tactic(auto, unfolding(crate::specs::Reading::operand))]
#[cycle(read)]
fn operand(alloc: Global, tokens: &mut Tokens<'_>, levels: u8) -> Result<Query, ReadFault>
    ensures does { Does reading.operand levels tokens.old result tokens.new }
    ensures extends { Extends tokens.old tokens.new }
{
    match tokens.eat_within(&[Kind::Open], levels)? {
        Some(_) => {
            let inside = Kept::new(deeper_query(alloc, tokens, levels)?);
            tokens.expect(alloc, Kind::Close)?;
            Ok(inside.into_inner())
        }
        None => block(alloc, tokens, levels),
    }
}

/// What follows the first operand of a query.
#[tactic(auto, unfolding(crate::specs::Reading::set_tail))]
#[cycle(read)]
pub fn set_tail(
    alloc: Global,
    tokens: &mut Tokens<'_>,
    levels: u8,
    first: Query,
) -> Result<Query, ReadFault>
    ensures does { Does (λ levels deeper. reading.set_tail levels deeper first) levels tokens.old result tokens.new }
    ensures extends { Extends tokens.old tokens.new }
{
    let left = intersects(alloc, tokens, levels, first)?;
    unions(alloc, tokens, levels, left)
}

/// The operands behind `INTERSECT`.
#[tactic(auto, unfolding(crate::specs::Reading::intersects))]
#[cycle(read)]
fn intersects(
    alloc: Global,
    tokens: &mut Tokens<'_>,
    levels: u8,
    first: Query,
) -> Result<Query, ReadFault>
    ensures does { Does (λ levels deeper. reading.intersects levels deeper first) levels tokens.old result tokens.new }
    ensures extends { Extends tokens.old tokens.new }
{
    let mut left = Kept::new(first);
    let mut room = MOST_OPERATORS;
    'more: while let Some(word) = tokens.eat_within(&[Kind::Intersect], room)? {
        room -= 1;
        let right = operand(alloc, tokens, levels)?;
        let both = set_query(
            alloc,
            SetOp::Intersect,
            left.into_inner(),
            right,
            place(&word),
        )?;
        left = Kept::new(both);
    }
    Ok(left.into_inner())
}

/// The parts behind `UNION` and `EXCEPT`.
#[tactic(auto, unfolding(crate::specs::Reading::unions))]
#[cycle(read)]
fn unions(
    alloc: Global,
    tokens: &mut Tokens<'_>,
    levels: u8,
    first: Query,
) -> Result<Query, ReadFault>
    ensures does { Does (λ levels deeper. reading.unions levels deeper first) levels tokens.old result tokens.new }
    ensures extends { Extends tokens.old tokens.new }
{
    let mut left = Kept::new(first);
    let mut room = MOST_OPERATORS;
    'more: while let Some((op, at)) = union_or_except(tokens, room)? {
        room -= 1;
        let right = part(alloc, tokens, levels)?;
        left = Kept::new(set_query(alloc, op, left.into_inner(), right, at)?);
    }
    Ok(left.into_inner())
}

/// `UNION`, `UNION ALL` or `EXCEPT`, if one stands next, and the place of its first word.
#[tactic(auto, unfolding(crate::specs::Reading::set_word))]
fn union_or_except(tokens: &mut Tokens<'_>, room: u8) -> Result<Option<(SetOp, u32)>, ReadFault>
    ensures does { Gives result tokens.new (reading.set_word room tokens.old) }
    ensures room { IfOk result (λ found. IfSome found (λ word. 0 < room)) }
    ensures extends { Extends tokens.old tokens.new }
{
    if let Some(word) = tokens.eat_within(&[Kind::Union], room)? {
        let at = place(&word);
        return match tokens.eat(Kind::All) {
            Some(_) => Ok(Some((SetOp::UnionAll, at))),
            None => Ok(Some((SetOp::Union, at))),
        };
    }
    match tokens.eat_within(&[Kind::Except], room)? {
        Some(word) => Ok(Some((SetOp::Except, place(&word)))),
        None => Ok(None),
    }
}
