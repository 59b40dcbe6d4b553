//! Tests of values: comparisons, IN, BETWEEN and LIKE.
ghost use Rattle.sql_cursor.specs.Eating.{Extends, IsBehind};
ghost use Rattle.sql_read.specs.Reading as reading;
ghost use Rattle.sql_read.specs.Reading.{Does};
ghost use Rattle.sql_cursor.specs.Readers.{Gives};

use super::MOST_SEPARATORS;
use super::deeper::{deeper_in_inner, deeper_query};
use super::expr::{expr, value};
use crate::growing::fitted;
use crate::trees::{between, compared, equal, like, negated, place_of};
use plain_data::{Boxed, Kept, List, Shared};
use sql_cursor::{Mark, ReadFault, Tokens, place};
use sql_grammar::kinds::{Kind, kind_of};
use sql_model::Expr;
use std::alloc::Global;

/// The signs of comparisons.
const COMPARISONS: [Kind; 6] = [
    Kind::Equals,
    Kind::Differs,
    Kind::Less,
    Kind::AtMost,
    Kind::Greater,
    Kind::AtLeast,
];

/// The kinds with which a test of a value begins.
const TEST_KINDS: [Kind; 10] = [
    Kind::Between,
    Kind::In,
    Kind::Like,
    Kind::Not,
    Kind::Equals,
    Kind::Differs,
    Kind::Less,
    Kind::AtMost,
    Kind::Greater,
    Kind::AtLeast,
];

/// A value that IN seeks, with the weight of a copy of it and the place of the word. It is lent to what reads on, so that a refusal there
/// drops nothing.
#[derive(Drop)]
pub struct Sought {
    pub value: Shared<Expr>,
    pub weight: u32,
    pub in_at: u32,
}

/// `EXISTS ( query )`, or a value, with or without a test of it.
#[tactic(auto, unfolding(crate::specs::Reading::tested_value))]
#[cycle(read)]
pub fn test(alloc: Global, tokens: &mut Tokens<'_>, levels: u8) -> Result<Expr, ReadFault>
    ensures does { Does reading.tested_value levels tokens.old result tokens.new }
    ensures extends { Extends tokens.old tokens.new }
{
    if let Some(word) = tokens.eat(Kind::Exists) {
        tokens.expect_within(alloc, &[Kind::Open], levels)?;
        let query = Kept::new(deeper_query(alloc, tokens, levels)?);
        tokens.expect(alloc, Kind::Close)?;
        return Ok(Expr::Exists {
            query: Boxed::new(alloc, query.into_inner())?,
            at: place(&word),
        });
    }
    let start = tokens.mark();
    let left = value(alloc, tokens, levels)?;
    tested(alloc, tokens, levels, start, left)
}

/// The test of the value that began at the mark, if one follows.
#[tactic(auto, unfolding(crate::specs::Reading::tested))]
#[cycle(read)]
pub fn tested(
    alloc: Global,
    tokens: &mut Tokens<'_>,
    levels: u8,
    start: Mark,
    left: Expr,
) -> Result<Expr, ReadFault>
    requires { IsBehind start tokens.old }
    ensures does { Does (λ levels deeper. reading.tested levels deeper start left) levels tokens.old result tokens.new }
    ensures extends { Extends tokens.old tokens.new }
{
    if !tokens.sees_any(&TEST_KINDS) {
        return Ok(left);
    }
    let weight = tokens.weight_since(start);
    rest(alloc, tokens, levels, weight, Kept::new(left))
}

/// The test of the value, a copy of which has this weight.
#[tactic(auto, unfolding(crate::specs::Reading::rest))]
#[cycle(read)]
fn rest(
    alloc: Global,
    tokens: &mut Tokens<'_>,
    levels: u8,
    weight: u32,
    left: Kept<Expr>,
) -> Result<Expr, ReadFault>
    ensures does { Does (λ levels deeper. reading.rest levels deeper weight left) levels tokens.old result tokens.new }
    ensures extends { Extends tokens.old tokens.new }
{
    if let Some(sign) = tokens.eat_any(&COMPARISONS) {
        let right = value(alloc, tokens, levels)?;
        return Ok(compared(alloc, kind_of(&sign), left.into_inner(), right)?);
    }
    let Some(_) = tokens.eat(Kind::Not) else {
        return by_word(alloc, tokens, levels, weight, left);
    };
    let test = by_word(alloc, tokens, levels, weight, left)?;
    Ok(negated(alloc, test)?)
}

/// IN, BETWEEN or LIKE.
#[tactic(auto, unfolding(crate::specs::Reading::by_word))]
#[cycle(read)]
fn by_word(
    alloc: Global,
    tokens: &mut Tokens<'_>,
    levels: u8,
    weight: u32,
    left: Kept<Expr>,
) -> Result<Expr, ReadFault>
    ensures does { Does (λ levels deeper. reading.by_word levels deeper weight left) levels tokens.old result tokens.new }
    ensures extends { Extends tokens.old tokens.new }
{
    if let Some(word) = tokens.eat(Kind::In) {
        let sought = Sought {
            value: Shared::new(alloc, left.into_inner())?,
            weight,
            in_at: place(&word),
        };
        tokens.expect_within(alloc, &[Kind::Open], levels)?;
        let found = Kept::new(deeper_in_inner(alloc, tokens, levels, &sought)?);
        tokens.expect(alloc, Kind::Close)?;
        return Ok(found.into_inner());
    }
    if let Some(_) = tokens.eat(Kind::Between) {
        return bounds(alloc, tokens, levels, weight, left);
    }
    tokens.expect(alloc, Kind::Like)?;
    let pattern = value(alloc, tokens, levels)?;
    Ok(like(alloc, left.into_inner(), pattern)?)
}

/// What follows BETWEEN; the value before it is copied.
#[tactic(auto, unfolding(crate::specs::Reading::bounds))]
#[cycle(read)]
fn bounds(
    alloc: Global,
    tokens: &mut Tokens<'_>,
    levels: u8,
    weight: u32,
    left: Kept<Expr>,
) -> Result<Expr, ReadFault>
    ensures does { Does (λ levels deeper. reading.bounds levels deeper weight left) levels tokens.old result tokens.new }
    ensures extends { Extends tokens.old tokens.new }
{
    tokens.add_copy(weight)?;
    let low = Kept::new(value(alloc, tokens, levels)?);
    tokens.expect(alloc, Kind::And)?;
    let high = Kept::new(value(alloc, tokens, levels)?);
    Ok(between(alloc, left, low, high)?)
}

/// The value compared with a member. It shares the value's memory, but counts as a copy.
#[tactic(auto, unfolding(crate::specs::Reading::compared_copy))]
fn compared_copy(
    alloc: Global,
    tokens: &mut Tokens<'_>,
    sought: &Sought,
    member: Kept<Expr>,
) -> Result<Expr, ReadFault>
    ensures does { Gives result tokens.new (reading.compared_copy sought.now member tokens.old) }
    ensures extends { Extends tokens.old tokens.new }
{
    tokens.add_copy(sought.weight)?;
    Ok(equal(alloc, &sought.value, member.into_inner())?)
}

/// The members of a list of IN behind the first; the value before the list counts as a copy at each comma.
#[tactic(auto, unfolding(crate::specs::Reading::members))]
#[cycle(read)]
pub fn members(
    alloc: Global,
    tokens: &mut Tokens<'_>,
    levels: u8,
    sought: &Sought,
    first: Expr,
) -> Result<Expr, ReadFault>
    ensures does { Does (λ levels deeper. reading.members levels deeper sought.now first) levels tokens.old result tokens.new }
    ensures extends { Extends tokens.old tokens.new }
{
    let at = place_of(sought.value.get());
    let mut parts = List::new(alloc);
    let mut last = Kept::new(first);
    let mut room = MOST_SEPARATORS;
    'more: while let Some(_) = tokens.eat_within(&[Kind::Comma], room)? {
        room -= 1;
        parts.push(compared_copy(alloc, tokens, sought, last)?)?;
        last = Kept::new(expr(alloc, tokens, levels)?);
    }
    let last = equal(alloc, &sought.value, last.into_inner())?;
    if parts.is_empty() {
        return Ok(last);
    }
    parts.push(last)?;
    Ok(Expr::Or {
        parts: fitted(parts),
        at,
    })
}
