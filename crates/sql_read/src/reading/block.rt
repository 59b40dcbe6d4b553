//! Blocks: `SELECT .. FROM .. WHERE .. GROUP BY .. HAVING ..`.
ghost use Rattle.sql_cursor.specs.Eating.{Extends};
ghost use Rattle.sql_read.specs.Reading as reading;
ghost use Rattle.sql_read.specs.Reading.{Does};
ghost use Rattle.sql_cursor.specs.Readers.{Gives};

use super::MOST_SEPARATORS;
use super::entry::entries;
use super::expr::expr;
use super::item::item;
use super::primary::reference;
use crate::growing::{fitted, push};
use plain_data::{Boxed, Kept, List};
use sql_cursor::{ReadFault, Tokens};
use sql_grammar::Kind;
use sql_model::{Block, Entry, Expr, Item, Query};
use std::alloc::Global;

/// `SELECT [DISTINCT] items FROM entries [WHERE expr] [GROUP BY columns] [HAVING expr]`
#[tactic(auto, unfolding(crate::specs::Reading::block))]
#[cycle(read)]
pub fn block(alloc: Global, tokens: &mut Tokens<'_>, levels: u8) -> Result<Query, ReadFault>
    ensures does { Does reading.block levels tokens.old result tokens.new }
    ensures extends { Extends tokens.old tokens.new }
{
    tokens.expect(alloc, Kind::Select)?;
    let distinct = tokens.accept(Kind::Distinct);
    let items = items(alloc, tokens, levels)?;
    tokens.expect(alloc, Kind::From)?;
    let entries = entries(alloc, tokens, levels)?;
    clauses(alloc, tokens, levels, distinct, items, entries)
}

/// What follows the entries of a block, which is made of it and of what stands before it.
#[tactic(auto, unfolding(crate::specs::Reading::clauses))]
#[cycle(read)]
fn clauses(
    alloc: Global,
    tokens: &mut Tokens<'_>,
    levels: u8,
    distinct: bool,
    items: List<Item>,
    entries: List<Entry>,
) -> Result<Query, ReadFault>
    ensures does { Does (λ levels deeper. reading.clauses levels deeper distinct items entries) levels tokens.old result tokens.new }
    ensures extends { Extends tokens.old tokens.new }
{
    let cond = Kept::new(condition(alloc, tokens, levels, Kind::Where)?);
    let groups = Kept::new(group_by(alloc, tokens)?);
    let having = condition(alloc, tokens, levels, Kind::Having)?;
    let block = Block {
        distinct,
        items,
        entries,
        cond: cond.into_inner(),
        groups: groups.into_inner(),
        having,
    };
    Ok(Query::Block {
        block: Boxed::new(alloc, block)?,
    })
}

/// `item {, item}`
#[tactic(auto, unfolding(crate::specs::Reading::items))]
#[cycle(read)]
fn items(alloc: Global, tokens: &mut Tokens<'_>, levels: u8) -> Result<List<Item>, ReadFault>
    ensures does { Does reading.items levels tokens.old result tokens.new }
    ensures extends { Extends tokens.old tokens.new }
{
    let mut items = List::new(alloc);
    let first = item(alloc, tokens, levels)?;
    push(&mut items, alloc, first)?;
    let mut room = MOST_SEPARATORS;
    'more: while let Some(_) = tokens.eat_within(&[Kind::Comma], room)? {
        room -= 1;
        let next = item(alloc, tokens, levels)?;
        items.push(next)?;
    }
    Ok(fitted(items))
}

/// The condition behind this word, if it stands next.
#[tactic(auto, unfolding(crate::specs::Reading::condition))]
#[cycle(read)]
fn condition(
    alloc: Global,
    tokens: &mut Tokens<'_>,
    levels: u8,
    word: Kind,
) -> Result<Option<Expr>, ReadFault>
    ensures does { Does (λ levels deeper. reading.condition levels deeper word) levels tokens.old result tokens.new }
    ensures extends { Extends tokens.old tokens.new }
{
    match tokens.eat(word) {
        Some(_) => Ok(Some(expr(alloc, tokens, levels)?)),
        None => Ok(None),
    }
}

#[tactic(auto, unfolding(crate::specs::Reading::group_by))]
fn group_by(alloc: Global, tokens: &mut Tokens<'_>) -> Result<Option<List<Expr>>, ReadFault>
    ensures does { Gives result tokens.new (reading.group_by tokens.old) }
    ensures extends { Extends tokens.old tokens.new }
{
    let Some(_) = tokens.eat(Kind::Group) else {
        return Ok(None);
    };
    tokens.expect(alloc, Kind::By)?;
    let mut columns = List::new(alloc);
    let first = reference(alloc, tokens)?;
    push(&mut columns, alloc, first)?;
    let mut room = MOST_SEPARATORS;
    'more: while let Some(_) = tokens.eat_within(&[Kind::Comma], room)? {
        room -= 1;
        let next = reference(alloc, tokens)?;
        columns.push(next)?;
    }
    Ok(Some(fitted(columns)))
}
