//! The entries of FROM.
ghost use Rattle.std.specs.Prelude.{IfOk, IfSome, OnOk, ◌<◌, ◌≡◌};
ghost use Rattle.sql_grammar.specs.QueryEntries.{most_entries};
ghost use Rattle.sql_cursor.specs.Eating.{Extends};
ghost use Rattle.sql_read.specs.Parts.{allowed_entry};
ghost use Rattle.sql_read.specs.Reading as reading;
ghost use Rattle.sql_read.specs.Reading.{Does};
ghost use Rattle.sql_cursor.specs.Readers.{Gives};

use super::MOST_SEPARATORS;
use super::deeper::deeper_query;
use super::expr::expr;
use super::item::{alias, optional_alias};
use crate::growing::{fitted, push};
use crate::listed::{entry_of, listed_query, listed_table, unaliased_table};
use plain_data::{Kept, List};
use sql_cursor::{LimitKind, ReadFault, Tokens};
use sql_grammar::Listed;
use sql_grammar::kinds::{Kind, NAME_KINDS};
use sql_model::Entry;
use std::alloc::Global;

/// Entries of a block.
const MOST_ENTRIES: usize = 32;

/// All entries of FROM, in the order of the text.
#[tactic(auto, unfolding(crate::specs::Reading::entries))]
#[cycle(read)]
pub fn entries(alloc: Global, tokens: &mut Tokens<'_>, levels: u8) -> Result<List<Entry>, ReadFault>
    ensures does { Does reading.entries levels tokens.old result tokens.new }
    ensures extends { Extends tokens.old tokens.new }
{
    let first = from(alloc, tokens, levels, List::new(alloc))?;
    let mut entries = first;
    let mut room = MOST_SEPARATORS;
    'items: while let Some(_) = tokens.eat_within(&[Kind::Comma], room)? {
        room -= 1;
        let more = from(alloc, tokens, levels, entries)?;
        entries = more;
    }
    Ok(fitted(entries))
}

/// An item of FROM: its entries, behind those before them.
#[tactic(auto, unfolding(crate::specs::Reading::from))]
#[cycle(read)]
fn from(
    alloc: Global,
    tokens: &mut Tokens<'_>,
    levels: u8,
    before: List<Entry>,
) -> Result<List<Entry>, ReadFault>
    ensures does { Does (λ levels deeper. reading.from levels deeper before) levels tokens.old result tokens.new }
    ensures extends { Extends tokens.old tokens.new }
{
    let mut entries = before;
    let first = entry(alloc, tokens, levels, entries.len())?;
    push(&mut entries, alloc, entry_of(first, false, None))?;
    'joins: while let Some(next) = joined_entry(alloc, tokens, levels, entries.len())? {
        entries.push(next)?;
    }
    Ok(entries)
}

/// An entry behind a JOIN, if one stands next, behind so many others.
#[tactic(auto, unfolding(crate::specs::Reading::joined_entry))]
#[cycle(read)]
fn joined_entry(
    alloc: Global,
    tokens: &mut Tokens<'_>,
    levels: u8,
    count: usize,
) -> Result<Option<Entry>, ReadFault>
    ensures does { Does (λ levels deeper. reading.joined_entry levels deeper count) levels tokens.old result tokens.new }
    ensures fits { IfOk result (λ found. IfSome found (λ entry. count < most_entries)) }
    ensures extends { Extends tokens.old tokens.new }
{
    if let Some(_) = tokens.eat(Kind::Cross) {
        tokens.expect(alloc, Kind::Join)?;
        let listed = entry(alloc, tokens, levels, count)?;
        return Ok(Some(entry_of(listed, true, None)));
    }
    if tokens.sees_any(&[Kind::Inner, Kind::Join]) {
        return joined_on(alloc, tokens, levels, count);
    }
    Ok(None)
}

/// `[INNER] JOIN entry ON expr`
#[tactic(auto, unfolding(crate::specs::Reading::joined_on))]
#[cycle(read)]
fn joined_on(
    alloc: Global,
    tokens: &mut Tokens<'_>,
    levels: u8,
    count: usize,
) -> Result<Option<Entry>, ReadFault>
    ensures does { Does (λ levels deeper. reading.joined_on levels deeper count) levels tokens.old result tokens.new }
    ensures fits { IfOk result (λ found. IfSome found (λ entry. count < most_entries)) }
    ensures extends { Extends tokens.old tokens.new }
{
    tokens.accept(Kind::Inner);
    tokens.expect(alloc, Kind::Join)?;
    let listed = Kept::new(entry(alloc, tokens, levels, count)?);
    tokens.expect(alloc, Kind::On)?;
    let on = expr(alloc, tokens, levels)?;
    Ok(Some(entry_of(listed.into_inner(), true, Some(on))))
}

/// An entry behind so many others.
#[tactic(auto, unfolding(crate::specs::Reading::entry))]
#[cycle(read)]
fn entry(
    alloc: Global,
    tokens: &mut Tokens<'_>,
    levels: u8,
    count: usize,
) -> Result<Listed, ReadFault>
    ensures does { Does (λ levels deeper. reading.entry levels deeper count) levels tokens.old result tokens.new }
    ensures fits { OnOk result (count < most_entries) }
    ensures extends { Extends tokens.old tokens.new }
{
    allow_entry(tokens, levels, count)?;
    let Some(_) = tokens.eat_within(&[Kind::Open], levels)? else {
        return table_entry(alloc, tokens);
    };
    let inside = Kept::new(deeper_query(alloc, tokens, levels)?);
    tokens.expect(alloc, Kind::Close)?;
    let alias = alias(alloc, tokens)?;
    Ok(listed_query(alloc, tokens, inside.into_inner(), &alias)?)
}

/// A table, and its alias where one is written.
#[tactic(auto, unfolding(crate::specs::Reading::table_entry))]
fn table_entry(alloc: Global, tokens: &mut Tokens<'_>) -> Result<Listed, ReadFault>
    ensures does { Gives result tokens.new (reading.table_entry tokens.old) }
    ensures extends { Extends tokens.old tokens.new }
{
    let table = tokens.expect_any(alloc, &NAME_KINDS)?;
    match optional_alias(alloc, tokens)? {
        Some(alias) => Ok(listed_table(alloc, tokens, &table, &alias)?),
        None => Ok(unaliased_table(alloc, tokens, &table)?),
    }
}

/// Refuses an entry behind as many as a block may have, unless its first token is too deep.
fn allow_entry(tokens: &Tokens<'_>, levels: u8, count: usize) -> Result<(), ReadFault>
    ensures { result ≡ allowed_entry levels count tokens.now.tokens }
{
    if count < MOST_ENTRIES || (levels == 0 && tokens.sees(Kind::Open)) {
        return Ok(());
    }
    if tokens.sees(Kind::Open) || tokens.sees_any(&NAME_KINDS) {
        return Err(ReadFault::Limit {
            what: LimitKind::Entries,
        });
    }
    Ok(())
}
