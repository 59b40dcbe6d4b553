//! The rules behind a column.
ghost use Rattle.std.specs.Prelude.{◌≡◌, ◌∷◌, [], IfOk};
ghost use Rattle.sql_cursor.specs.Eating.{Extends};
ghost use Rattle.sql_cursor.specs.Readers.{Gives};
ghost use Rattle.schema_read.specs.StatementReaders as reader;

use super::names::{name, names, names_behind};
use plain_data::List;
use sql_cursor::{ReadFault, Tokens, place};
use sql_grammar::Kind;
use sql_model::{NameAt, NoMemory, TableRule};
use std::alloc::Global;

/// What a rule behind a column begins with.
const COLUMN_RULE_KINDS: [Kind; 4] = [Kind::Not, Kind::Primary, Kind::Unique, Kind::References];

/// A list of this column alone.
fn alone(alloc: Global, column: &NameAt) -> Result<List<NameAt>, NoMemory>
    ensures { IfOk result (λ columns. columns ≡ column.now ∷ []) }
{
    let mut columns = List::new(alloc);
    columns.push(NameAt {
        name: column.name.copy()?,
        at: column.at,
    })?;
    Ok(columns)
}

/// `[( name {, name} )]`
#[tactic(auto, unfolding(crate::specs::StatementReaders::names_if_any))]
fn names_if_any(alloc: Global, tokens: &mut Tokens<'_>) -> Result<Option<List<NameAt>>, ReadFault>
    ensures does { Gives result tokens.new (reader.names_if_any tokens.old) }
    ensures extends { Extends tokens.old tokens.new }
{
    match tokens.eat(Kind::Open) {
        Some(_) => {
            let names = names_behind(alloc, tokens)?;
            Ok(Some(names))
        }
        None => Ok(None),
    }
}

/// `REFERENCES name [names]`: a foreign key of these columns.
#[tactic(auto, unfolding(crate::specs::StatementReaders::references))]
pub fn references(
    alloc: Global,
    tokens: &mut Tokens<'_>,
    columns: List<NameAt>,
) -> Result<TableRule, ReadFault>
    ensures does { Gives result tokens.new (reader.references columns tokens.old) }
    ensures extends { Extends tokens.old tokens.new }
{
    tokens.expect(alloc, Kind::References)?;
    let table = name(alloc, tokens)?;
    let target = names_if_any(alloc, tokens)?;
    Ok(TableRule::Foreign {
        columns,
        table,
        target,
    })
}

/// `{colrule}`: the rules of the column, behind those before it.
#[tactic(auto, unfolding(crate::specs::StatementReaders::column_rules))]
pub fn column_rules(
    alloc: Global,
    tokens: &mut Tokens<'_>,
    column: &NameAt,
    before: List<TableRule>,
) -> Result<List<TableRule>, ReadFault>
    ensures does { Gives result tokens.new (reader.column_rules column.now before tokens.old) }
    ensures extends { Extends tokens.old tokens.new }
{
    let mut rules = before;
    'more: while tokens.sees_any(&COLUMN_RULE_KINDS) {
        if let Some(rule) = column_rule(alloc, tokens, column)? {
            rules.push(rule)?;
        }
    }
    Ok(rules)
}

/// What stands next behind a column: a rule of it, or `NOT NULL`, which is none.
#[tactic(auto, unfolding(crate::specs::StatementReaders::column_rule))]
fn column_rule(
    alloc: Global,
    tokens: &mut Tokens<'_>,
    column: &NameAt,
) -> Result<Option<TableRule>, ReadFault>
    ensures does { Gives result tokens.new (reader.column_rule column.now tokens.old) }
    ensures extends { Extends tokens.old tokens.new }
{
    if let Some(_) = tokens.eat(Kind::Not) {
        tokens.expect(alloc, Kind::Null)?;
        return Ok(None);
    }
    let columns = alone(alloc, column)?;
    if let Some(word) = tokens.eat(Kind::Primary) {
        tokens.expect(alloc, Kind::Key)?;
        return Ok(Some(key(true, columns, place(&word))));
    }
    if let Some(word) = tokens.eat(Kind::Unique) {
        return Ok(Some(key(false, columns, place(&word))));
    }
    let rule = references(alloc, tokens, columns)?;
    Ok(Some(rule))
}

/// A key of these columns, whose first word stands here.
pub fn key(primary: bool, columns: List<NameAt>, at: u32) -> TableRule
    ensures { result ≡ TableRule.Key primary columns at }
{
    TableRule::Key {
        primary,
        columns,
        at,
    }
}
