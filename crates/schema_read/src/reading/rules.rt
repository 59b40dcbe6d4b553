//! The rules of a table that stand beside its columns.
ghost use Rattle.sql_cursor.specs.Eating.{Extends};
ghost use Rattle.sql_cursor.specs.Readers.{Gives};
ghost use Rattle.schema_read.specs.StatementReaders as reader;

use super::columns::{key, references};
use super::names::{name, names};
use sql_cursor::{ReadFault, Tokens, place};
use sql_grammar::Kind;
use sql_model::TableRule;
use std::alloc::Global;

/// `[CONSTRAINT name] tablerule`
#[tactic(auto, unfolding(crate::specs::StatementReaders::constraint))]
pub fn constraint(alloc: Global, tokens: &mut Tokens<'_>) -> Result<TableRule, ReadFault>
    ensures does { Gives result tokens.new (reader.constraint tokens.old) }
    ensures extends { Extends tokens.old tokens.new }
{
    constraint_name(alloc, tokens)?;
    table_rule(alloc, tokens)
}

/// `[CONSTRAINT name]`, of which nothing is kept.
#[tactic(auto, unfolding(crate::specs::StatementReaders::constraint_name))]
fn constraint_name(alloc: Global, tokens: &mut Tokens<'_>) -> Result<(), ReadFault>
    ensures does { Gives result tokens.new (reader.constraint_name tokens.old) }
    ensures extends { Extends tokens.old tokens.new }
{
    match tokens.eat(Kind::Constraint) {
        Some(_) => {
            name(alloc, tokens)?;
            Ok(())
        }
        None => Ok(()),
    }
}

#[tactic(auto, unfolding(crate::specs::StatementReaders::table_rule))]
fn table_rule(alloc: Global, tokens: &mut Tokens<'_>) -> Result<TableRule, ReadFault>
    ensures does { Gives result tokens.new (reader.table_rule tokens.old) }
    ensures extends { Extends tokens.old tokens.new }
{
    if let Some(word) = tokens.eat(Kind::Primary) {
        tokens.expect(alloc, Kind::Key)?;
        let columns = names(alloc, tokens)?;
        return Ok(key(true, columns, place(&word)));
    }
    if let Some(word) = tokens.eat(Kind::Unique) {
        let columns = names(alloc, tokens)?;
        return Ok(key(false, columns, place(&word)));
    }
    foreign_key(alloc, tokens)
}

/// `FOREIGN KEY names REFERENCES name [names]`
#[tactic(auto, unfolding(crate::specs::StatementReaders::foreign_key))]
fn foreign_key(alloc: Global, tokens: &mut Tokens<'_>) -> Result<TableRule, ReadFault>
    ensures does { Gives result tokens.new (reader.foreign_key tokens.old) }
    ensures extends { Extends tokens.old tokens.new }
{
    tokens.expect(alloc, Kind::Foreign)?;
    tokens.expect(alloc, Kind::Key)?;
    let columns = names(alloc, tokens)?;
    references(alloc, tokens, columns)
}
