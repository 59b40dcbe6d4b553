//! Indexes.
ghost use Rattle.sql_cursor.specs.Eating.{Extends};
ghost use Rattle.sql_cursor.specs.Readers.{Gives};
ghost use Rattle.schema_read.specs.StatementReaders as reader;

use super::names::{name, names};
use sql_cursor::{ReadFault, Tokens};
use sql_grammar::Kind;
use sql_model::Statement;
use std::alloc::Global;

/// `[UNIQUE] INDEX name ON name names`
#[tactic(auto, unfolding(crate::specs::StatementReaders::index))]
pub fn index(alloc: Global, tokens: &mut Tokens<'_>) -> Result<Statement, ReadFault>
    ensures does { Gives result tokens.new (reader.index tokens.old) }
    ensures extends { Extends tokens.old tokens.new }
{
    let unique = tokens.accept(Kind::Unique);
    tokens.expect(alloc, Kind::Index)?;
    let index = name(alloc, tokens)?;
    tokens.expect(alloc, Kind::On)?;
    let table = name(alloc, tokens)?;
    let columns = names(alloc, tokens)?;
    Ok(Statement::Index {
        name: index,
        unique,
        table,
        columns,
    })
}
