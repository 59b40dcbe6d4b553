//! Statements.
ghost use Rattle.sql_cursor.specs.Eating.{Extends};
ghost use Rattle.sql_cursor.specs.Readers.{Gives};
ghost use Rattle.schema_read.specs.StatementReaders as reader;

use super::MOST_RELATIONS;
use super::elements::{Elements, table_elements};
use super::index::index;
use super::names::name;
use plain_data::{Kept, List};
use sql_cursor::{LimitKind, ReadFault, Tokens};
use sql_grammar::Kind;
use sql_model::Statement;
use sql_read::{MOST_LEVELS, read_inner_query};
use std::alloc::Global;

/// `{statement ;}`
#[tactic(auto, unfolding(crate::specs::StatementReaders::statements))]
pub fn statements(alloc: Global, tokens: &mut Tokens<'_>) -> Result<List<Statement>, ReadFault>
    ensures does { Gives result tokens.new (reader.statements tokens.old) }
    ensures extends { Extends tokens.old tokens.new }
{
    let mut statements = List::new(alloc);
    'more: while tokens.sees(Kind::Create) {
        if statements.len() == MOST_RELATIONS {
            return Err(ReadFault::Limit {
                what: LimitKind::Relations,
            });
        }
        let next = ended_statement(alloc, tokens)?;
        statements.push(next)?;
    }
    Ok(statements)
}

/// `statement ;`
#[tactic(auto, unfolding(crate::specs::StatementReaders::ended_statement))]
fn ended_statement(alloc: Global, tokens: &mut Tokens<'_>) -> Result<Statement, ReadFault>
    ensures does { Gives result tokens.new (reader.ended_statement tokens.old) }
    ensures extends { Extends tokens.old tokens.new }
{
    let statement = Kept::new(statement(alloc, tokens)?);
    tokens.expect(alloc, Kind::Semicolon)?;
    Ok(statement.into_inner())
}

/// `CREATE`, and what is created.
#[tactic(auto, unfolding(crate::specs::StatementReaders::one_statement))]
fn statement(alloc: Global, tokens: &mut Tokens<'_>) -> Result<Statement, ReadFault>
    ensures does { Gives result tokens.new (reader.one_statement tokens.old) }
    ensures extends { Extends tokens.old tokens.new }
{
    tokens.expect(alloc, Kind::Create)?;
    if tokens.sees(Kind::Table) {
        return table(alloc, tokens);
    }
    if tokens.sees(Kind::View) {
        return view(alloc, tokens);
    }
    index(alloc, tokens)
}

/// `TABLE name ( column {, element} )`
#[tactic(auto, unfolding(crate::specs::StatementReaders::table))]
fn table(alloc: Global, tokens: &mut Tokens<'_>) -> Result<Statement, ReadFault>
    ensures does { Gives result tokens.new (reader.table tokens.old) }
    ensures extends { Extends tokens.old tokens.new }
{
    tokens.expect(alloc, Kind::Table)?;
    let table = name(alloc, tokens)?;
    let Elements { columns, rules } = table_elements(alloc, tokens)?;
    Ok(Statement::Table {
        name: table,
        columns,
        rules,
    })
}

/// `VIEW name AS query`
#[tactic(auto, unfolding(crate::specs::StatementReaders::view))]
fn view(alloc: Global, tokens: &mut Tokens<'_>) -> Result<Statement, ReadFault>
    ensures does { Gives result tokens.new (reader.view tokens.old) }
    ensures extends { Extends tokens.old tokens.new }
{
    tokens.expect(alloc, Kind::View)?;
    let view = name(alloc, tokens)?;
    tokens.expect(alloc, Kind::As)?;
    let query = read_inner_query(alloc, tokens, MOST_LEVELS)?;
    Ok(Statement::View { name: view, query })
}
