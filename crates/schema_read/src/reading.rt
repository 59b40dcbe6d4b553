//! The reader of statements: a function for each production, or for a part of one.
ghost use Rattle.std.specs.Prelude.{◌<◌, ◌≤◌, ◌^◌, length, IfErr, IfOk, OnErr, None};
ghost use Rattle.data_model.specs.Lists.{Each};
ghost use Rattle.sql_cursor.specs.declared.fault.LimitKind.TheVariants as limit;
ghost use Rattle.sql_cursor.specs.Eating.{Extends};
ghost use Rattle.sql_grammar.specs.Queries.{most_levels};
ghost use Rattle.sql_read.specs.ReadingQueries.{IsAtEnd, Keeps};
ghost use Rattle.sql_read.specs.Reads.{relations_too};
ghost use Rattle.schema_read.specs.CopiedStatements.{Copied};
ghost use Rattle.schema_read.specs.Counting.{Counts, ReadsTelling, few_factored_statements, narrowly};
ghost use Rattle.schema_read.specs.Declarations.{IsSmall};
ghost use Rattle.schema_read.specs.ReadingStatements.{IsRead, IsRefused};
ghost use Rattle.schema_read.specs.StatementGrammar as g;
ghost use Rattle.schema_read.specs.StatementLimits.{most_relations};
ghost use Rattle.sql_grammar.specs.FactoredQueries.{in_factored};

mod columns;
mod elements;
mod index;
mod names;
mod rules;
mod statement;

use plain_data::List;
use sql_cursor::{ReadFault, Tokens};
use sql_model::Statement;
use statement::statements;
use std::alloc::Global;

/// Columns of a table.
const MOST_COLUMNS: usize = 32;

/// Tables, views and indexes.
const MOST_RELATIONS: usize = 256;

/// Reads statements, each with its semicolon, while the next word is `CREATE`. A lexical fault that follows them is left to the next
/// call. After a refusal the tokens stand at the end of the text.
pub fn read_statements(alloc: Global, tokens: &mut Tokens<'_>) -> Result<List<Statement>, ReadFault>
    ensures read { IfOk result (λ statements. IsRead tokens.old statements tokens.new) }
    ensures refused { IfErr result (λ fault. IsRefused tokens.old fault) }
    ensures stopped { OnErr result (IsAtEnd tokens.old tokens.new) }
    ensures keeps { Keeps tokens.old tokens.new }
{
    let read = statements(alloc, tokens);
    tokens.stop_on_fault(read)
}

/// Reads the statements of a case. After a refusal the tokens stand where it came.
pub fn read_inner_statements(
    alloc: Global,
    tokens: &mut Tokens<'_>,
) -> Result<List<Statement>, ReadFault>
    ensures reads { ReadsTelling relations_too g.statements most_levels (λ read. read) tokens.old tokens.old result tokens.new }
    ensures columns { Counts limit.Columns g.statements (in_factored None (g.statements_with narrowly)) tokens.old result tokens.new }
    ensures relations { Counts limit.Relations g.statements few_factored_statements tokens.old result tokens.new }
    ensures copied { Copied g.statements (λ read. read) tokens.old tokens.old result tokens.new }
    // What `read_schema` requires.
    ensures few { IfOk result (λ statements. length statements ≤ most_relations) }
    ensures small { IfOk result (λ statements. length tokens.old.tokens < 2 ^ 31 → Each IsSmall statements) }
    ensures extends { Extends tokens.old tokens.new }
{
    statements(alloc, tokens)
}
