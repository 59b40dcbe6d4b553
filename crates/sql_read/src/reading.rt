//! The reader of queries: a function for each production of the left-factored grammar, or for a part of one.
ghost use Rattle.std.specs.Prelude.{IfErr, IfOk, OnErr};
ghost use Rattle.grammar.specs.Form.{ref};
ghost use Rattle.sql_read.specs.Copied.{Copied};
ghost use Rattle.sql_cursor.specs.Eating.{Extends};
ghost use Rattle.sql_grammar.specs.QueryGrammar as grammar;
ghost use Rattle.sql_read.specs.Reading as reading;
ghost use Rattle.sql_read.specs.Reading.{Does};
ghost use Rattle.sql_read.specs.Reads.{Reads};
ghost use Rattle.sql_read.specs.ReadingQueries.{IsAtEnd, IsRead, IsRefused, Keeps};

mod block;
mod deeper;
mod entry;
mod expr;
mod inside;
mod item;
mod primary;
mod query;
mod test;

use query::query;
use sql_cursor::{ReadFault, Tokens};
use sql_model::Query;
use std::alloc::Global;

/// Operators of a chain of set operators, of `+ - ||` or of `* /`.
const MOST_OPERATORS: u8 = 63;

/// `AND`s, `OR`s or commas of a chain or a list.
pub const MOST_SEPARATORS: u8 = 255;

/// Levels that may be open at once.
pub const MOST_LEVELS: u8 = 64;

/// Reads the longest list of tokens that begins a query. A lexical fault that follows a whole query is left to the next call.
/// After a refusal the tokens stand at the end of the text.
pub fn read_query(alloc: Global, tokens: &mut Tokens<'_>) -> Result<Query, ReadFault>
    ensures read { IfOk result (λ query. IsRead tokens.old query tokens.new) }
    ensures refused { IfErr result (λ fault. IsRefused tokens.old fault) }
    ensures stopped { OnErr result (IsAtEnd tokens.old tokens.new) }
    ensures keeps { Keeps tokens.old tokens.new }
{
    let read = query(alloc, tokens, MOST_LEVELS);
    tokens.stop_on_fault(read)
}

/// Reads the query of a view, where so many levels may be opened. After a refusal the tokens stand where it came.
pub fn read_inner_query(
    alloc: Global,
    tokens: &mut Tokens<'_>,
    levels: u8,
) -> Result<Query, ReadFault>
    // In short, and for readers that go on behind it.
    ensures does { Does reading.query levels tokens.old result tokens.new }
    ensures reads { Reads (ref grammar.query) levels (λ read. read) tokens.old tokens.old result tokens.new }
    ensures copied { Copied (ref grammar.query) (λ read. read) tokens.old tokens.old result tokens.new }
    ensures extends { Extends tokens.old tokens.new }
{
    query(alloc, tokens, levels)
}
