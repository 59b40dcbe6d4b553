//! Entries of FROM, before it is known how they are joined.
ghost use Rattle.std.specs.Prelude.{◌≡◌, ◌<◌, ◌^◌, IfOk};
ghost use Rattle.sql_lex.specs.Lexemes.{lexeme_of};
ghost use Rattle.sql_grammar.specs.QueryTrees.{entry_of, listed_query, listed_table};

use plain_data::Boxed;
use sql_cursor::{Tokens, place};
use sql_grammar::Listed;
use sql_lex::Token;
use sql_model::{Entry, Expr, Name, NoMemory, Query, Source};
use std::alloc::Global;

/// The entry, behind a JOIN or not, with this condition.
pub fn entry_of(listed: Listed, joined: bool, on: Option<Expr>) -> Entry
    ensures { result ≡ entry_of joined on listed }
{
    Entry {
        source: listed.source,
        alias: listed.alias,
        at: listed.at,
        joined,
        on,
    }
}

/// A table under this name.
pub fn listed_table(
    alloc: Global,
    tokens: &Tokens<'_>,
    table: &Token<'_>,
    alias: &Token<'_>,
) -> Result<Listed, NoMemory>
    requires table { table.now.start < 2 ^ 32 }
    requires alias { alias.now.start < 2 ^ 32 }
    ensures { IfOk result (λ listed. listed ≡ listed_table (lexeme_of table.now) (lexeme_of alias.now)) }
{
    Ok(Listed {
        source: Source::Named {
            name: tokens.name(alloc, table)?,
            at: place(table),
        },
        alias: tokens.name(alloc, alias)?,
        at: place(alias),
    })
}

/// A table without an alias, which stands under its own name.
pub fn unaliased_table(
    alloc: Global,
    tokens: &Tokens<'_>,
    table: &Token<'_>,
) -> Result<Listed, NoMemory>
    requires { table.now.start < 2 ^ 32 }
    ensures { IfOk result (λ listed. listed ≡ listed_table (lexeme_of table.now) (lexeme_of table.now)) }
{
    let name = tokens.name(alloc, table)?;
    let alias = name.copy()?;
    Ok(Listed {
        source: Source::Named {
            name,
            at: place(table),
        },
        alias,
        at: place(table),
    })
}

/// A query under this name.
pub fn listed_query(
    alloc: Global,
    tokens: &Tokens<'_>,
    query: Query,
    alias: &Token<'_>,
) -> Result<Listed, NoMemory>
    requires { alias.now.start < 2 ^ 32 }
    ensures { IfOk result (λ listed. listed ≡ listed_query (lexeme_of alias.now) query) }
{
    Ok(Listed {
        source: Source::Query {
            query: Boxed::new(alloc, query)?,
        },
        alias: tokens.name(alloc, alias)?,
        at: place(alias),
    })
}
