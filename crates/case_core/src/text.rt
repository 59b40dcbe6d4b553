//! The text of a case.
ghost use Rattle.std.specs.Prelude.{◌≡◌, ◌≤◌, ◌<◌, ◌^◌, length, IfErr, IfOk, OnOk};
ghost use Rattle.data_model.specs.Lists.{Each};
ghost use Rattle.sql_cursor.specs.Cursor.{most_bytes, numbers_of};
ghost use Rattle.sql_cursor.specs.Eating.{Extends};
ghost use Rattle.sql_grammar.specs.Queries.{most_levels};
ghost use Rattle.sql_read.specs.Reads.{Reads};
ghost use Rattle.schema_read.specs.CopiedStatements.{Copied};
ghost use Rattle.schema_read.specs.Declarations.{IsSmall};
ghost use Rattle.schema_read.specs.StatementLimits.{most_relations};
ghost use Rattle.case_core.specs.CaseGrammar as g;
ghost use Rattle.case_core.specs.Cases.{IsRead};
ghost use Rattle.case_core.specs.Refusals.{IsNoText};
ghost use Rattle.case_core.specs.ReadingCases.{IsEnded, IsMore, IsNoEnd, RefusesCase, TakesCase};

use crate::fault::CaseFault;
use plain_data::List;
use schema_read::read_inner_statements;
use sql_cursor::{ReadFault, Tokens, place};
use sql_grammar::Kind;
use sql_model::{Query, Statement, Symbols};
use sql_read::{MOST_LEVELS, read_inner_query};
use std::alloc::Global;

/// Statements and two queries, as they are written.
#[derive(Drop)]
pub struct CaseText {
    pub statements: List<Statement>,
    pub left: Query,
    pub right: Query,
}

/// What a text spells, and the numbers of its literals and called names.
pub fn read_text(alloc: Global, bytes: &[u8]) -> Result<(CaseText, Symbols), CaseFault>
    requires { length bytes.now ≤ most_bytes }
    ensures read { IfOk result (λ p. IsRead bytes.now p.0 (numbers_of p.1)) }
    ensures refused { IfErr result (λ fault. IsNoText bytes.now fault) }
{
    let mut tokens = Tokens::new(alloc, bytes)?;
    let text = case_text(alloc, &mut tokens, bytes.len() as u32);
    let symbols = tokens.into_symbols();
    Ok((text?, symbols))
}

/// `{statement ;} query ; query ;`, and the end of the text, which is at that place.
fn case_text(alloc: Global, tokens: &mut Tokens<'_>, end: u32) -> Result<CaseText, CaseFault>
    requires { end ≡ tokens.old.end }
    ensures taken { IfOk result (λ text. TakesCase tokens.old text tokens.new) }
    ensures few { IfOk result (λ text. length text.statements ≤ most_relations) }
    ensures small { IfOk result (λ text. length tokens.old.tokens < 2 ^ 31 → Each IsSmall text.statements) }
    ensures refused { IfErr result (λ fault. RefusesCase tokens.old fault tokens.new) }
{
    let statements = read_inner_statements(alloc, tokens)?;
    expect_more(tokens, end, 0)?;
    let left = ended_query(alloc, tokens)?;
    expect_more(tokens, end, 1)?;
    let right = ended_query(alloc, tokens)?;
    expect_end(alloc, tokens)?;
    Ok(CaseText {
        statements,
        left,
        right,
    })
}

/// `query ;`
fn ended_query(alloc: Global, tokens: &mut Tokens<'_>) -> Result<Query, ReadFault>
    ensures reads { Reads g.ended_query most_levels (λ read. read) tokens.old tokens.old result tokens.new }
    ensures copied { Copied g.ended_query (λ read. read) tokens.old tokens.old result tokens.new }
    ensures extends { Extends tokens.old tokens.new }
{
    let query = read_inner_query(alloc, tokens, MOST_LEVELS)?;
    tokens.expect(alloc, Kind::Semicolon)?;
    Ok(query)
}

/// That the text does not end behind so many queries.
fn expect_more(tokens: &Tokens<'_>, end: u32, count: u64) -> Result<(), CaseFault>
    ensures more { OnOk result (IsMore tokens.now) }
    ensures ended { IfErr result (λ fault. IsEnded tokens.now × (fault ≡ CaseFault.NotTwoQueries count end)) }
{
    match tokens.peek() {
        Ok(None) => Err(CaseFault::NotTwoQueries { count, at: end }),
        _ => Ok(()),
    }
}

/// That the text ends behind two queries.
fn expect_end(alloc: Global, tokens: &Tokens<'_>) -> Result<(), CaseFault>
    ensures ends { OnOk result (IsEnded tokens.now) }
    ensures refused { IfErr result (λ fault. IsNoEnd tokens.now fault) }
{
    match tokens.peek() {
        Ok(None) => Ok(()),
        Ok(Some(third)) if tokens.sees_any(&[Kind::Select, Kind::Open]) => {
            Err(CaseFault::NotTwoQueries {
                count: 3,
                at: place(&third),
            })
        }
        _ => Err(CaseFault::from(tokens.fault(alloc))),
    }
}
