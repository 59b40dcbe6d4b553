//! What stands in the parentheses of a table: columns and rules.
ghost use Rattle.std.specs.Prelude.{Result};
ghost use Rattle.sql_cursor.specs.Eating.{Extends};
ghost use Rattle.sql_cursor.specs.Readers.{Gives};
ghost use Rattle.schema_read.specs.StatementReaders as reader;

use super::MOST_COLUMNS;
use super::columns::column_rules;
use super::names::{name, type_name};
use super::rules::constraint;
use plain_data::List;
use sql_cursor::{LimitKind, ReadFault, Tokens};
use sql_grammar::kinds::{Kind, NAME_KINDS};
use sql_model::{NameAt, TableRule};
use sql_read::MOST_SEPARATORS;
use std::alloc::Global;

/// What a rule of a table begins with, where it is no column.
const CONSTRAINT_KINDS: [Kind; 4] = [Kind::Constraint, Kind::Primary, Kind::Unique, Kind::Foreign];

/// Columns and rules, each in the order of the text.
#[derive(Drop)]
pub struct Elements {
    pub columns: List<NameAt>,
    pub rules: List<TableRule>,
}

/// `( column {, element} )`
#[tactic(auto, unfolding(crate::specs::StatementReaders::table_elements))]
pub fn table_elements(alloc: Global, tokens: &mut Tokens<'_>) -> Result<Elements, ReadFault>
    ensures does { Gives result tokens.new (reader.table_elements tokens.old) }
    ensures extends { Extends tokens.old tokens.new }
{
    tokens.expect(alloc, Kind::Open)?;
    let elements = listed_elements(alloc, tokens)?;
    tokens.expect(alloc, Kind::Close)?;
    Ok(elements)
}

/// `column {, element}`
#[tactic(auto, unfolding(crate::specs::StatementReaders::listed_elements))]
fn listed_elements(alloc: Global, tokens: &mut Tokens<'_>) -> Result<Elements, ReadFault>
    ensures does { Gives result tokens.new (reader.listed_elements tokens.old) }
    ensures extends { Extends tokens.old tokens.new }
{
    let none = Elements {
        columns: List::new(alloc),
        rules: List::new(alloc),
    };
    let mut elements = column(alloc, tokens, none)?;
    let mut room = MOST_SEPARATORS;
    'more: while let Some(_) = tokens.eat_within(&[Kind::Comma], room)? {
        room -= 1;
        elements = element(alloc, tokens, elements)?;
    }
    Ok(elements)
}

/// `column | [CONSTRAINT name] tablerule`, behind the elements before it.
#[tactic(auto, unfolding(crate::specs::StatementReaders::element))]
fn element(alloc: Global, tokens: &mut Tokens<'_>, before: Elements) -> Result<Elements, ReadFault>
    ensures does { Gives result tokens.new (reader.element before tokens.old) }
    ensures extends { Extends tokens.old tokens.new }
{
    if tokens.sees_any(&CONSTRAINT_KINDS) {
        return rule_element(alloc, tokens, before);
    }
    if before.columns.len() == MOST_COLUMNS {
        return Err(no_column(alloc, tokens));
    }
    column(alloc, tokens, before)
}

/// The refusal of what stands next where no column may follow: of a column, or of what is none.
#[tactic(auto, unfolding(crate::specs::StatementReaders::no_column))]
fn no_column(alloc: Global, tokens: &Tokens<'_>) -> ReadFault
    ensures does { Gives (Result.Err result) tokens.now (reader.no_column tokens.now) }
{
    if tokens.sees_any(&NAME_KINDS) {
        return ReadFault::Limit {
            what: LimitKind::Columns,
        };
    }
    tokens.fault(alloc)
}

/// `[CONSTRAINT name] tablerule`, behind the elements before it.
#[tactic(auto, unfolding(crate::specs::StatementReaders::rule_element))]
fn rule_element(
    alloc: Global,
    tokens: &mut Tokens<'_>,
    before: Elements,
) -> Result<Elements, ReadFault>
    ensures does { Gives result tokens.new (reader.rule_element before tokens.old) }
    ensures extends { Extends tokens.old tokens.new }
{
    let Elements { columns, mut rules } = before;
    let rule = constraint(alloc, tokens)?;
    rules.push(rule)?;
    Ok(Elements { columns, rules })
}

/// `name type {colrule}`, behind the elements before it.
#[tactic(auto, unfolding(crate::specs::StatementReaders::column))]
fn column(alloc: Global, tokens: &mut Tokens<'_>, before: Elements) -> Result<Elements, ReadFault>
    ensures does { Gives result tokens.new (reader.column before tokens.old) }
    ensures extends { Extends tokens.old tokens.new }
{
    let Elements { mut columns, rules } = before;
    let column = name(alloc, tokens)?;
    type_name(alloc, tokens)?;
    let rules = column_rules(alloc, tokens, &column, rules)?;
    columns.push(column)?;
    Ok(Elements { columns, rules })
}
