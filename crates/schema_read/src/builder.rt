//! Builds a schema, statement by statement.
ghost use Rattle.std.specs.Prelude.{◌≡◌, ◌≤◌, ◌<◌, ◌^◌, ◌+◌, length, OnOk, IfOk};
ghost use Rattle.schema_read.specs.Faults.{rule_fault, rules_fault};
ghost use Rattle.schema_read.specs.Building.{IsNarrow, AreNarrow, with_fkey, after_rule, after_rules};
ghost use Rattle.schema_read.specs.Known.{AreKnown};
ghost use Rattle.schema_read.specs.StatementLimits.{most_columns};
ghost use Rattle.schema_read.specs.Views.{Gives};

use crate::fault::{SchemaCode, SchemaFault};
use crate::foreign::foreign_key;
use crate::indexes::index_query;
use crate::keys::{is_primary_rule, own_table};
use crate::names::{check_all_differ, check_columns, places_in};
use crate::relations::{add_index_key, check_new, declare, table_named};
use crate::sets::KeySets;
use indexmap::IndexMap;
use plain_data::List;
use sql_model::{Fkey, Name, NameAt, Query, Relation, Statement, Table, TableRule};
use std::alloc::{AllocError, Global};

/// What the statements so far have built.
#[derive(Drop)]
pub(crate) struct Builder {
    pub(crate) relations: IndexMap<Name, Relation>,
    /// How many of the relations are base tables.
    pub(crate) tables: u32,
    pub(crate) fkeys: List<Fkey>,
}

fn push_some(fkeys: &mut List<Fkey>, fkey: Option<Fkey>) -> Result<(), AllocError>
    ensures { OnOk result (fkeys.new ≡ with_fkey fkeys.old fkey) }
{
    match fkey {
        Some(fkey) => fkeys.push(fkey),
        None => Ok(()),
    }
}

/// Adds the foreign key of a rule of `own`, the table of this name, if it is one.
fn add_rule(
    alloc: Global,
    known: &mut IndexMap<Name, KeySets>,
    relations: &IndexMap<Name, Relation>,
    name: &Name,
    own: &Table,
    has_primary: bool,
    rule: &TableRule,
    fkeys: &mut List<Fkey>,
) -> Result<(), SchemaFault>
    requires relations_narrow { AreNarrow relations.now.entries }
    requires own_narrow { IsNarrow own.now }
    requires known { AreKnown relations.now.entries name.now own.now known.old.entries }
    ensures fkeys { Gives (λ _. fkeys.new) result (rule_fault relations.now.entries name.now own.now has_primary rule.now)
        (after_rule relations.now.entries name.now own.now fkeys.old rule.now) }
    ensures known { OnOk result (AreKnown relations.now.entries name.now own.now known.new.entries) }
{
    let fkey = foreign_key(alloc, known, relations, name, own, has_primary, rule)?;
    push_some(fkeys, fkey)?;
    Ok(())
}

/// Adds the foreign keys of the rules of `own`, the table of this name.
fn add_rules(
    alloc: Global,
    relations: &IndexMap<Name, Relation>,
    name: &Name,
    own: &Table,
    rules: &[TableRule],
    fkeys: &mut List<Fkey>,
) -> Result<(), SchemaFault>
    requires relations_narrow { AreNarrow relations.now.entries }
    requires own_narrow { IsNarrow own.now }
    ensures { Gives (λ _. fkeys.new) result (rules_fault relations.now.entries name.now own.now rules.now)
        (after_rules relations.now.entries name.now own.now fkeys.old rules.now) }
{
    let mut has_primary = false;
    let mut known = IndexMap::new(alloc);
    for rule in rules {
        add_rule(
            alloc,
            &mut known,
            relations,
            name,
            own,
            has_primary,
            rule,
            fkeys,
        )?;
        has_primary = has_primary || is_primary_rule(rule);
    }
    Ok(())
}

impl Builder {
    ghost use Rattle.sql_model.specs.declared.statement.Statement.TheVariants.{Table as ATable, View as AView, Index as AnIndex};
    ghost use Rattle.schema_read.specs.Declarations.{IsSmall};
    ghost use Rattle.schema_read.specs.Building.{AreNarrow, no_statements, state_fault, after_statement};
    ghost use Rattle.schema_read.specs.Views.{Gives, seen};

    pub(crate) fn new(alloc: Global) -> Builder
        ensures { seen result ≡ no_statements }
    {
        Builder {
            relations: IndexMap::new(alloc),
            tables: 0,
            fkeys: List::new(alloc),
        }
    }

    fn add_table(
        &mut self,
        alloc: Global,
        name: &NameAt,
        columns: &List<NameAt>,
        rules: &List<TableRule>,
    ) -> Result<(), SchemaFault>
        requires few_tables { self.old.tables + 1 < 2 ^ 32 }
        requires few_columns { length columns.now ≤ most_columns }
        requires few_rules { length rules.now < 2 ^ 31 }
        requires narrow { AreNarrow self.old.relations.entries }
        ensures { Gives (λ _. seen self.new) result (state_fault (seen self.old) (ATable name.now columns.now rules.now))
            (after_statement (seen self.old) (ATable name.now columns.now rules.now)) }
    {
        check_new(&self.relations, name)?;
        check_all_differ(columns.as_slice())?;
        let table = own_table(alloc, self.tables, columns.as_slice(), rules.as_slice())?;
        add_rules(
            alloc,
            &self.relations,
            &name.name,
            &table,
            rules.as_slice(),
            &mut self.fkeys,
        )?;
        declare(&mut self.relations, &name.name, Relation::Table { table })?;
        self.tables += 1;
        Ok(())
    }

    fn add_view(&mut self, alloc: Global, name: &NameAt, query: &Query) -> Result<(), SchemaFault>
        ensures { Gives (λ _. seen self.new) result (state_fault (seen self.old) (AView name.now query.now))
            (after_statement (seen self.old) (AView name.now query.now)) }
    {
        check_new(&self.relations, name)?;
        let view = Relation::View {
            query: query.copy(alloc)?,
            at: name.at,
        };
        declare(&mut self.relations, &name.name, view)?;
        Ok(())
    }

    fn add_index(
        &mut self,
        alloc: Global,
        name: &NameAt,
        unique: bool,
        on: &NameAt,
        columns: &List<NameAt>,
    ) -> Result<(), SchemaFault>
        requires { AreNarrow self.old.relations.entries }
        ensures { Gives (λ _. seen self.new) result (state_fault (seen self.old) (AnIndex name.now unique on.now columns.now))
            (after_statement (seen self.old) (AnIndex name.now unique on.now columns.now)) }
    {
        check_new(&self.relations, name)?;
        let Some(table) = table_named(&self.relations, &on.name) else {
            return Err(SchemaCode::UnknownTable.at(on.at));
        };
        check_columns(table.columns.as_slice(), columns.as_slice())?;
        let key = places_in(alloc, table.columns.as_slice(), columns.as_slice())?;
        let view = Relation::View {
            query: index_query(alloc, on, columns.as_slice(), table)?,
            at: name.at,
        };
        declare(&mut self.relations, &name.name, view)?;
        add_index_key(&mut self.relations, unique, &on.name, key)?;
        Ok(())
    }

    /// Adds what a statement declares.
    pub(crate) fn add(&mut self, alloc: Global, statement: &Statement) -> Result<(), SchemaFault>
        requires few_tables { self.old.tables + 1 < 2 ^ 32 }
        requires small { IsSmall statement.now }
        requires narrow { AreNarrow self.old.relations.entries }
        ensures { Gives (λ _. seen self.new) result (state_fault (seen self.old) statement.now)
            (after_statement (seen self.old) statement.now) }
    {
        match statement {
            Statement::Table {
                name,
                columns,
                rules,
            } => self.add_table(alloc, name, columns, rules),
            Statement::View { name, query } => self.add_view(alloc, name, query),
            Statement::Index {
                name,
                unique,
                table,
                columns,
            } => self.add_index(alloc, name, *unique, table, columns),
        }
    }
}
