//! The relations of a schema as queries can name them.
ghost use Rattle.std.specs.Prelude.{◌≡◌, ◌%◌, ◌++◌, ◌∷◌, ℕ, [], false, IfErr, IfOk, IfSome, OnOk, find, option_map};
ghost use Rattle.sql_model.specs.Columns.{same_name};
ghost use Rattle.sql_model.specs.Headings.{output_columns};
ghost use Rattle.sql_model.specs.Syntax.{Name as TheName};
ghost use Rattle.sql_model.specs.declared.schema.Relation.TheVariants as relation;
ghost use Rattle.scope_core.specs.declared.fault.ScopeFault.TheVariants as fault;
ghost use Rattle.scope_core.specs.declared.relation_set.RelationSet.{RelationSet as TheSet};
ghost use Rattle.scope_core.specs.Catalogs.{Grows, IsDeclaredAt, declared_by, declared_in};
ghost use Rattle.scope_core.specs.Lent.{headings_of, relation_of, relations_of, source_of};
ghost use Rattle.scope_core.specs.Names.{is_one_of};
ghost use Rattle.scope_core.specs.RelationSets.{Has, is_low};
ghost use Rattle.scope_core.specs.Relations.{known_of, known_with};
ghost use Rattle.scope_core.specs.Ropes.{IsDirected, columns_within};

use crate::NoMemory;
use crate::directed::Directed;
use crate::fault::{ScopeFault, number};
use crate::heading::Stored;
use crate::names::Names;
use crate::relation_set::RelationSet;
use crate::sources::NewColumns;
use indexmap::IndexMap;
use sql_model::{Name, Query, Relation, Schema, Table};
use std::alloc::Global;
use std::marker::Model;

/// A relation that a query can name.
#[derive(Drop)]
pub struct Known<'a> {
    pub name: &'a Name,
    pub columns: Directed<'a>,
    pub stored: Stored,
}

/// The relations that a query can name, with an index of their names, and which of them declare a name: the tables that have a column of it, and
/// the views that have a value of it among the items of their queries. So a name stands among their columns only where relations declare it.
#[derive(Drop)]
pub struct Catalog<'a> {
    relations: Vec<Known<'a>>,
    names: Names<'a>,
    declared: IndexMap<&'a Name, RelationSet>,
}

impl<'a> Model for Catalog<'a> {
    ghost use Rattle.std.specs.Prelude.{◌≡◌, [], map, Some};
    ghost use Rattle.std.specs.Coded.{codes};
    ghost use mir.Syntax.{static};
    ghost use Rattle.scope_core.specs.contracts.rope.Rope as parts;
    ghost use Rattle.scope_core.specs.Catalogs.{AreDirected, Catalog as TheCatalog, declared_in};

    ghost Value = { TheCatalog };

    ghost coded = { Prim.hlevel (codes, (parts.the_row (record { mir = static; lft = [] })).coded) };

    ghost view = { λ c. record { relations = c.relations.items; declared = c.declared.entries } };

    ghost invariant = { λ c. AreDirected (declared_in c.declared.entries) c.relations.items × (c.names ≡ map (λ known. Some known.name.now) c.relations.items) };
}

impl<'a> Catalog<'a> {
    /// No relations, which take no memory.
    pub fn new(alloc: Global) -> Catalog<'a>
        ensures { relations_of result ≡ [] }
    {
        Catalog {
            relations: Vec::new(alloc),
            names: Names::new(alloc),
            declared: IndexMap::new(alloc),
        }
    }

    /// The first relation of this name.
    pub fn relation(&self, name: &Name) -> Option<&Known<'a>>
        ensures value { option_map (λ k. relation_of k.now) result ≡ find (λ k. same_name name.now k.name) (relations_of self.now) }
        ensures directed { IfSome result (λ k. IsDirected (declared_by self.now) (λ name. false) k.now.columns) }
    {
        match self.names.find(name) {
            Some(seen) => Some(&self.relations[seen.first]),
            None => None,
        }
    }

    /// The relations that declare this name.
    pub fn declared(&self, name: &Name) -> RelationSet
        ensures { result ≡ declared_by self.now name.now }
    {
        declared_in(&self.declared, name)
    }

    /// Appends a base table.
    pub fn add_table(
        &mut self,
        alloc: Global,
        name: &'a Name,
        table: &'a Table,
    ) -> Result<(), NoMemory>
        ensures { OnOk result ((views : ℕ) → relations_of self.new ≡ known_with (relations_of self.old) views name.entry.now (relation.Table table.entry.now)) }
    {
        let stored = Stored::Table {
            number: table.number,
        };
        self.add(alloc, name, NewColumns::of_table(alloc, table)?, stored)
    }

    /// Appends a view of this query, so many views behind others, with the columns of its query.
    pub fn add_view(
        &mut self,
        alloc: Global,
        name: &'a Name,
        query: &'a Query,
        columns: NewColumns<'a>,
        place: u32,
    ) -> Result<(), NoMemory>
        requires columns { columns_within columns.columns ≡ output_columns query.now (headings_of self.old) }
        requires directed { IsDirected (declared_by self.old) (is_one_of columns.outside.items) columns.columns }
        ensures { OnOk result ((at : ℕ) → relations_of self.new ≡ known_with (relations_of self.old) place name.entry.now (relation.View query.entry.now at)) }
    {
        self.add(alloc, name, columns, Stored::View { place })
    }

    /// Appends a relation, which declares the names that none before it does.
    fn add(
        &mut self,
        alloc: Global,
        name: &'a Name,
        columns: NewColumns<'a>,
        stored: Stored,
    ) -> Result<(), NoMemory>
        requires { IsDirected (declared_by self.old) (is_one_of columns.outside.items) columns.columns }
        ensures { OnOk result (relations_of self.new
            ≡ relations_of self.old ++ record { name = name.entry.now; columns = columns_within columns.entry.columns; source = source_of stored } ∷ []) }
    {
        let NewColumns { columns, outside } = columns;
        let number = self.relations.len();
        declare(&mut self.declared, outside.as_slice(), number)?;
        let columns = columns_of_new(alloc, columns, outside.as_slice(), number)?;
        self.relations.reserve(1)?;
        self.names.push(Some(name))?;
        self.relations.push_reserved(Known {
            name,
            columns,
            stored,
        });
        Ok(())
    }
}

/// The columns of the relation of this number, which declares these names. Where there are none, its columns are those of others.
fn columns_of_new<'a>(
    alloc: Global,
    columns: Directed<'a>,
    declared: &[&'a Name],
    number: usize,
) -> Result<Directed<'a>, NoMemory>
    ensures columns { IfOk result (λ d. columns_within d ≡ columns_within columns.entry) }
    ensures directed { IfOk result (λ d. (by : TheName → TheSet) → IsDirected by (is_one_of declared.now) columns.entry → IsDeclaredAt by declared.now number
        → IsDirected by (λ name. false) d) }
{
    if declared.len() == 0 {
        return Ok(columns);
    }
    columns.of_relation(alloc, number)
}

/// The relations that declare a name, as a map has them.
fn declared_in(declared: &IndexMap<&Name, RelationSet>, name: &Name) -> RelationSet
    ensures { result ≡ declared_in declared.now.entries name.now }
{
    match declared.get(&name) {
        Some(set) => *set,
        None => RelationSet::empty(),
    }
}

/// Notes that a relation declares these names.
fn declare<'a>(
    declared: &mut IndexMap<&'a Name, RelationSet>,
    names: &[&'a Name],
    number: usize,
) -> Result<(), NoMemory>
    ensures grows { Grows (declared_in declared.old.entries) (declared_in declared.new.entries) }
    ensures declared { OnOk result (IsDeclaredAt (declared_in declared.new.entries) names.now number) }
{
    for name in names {
        declare_one(declared, *name, number)?;
    }
    Ok(())
}

fn declare_one<'a>(
    declared: &mut IndexMap<&'a Name, RelationSet>,
    name: &'a Name,
    number: usize,
) -> Result<(), NoMemory>
    ensures grows { Grows (declared_in declared.old.entries) (declared_in declared.new.entries) }
    ensures own { OnOk result (Has (declared_in declared.new.entries name.entry.now) (is_low number) (number % 128)) }
{
    let before = declared_in(declared, name);
    declared.insert(name, before.with(number))?;
    Ok(())
}

/// The relations of a schema, in order of declaration.
pub fn known_relations<'a>(alloc: Global, schema: &'a Schema) -> Result<Catalog<'a>, ScopeFault>
    ensures value { IfOk result (λ known. relations_of known ≡ known_of schema.now) }
    ensures err { IfErr result (λ f. f ≡ fault.NoMemory) }
{
    let mut known = Catalog::new(alloc);
    let mut views = 0;
    for (name, relation) in schema.relations.iter() {
        match relation {
            Relation::Table { table } => known.add_table(alloc, name, table)?,
            Relation::View { query, .. } => {
                let columns = NewColumns::of_query(alloc, query, &known)?;
                known.add_view(alloc, name, query, columns, number(views)?)?;
                views += 1;
            }
        }
    }
    Ok(known)
}
