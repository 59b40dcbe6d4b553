//! Relations by name.
ghost use Rattle.std.specs.Prelude.{◌≡◌, ◌≤◌, ◌+◌, [], ◌∷◌, ◌++◌, IsTrue, IfSome, OnOk, None};
ghost use Rattle.std.specs.Option.{option_copied};
ghost use Rattle.sql_model.specs.Relations.{relation_named};
ghost use Rattle.schema_read.specs.Faults.{new_name_fault, table_in};
ghost use Rattle.schema_read.specs.Building.{IsNarrow, AreNarrow, changed, with_unique_key, with_index_key};
ghost use Rattle.schema_read.specs.Views.{Passes};

use crate::fault::{SchemaCode, SchemaFault};
use crate::keys::add_unique;
use indexmap::IndexMap;
use plain_data::List;
use sql_model::{Name, NameAt, Relation, Table};
use std::alloc::AllocError;

/// Refuses a name that is declared already.
pub(crate) fn check_new(
    relations: &IndexMap<Name, Relation>,
    name: &NameAt,
) -> Result<(), SchemaFault>
    ensures passes { Passes result (new_name_fault relations.now.entries name.now) }
    ensures new { OnOk result (relation_named name.now.name relations.now.entries ≡ None) }
{
    if relations.contains_key(&name.name) {
        return Err(SchemaCode::TableTwice.at(name.at));
    }
    Ok(())
}

/// The base table of this name.
pub(crate) fn table_named<'a>(
    relations: &'a IndexMap<Name, Relation>,
    name: &Name,
) -> Option<&'a Table>
    requires { AreNarrow relations.now.entries }
    ensures value { option_copied result ≡ table_in relations.now.entries name.now }
    ensures narrow { IfSome result (λ table. IsNarrow table.now) }
{
    match relations.get(name)? {
        Relation::Table { table } => Some(table),
        Relation::View { .. } => None,
    }
}

/// Adds a relation of a new name.
pub(crate) fn declare(
    relations: &mut IndexMap<Name, Relation>,
    name: &Name,
    relation: Relation,
) -> Result<(), AllocError>
    requires { relation_named name.now relations.old.entries ≡ None }
    ensures { OnOk result (relations.new.entries ≡ relations.old.entries ++ (name.now, relation) ∷ []) }
{
    relations.insert(name.copy()?, relation)?;
    Ok(())
}

/// Adds the key of a unique index to a base table.
fn add_to_table(relation: &mut Relation, key: List<u32>) -> Result<(), AllocError>
    ensures { OnOk result (relation.new ≡ with_unique_key key relation.old) }
{
    match relation {
        Relation::Table { table } => add_unique(table, key),
        Relation::View { .. } => Ok(()),
    }
}

/// Adds the key of a unique index to the base table of this name.
pub(crate) fn add_unique_key(
    relations: &mut IndexMap<Name, Relation>,
    name: &Name,
    key: List<u32>,
) -> Result<(), AllocError>
    ensures { OnOk result (relations.new.entries ≡ changed (with_unique_key key) name.now relations.old.entries) }
{
    match relations.get_mut(name) {
        Some(relation) => add_to_table(relation, key),
        None => Ok(()),
    }
}

/// Adds the key of an index, if it is unique, to the base table of this name.
pub(crate) fn add_index_key(
    relations: &mut IndexMap<Name, Relation>,
    unique: bool,
    name: &Name,
    key: List<u32>,
) -> Result<(), AllocError>
    ensures { OnOk result (relations.new.entries ≡ with_index_key relations.old.entries unique name.now key) }
{
    if unique {
        add_unique_key(relations, name, key)
    } else {
        Ok(())
    }
}
