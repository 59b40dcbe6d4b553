//! Foreign keys.
ghost use Rattle.std.specs.Prelude.{◌≡◌, ◌≤◌, length, IfSome, OnOk, Some, None};
ghost use Rattle.schema_read.specs.Known.{IsKnown, AreKnown, Learns};
ghost use Rattle.std.specs.Option.{option_copied};
ghost use Rattle.schema_read.specs.Faults.{referenced, key_fault, reference_fault, rule_fault};
ghost use Rattle.schema_read.specs.ForeignKeys.{referenced_key, foreign_key};
ghost use Rattle.schema_read.specs.Building.{IsNarrow, AreNarrow};
ghost use Rattle.schema_read.specs.Views.{Gives};

use crate::fault::{SchemaCode, SchemaFault};
use crate::keys::primary_key;
use crate::names::{check_columns, is_called, places_in};
use crate::relations::table_named;
use crate::sets::{KeySets, is_key};
use indexmap::IndexMap;
use plain_data::List;
use sql_model::{Fkey, Name, NameAt, Relation, Table, TableRule};
use std::alloc::Global;

/// The referenced columns as they are written. `known` has the keys of the tables that were referenced with a list.
fn written_key(
    alloc: Global,
    known: &mut IndexMap<Name, KeySets>,
    to: &NameAt,
    table: &Table,
    names: &[NameAt],
    count: usize,
) -> Result<List<u32>, SchemaFault>
    requires narrow { IsNarrow table.now }
    requires known { IsKnown known.old.entries to.now.name table.now }
    ensures key { Gives (λ key. key) result (key_fault count to.now.at table.now (Some names.now)) (referenced_key table.now (Some names.now)) }
    ensures known { OnOk result (Learns known.old.entries known.new.entries to.now.name table.now) }
{
    check_columns(table.columns.as_slice(), names)?;
    if names.len() != count {
        return Err(SchemaCode::CountDiffers.at(to.at));
    }
    let key = places_in(alloc, table.columns.as_slice(), names)?;
    if !is_key(alloc, known, &to.name, table, key.as_slice())? {
        return Err(SchemaCode::NoSuchKey.at(to.at));
    }
    Ok(key)
}

/// The primary key, where no referenced columns are written.
fn primary_key_of(
    alloc: Global,
    table: &Table,
    count: usize,
    at: u32,
) -> Result<List<u32>, SchemaFault>
    ensures { Gives (λ key. key) result (key_fault count at table.now None) (referenced_key table.now None) }
{
    let Some(key) = primary_key(table) else {
        return Err(SchemaCode::NoSuchKey.at(at));
    };
    if key.len() != count {
        return Err(SchemaCode::CountDiffers.at(at));
    }
    Ok(List::from_vec(Vec::from_slice(alloc, key)?))
}

fn referenced_key(
    alloc: Global,
    known: &mut IndexMap<Name, KeySets>,
    to: &NameAt,
    table: &Table,
    target: &Option<List<NameAt>>,
    count: usize,
) -> Result<List<u32>, SchemaFault>
    requires narrow { IsNarrow table.now }
    requires known { IsKnown known.old.entries to.now.name table.now }
    ensures key { Gives (λ key. key) result (key_fault count to.now.at table.now target.now) (referenced_key table.now target.now) }
    ensures known { OnOk result (Learns known.old.entries known.new.entries to.now.name table.now) }
{
    match target {
        Some(names) => written_key(alloc, known, to, table, names.as_slice(), count),
        None => primary_key_of(alloc, table, count, to.at),
    }
}

/// The table that a foreign key of `own`, the table of this name, references.
fn referenced<'a>(
    relations: &'a IndexMap<Name, Relation>,
    name: &Name,
    own: &'a Table,
    to: &Name,
) -> Option<&'a Table>
    requires relations_narrow { AreNarrow relations.now.entries }
    requires own_narrow { IsNarrow own.now }
    ensures value { option_copied result ≡ referenced relations.now.entries name.now own.now to.now }
    ensures narrow { IfSome result (λ table. IsNarrow table.now) }
{
    if is_called(to, name) {
        Some(own)
    } else {
        table_named(relations, to)
    }
}

/// The foreign key that a rule of `own`, the table of this name, declares, if it is one. `has_primary` tells whether an earlier
/// rule is a primary key.
pub(crate) fn foreign_key(
    alloc: Global,
    known: &mut IndexMap<Name, KeySets>,
    relations: &IndexMap<Name, Relation>,
    name: &Name,
    own: &Table,
    has_primary: bool,
    rule: &TableRule,
) -> Result<Option<Fkey>, SchemaFault>
    requires relations_narrow { AreNarrow relations.now.entries }
    requires own_narrow { IsNarrow own.now }
    requires known { AreKnown relations.now.entries name.now own.now known.old.entries }
    ensures fkey { Gives (λ fkey. fkey) result (rule_fault relations.now.entries name.now own.now has_primary rule.now)
        (foreign_key relations.now.entries name.now own.now rule.now) }
    ensures known { OnOk result (AreKnown relations.now.entries name.now own.now known.new.entries) }
{
    match rule {
        TableRule::Key {
            primary,
            columns,
            at,
        } => {
            check_columns(own.columns.as_slice(), columns.as_slice())?;
            if *primary && has_primary {
                return Err(SchemaCode::PrimaryTwice.at(*at));
            }
            Ok(None)
        }
        TableRule::Foreign {
            columns,
            table: to,
            target,
        } => {
            check_columns(own.columns.as_slice(), columns.as_slice())?;
            let Some(table) = referenced(relations, name, own, &to.name) else {
                return Err(SchemaCode::UnknownTable.at(to.at));
            };
            let key = referenced_key(alloc, known, to, table, target, columns.len())?;
            let cols = places_in(alloc, own.columns.as_slice(), columns.as_slice())?;
            Ok(Some(Fkey {
                from: own.number,
                cols,
                to: table.number,
                key,
            }))
        }
    }
}
