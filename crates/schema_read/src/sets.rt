//! Sets of columns as numbers, so that one look-up tells whether a key stands already.
ghost use Rattle.std.specs.Prelude.{◌≡◌, ◌<◌, IfOk, OnOk, None, nat_eq};
ghost use Rattle.std.specs.Map.{lookup};
ghost use Rattle.sql_model.specs.Columns.{same_name};
ghost use Rattle.std.specs.List.{list_any};
ghost use Rattle.data_model.specs.Lists.{Each};
ghost use Rattle.schema_read.specs.Sets.{with_column, column_set};
ghost use Rattle.schema_read.specs.Known.{AreSetsOf, IsKnown, Learns};
ghost use Rattle.schema_read.specs.Keys.{has_key};
ghost use Rattle.schema_read.specs.Building.{IsNarrow};

use indexmap::{IndexMap, IndexSet};
use plain_data::List;
use sql_model::{Name, Table};
use std::alloc::{AllocError, Global};

/// The keys of a table as sets.
#[derive(Drop)]
pub(crate) struct KeySets {
    pub(crate) sets: IndexSet<u64>,
}

/// With this column too.
fn with_column(set: u64, column: u32) -> u64
    requires { column < 64 }
    ensures { result ≡ with_column set column }
{
    set | 1 << column
}

/// One bit for each column.
pub(crate) fn column_set(columns: &[u32]) -> u64
    requires { Each (λ column. column < 64) columns.now }
    ensures { result ≡ column_set columns.now }
{
    let mut set = 0;
    for column in columns {
        set = with_column(set, *column);
    }
    set
}

fn has_set(keys: &KeySets, columns: &[u32]) -> bool
    requires { Each (λ column. column < 64) columns.now }
    ensures { result ≡ list_any (nat_eq (column_set columns.now)) keys.now.sets.keys }
{
    keys.sets.contains(&column_set(columns))
}

fn sets_of(alloc: Global, keys: &[List<u32>]) -> Result<KeySets, AllocError>
    requires { Each (Each (λ column. column < 64)) keys.now }
    ensures { IfOk result (λ known. AreSetsOf keys.now known.sets.keys) }
{
    let mut sets = IndexSet::new(alloc);
    for key in keys {
        sets.insert(column_set(key.as_slice()))?;
    }
    Ok(KeySets { sets })
}

/// Whether these columns are a key of the table of this name, whose keys were not asked for.
fn learn(
    alloc: Global,
    known: &mut IndexMap<Name, KeySets>,
    to: &Name,
    table: &Table,
    columns: &[u32],
) -> Result<bool, AllocError>
    requires new { lookup (same_name to.now) known.old.entries ≡ None }
    requires narrow { IsNarrow table.now }
    requires columns { Each (λ column. column < 64) columns.now }
    ensures value { IfOk result (λ found. found ≡ has_key table.now.keys columns.now) }
    ensures known { OnOk result (Learns known.old.entries known.new.entries to.now table.now) }
{
    let keys = sets_of(alloc, table.keys.as_slice())?;
    let found = has_set(&keys, columns);
    known.insert(to.copy()?, keys)?;
    Ok(found)
}

/// Whether these columns are a key of the table of this name as a set. `known` has the keys of the tables that were asked for.
pub(crate) fn is_key(
    alloc: Global,
    known: &mut IndexMap<Name, KeySets>,
    to: &Name,
    table: &Table,
    columns: &[u32],
) -> Result<bool, AllocError>
    requires narrow { IsNarrow table.now }
    requires columns { Each (λ column. column < 64) columns.now }
    requires known { IsKnown known.old.entries to.now table.now }
    ensures value { IfOk result (λ found. found ≡ has_key table.now.keys columns.now) }
    ensures known { OnOk result (Learns known.old.entries known.new.entries to.now table.now) }
{
    match known.get(to) {
        Some(keys) => Ok(has_set(keys, columns)),
        None => learn(alloc, known, to, table, columns),
    }
}
