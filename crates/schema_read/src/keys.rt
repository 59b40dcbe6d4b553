//! Keys as sets of columns.
ghost use Rattle.std.specs.Prelude.{◌≡◌, ◌≤◌, ◌+◌, ◌<◌, ◌^◌, OnOk, IfOk, length, map, find, option_and_then};
ghost use Rattle.data_model.specs.Lists.{Each};
ghost use Rattle.std.specs.Option.{option_copied};
ghost use Rattle.schema_read.specs.Keys.{is_part, same_set, has_key, place_of_key, stands_for};
ghost use Rattle.schema_read.specs.Indexes.{primary_columns};
ghost use Rattle.schema_read.specs.Faults.{is_primary_rule, own_table};
ghost use Rattle.schema_read.specs.Building.{IsNarrow, with_unique, with_key, with_rule, keys_after, first_primary, built_table};
ghost use Rattle.schema_read.specs.Sets.{column_set};
ghost use Rattle.schema_read.specs.StatementLimits.{most_columns};

use crate::names::{names_of, places_in};
use crate::sets::column_set;
use indexmap::IndexSet;
use plain_data::List;
use sql_model::{Name, NameAt, Table, TableRule};
use std::alloc::{AllocError, Global};

pub(crate) fn is_primary_rule(rule: &TableRule) -> bool
    ensures { result ≡ is_primary_rule rule.now }
{
    match rule {
        TableRule::Key { primary, .. } => *primary,
        TableRule::Foreign { .. } => false,
    }
}

fn is_part(columns: &[u32], others: &[u32]) -> bool
    ensures { result ≡ is_part columns.now others.now }
{
    columns.iter().all(|column| others.contains(column))
}

fn is_same_set(columns: &[u32], others: &[u32]) -> bool
    ensures { result ≡ same_set columns.now others.now }
{
    is_part(columns, others) && is_part(others, columns)
}

/// The place of the key with the same set of columns.
fn place_of_key(keys: &[List<u32>], key: &[u32]) -> Option<usize>
    ensures { result ≡ place_of_key keys.now key.now }
{
    keys.iter()
        .position(|other| is_same_set(key, other.as_slice()))
}

/// Whether these columns are a key as a set.
fn has_key(keys: &[List<u32>], columns: &[u32]) -> bool
    ensures { result ≡ has_key keys.now columns.now }
{
    keys.iter().any(|key| is_same_set(columns, key.as_slice()))
}

/// The columns of the primary key, in its order.
pub(crate) fn primary_key(table: &Table) -> Option<&[u32]>
    ensures { option_copied result ≡ primary_columns table.now }
{
    let place = table.primary?;
    match table.keys.as_slice().get(place as usize) {
        Some(key) => Some(key.as_slice()),
        None => None,
    }
}

/// Adds the key of a unique index.
pub(crate) fn add_unique(table: &mut Table, key: List<u32>) -> Result<(), AllocError>
    ensures { OnOk result (table.new ≡ with_unique table.old key) }
{
    if has_key(table.keys.as_slice(), key.as_slice()) {
        return Ok(());
    }
    table.keys.push(key)
}

/// This key, for which a primary key of the same set of columns stands.
fn standing_for(
    alloc: Global,
    primary: &Option<List<u32>>,
    key: List<u32>,
) -> Result<List<u32>, AllocError>
    ensures { IfOk result (λ stands. stands ≡ stands_for primary.now key) }
{
    match primary {
        Some(primary) => {
            if is_same_set(primary.as_slice(), key.as_slice()) {
                Ok(List::from_vec(Vec::from_slice(alloc, primary.as_slice())?))
            } else {
                Ok(key)
            }
        }
        None => Ok(key),
    }
}

/// Adds a key unless it stands there as a set. `sets` has the set of each key.
fn add_key(
    alloc: Global,
    keys: &mut List<List<u32>>,
    sets: &mut IndexSet<u64>,
    primary: &Option<List<u32>>,
    key: List<u32>,
) -> Result<(), AllocError>
    requires columns { Each (λ column. column < 64) key }
    requires sets { sets.old.keys ≡ map column_set keys.old }
    ensures added { OnOk result (keys.new ≡ with_key primary.now keys.old key) }
    ensures longer { OnOk result (length keys.new ≤ length keys.old + 1) }
    ensures sets { OnOk result (sets.new.keys ≡ map column_set keys.new) }
{
    if sets.insert(column_set(key.as_slice()))? {
        keys.push(standing_for(alloc, primary, key)?)?;
    }
    Ok(())
}

/// Adds the key of a rule, if it is one.
fn add_rule_key(
    alloc: Global,
    columns: &[Name],
    primary: &Option<List<u32>>,
    keys: &mut List<List<u32>>,
    sets: &mut IndexSet<u64>,
    rule: &TableRule,
) -> Result<(), AllocError>
    requires narrow { length columns.now ≤ most_columns }
    requires sets { sets.old.keys ≡ map column_set keys.old }
    ensures added { OnOk result (keys.new ≡ with_rule columns.now primary.now keys.old rule.now) }
    ensures longer { OnOk result (length keys.new ≤ length keys.old + 1) }
    ensures sets { OnOk result (sets.new.keys ≡ map column_set keys.new) }
{
    match rule {
        TableRule::Key { columns: names, .. } => {
            let key = places_in(alloc, columns, names.as_slice())?;
            add_key(alloc, keys, sets, primary, key)
        }
        TableRule::Foreign { .. } => Ok(()),
    }
}

/// The keys of a table's own rules, in the order of the text.
fn own_keys(
    alloc: Global,
    columns: &[Name],
    primary: &Option<List<u32>>,
    rules: &[TableRule],
) -> Result<List<List<u32>>, AllocError>
    requires { length columns.now ≤ most_columns }
    ensures keys { IfOk result (λ keys. keys ≡ keys_after columns.now primary.now rules.now) }
    ensures few { IfOk result (λ keys. length keys ≤ length rules.now) }
{
    let mut keys = List::new(alloc);
    let mut sets = IndexSet::new(alloc);
    for rule in rules {
        add_rule_key(alloc, columns, primary, &mut keys, &mut sets, rule)?;
    }
    Ok(keys)
}

fn first_primary_rule(rules: &[TableRule]) -> Option<&TableRule>
    ensures { option_copied result ≡ find is_primary_rule rules.now }
{
    rules.iter().find(|rule| is_primary_rule(*rule))
}

/// The columns of the first primary key.
fn first_primary(
    alloc: Global,
    columns: &[Name],
    rules: &[TableRule],
) -> Result<Option<List<u32>>, AllocError>
    requires { length columns.now < 2 ^ 32 }
    ensures { IfOk result (λ key. key ≡ first_primary columns.now rules.now) }
{
    match first_primary_rule(rules) {
        Some(TableRule::Key { columns: names, .. }) => {
            Ok(Some(places_in(alloc, columns, names.as_slice())?))
        }
        _ => Ok(None),
    }
}

fn primary_place(keys: &[List<u32>], primary: &Option<List<u32>>) -> Option<u32>
    requires { length keys.now < 2 ^ 32 }
    ensures { result ≡ option_and_then (place_of_key keys.now) primary.now }
{
    match primary {
        Some(key) => match place_of_key(keys, key.as_slice()) {
            Some(place) => Some(place as u32),
            None => None,
        },
        None => None,
    }
}

fn table_with_keys(
    alloc: Global,
    number: u32,
    columns: List<Name>,
    rules: &[TableRule],
) -> Result<Table, AllocError>
    requires narrow { length columns ≤ most_columns }
    requires few { length rules.now < 2 ^ 31 }
    ensures { IfOk result (λ table. table ≡ built_table number columns rules.now) }
{
    let primary = first_primary(alloc, columns.as_slice(), rules)?;
    let keys = own_keys(alloc, columns.as_slice(), &primary, rules)?;
    let place = primary_place(keys.as_slice(), &primary);
    Ok(Table {
        number,
        columns,
        keys,
        primary: place,
    })
}

/// A table with the keys that its own rules declare, faulty ones too.
pub(crate) fn own_table(
    alloc: Global,
    number: u32,
    columns: &[NameAt],
    rules: &[TableRule],
) -> Result<Table, AllocError>
    requires narrow { length columns.now ≤ most_columns }
    requires few { length rules.now < 2 ^ 31 }
    ensures table { IfOk result (λ table. table ≡ own_table number columns.now rules.now) }
    ensures narrow { IfOk result (λ table. IsNarrow table) }
{
    let names = names_of(alloc, columns)?;
    let table = table_with_keys(alloc, number, names, rules)?;
    Ok(table)
}
