//! The view of an index.
ghost use Rattle.std.specs.Prelude.{◌≡◌, ◌++◌, [], ◌∷◌, map, IfOk, OnOk};
ghost use Rattle.schema_read.specs.Indexes.{bare_column, column_item, shown_columns, index_query};
ghost use Rattle.schema_read.specs.Building.{items_with_key, items_with};

use crate::keys::primary_key;
use crate::names::is_named;
use plain_data::{Boxed, List};
use sql_model::{Block, Entry, Expr, Item, Name, NameAt, Query, Source, Table};
use std::alloc::{AllocError, Global};

/// An item that is a bare column.
fn column_item(name: &Name, at: u32) -> Result<Item, AllocError>
    ensures { IfOk result (λ item. item ≡ bare_column name.now at) }
{
    let expr = Expr::Col {
        qual: None,
        qual_at: 0,
        name: name.copy()?,
        at,
    };
    Ok(Item::Value { expr, name: None })
}

fn column_items(alloc: Global, columns: &[NameAt]) -> Result<List<Item>, AllocError>
    ensures { IfOk result (λ items. items ≡ map column_item columns.now) }
{
    let mut items = List::new(alloc);
    for column in columns {
        items.push(column_item(&column.name, column.at)?)?;
    }
    Ok(items)
}

/// Adds a column of the primary key that is not shown yet.
fn add_key_item(
    items: &mut List<Item>,
    shown: &[NameAt],
    at: u32,
    table: &Table,
    place: u32,
) -> Result<(), AllocError>
    ensures { OnOk result (items.new ≡ items_with shown.now at table.now items.old place) }
{
    match table.columns.as_slice().get(place as usize) {
        Some(name) => {
            if !is_named(name, shown) {
                items.push(column_item(name, at)?)?;
            }
            Ok(())
        }
        None => Ok(()),
    }
}

/// Adds the columns of the primary key that are not shown yet.
fn add_key_items(
    items: &mut List<Item>,
    shown: &[NameAt],
    at: u32,
    table: &Table,
    key: &[u32],
) -> Result<(), AllocError>
    ensures { OnOk result (items.new ≡ items_with_key shown.now at table.now items.old key.now) }
{
    for place in key {
        add_key_item(items, shown, at, table, *place)?;
    }
    Ok(())
}

/// The items of an index: its columns, and then those of the primary key that are not shown yet.
fn shown_items(
    alloc: Global,
    at: u32,
    columns: &[NameAt],
    table: &Table,
) -> Result<List<Item>, AllocError>
    ensures { IfOk result (λ items. items ≡ map column_item (shown_columns columns.now at table.now)) }
{
    let mut items = column_items(alloc, columns)?;
    match primary_key(table) {
        Some(key) => {
            add_key_items(&mut items, columns, at, table, key)?;
            Ok(items)
        }
        None => Ok(items),
    }
}

/// The query of an index on the table of this name.
pub(crate) fn index_query(
    alloc: Global,
    on: &NameAt,
    columns: &[NameAt],
    table: &Table,
) -> Result<Query, AllocError>
    ensures { IfOk result (λ query. query ≡ index_query on.now columns.now table.now) }
{
    let items = shown_items(alloc, on.at, columns, table)?;
    let entry = Entry {
        source: Source::Named {
            name: on.name.copy()?,
            at: on.at,
        },
        alias: on.name.copy()?,
        at: on.at,
        joined: false,
        on: None,
    };
    let mut entries = List::new(alloc);
    entries.push(entry)?;
    let block = Block {
        distinct: false,
        items,
        entries,
        cond: None,
        groups: None,
        having: None,
    };
    Ok(Query::Block {
        block: Boxed::new(alloc, block)?,
    })
}
