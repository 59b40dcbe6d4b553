//! Lists of names of columns.
ghost use Rattle.std.specs.Prelude.{◌≡◌, ◌≤◌, ◌<◌, ◌^◌, IsTrue, IfOk, length};
ghost use Rattle.sql_model.specs.Columns.{same_name};
ghost use Rattle.schema_read.specs.Keys.{is_named, position_of, place_in, places_in};
ghost use Rattle.schema_read.specs.Tables.{names_of};
ghost use Rattle.schema_read.specs.Faults.{repeated_fault, repetition_fault, column_fault, columns_fault};
ghost use Rattle.schema_read.specs.Views.{Passes};

use crate::fault::{SchemaCode, SchemaFault};
use plain_data::List;
use sql_model::{Name, NameAt};
use std::alloc::{AllocError, Global};

pub(crate) fn is_called(column: &Name, name: &Name) -> bool
    ensures { result ≡ same_name column.now name.now }
{
    *column == *name
}

/// Whether one of the names is this one.
pub(crate) fn is_named(name: &Name, names: &[NameAt]) -> bool
    ensures { result ≡ is_named name.now names.now }
{
    names.iter().any(|other| is_called(&other.name, name))
}

/// Refuses a name that one of the earlier ones repeats.
pub(crate) fn check_repeated(earlier: &[NameAt], name: &NameAt) -> Result<(), SchemaFault>
    ensures { Passes result (repeated_fault earlier.now name.now) }
{
    if is_named(&name.name, earlier) {
        return Err(SchemaCode::ColumnTwice.at(name.at));
    }
    Ok(())
}

/// Refuses a name that is no column, or that one of the earlier ones repeats.
fn check_column(columns: &[Name], earlier: &[NameAt], name: &NameAt) -> Result<(), SchemaFault>
    ensures { Passes result (column_fault columns.now earlier.now name.now) }
{
    if !columns.contains(&name.name) {
        return Err(SchemaCode::UnknownColumn.at(name.at));
    }
    check_repeated(earlier, name)
}

/// Names of columns of one table, none of them twice.
pub(crate) fn check_columns(columns: &[Name], names: &[NameAt]) -> Result<(), SchemaFault>
    ensures { Passes result (columns_fault columns.now names.now) }
{
    for (i, name) in names.iter().enumerate() {
        check_column(columns, &names[..i], name)?;
    }
    Ok(())
}

/// None of the names twice.
pub(crate) fn check_all_differ(names: &[NameAt]) -> Result<(), SchemaFault>
    ensures { Passes result (repetition_fault names.now) }
{
    for (i, name) in names.iter().enumerate() {
        check_repeated(&names[..i], name)?;
    }
    Ok(())
}

fn position_of(columns: &[Name], name: &Name) -> Option<usize>
    ensures { result ≡ position_of columns.now name.now }
{
    columns.iter().position(|column| is_called(column, name))
}

/// The place of the first column of this name, and the width where there is none.
fn place_in(columns: &[Name], name: &Name) -> u32
    requires { length columns.now < 2 ^ 32 }
    ensures { result ≡ place_in columns.now name.now }
{
    match position_of(columns, name) {
        Some(place) => place as u32,
        None => columns.len() as u32,
    }
}

/// The places of the columns of these names.
pub(crate) fn places_in(
    alloc: Global,
    columns: &[Name],
    names: &[NameAt],
) -> Result<List<u32>, AllocError>
    requires { length columns.now < 2 ^ 32 }
    ensures { IfOk result (λ places. places ≡ places_in columns.now names.now) }
{
    let places = names
        .iter()
        .map(|name| place_in(columns, &name.name))
        .collect::<Vec<u32>>(alloc)?;
    Ok(List::from_vec(places))
}

/// The names without their places.
pub(crate) fn names_of(alloc: Global, names: &[NameAt]) -> Result<List<Name>, AllocError>
    ensures { IfOk result (λ copies. copies ≡ names_of names.now) }
{
    let mut copies = Vec::with_capacity(alloc, names.len())?;
    for name in names {
        copies.push(name.name.copy()?)?;
    }
    Ok(List::from_vec(copies))
}
