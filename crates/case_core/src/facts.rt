//! The facts of a schema.
ghost use Rattle.std.specs.Prelude.{◌≡◌, length, IfOk, map};
ghost use Rattle.schema_read.specs.SchemaFacts.{AreFactsOf, by_numbers};

use plain_data::List;
use sql_model::{Relation, Schema, Table};
use std::alloc::{AllocError as NoMemory, Global};
use u_terms::{Facts, Fkey};

/// The widths and keys of the schema's base tables, and its foreign keys.
pub fn facts_of(alloc: Global, schema: &Schema) -> Result<Facts, NoMemory>
    ensures { IfOk result (AreFactsOf schema.now) }
{
    let mut widths = List::new(alloc);
    let mut keys = List::new(alloc);
    for (_, relation) in schema.relations.iter() {
        if let Relation::Table { table } = relation {
            widths.push(width(table)?)?;
            keys.push(copied_keys(alloc, table.keys.as_slice())?)?;
        }
    }
    let fkeys = copied_fkeys(alloc, schema.fkeys.as_slice())?;
    Ok(Facts {
        widths,
        keys,
        fkeys,
    })
}

/// How many columns the table has. What 32 bits don't hold is no list in memory.
fn width(table: &Table) -> Result<u32, NoMemory>
    ensures { IfOk result (λ n. n ≡ length table.now.columns) }
{
    match u32::try_from(table.columns.len()) {
        Ok(width) => Ok(width),
        Err(_) => Err(NoMemory),
    }
}

fn copied(alloc: Global, numbers: &[u32]) -> Result<List<u32>, NoMemory>
    ensures { IfOk result (λ list. list ≡ numbers.now) }
{
    let mut list = List::new(alloc);
    for number in numbers {
        list.push(*number)?;
    }
    Ok(list)
}

fn copied_keys(alloc: Global, keys: &[List<u32>]) -> Result<List<List<u32>>, NoMemory>
    ensures { IfOk result (λ list. list ≡ keys.now) }
{
    let mut list = List::new(alloc);
    for key in keys {
        list.push(copied(alloc, key.as_slice())?)?;
    }
    Ok(list)
}

fn copied_fkeys(alloc: Global, fkeys: &[sql_model::Fkey]) -> Result<List<Fkey>, NoMemory>
    ensures { IfOk result (λ list. list ≡ map by_numbers fkeys.now) }
{
    let mut list = List::new(alloc);
    for fkey in fkeys {
        list.push(copied_fkey(alloc, fkey)?)?;
    }
    Ok(list)
}

fn copied_fkey(alloc: Global, fkey: &sql_model::Fkey) -> Result<Fkey, NoMemory>
    ensures { IfOk result (λ copy. copy ≡ by_numbers fkey.now) }
{
    Ok(Fkey {
        from: fkey.from,
        cols: copied(alloc, fkey.cols.as_slice())?,
        to: fkey.to,
        key: copied(alloc, fkey.key.as_slice())?,
    })
}
