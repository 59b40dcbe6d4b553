//! Tables, keys and foreign keys, which the rows of a file say before the calls that are made by them.

use crate::fault::CallFault;
use crate::read::number;
use std::alloc::Global;
use u_terms::{Facts, Fkey, List};

/// No table.
pub fn no_facts(alloc: Global) -> Facts {
    Facts {
        widths: List::new(alloc),
        keys: List::new(alloc),
        fkeys: List::new(alloc),
    }
}

// Columns with commas between them.
fn columns(alloc: Global, text: &str) -> Result<List<u32>, CallFault> {
    let mut columns = List::new(alloc);
    for column in text.split(',') {
        columns.push(number(column)?)?;
    }
    Ok(columns)
}

// The next table has so many columns, and these keys.
fn add_table(
    alloc: Global,
    facts: &mut Facts,
    width: &str,
    keys: &[&str],
) -> Result<(), CallFault> {
    let mut all = List::new(alloc);
    for key in keys {
        all.push(columns(alloc, key)?)?;
    }
    facts.widths.push(number(width)?)?;
    facts.keys.push(all)?;
    Ok(())
}

// Columns of the one table refer to those of the other.
fn foreign_key(
    alloc: Global,
    from: &str,
    cols: &str,
    to: &str,
    key: &str,
) -> Result<Fkey, CallFault> {
    let cols = columns(alloc, cols)?;
    let key = columns(alloc, key)?;
    Ok(Fkey {
        from: number(from)?,
        cols,
        to: number(to)?,
        key,
    })
}

/// Adds what the line says.
pub fn add_line(alloc: Global, facts: &mut Facts, line: &str) -> Result<(), CallFault> {
    let words: Vec<&str> = line.split(' ').collect(alloc)?;
    match words.as_slice() {
        ["table", width, keys @ ..] => add_table(alloc, facts, width, keys),
        ["foreign", from, cols, to, key] => {
            facts.fkeys.push(foreign_key(alloc, from, cols, to, key)?)?;
            Ok(())
        }
        _ => Err(CallFault::NoSuchCall),
    }
}
