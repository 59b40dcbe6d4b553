//! Names, which are numbers: those of the columns of a row are one after another. Numbers are too few for a name only where memory is too
//! small for the term, so that is answered as want of memory.
ghost use Rattle.std.specs.Prelude.{◌≡◌, ◌+◌, IfOk, get_or};
ghost use Rattle.sql_to_u.specs.Factors.{names_from};
ghost use Rattle.sql_to_u.specs.Listed.{columns_listed};
ghost use Rattle.sql_to_u.specs.TermLists.{firsts_listed};

use scope_core::{NoMemory, REntry};
use std::alloc::Global;
use u_terms::Val;

/// A name so many after another.
pub fn name_after(name: u32, count: u32) -> Result<u32, NoMemory>
    ensures { IfOk result (λ after. after ≡ name + count) }
{
    name.checked_add(count).ok_or(NoMemory)
}

/// Names in a row.
#[tactic(auto, using(crate::proofs::terms::FactorLaws::rows))]
pub fn names(alloc: Global, first: u32, count: u32) -> Result<Vec<Val>, NoMemory>
    ensures { IfOk result (λ row. row.items ≡ names_from first count) }
{
    let mut row = Vec::new(alloc);
    for i in 0..count {
        row.push(Val::Free(name_after(first, i)?))?;
    }
    Ok(row)
}

/// How many columns the entries have.
#[tactic(auto, using(crate::proofs::sizes::SizeLaws::entries))]
pub fn count_columns(entries: &[REntry]) -> Result<u32, NoMemory>
    ensures { IfOk result (λ n. n ≡ columns_listed entries.now) }
{
    let mut count: u32 = 0;
    for entry in entries {
        count = name_after(count, entry.width)?;
    }
    Ok(count)
}

/// The name of each entry's first column.
#[tactic(auto, using(crate::proofs::terms::FactorLaws::firsts))]
pub fn firsts(alloc: Global, entries: &[REntry], first: u32) -> Result<Vec<u32>, NoMemory>
    ensures { IfOk result (λ names. names.items ≡ firsts_listed entries.now first) }
{
    let mut names = Vec::new(alloc);
    let mut name = first;
    for entry in entries {
        names.push(name)?;
        name = name_after(name, entry.width)?;
    }
    Ok(names)
}

/// The name of an entry's first column.
pub fn first_of(firsts: &[u32], entry: u32) -> u32
    ensures { result ≡ get_or firsts.now entry 0 }
{
    match firsts.get(entry as usize) {
        Some(first) => *first,
        None => 0,
    }
}
