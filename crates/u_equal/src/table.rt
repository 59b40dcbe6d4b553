//! The values that stand in a product, each once.
ghost use Rattle.std.specs.Prelude.{IfOk};
ghost use Rattle.u_equal.specs.Gathering.{values_at};
ghost use Rattle.u_equal.specs.Tables.{AreValuesOf};

use crate::NoMemory;
use crate::key::Key;
use indexmap::IndexSet;
use std::alloc::Global;
use u_terms::Val;

/// The table of these values: a value that stands several times has its first place.
pub fn table_of<'a>(alloc: Global, standing: &[&'a Val]) -> Result<IndexSet<Key<'a>>, NoMemory>
    ensures { IfOk result (λ table. AreValuesOf (values_at standing.now) table.keys) }
{
    let mut table = IndexSet::new(alloc);
    for value in standing {
        table.insert(Key { value })?;
    }
    Ok(table)
}
