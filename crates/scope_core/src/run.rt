//! The columns that stars stand for, shared by all stars of a query, or of all views.
ghost use Rattle.std.specs.Prelude.{◌≡◌, IfOk, IsTrue};
ghost use Rattle.scope_core.specs.Runs.{columns_of};

use crate::NoMemory;
use crate::tree::RVal;
use indexmap::IndexMap;
use plain_data::{List, Shared};
use std::alloc::Global;
use std::cell::RefCell;
use std::marker::Model;

/// So many columns of an entry, from the first of them on.
#[derive(Clone, Copy, PartialEq, Eq, Hash)]
pub struct Run {
    pub entry: u32,
    pub first: u32,
    pub count: u32,
}

/// A run and the columns that it stands for.
#[derive(Drop)]
struct RunColumns {
    run: Run,
    columns: Shared<List<RVal>>,
}

impl Model for RunColumns {
    ghost use Rattle.std.specs.Prelude.{◌≡◌};
    ghost use Rattle.scope_core.specs.Runs.{columns_of};
    ghost use Rattle.scope_core.specs.declared.run.Run.{Run as TheRun};

    ghost Value = { TheRun };

    ghost view = { λ kept. kept.run };

    ghost invariant = { λ kept. kept.columns ≡ columns_of kept.run };
}

impl RunColumns {
    fn columns(&self) -> Result<Shared<List<RVal>>, NoMemory>
        ensures { IfOk result (λ columns. columns ≡ columns_of self.now) }
    {
        self.columns.share()
    }

    fn is_of(&self, run: Run) -> bool
        ensures { IsTrue result → self.now ≡ run }
    {
        self.run == run
    }
}

/// The columns of the runs that were asked for.
#[derive(Drop)]
pub struct Runs {
    kept: RefCell<IndexMap<Run, RunColumns>>,
}

impl Runs {
    /// None yet, which takes no memory.
    pub fn new(alloc: Global) -> Runs {
        Runs {
            kept: RefCell::new(IndexMap::new(alloc)),
        }
    }

    /// The columns of a run, which share the memory of those that it had before.
    pub fn columns(&self, alloc: Global, run: Run) -> Result<Shared<List<RVal>>, NoMemory>
        ensures { IfOk result (λ columns. columns ≡ columns_of run) }
    {
        match self.kept.try_borrow_mut() {
            Ok(mut kept) => keep_columns(&mut *kept, alloc, run),
            // No borrow outlives a call.
            Err(_) => written_columns(alloc, run),
        }
    }
}

/// The columns of a run, kept from now on.
fn keep_columns(
    kept: &mut IndexMap<Run, RunColumns>,
    alloc: Global,
    run: Run,
) -> Result<Shared<List<RVal>>, NoMemory>
    ensures { IfOk result (λ columns. columns ≡ columns_of run) }
{
    if let Some(found) = kept.get(&run) {
        if found.is_of(run) {
            return found.columns();
        }
    }
    let columns = written_columns(alloc, run)?;
    kept.insert(
        run,
        RunColumns {
            run,
            columns: columns.share()?,
        },
    )?;
    Ok(columns)
}

/// The columns of a run, in memory of their own.
fn written_columns(alloc: Global, run: Run) -> Result<Shared<List<RVal>>, NoMemory>
    ensures { IfOk result (λ columns. columns ≡ columns_of run) }
{
    let mut columns = Vec::new(alloc);
    for place in 0..run.count {
        let Some(col) = run.first.checked_add(place) else {
            return Err(NoMemory);
        };
        columns.push(RVal::Col {
            up: 0,
            entry: run.entry,
            col,
        })?;
    }
    Shared::new(alloc, List::from_vec(columns))
}
