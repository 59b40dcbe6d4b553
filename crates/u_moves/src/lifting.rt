//! Steps at the end of a path.
ghost use Rattle.std.specs.Prelude.{◌≡◌, IfOk, OnOk, IsTrue};
ghost use Rattle.u_deriv.specs.Normal.{FitsAfter, IsCounted, pushed};
ghost use Rattle.u_moves.specs.Lifting.{after, lifted, lifted_step};

use crate::NoMemory;
use crate::runs::run_count;
use std::alloc::{AllocError, Global};
use u_deriv::{Path, Run, Step};

/// Puts the path before that of each step.
pub fn lift(alloc: Global, path: &Path, steps: &mut [Step]) -> Result<(), NoMemory>
    ensures { IfOk result (λ _. steps.new ≡ lifted path.now steps.old) }
{
    for step in steps.iter_mut() {
        lift_step(alloc, path, step)?;
    }
    Ok(())
}

fn lift_step(alloc: Global, path: &Path, step: &mut Step) -> Result<(), NoMemory>
    ensures { IfOk result (λ _. step.new ≡ lifted_step path.now step.old) }
{
    step.path = joined(alloc, path, &step.path)?;
    Ok(())
}

/// The one path and then the other. There is no memory for a run of 2^32 turns.
fn joined(alloc: Global, first: &Path, second: &Path) -> Result<Path, NoMemory>
    ensures { IfOk result (λ path. path ≡ after first.now second.now) }
{
    let mut path = copied(alloc, first)?;
    for run in second.runs() {
        push(&mut path, *run)?;
    }
    Ok(path)
}

fn copied(alloc: Global, path: &Path) -> Result<Path, NoMemory>
    ensures { IfOk result (λ copy. copy ≡ path.now) }
{
    let mut copy = Path::new(alloc);
    for run in path.runs() {
        push(&mut copy, *run)?;
    }
    Ok(copy)
}

fn push(path: &mut Path, run: Run) -> Result<(), NoMemory>
    requires { IsCounted run }
    ensures { OnOk result (path.new ≡ pushed path.old run) }
{
    if !fits(path.runs(), run) {
        return Err(AllocError);
    }
    path.push(run)
}

// Whether the run, joined to the last one, has fewer than 2^32 turns.
fn fits(runs: &[Run], run: Run) -> bool
    ensures { IsTrue result → FitsAfter runs.now run }
{
    match runs.last() {
        None => true,
        Some(last) => run_count(*last).checked_add(run_count(run)).is_some(),
    }
}
