//! How many turns runs and paths have.
ghost use Rattle.std.specs.Prelude.{◌≡◌, length, min};
ghost use Rattle.u_deriv.specs.Turns.{count_of, turns};

use u_deriv::{Path, Run};

/// How many turns a run has.
pub fn run_count(run: Run) -> u32
    ensures { result ≡ count_of run }
{
    match run {
        Run::Left(count) | Run::Right(count) | Run::Inside(count) => count,
        Run::Argument(_) => 1,
    }
}

/// How many turns a path has, or `u64::MAX` where there are more.
pub fn turn_count(path: &Path) -> u64
    ensures { result ≡ min (length (turns path.now)) u64.MAX }
{
    let mut sum: u64 = 0;
    for run in path.runs() {
        sum = sum.saturating_add(u64::from(run_count(*run)));
    }
    sum
}
