//! Paths.
ghost use Rattle.std.specs.Prelude.{◌≡◌, ◌++◌, ◌∷◌, [], IfOk, OnOk, IfSome};
ghost use Rattle.u_deriv.specs.Normal.{IsCounted};
ghost use Rattle.proof_text.specs.Reading.{Gives, may_be_inside, may_be_left, may_be_right, last_of, path_at, run_at};
ghost use Rattle.proof_text.specs.Paths.{IsApart, kind_of_last};

use crate::cursor::{Cursor, Stop};
use crate::number::{number, turns};
use crate::sign::Sign;
use std::alloc::{AllocError, Global};
use u_deriv::{Path, Run};

/// What the last run of a path is: one of the same kind does not follow it.
#[derive(Clone, Copy, Debug, PartialEq, Eq)]
pub enum Last {
    /// There is none, or it goes to an argument.
    Other,
    Left,
    Right,
    Inside,
}

#[inline(always)]
fn may_be_left(last: Last) -> bool
    ensures { result ≡ may_be_left last }
{
    !matches!(last, Last::Left)
}

#[inline(always)]
fn may_be_right(last: Last) -> bool
    ensures { result ≡ may_be_right last }
{
    !matches!(last, Last::Right)
}

#[inline(always)]
fn may_be_inside(last: Last) -> bool
    ensures { result ≡ may_be_inside last }
{
    !matches!(last, Last::Inside)
}

#[inline(always)]
fn last_of(run: Run) -> Last
    ensures { result ≡ last_of run }
{
    match run {
        Run::Left(_) => Last::Left,
        Run::Right(_) => Last::Right,
        Run::Inside(_) => Last::Inside,
        Run::Argument(_) => Last::Other,
    }
}

// The next run.
#[tactic(auto, unfolding(crate::specs::Reading::run_at))]
#[inline(always)]
fn run(cursor: &mut Cursor<'_>, last: Last) -> Result<Option<Run>, Stop>
    ensures gives { Gives result cursor.new (run_at last cursor.old) }
    ensures fits { IfOk result (λ found. IfSome found (λ run. IsCounted run × IsApart last run)) }
{
    if may_be_left(last) && cursor.take(Sign::SmallL) {
        Ok(Some(Run::Left(turns(cursor)?)))
    } else if may_be_right(last) && cursor.take(Sign::SmallR) {
        Ok(Some(Run::Right(turns(cursor)?)))
    } else if may_be_inside(last) && cursor.take(Sign::SmallI) {
        Ok(Some(Run::Inside(turns(cursor)?)))
    } else if cursor.take(Sign::SmallA) {
        Ok(Some(Run::Argument(number(cursor)?)))
    } else {
        Ok(None)
    }
}

// Appends a run that is not of the last one's kind.
#[inline(always)]
fn push(path: &mut Path, last: Last, run: Run) -> Result<(), AllocError>
    requires counted { IsCounted run }
    requires last { kind_of_last path.old ≡ last }
    requires apart { IsApart last run }
    ensures runs { OnOk result (path.new ≡ path.old ++ run ∷ []) }
    ensures kind { OnOk result (kind_of_last path.new ≡ last_of run) }
{
    path.push(run)
}

/// The longest path that begins here, behind its slash.
#[inline(always)]
pub fn path(alloc: Global, cursor: &mut Cursor<'_>) -> Result<Path, Stop>
    ensures { Gives result cursor.new (path_at cursor.old) }
{
    let mut path = Path::new(alloc);
    let mut last = Last::Other;
    for _ in 0..cursor.left() {
        let Some(run) = run(cursor, last)? else {
            return Ok(path);
        };
        push(&mut path, last, run)?;
        last = last_of(run);
    }
    Ok(path)
}
