//! Derivations of what stands in the values of a term.
ghost use Rattle.std.specs.Prelude.{◌≡◌, ◌+◌, ◌∷◌, ◌++◌, [], IfOk};
ghost use Rattle.u_terms.specs.Binding.{closed_at};
ghost use Rattle.u_terms.specs.Places.{IsClosed};
ghost use Rattle.u_deriv.specs.Turns.{turns};
ghost use Rattle.u_deriv.specs.declared.run.Turn.TheVariants as turn;
ghost use Rattle.u_normal.specs.Values.{HasOtherBody, LeadsOn, StandsWithBody, arguments};

use crate::NoMemory;
use std::alloc::{AllocError, Global};
use u_congruence::Derived;
use u_deriv::{Path, Run};
use u_terms::Boxed;

/// The derivation, and then the other one, made in the body of the aggregate that stands in its last term at the end of the path.
pub fn then_in_aggregate<'f>(
    alloc: Global,
    whole: Derived<'f>,
    path: &[u32],
    part: Derived<'f>,
) -> Result<Derived<'f>, NoMemory>
    requires facts { whole.facts ≡ part.facts }
    requires outs { part.outs ≡ whole.outs + 1 }
    requires closed { IsClosed 0 part.from }
    requires stands { StandsWithBody path.now (closed_at part.from whole.outs) whole.to }
    ensures { IfOk result (LeadsOn (HasOtherBody path.now whole.entry.outs part.entry.from part.entry.to) whole.entry) }
{
    let path = path_into(alloc, path)?;
    let whole = whole.into_inner();
    Boxed::new(alloc, whole.then_under(alloc, &path, part.into_inner())?)
}

/// The path with one argument more. There is no memory for 2^32 arguments.
pub fn extended(alloc: Global, path: &[u32], index: usize) -> Result<Vec<u32>, NoMemory>
    ensures { IfOk result (λ longer. longer.items ≡ path.now ++ index ∷ []) }
{
    let Ok(index) = u32::try_from(index) else {
        return Err(AllocError);
    };
    let mut longer = Vec::new(alloc);
    longer.extend_from_slice(path)?;
    longer.push(index)?;
    Ok(longer)
}

// The path from argument to argument and into the body of an aggregate.
fn path_into(alloc: Global, indices: &[u32]) -> Result<Path, NoMemory>
    ensures { IfOk result (λ path. turns path ≡ arguments indices.now ++ turn.Inside ∷ []) }
{
    let mut path = Path::new(alloc);
    for index in indices {
        path.push(Run::Argument(*index))?;
    }
    path.push(Run::Inside(1))?;
    Ok(path)
}
