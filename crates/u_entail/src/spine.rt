//! Products that lean to the right.
ghost use Rattle.std.specs.Prelude.{◌≡◌, ◌<◌, ◌^◌, IfOk, length, replicate};
ghost use Rattle.u_terms.specs.Places.{IsClosed};
ghost use Rattle.u_rules.specs.Terms.{terms};
ghost use Rattle.u_deriv.specs.Turns.{turns};
ghost use Rattle.u_deriv.specs.declared.run.Turn.TheVariants as turn;
ghost use Rattle.u_entail.specs.Spines as spec;
ghost use Rattle.u_entail.specs.Spines.{IsMadeBehind};

use crate::NoMemory;
use std::alloc::Global;
use u_deriv::{Path, Run};
use u_moves::Deriv;
use u_terms::{Boxed, U};

/// The factors in order, and then the last one.
#[tactic(auto, using(crate::proofs::products::Spines::built))]
pub fn spine(alloc: Global, factors: &[&U], last: U) -> Result<U, NoMemory>
    ensures { IfOk result (λ u. u ≡ spec.spine (terms factors.now) last) }
{
    let mut left: Vec<&U> = factors.iter().copied().collect(alloc)?;
    let mut whole = last;
    while let Some(factor) = left.pop() {
        whole = U::Mul(
            Boxed::new(alloc, factor.copy(alloc)?)?,
            Boxed::new(alloc, whole)?,
        );
    }
    Ok(whole)
}

/// The first derivation, and then the other one in its last term, where that one begins behind these factors.
pub fn then_behind<'f>(
    alloc: Global,
    first: Deriv<'f>,
    front: &[&U],
    part: Deriv<'f>,
) -> Result<Deriv<'f>, NoMemory>
    requires facts { first.facts ≡ part.facts }
    requires outs { first.outs ≡ part.outs }
    requires few { length front.now < 2 ^ 32 }
    requires closed { IsClosed 0 part.from }
    requires stands { first.to ≡ spec.spine (terms front.now) part.from }
    ensures { IfOk result (IsMadeBehind (terms front.now) first.entry part.entry) }
{
    let path = behind(alloc, front.len());
    first.then_under(alloc, &path, part)
}

// The path to what stands behind so many factors. One run takes no memory.
fn behind(alloc: Global, count: usize) -> Path
    requires { count < 2 ^ 32 }
    ensures { turns result ≡ replicate count turn.Right }
{
    let mut path = Path::new(alloc);
    if count > 0 {
        match path.push(Run::Right(count as u32)) {
            Ok(()) => {}
            Err(_) => unreachable!(),
        }
    }
    path
}
