//! Whole terms, and what stands inside binders.
ghost use Rattle.std.specs.Prelude.{◌≡◌, ◌+◌, ◌^◌, ◌<◌, ◌∷◌, [], IfOk};
ghost use Rattle.u_terms.specs.Binding as binding;
ghost use Rattle.u_deriv.specs.Normal.{IsCounted};
ghost use Rattle.u_moves.specs.Derivations.{IsKnown, IsStill};
ghost use Rattle.u_moves.specs.Lifting.{IsMadeIn, IsPart};
ghost use Rattle.u_congruence.specs.Congruence.{IsFromTo, IsSequence};

use crate::NoMemory;
use std::alloc::{AllocError, Global};
use u_binder::{close_at, open_with};
use u_deriv::{Path, Run};
use u_moves::{Deriv, Moves};
use u_terms::{Boxed, U, Val, depth};

/// Names and depth together are below this.
const ROOM: u64 = 0x1_0000_0000;

/// A derivation in a box.
pub type Derived<'f> = Boxed<Deriv<'f>>;

/// No step. There is no memory for terms without room for names.
pub fn still<'f>(moves: Moves<'f>, u: Boxed<U>) -> Result<Derived<'f>, NoMemory>
    requires { IsKnown 0 moves.outs u }
    ensures ends { IfOk result (IsFromTo moves.entry.facts.now moves.entry.outs u u) }
    ensures costs { IfOk result (IsStill moves.entry.facts.now moves.entry.outs u) }
{
    unmoved(moves, u.get())
}

/// The same of a term that is lent, with the bounds that the derivation states.
pub fn unmoved<'f>(moves: Moves<'f>, u: &U) -> Result<Derived<'f>, NoMemory>
    requires { IsKnown 0 moves.outs u.now }
    ensures { IfOk result (IsStill moves.entry.facts.now moves.entry.outs u.now) }
{
    if u64::from(moves.outs).saturating_add(depth(u)) >= ROOM {
        return Err(AllocError);
    }
    Boxed::new(
        moves.alloc,
        Deriv::refl(moves.alloc, moves.facts, moves.outs, u)?,
    )
}

/// A copy in a box.
pub fn copied(alloc: Global, u: &U) -> Result<Boxed<U>, NoMemory>
    ensures { IfOk result (λ copy. copy ≡ u.now) }
{
    Boxed::new(alloc, u.copy(alloc)?)
}

/// The same inside one binder more. There is no memory for 2^32 names.
pub fn inside<'f>(moves: Moves<'f>) -> Result<Moves<'f>, NoMemory>
    ensures facts { IfOk result (λ inner. inner.facts.now ≡ moves.entry.facts.now) }
    ensures outs { IfOk result (λ inner. inner.outs ≡ moves.entry.outs + 1) }
{
    match moves.outs.checked_add(1) {
        Some(outs) => Ok(Moves {
            alloc: moves.alloc,
            facts: moves.facts,
            outs,
        }),
        None => Err(AllocError),
    }
}

/// The body of a binder, with a name for its place. There is no memory for terms of depth 2^32.
pub fn opened(alloc: Global, body: &U, name: u32) -> Result<U, NoMemory>
    ensures { IfOk result (λ u. u ≡ binding.opened body.now name) }
{
    if depth(body) >= ROOM {
        return Err(AllocError);
    }
    open_with(alloc, body, &Val::Free(name))
}

/// A copy, with a place for the name. There is no memory for terms of depth 2^32.
pub fn closed(alloc: Global, u: &U, name: u32) -> Result<Boxed<U>, NoMemory>
    ensures { IfOk result (λ body. body ≡ binding.closed_at u.now name) }
{
    if depth(u) >= ROOM {
        return Err(AllocError);
    }
    let mut body = u.copy(alloc)?;
    close_at(&mut body, name);
    Boxed::new(alloc, body)
}

/// The derivation, and then the other one, made in its last term one turn down.
pub fn made_in_turn<'f>(
    alloc: Global,
    whole: Derived<'f>,
    turn: Run,
    part: Derived<'f>,
) -> Result<Derived<'f>, NoMemory>
    requires counted { IsCounted turn }
    requires facts { whole.facts ≡ part.facts }
    requires part { IsPart whole.outs (turn ∷ []) whole.to part.outs part.from }
    ensures { IfOk result (IsMadeIn (turn ∷ []) whole.entry part.entry) }
{
    let mut path = Path::new(alloc);
    path.push(turn)?;
    let whole = whole.into_inner();
    Boxed::new(alloc, whole.then_under(alloc, &path, part.into_inner())?)
}

/// The first derivation, and then the other one.
pub fn joined<'f>(
    alloc: Global,
    first: Derived<'f>,
    rest: Derived<'f>,
) -> Result<Derived<'f>, NoMemory>
    requires joins { first.to ≡ rest.from }
    requires facts { first.facts ≡ rest.facts }
    requires outs { first.outs ≡ rest.outs }
    ensures ends { IfOk result (IsFromTo first.entry.facts first.entry.outs first.entry.from rest.entry.to) }
    ensures costs { IfOk result (IsSequence first.entry rest.entry) }
{
    let first = first.into_inner();
    Boxed::new(alloc, first.then(alloc, rest.into_inner())?)
}
