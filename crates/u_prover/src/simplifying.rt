//! Derivations by way of normal forms.
ghost use Rattle.std.specs.Prelude.{◌≡◌, ◌↔◌, IfOk, IfSome, IsTrue, MatchOption};
ghost use Rattle.u_congruence.specs.Congruence.{IsBy, IsFromTo};
ghost use Rattle.u_moves.specs.Derivations.{IsKnown, IsSound};
ghost use Rattle.u_prover.specs.Proving.{AreEnds, HasNoNormal, IsEnding, IsMadeNormal, IsNormalEnd, IsThere, IsThrough, SomeHasNoNormal};
ghost use Rattle.u_simple.specs.Passes.{IsFrom};

use crate::NoMemory;
use crate::deciding::{Outcome, kept, within_limits};
use std::alloc::{AllocError, Global};
use u_bag::{Matched, match_sums};
use u_congruence::{Derived, joined};
use u_moves::{Deriv, Moves};
use u_normal::{NormalFault, normal};
use u_simple::{in_order, without_points};
use u_terms::{Boxed, U, same};

/// From two terms to their normal forms.
#[derive(Drop)]
pub struct Ends<'f> {
    pub down: Derived<'f>,
    pub up: Derived<'f>,
}

/// From the left term to the right one by way of their normal forms, unless one is too large: where these differ, by order if no limit is
/// passed so, and else by blocks. The budget is that of each two blocks.
pub fn by_normal_forms<'f>(
    moves: Moves<'f>,
    left: &U,
    right: &U,
    budget: u64,
) -> Result<Outcome<'f>, NoMemory>
    requires left { IsKnown 0 moves.outs left.now }
    requires right { IsKnown 0 moves.outs right.now }
    ensures { IfOk result (IsEnding moves.entry.facts.now moves.entry.outs left.now right.now budget) }
{
    let Some(ends) = normal_ends(moves, left, right)? else {
        return Ok(Outcome::Unknown { spent: false });
    };
    let Ends { down, up } = ends;
    match by_order(moves, down.get().to(), up.get().to())? {
        Some(between) => match kept(through(moves.alloc, down, between.into_inner(), up)?) {
            Some(deriv) => Ok(Outcome::Found { deriv }),
            None => by_blocks(moves, left, right, budget),
        },
        None => from_normal_terms(moves, down, up, budget),
    }
}

// The same but by order: the way to the normal forms has gone into a derivation that passes a limit, so it is found anew.
fn by_blocks<'f>(
    moves: Moves<'f>,
    left: &U,
    right: &U,
    budget: u64,
) -> Result<Outcome<'f>, NoMemory>
    requires left { IsKnown 0 moves.outs left.now }
    requires right { IsKnown 0 moves.outs right.now }
    ensures { IfOk result (IsEnding moves.entry.facts.now moves.entry.outs left.now right.now budget) }
{
    let Some(ends) = normal_ends(moves, left, right)? else {
        return Ok(Outcome::Unknown { spent: false });
    };
    let Ends { down, up } = ends;
    from_normal_terms(moves, down, up, budget)
}

// From both terms to their normal forms, unless one is too large.
fn normal_ends<'f>(moves: Moves<'f>, left: &U, right: &U) -> Result<Option<Ends<'f>>, NoMemory>
    requires left { IsKnown 0 moves.outs left.now }
    requires right { IsKnown 0 moves.outs right.now }
    ensures { IfOk result (λ found. MatchOption found (SomeHasNoNormal moves.entry.facts.now moves.entry.outs left.now right.now)
        (AreEnds moves.entry.facts.now moves.entry.outs left.now right.now)) }
{
    let Some(down) = made_normal(moves, left)? else {
        return Ok(None);
    };
    let Some(up) = made_normal(moves, right)? else {
        return Ok(None);
    };
    Ok(Some(Ends { down, up }))
}

// From a term to its normal form, unless that is too large.
fn made_normal<'f>(moves: Moves<'f>, u: &U) -> Result<Option<Derived<'f>>, NoMemory>
    requires { IsKnown 0 moves.outs u.now }
    ensures { IfOk result (λ found. MatchOption found (HasNoNormal moves.entry.facts.now moves.entry.outs u.now) (IsMadeNormal moves.entry.facts.now moves.entry.outs u.now)) }
{
    match normal(moves, u) {
        Ok(d) => Ok(Some(d)),
        Err(NormalFault::TooLarge { nodes: _ }) => Ok(None),
        Err(NormalFault::NoMemory) => Err(AllocError),
    }
}

// From the first term of the one derivation to that of the other: both end in normal form, which is the same, or its blocks are paired.
fn from_normal_terms<'f>(
    moves: Moves<'f>,
    down: Derived<'f>,
    up: Derived<'f>,
    budget: u64,
) -> Result<Outcome<'f>, NoMemory>
    requires down { IsNormalEnd moves.facts.now moves.outs down }
    requires up { IsNormalEnd moves.facts.now moves.outs up }
    ensures { IfOk result (IsEnding moves.entry.facts.now moves.entry.outs down.entry.from up.entry.from budget) }
{
    if end_alike(&down, &up) {
        let whole = joined_back(moves.alloc, down, up)?;
        return Ok(within_limits(whole.into_inner()));
    }
    match match_sums(
        moves.alloc,
        moves.facts,
        moves.outs,
        down.get().to(),
        up.get().to(),
        budget,
    )? {
        Matched::Found { deriv } => Ok(within_limits(through(moves.alloc, down, deriv, up)?)),
        Matched::Nothing => Ok(Outcome::Unknown { spent: false }),
        Matched::Spent => Ok(Outcome::Unknown { spent: true }),
    }
}

// From the one term to another by way of these in order, so that which value a sum has does not depend on how its factors were written.
fn by_order<'f>(moves: Moves<'f>, left: &U, right: &U) -> Result<Option<Derived<'f>>, NoMemory>
    requires left { IsKnown 0 moves.outs left.now }
    requires right { IsKnown 0 moves.outs right.now }
    ensures { IfOk result (λ found. IfSome found (IsFromTo moves.entry.facts.now moves.entry.outs left.now right.now)) }
{
    if same(left, right) {
        return Ok(None);
    }
    let down = in_order(moves, left)?;
    let up = in_order(moves, right)?;
    if end_alike(&down, &up) {
        return Ok(Some(joined_back(moves.alloc, down, up)?));
    }
    by_values(moves, down, up)
}

// From the first term of the one derivation to that of the other by way of their last terms without sums over single values.
fn by_values<'f>(
    moves: Moves<'f>,
    down: Derived<'f>,
    up: Derived<'f>,
) -> Result<Option<Derived<'f>>, NoMemory>
    requires down { IsBy moves.facts.now moves.outs down }
    requires up { IsBy moves.facts.now moves.outs up }
    ensures { IfOk result (λ found. IfSome found (IsFromTo moves.entry.facts.now moves.entry.outs down.entry.from up.entry.from)) }
{
    let left = then_fewer_sums(moves, down)?;
    let right = then_fewer_sums(moves, up)?;
    if end_alike(&left, &right) {
        Ok(Some(joined_back(moves.alloc, left, right)?))
    } else {
        Ok(None)
    }
}

// Whether both have the same last term.
fn end_alike(down: &Derived<'_>, up: &Derived<'_>) -> bool
    ensures same { IsTrue result ↔ (down.now.to ≡ up.now.to) }
    ensures down { IsSound down.now }
    ensures up { IsSound up.now }
{
    same(down.get().to(), up.get().to())
}

// The derivation, and then its last term without sums over single values and with its parts in order.
fn then_fewer_sums<'f>(moves: Moves<'f>, d: Derived<'f>) -> Result<Derived<'f>, NoMemory>
    requires { IsBy moves.facts.now moves.outs d }
    ensures { IfOk result (IsFrom moves.entry.facts.now moves.entry.outs d.entry.from) }
{
    let fewer = then_without_points(moves, d)?;
    then_in_order(moves, fewer)
}

// The derivation, and then its last term without sums over single values.
fn then_without_points<'f>(moves: Moves<'f>, d: Derived<'f>) -> Result<Derived<'f>, NoMemory>
    requires { IsBy moves.facts.now moves.outs d }
    ensures { IfOk result (IsFrom moves.entry.facts.now moves.entry.outs d.entry.from) }
{
    let rest = without_points(moves, d.get().to())?;
    joined(moves.alloc, d, rest)
}

// The derivation, and then its last term in order.
fn then_in_order<'f>(moves: Moves<'f>, d: Derived<'f>) -> Result<Derived<'f>, NoMemory>
    requires { IsBy moves.facts.now moves.outs d }
    ensures { IfOk result (IsFrom moves.entry.facts.now moves.entry.outs d.entry.from) }
{
    let rest = in_order(moves, d.get().to())?;
    joined(moves.alloc, d, rest)
}

// The first derivation, and then the other one backward.
fn joined_back<'f>(
    alloc: Global,
    first: Derived<'f>,
    other: Derived<'f>,
) -> Result<Derived<'f>, NoMemory>
    requires joins { first.to ≡ other.to }
    requires facts { first.facts ≡ other.facts }
    requires outs { first.outs ≡ other.outs }
    ensures ends { IfOk result (IsFromTo first.entry.facts first.entry.outs first.entry.from other.entry.from) }
    ensures steps { IfOk result (IsThere first.entry other.entry) }
{
    let rest = other.into_inner().back(alloc)?;
    Boxed::new(alloc, first.into_inner().then(alloc, rest)?)
}

// The first derivation, then the one between the last terms, and then the other one backward.
fn through<'f>(
    alloc: Global,
    first: Derived<'f>,
    between: Deriv<'f>,
    other: Derived<'f>,
) -> Result<Deriv<'f>, NoMemory>
    requires between { IsFromTo first.facts first.outs first.to other.to between }
    requires facts { first.facts ≡ other.facts }
    requires outs { first.outs ≡ other.outs }
    ensures ends { IfOk result (IsFromTo first.entry.facts first.entry.outs first.entry.from other.entry.from) }
    ensures steps { IfOk result (IsThrough first.entry between.entry other.entry) }
{
    let first = first.into_inner().then(alloc, between)?;
    let rest = other.into_inner().back(alloc)?;
    first.then(alloc, rest)
}
