//! Terms that differ in the order of their parts alone.
ghost use Rattle.std.specs.Prelude.{IfOk, IfSome};
ghost use Rattle.u_congruence.specs.Congruence.{IsFromTo};
ghost use Rattle.u_moves.specs.Derivations.{IsKnown};
ghost use Rattle.u_rules.specs.Terms.{S, sq};

use crate::NoMemory;
use u_congruence::{Derived, copied, inside, opened, squashed, still, summed};
use u_moves::Moves;
use u_rules::same_leaves;
use u_simple::{products_rearranged, sums_rearranged};
use u_terms::{Boxed, U, same};

/// From the one term to the other, if they differ at most, inside the squashes and sums over all values that both begin with, in the
/// order of what is added or of what is multiplied.
#[cycle(rearranged)]
pub fn rearranged<'f>(
    moves: Moves<'f>,
    left: &U,
    right: &U,
) -> Result<Option<Derived<'f>>, NoMemory>
    requires left { IsKnown 0 moves.outs left.now }
    requires right { IsKnown 0 moves.outs right.now }
    ensures { IfOk result (λ found. IfSome found (IsFromTo moves.entry.facts.now moves.entry.outs left.now right.now)) }
{
    match (left, right) {
        (U::Sum(f), U::Sum(g)) => under_sum(moves, f.get(), g.get()),
        (U::Squash(a), U::Squash(b)) => under_squash(moves, a.get(), b.get()),
        _ => at_root(moves, left, right),
    }
}

// The same between the sums of these over all values.
#[cycle(rearranged)]
fn under_sum<'f>(moves: Moves<'f>, f: &U, g: &U) -> Result<Option<Derived<'f>>, NoMemory>
    requires f { IsKnown 1 moves.outs f.now }
    requires g { IsKnown 1 moves.outs g.now }
    ensures { IfOk result (λ found. IfSome found (IsFromTo moves.entry.facts.now moves.entry.outs (S f.now) (S g.now))) }
{
    let inner = inside(moves)?;
    let left = Boxed::new(moves.alloc, opened(moves.alloc, f, moves.outs)?)?;
    let right = Boxed::new(moves.alloc, opened(moves.alloc, g, moves.outs)?)?;
    match rearranged(inner, left.get(), right.get())? {
        Some(part) => Ok(Some(summed(moves, part)?)),
        None => Ok(None),
    }
}

// The same between the squashes of these.
#[cycle(rearranged)]
fn under_squash<'f>(moves: Moves<'f>, a: &U, b: &U) -> Result<Option<Derived<'f>>, NoMemory>
    requires a { IsKnown 0 moves.outs a.now }
    requires b { IsKnown 0 moves.outs b.now }
    ensures { IfOk result (λ found. IfSome found (IsFromTo moves.entry.facts.now moves.entry.outs (sq a.now) (sq b.now))) }
{
    match rearranged(moves, a, b)? {
        Some(part) => Ok(Some(squashed(moves, part)?)),
        None => Ok(None),
    }
}

// From the one term to the other by one step at most.
fn at_root<'f>(moves: Moves<'f>, left: &U, right: &U) -> Result<Option<Derived<'f>>, NoMemory>
    requires left { IsKnown 0 moves.outs left.now }
    requires right { IsKnown 0 moves.outs right.now }
    ensures { IfOk result (λ found. IfSome found (IsFromTo moves.entry.facts.now moves.entry.outs left.now right.now)) }
{
    if same(left, right) {
        Ok(Some(still(moves, copied(moves.alloc, left)?)?))
    } else if same_leaves(moves.alloc, left, right, false)? {
        Ok(Some(sums_rearranged(moves, left, right)?))
    } else if same_leaves(moves.alloc, left, right, true)? {
        Ok(Some(products_rearranged(moves, left, right)?))
    } else {
        Ok(None)
    }
}
