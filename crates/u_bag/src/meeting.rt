//! Two blocks that meet: their sums come into one order, and each gains what the other one says.
ghost use Rattle.std.specs.Prelude.{◌≡◌, ◌<◌, ◌≤◌, ◌+◌, ◌∷◌, IfOk, IfSome, length};
ghost use Rattle.u_rules.specs.Terms.{S};
ghost use Rattle.u_moves.specs.Derivations.{IsKnown};
ghost use Rattle.u_congruence.specs.Congruence.{IsBy};
ghost use Rattle.u_bag.specs.Costs.{KeepsMeetingCosts, KeepsMeetingCostsAfter, OutwardCosts};
ghost use Rattle.u_bag.specs.Meeting.{IsInsideSums, IsMeeting, IsMeetingAfter, IsMeetingInside, IsOutward};

use crate::NoMemory;
use crate::gaining::products_meet;
use u_congruence::{Derived, inside, joined, opened, summed};
use u_moves::Moves;
use u_terms::{Boxed, U};

/// The most sums that a step exchanges, and the most turns.
pub const MOST_SUMS: u32 = 2_048;

/// From the one term to the other, if their products meet once the sums of the left one have come into another order: for each sum, the
/// outermost first, so many of those that have no place yet stand before the one that goes there.
#[cycle(meeting)]
pub fn meeting<'f>(
    moves: Moves<'f>,
    left: &U,
    right: &U,
    turns: &[u32],
) -> Result<Option<Derived<'f>>, NoMemory>
    requires left { IsKnown 0 moves.outs left.now }
    requires right { IsKnown 0 moves.outs right.now }
    requires few { length turns.now ≤ 2048 }
    ensures leads { IfOk result (IsMeeting moves.entry.facts.now moves.entry.outs turns.now left.now right.now) }
    ensures costs { IfOk result (λ found. IfSome found (KeepsMeetingCosts (length turns.now) (length turns.now) left.now right.now)) }
{
    match turns {
        [] => products_meet(moves, left, right),
        [turn, rest @ ..] => match (left, right) {
            (U::Sum(f), U::Sum(g)) => turned(moves, *turn, f.get(), g.get(), rest),
            _ => Ok(None),
        },
    }
}

// The same of sums of these over all values, the first of which is behind so many others.
#[cycle(meeting)]
fn turned<'f>(
    moves: Moves<'f>,
    turn: u32,
    f: &U,
    g: &U,
    turns: &[u32],
) -> Result<Option<Derived<'f>>, NoMemory>
    requires f { IsKnown 1 moves.outs f.now }
    requires g { IsKnown 1 moves.outs g.now }
    requires few { length turns.now < 2048 }
    ensures leads { IfOk result (IsMeeting moves.entry.facts.now moves.entry.outs (turn ∷ turns.now) (S f.now) (S g.now)) }
    ensures costs { IfOk result (λ found. IfSome found (KeepsMeetingCosts (length turns.now + 1) (length turns.now + 1) (S f.now) (S g.now))) }
{
    if turn == 0 {
        return under_sum(moves, f, g, turns);
    }
    if turn >= MOST_SUMS {
        return Ok(None);
    }
    match outward(moves, turn, f)? {
        Some(first) => then_under_sum(moves, first, g, turns),
        None => Ok(None),
    }
}

// The derivation, and then from its last term to the sum.
#[cycle(meeting)]
fn then_under_sum<'f>(
    moves: Moves<'f>,
    first: Derived<'f>,
    g: &U,
    turns: &[u32],
) -> Result<Option<Derived<'f>>, NoMemory>
    requires first { IsBy moves.facts.now moves.outs first }
    requires g { IsKnown 1 moves.outs g.now }
    requires few { length turns.now < 2048 }
    ensures leads { IfOk result (IsMeetingAfter moves.entry.facts.now moves.entry.outs turns.now first.entry g.now) }
    ensures costs { IfOk result (λ found. IfSome found (KeepsMeetingCostsAfter first.entry (length turns.now + 1) (length turns.now) (S g.now))) }
{
    match first.get().to() {
        U::Sum(f) => match under_sum(moves, f.get(), g, turns)? {
            Some(rest) => Ok(Some(joined(moves.alloc, first, rest)?)),
            None => Ok(None),
        },
        _ => Ok(None),
    }
}

// From the sum to the sum, where the bodies meet.
#[cycle(meeting)]
fn under_sum<'f>(
    moves: Moves<'f>,
    f: &U,
    g: &U,
    turns: &[u32],
) -> Result<Option<Derived<'f>>, NoMemory>
    requires f { IsKnown 1 moves.outs f.now }
    requires g { IsKnown 1 moves.outs g.now }
    requires few { length turns.now < 2048 }
    ensures leads { IfOk result (IsMeetingInside moves.entry.facts.now moves.entry.outs turns.now f.now g.now) }
    ensures costs { IfOk result (λ found. IfSome found (KeepsMeetingCosts (length turns.now + 1) (length turns.now) (S f.now) (S g.now))) }
{
    let inner = inside(moves)?;
    let left = Boxed::new(moves.alloc, opened(moves.alloc, f, moves.outs)?)?;
    let right = Boxed::new(moves.alloc, opened(moves.alloc, g, moves.outs)?)?;
    match meeting(inner, left.get(), right.get(), turns)? {
        Some(part) => Ok(Some(summed(moves, part)?)),
        None => Ok(None),
    }
}

// A sum inside so many others goes outside them, where it is there.
fn outward<'f>(moves: Moves<'f>, turn: u32, f: &U) -> Result<Option<Derived<'f>>, NoMemory>
    requires f { IsKnown 1 moves.outs f.now }
    requires some { 0 < turn }
    requires few { turn < 2048 }
    ensures leads { IfOk result (IsOutward moves.entry.facts.now moves.entry.outs turn f.now) }
    ensures costs { IfOk result (λ found. IfSome found (OutwardCosts f.now)) }
{
    match inside_sums(f, turn) {
        Some(body) => {
            let step = moves.sum_swap(turn, 1, body.copy(moves.alloc)?)?;
            Ok(Some(Boxed::new(moves.alloc, step)?))
        }
        None => Ok(None),
    }
}

// What stands inside so many sums, if there are so many.
fn inside_sums(u: &U, count: u32) -> Option<&U>
    ensures { IsInsideSums count u.now result }
{
    if count == 0 {
        return Some(u);
    }
    match u {
        U::Sum(f) => inside_sums(f.get(), count - 1),
        _ => None,
    }
}
