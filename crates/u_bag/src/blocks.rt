//! The search for a pairing of the entries of two blocks, and the derivation that it gives.
ghost use Rattle.std.specs.Prelude.{IfOk, IfSome, MatchOption};
ghost use Rattle.term_shapes.specs.TermShape.{HasShape};
ghost use Rattle.u_congruence.specs.Congruence.{IsFromTo};
ghost use Rattle.u_moves.specs.Derivations.{IsKnown};
ghost use Rattle.u_bag.specs.Costs.{KeepsPairingCosts};
ghost use Rattle.u_bag.specs.Matching.{IsMade, IsMatched};
ghost use Rattle.u_bag.specs.Shapes.{ArePairedBy, HasTooManySums};

use crate::NoMemory;
use crate::meeting::meeting;
use crate::order::turns;
use crate::regrouping::start_of;
use bag_search::{Match, match_shapes};
use shapes::Shape;
use std::alloc::Global;
use term_shapes::shape_of;
use u_congruence::Derived;
use u_moves::{Deriv, Moves};
use u_terms::{Facts, U};

/// What a search for a pairing comes to.
#[derive(Drop)]
pub enum Matched<'f> {
    /// From the left term to the right one.
    Found { deriv: Deriv<'f> },
    /// There is no pairing, or a block has more than 2,048 sums: a step exchanges no more. Such a term is deeper than a proof may go.
    Nothing,
    /// The budget was spent before this was known.
    Spent,
}

/// Pairs the entries of two blocks, where the names below `outs` are the columns of their row, and makes the pairing into a derivation. A term
/// without a shape is paired with none.
pub fn match_blocks<'f>(
    alloc: Global,
    facts: &'f Facts,
    outs: u32,
    left: &U,
    right: &U,
    budget: u64,
) -> Result<Matched<'f>, NoMemory>
    requires left { IsKnown 0 outs left.now }
    requires right { IsKnown 0 outs right.now }
    ensures { IfOk result (IsMatched facts.now outs left.now right.now budget) }
{
    let moves = Moves { alloc, facts, outs };
    match (shape_of(alloc, outs, left)?, shape_of(alloc, outs, right)?) {
        (Some(s), Some(t)) => match_shaped(moves, left, right, &s, &t, budget),
        _ => Ok(Matched::Nothing),
    }
}

// The same of terms that have these shapes.
fn match_shaped<'f>(
    moves: Moves<'f>,
    left: &U,
    right: &U,
    s: &Shape,
    t: &Shape,
    budget: u64,
) -> Result<Matched<'f>, NoMemory>
    requires left { IsKnown 0 moves.outs left.now }
    requires right { IsKnown 0 moves.outs right.now }
    requires left_shape { HasShape moves.outs left.now s.now }
    requires right_shape { HasShape moves.outs right.now t.now }
    ensures { IfOk result (IsMatched moves.entry.facts.now moves.entry.outs left.now right.now budget) }
{
    match match_shapes(moves.alloc, s, t, budget)? {
        Match::Found(entries) => made(moves, left, right, entries.as_slice()),
        Match::Nothing => Ok(Matched::Nothing),
        Match::Spent => Ok(Matched::Spent),
    }
}

// The derivation by a pairing of entries.
fn made<'f>(moves: Moves<'f>, left: &U, right: &U, entries: &[u32]) -> Result<Matched<'f>, NoMemory>
    requires left { IsKnown 0 moves.outs left.now }
    requires right { IsKnown 0 moves.outs right.now }
    requires paired { ArePairedBy entries.now left.now right.now }
    ensures { IfOk result (IsMade moves.entry.facts.now moves.entry.outs left.now right.now) }
{
    match paired(moves, left, right, entries)? {
        Some(deriv) => Ok(Matched::Found {
            deriv: deriv.into_inner(),
        }),
        None => Ok(Matched::Nothing),
    }
}

/// From the one block to the other, whose entries are those of the list, unless there are more sums than a step exchanges.
pub fn paired<'f>(
    moves: Moves<'f>,
    left: &U,
    right: &U,
    entries: &[u32],
) -> Result<Option<Derived<'f>>, NoMemory>
    requires left { IsKnown 0 moves.outs left.now }
    requires right { IsKnown 0 moves.outs right.now }
    requires paired { ArePairedBy entries.now left.now right.now }
    ensures leads { IfOk result (λ found. MatchOption found (HasTooManySums left.now) (IsFromTo moves.entry.facts.now moves.entry.outs left.now right.now)) }
    ensures costs { IfOk result (λ found. IfSome found (KeepsPairingCosts moves.entry.outs left.now right.now)) }
{
    let Some(turns) = turns(moves.alloc, left, right, entries)? else {
        return Ok(None);
    };
    let Some(deriv) = meeting(moves, left, right, turns.as_slice())? else {
        return Ok(None);
    };
    // (its soundness, which the bound on its bytes rests on, is told where it is lent)
    start_of(&deriv);
    Ok(Some(deriv))
}
