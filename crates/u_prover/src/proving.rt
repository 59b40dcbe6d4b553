//! The search for a derivation.
ghost use Rattle.std.specs.Prelude.{IfOk, MatchOption};
ghost use Rattle.u_moves.specs.Derivations.{IsKnown};
ghost use Rattle.u_prover.specs.Proving.{AreNoSmallTerm, IsFound, IsOutcome};

use crate::NoMemory;
use crate::deciding::{Outcome, kept};
use crate::rearranging::rearranged;
use crate::simplifying::by_normal_forms;
use std::alloc::Global;
use u_congruence::unmoved;
use u_moves::{Deriv, Moves};
use u_terms::{Facts, U, same};

/// Searches a derivation from the left term to the right one. Where one that is found passes a limit of a proof, the search goes on with the
/// next way. For each two blocks, so many pairings of entries are tried as the budget has.
pub fn prove<'f>(
    alloc: Global,
    facts: &'f Facts,
    outs: u32,
    left: &U,
    right: &U,
    budget: u64,
) -> Result<Outcome<'f>, NoMemory>
    requires left { IsKnown 0 outs left.now }
    requires right { IsKnown 0 outs right.now }
    ensures { IfOk result (IsOutcome facts.now outs left.now right.now budget) }
{
    let moves = Moves { alloc, facts, outs };
    match at_once(moves, left, right)? {
        Some(deriv) => Ok(Outcome::Found { deriv }),
        None => by_normal_forms(moves, left, right, budget),
    }
}

// Within the limits: without a step where the terms are the same, and by one where they differ in one order alone.
fn at_once<'f>(moves: Moves<'f>, left: &U, right: &U) -> Result<Option<Deriv<'f>>, NoMemory>
    requires left { IsKnown 0 moves.outs left.now }
    requires right { IsKnown 0 moves.outs right.now }
    ensures { IfOk result (λ found. MatchOption found (AreNoSmallTerm left.now right.now) (IsFound moves.entry.facts.now moves.entry.outs left.now right.now)) }
{
    if same(left, right) {
        return Ok(kept(unmoved(moves, left)?.into_inner()));
    }
    match rearranged(moves, left, right)? {
        Some(turn) => Ok(kept(turn.into_inner())),
        None => Ok(None),
    }
}
