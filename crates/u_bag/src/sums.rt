//! Sums of blocks: each block of the one is paired with a block of its own of the other.
ghost use Rattle.std.specs.Prelude.{All, IfOk, IfSome, MatchOption};
ghost use Rattle.u_rules.specs.Terms.{add_leaves};
ghost use Rattle.u_moves.specs.Derivations.{IsKnown};
ghost use Rattle.u_congruence.specs.Congruence.{IsFromTo};
ghost use Rattle.u_bag.specs.Costs.{KeepsAddedCosts, KeepsPairsCosts};
ghost use Rattle.u_bag.specs.Pairs.{ArePairs, HasPairing, lefts_of};
ghost use Rattle.u_bag.specs.Shapes.{SomeHasTooManySums};
ghost use Rattle.u_bag.specs.Sums.{AreKnownPairs, AreMade, IsFromPairs, IsSumsMatch};

use crate::NoMemory;
use crate::blocks::{Matched, paired};
use crate::pairs::{Pair, Partners, pair_sums};
use crate::regrouping::{end_of, joined_by, start_of, sums_regrouped};
use std::alloc::Global;
use u_congruence::{Derived, added, still};
use u_moves::Moves;
use u_terms::{Boxed, Facts, U};

/// Pairs the blocks of two sums, in order: each of the left one with the first of the right one that has no partner yet and can be paired
/// with it. The budget is afresh for each two.
pub fn match_sums<'f>(
    alloc: Global,
    facts: &'f Facts,
    outs: u32,
    left: &U,
    right: &U,
    budget: u64,
) -> Result<Matched<'f>, NoMemory>
    requires left { IsKnown 0 outs left.now }
    requires right { IsKnown 0 outs right.now }
    ensures { IfOk result (IsSumsMatch facts.now outs left.now right.now budget) }
{
    let moves = Moves { alloc, facts, outs };
    match pair_sums(alloc, outs, left, right, budget)? {
        Partners::All(pairs) => made(moves, left, right, pairs.as_slice()),
        Partners::Nothing => Ok(Matched::Nothing),
        Partners::Spent => Ok(Matched::Spent),
    }
}

// The derivation by the pairs of blocks.
fn made<'f>(
    moves: Moves<'f>,
    left: &U,
    right: &U,
    pairs: &[Pair<'_>],
) -> Result<Matched<'f>, NoMemory>
    requires left { IsKnown 0 moves.outs left.now }
    requires right { IsKnown 0 moves.outs right.now }
    requires pairs { ArePairs (add_leaves left.now) (add_leaves right.now) pairs.now }
    ensures { IfOk result (AreMade moves.entry.facts.now moves.entry.outs left.now right.now pairs.now) }
{
    match by_pairs(moves, left, right, pairs)? {
        Some(deriv) => Ok(Matched::Found {
            deriv: deriv.into_inner(),
        }),
        None => Ok(Matched::Nothing),
    }
}

// From the one sum to the other, whose blocks are paired, unless one of them has more sums than a step exchanges.
fn by_pairs<'f>(
    moves: Moves<'f>,
    left: &U,
    right: &U,
    pairs: &[Pair<'_>],
) -> Result<Option<Derived<'f>>, NoMemory>
    requires left { IsKnown 0 moves.outs left.now }
    requires right { IsKnown 0 moves.outs right.now }
    requires pairs { ArePairs (add_leaves left.now) (add_leaves right.now) pairs.now }
    ensures leads { IfOk result (λ found. MatchOption found (SomeHasTooManySums (add_leaves left.now)) (IsFromTo moves.entry.facts.now moves.entry.outs left.now right.now)) }
    ensures costs { IfOk result (λ found. IfSome found (KeepsPairsCosts moves.entry.outs left.now right.now pairs.now)) }
{
    let Some(between) = added_pairs(moves, pairs)? else {
        return Ok(None);
    };
    let first = sums_regrouped(moves, left, start_of(&between))?;
    let last = sums_regrouped(moves, end_of(&between), right)?;
    Ok(Some(joined_by(moves.alloc, first, between, last)?))
}

// From the sum of the left blocks to that of the right ones.
fn added_pairs<'f>(moves: Moves<'f>, pairs: &[Pair<'_>]) -> Result<Option<Derived<'f>>, NoMemory>
    requires known { AreKnownPairs moves.outs pairs.now }
    requires paired { All HasPairing pairs.now }
    ensures leads { IfOk result (λ found. MatchOption found (SomeHasTooManySums (lefts_of pairs.now)) (IsFromPairs moves.entry.facts.now moves.entry.outs pairs.now)) }
    ensures costs { IfOk result (λ found. IfSome found (KeepsAddedCosts moves.entry.outs pairs.now)) }
{
    match pairs {
        [] => Ok(Some(still(moves, Boxed::new(moves.alloc, U::Zero)?)?)),
        [pair] => paired(moves, pair.left, pair.right, pair.entries.as_slice()),
        [pair, rest @ ..] => {
            let Some(first) = paired(moves, pair.left, pair.right, pair.entries.as_slice())? else {
                return Ok(None);
            };
            let Some(others) = added_pairs(moves, rest)? else {
                return Ok(None);
            };
            Ok(Some(added(moves, first, others)?))
        }
    }
}
