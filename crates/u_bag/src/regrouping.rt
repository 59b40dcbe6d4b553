//! Terms of the same parts.
ghost use Rattle.std.specs.Prelude.{◌≡◌, IfOk, IsPermutation};
ghost use Rattle.u_rules.specs.Terms.{add_leaves};
ghost use Rattle.u_moves.specs.Derivations.{IsKnown, IsSound, IsWithin};
ghost use Rattle.u_congruence.specs.Congruence.{IsFromTo};
ghost use Rattle.u_bag.specs.Costs.{IsBackward, IsOneStepAtMost, IsThreefold};

use crate::NoMemory;
use std::alloc::Global;
use u_congruence::{Derived, copied, joined, still};
use u_moves::Moves;
use u_simple::sums_rearranged;
use u_terms::{Boxed, U, same};

/// From the one sum to the other, which has the same terms.
pub fn sums_regrouped<'f>(moves: Moves<'f>, left: &U, right: &U) -> Result<Derived<'f>, NoMemory>
    requires left { IsKnown 0 moves.outs left.now }
    requires right { IsKnown 0 moves.outs right.now }
    requires leaves { IsPermutation (add_leaves left.now) (add_leaves right.now) }
    ensures ends { IfOk result (IsFromTo moves.entry.facts.now moves.entry.outs left.now right.now) }
    ensures costs { IfOk result (IsOneStepAtMost left.now right.now) }
{
    if same(left, right) {
        still(moves, copied(moves.alloc, left)?)
    } else {
        sums_rearranged(moves, left, right)
    }
}

/// The last term of a derivation.
pub fn end_of<'d>(d: &'d Derived<'_>) -> &'d U
    ensures lent { result.now ≡ d.now.to }
    ensures known { IsKnown 0 d.now.outs result.now }
    ensures within { IsWithin d.now.nodes d.now.depth result.now }
    ensures sound { IsSound d.now }
{
    d.get().to()
}

/// Its first term.
pub fn start_of<'d>(d: &'d Derived<'_>) -> &'d U
    ensures lent { result.now ≡ d.now.from }
    ensures known { IsKnown 0 d.now.outs result.now }
    ensures within { IsWithin d.now.nodes d.now.depth result.now }
    ensures sound { IsSound d.now }
{
    d.get().from()
}

/// The derivation backward.
pub fn turned_back<'f>(alloc: Global, d: Derived<'f>) -> Result<Derived<'f>, NoMemory>
    ensures ends { IfOk result (IsFromTo d.entry.facts d.entry.outs d.entry.to d.entry.from) }
    ensures costs { IfOk result (IsBackward d.entry) }
{
    let back = d.into_inner().back(alloc)?;
    Boxed::new(alloc, back)
}

/// One derivation after another, where the terms that they end and begin with are the same but for their order.
pub fn joined_by<'f>(
    alloc: Global,
    first: Derived<'f>,
    between: Derived<'f>,
    last: Derived<'f>,
) -> Result<Derived<'f>, NoMemory>
    requires facts { first.facts ≡ between.facts × (between.facts ≡ last.facts) }
    requires outs { first.outs ≡ between.outs × (between.outs ≡ last.outs) }
    requires joins { first.to ≡ between.from × (between.to ≡ last.from) }
    ensures ends { IfOk result (IsFromTo first.entry.facts first.entry.outs first.entry.from last.entry.to) }
    ensures costs { IfOk result (IsThreefold first.entry between.entry last.entry) }
{
    let first = joined(alloc, first, between)?;
    joined(alloc, first, last)
}
