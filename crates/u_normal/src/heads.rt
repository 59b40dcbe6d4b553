//! What stands at the head of a product in normal form: `0`, a sum, a sum over all values, or factors alone.
ghost use Rattle.std.specs.Prelude.{◌+◌, None, IfOk};
ghost use Rattle.u_rules.specs.Terms.{◌⊗◌};
ghost use Rattle.u_moves.specs.Derivations.{IsKnown};
ghost use Rattle.u_normal.specs.Heads.{IsHeaded, IsSumOrZero};
ghost use Rattle.u_normal.specs.Leading.{Leads};
ghost use Rattle.u_normal.specs.Merging.{HasKinds};
ghost use Rattle.u_normal.specs.Taking.{IsTaken, load};

use crate::NoMemory;
use crate::merging::{Wrap, merged};
use crate::steps::{distributed, drawn_in, product, regrouped, then_in_order, zero_product};
use crate::taking::{Split, taken};
use u_congruence::{Derived, joined};
use u_moves::Moves;
use u_terms::U;

/// From a product to a term with such a head: the first sum in it comes to the head, else its factors are put in order.
pub fn headed<'f>(moves: Moves<'f>, u: &U) -> Result<Derived<'f>, NoMemory>
    requires { IsKnown 0 moves.outs u.now }
    ensures { IfOk result (Leads (IsHeaded (load u.now)) moves.entry.facts.now moves.entry.outs u.now) }
{
    match taken(moves.alloc, None, u)? {
        Some(sum) => over_taken(moves, u, &sum),
        None => tidied(moves, u),
    }
}

// The sum that is taken out comes to the head.
fn over_taken<'f>(moves: Moves<'f>, u: &U, sum: &Split) -> Result<Derived<'f>, NoMemory>
    requires known { IsKnown 0 moves.outs u.now }
    requires taken { IsTaken None u.now sum.now }
    ensures { IfOk result (Leads (IsHeaded (load u.now)) moves.entry.facts.now moves.entry.outs u.now) }
{
    let last = product(moves.alloc, sum.rest.get(), sum.part.get())?;
    let turn = regrouped(moves, u, last)?;
    let rest = over_part(moves, sum.rest.get(), sum.part.get())?;
    joined(moves.alloc, turn, rest)
}

// A product with a sum for its last factor.
fn over_part<'f>(moves: Moves<'f>, rest: &U, part: &U) -> Result<Derived<'f>, NoMemory>
    requires rest { IsKnown 0 moves.outs rest.now }
    requires part { IsKnown 0 moves.outs part.now }
    requires sum { IsSumOrZero part.now }
    ensures { IfOk result (Leads (IsHeaded (load rest.now + load part.now)) moves.entry.facts.now moves.entry.outs (rest.now ⊗ part.now)) }
{
    match part {
        U::Zero => zero_product(moves, rest),
        U::Add(a, b) => distributed(moves, rest, a.get(), b.get()),
        U::Sum(f) => drawn_in(moves, rest, f.get()),
        _ => unreachable!(),
    }
}

// The factors by kinds, with one squash and one negation at most.
fn tidied<'f>(moves: Moves<'f>, u: &U) -> Result<Derived<'f>, NoMemory>
    requires known { IsKnown 0 moves.outs u.now }
    requires kinds { HasKinds u.now }
    ensures { IfOk result (Leads (IsHeaded (load u.now)) moves.entry.facts.now moves.entry.outs u.now) }
{
    let squashes = merged(moves, Wrap::Squash, u)?;
    let negations = merged(moves, Wrap::Not, squashes.get().to())?;
    let both = joined(moves.alloc, squashes, negations)?;
    then_in_order(moves, both)
}
