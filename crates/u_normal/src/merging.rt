//! The squashes of a product become one, and so do its negations.
ghost use Rattle.std.specs.Prelude.{◌≡◌, IfOk, MatchOption, Some};
ghost use Rattle.u_rules.specs.Terms.{◌⊗◌};
ghost use Rattle.u_moves.specs.Derivations.{IsKnown};
ghost use Rattle.normal_form.specs.Kinds.{kind_of};
ghost use Rattle.u_congruence.specs.Congruence.{IsFromTo};
ghost use Rattle.u_normal.specs.Leading.{Leads};
ghost use Rattle.u_normal.specs.Merging as spec;
ghost use Rattle.u_normal.specs.Merging.{HasKinds, HasOneAtMost, IsBoth, IsFewer, IsMerged, IsPair};

use crate::NoMemory;
use crate::steps::{negation_of_sum, product, regrouped, squash_of_product};
use crate::taking::taken;
use normal_form::Kind;
use std::alloc::Global;
use u_congruence::{Derived, copied, joined, multiplied, still};
use u_moves::Moves;
use u_terms::{Boxed, U};

/// What stands around the bodies that are merged.
#[derive(Clone, Copy)]
pub enum Wrap {
    Squash,
    Not,
}

impl Wrap {
    // The kind of the factors: a negated equality or predicate is none of them.
    fn kind(self) -> Kind
        ensures { result ≡ spec.wrap_kind self }
    {
        match self {
            Wrap::Squash => Kind::Squash,
            Wrap::Not => Kind::Negation,
        }
    }
}

/// Two factors, and the product without them.
#[derive(Drop)]
pub struct Pair {
    pub rest: Boxed<U>,
    pub first: Boxed<U>,
    pub second: Boxed<U>,
}

/// From a product to one with one such factor at most, by two steps for each that is more. The bodies keep their order.
pub fn merged<'f>(moves: Moves<'f>, wrap: Wrap, u: &U) -> Result<Derived<'f>, NoMemory>
    requires known { IsKnown 0 moves.outs u.now }
    requires kinds { HasKinds u.now }
    ensures { IfOk result (Leads (IsMerged wrap u.now) moves.entry.facts.now moves.entry.outs u.now) }
{
    match two_of(moves.alloc, wrap, u)? {
        None => still(moves, copied(moves.alloc, u)?),
        Some(pair) => {
            let first = pair_merged(moves, wrap, u, &pair)?;
            let rest = merged(moves, wrap, first.get().to())?;
            joined(moves.alloc, first, rest)
        }
    }
}

// The first two such factors of a product that has more than one.
fn two_of(alloc: Global, wrap: Wrap, u: &U) -> Result<Option<Pair>, NoMemory>
    ensures { IfOk result (λ found. MatchOption found (HasOneAtMost wrap u.now) (IsPair wrap u.now)) }
{
    let first = match taken(alloc, Some(wrap.kind()), u)? {
        Some(first) => first,
        None => return Ok(None),
    };
    match taken(alloc, Some(wrap.kind()), first.rest.get())? {
        Some(second) => Ok(Some(Pair {
            rest: second.rest,
            first: first.part,
            second: second.part,
        })),
        None => Ok(None),
    }
}

// The two factors become one.
fn pair_merged<'f>(
    moves: Moves<'f>,
    wrap: Wrap,
    u: &U,
    pair: &Pair,
) -> Result<Derived<'f>, NoMemory>
    requires known { IsKnown 0 moves.outs u.now }
    requires pair { IsPair wrap u.now pair.now }
    ensures { IfOk result (Leads (IsFewer wrap u.now) moves.entry.facts.now moves.entry.outs u.now) }
{
    let turn = pair_first(moves, wrap, u, pair)?;
    let one = factors_merged(moves, wrap, pair.first.get(), pair.second.get())?;
    let rest = still(moves, copied(moves.alloc, pair.rest.get())?)?;
    let all = multiplied(moves, one, rest)?;
    joined(moves.alloc, turn, all)
}

// The two factors come to the front.
fn pair_first<'f>(moves: Moves<'f>, wrap: Wrap, u: &U, pair: &Pair) -> Result<Derived<'f>, NoMemory>
    requires known { IsKnown 0 moves.outs u.now }
    requires pair { IsPair wrap u.now pair.now }
    ensures { IfOk result (IsFromTo moves.entry.facts.now moves.entry.outs u.now (pair.now.first ⊗ pair.now.second ⊗ pair.now.rest)) }
{
    let both = product(moves.alloc, pair.first.get(), pair.second.get())?;
    let whole = product(moves.alloc, both.get(), pair.rest.get())?;
    regrouped(moves, u, whole)
}

// From a product of two such factors to the one with both bodies.
fn factors_merged<'f>(
    moves: Moves<'f>,
    wrap: Wrap,
    first: &U,
    second: &U,
) -> Result<Derived<'f>, NoMemory>
    requires known_first { IsKnown 0 moves.outs first.now }
    requires known_second { IsKnown 0 moves.outs second.now }
    requires first { kind_of first.now ≡ Some (spec.wrap_kind wrap) }
    requires second { kind_of second.now ≡ Some (spec.wrap_kind wrap) }
    ensures { IfOk result (Leads (IsBoth wrap first.now second.now) moves.entry.facts.now moves.entry.outs (first.now ⊗ second.now)) }
{
    let p = body_of(wrap, first);
    let q = body_of(wrap, second);
    match wrap {
        Wrap::Squash => squash_of_product(moves, p, q),
        Wrap::Not => negation_of_sum(moves, p, q),
    }
}

// What is squashed or negated.
fn body_of(wrap: Wrap, u: &U) -> &U
    requires { kind_of u.now ≡ Some (spec.wrap_kind wrap) }
    ensures { u.now ≡ spec.wrapped wrap result.now }
{
    match u {
        U::Squash(p) => p.get(),
        U::Not(p) => p.get(),
        _ => unreachable!(),
    }
}
