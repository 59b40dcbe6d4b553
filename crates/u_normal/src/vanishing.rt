//! Terms of which sums and products with `0` leave nothing.
ghost use Rattle.std.specs.Prelude.{◌≡◌, ◌↔◌, ◌+◌, IfOk, IsTrue};
ghost use Rattle.u_terms.specs.Binding.{opened};
ghost use Rattle.u_rules.specs.Terms.{◌⊕◌, ◌⊗◌, O, S};
ghost use Rattle.u_moves.specs.Derivations.{IsKnown};
ghost use Rattle.u_congruence.specs.Congruence.{IsBy, IsFromTo};
ghost use Rattle.u_normal.specs.Vanishing.{Vanishes};

use crate::NoMemory;
use crate::steps::{product, regrouped, then_in_row, zero_product, zero_sum};
use u_congruence::{Derived, added, copied, inside, joined, multiplied, opened, still, summed};
use u_moves::Moves;
use u_terms::{Boxed, U};

/// Whether nothing is left of the term: its normal form is `0` exactly then.
pub fn vanishes(u: &U) -> bool
    ensures { IsTrue result ↔ Vanishes u.now }
{
    match u {
        U::Zero => true,
        U::Add(a, b) => vanishes(a.get()) && vanishes(b.get()),
        U::Mul(a, b) => vanishes(a.get()) || vanishes(b.get()),
        U::Sum(f) => vanishes(f.get()),
        _ => false,
    }
}

/// From a term that vanishes to `0`, by a step for each sum in it and two for each product at most. One part of a product that
/// vanishes is enough, and the other is not gone through.
#[cycle(nothing)]
pub fn nothing<'f>(moves: Moves<'f>, u: &U) -> Result<Derived<'f>, NoMemory>
    requires known { IsKnown 0 moves.outs u.now }
    requires vanishes { Vanishes u.now }
    ensures { IfOk result (IsFromTo moves.entry.facts.now moves.entry.outs u.now O) }
{
    match u {
        U::Add(a, b) => nothing_added(moves, a.get(), b.get()),
        U::Mul(a, b) => nothing_multiplied(moves, a.get(), b.get()),
        U::Sum(f) => nothing_summed(moves, f.get()),
        _ => still(moves, copied(moves.alloc, u)?),
    }
}

// The same of a sum.
#[cycle(nothing)]
fn nothing_added<'f>(moves: Moves<'f>, a: &U, b: &U) -> Result<Derived<'f>, NoMemory>
    requires known_a { IsKnown 0 moves.outs a.now }
    requires known_b { IsKnown 0 moves.outs b.now }
    requires a { Vanishes a.now }
    requires b { Vanishes b.now }
    ensures { IfOk result (IsFromTo moves.entry.facts.now moves.entry.outs (a.now ⊕ b.now) O) }
{
    let left = nothing(moves, a)?;
    let right = nothing(moves, b)?;
    let both = added(moves, left, right)?;
    then_in_row(moves, both)
}

// The same of a product.
#[cycle(nothing)]
fn nothing_multiplied<'f>(moves: Moves<'f>, a: &U, b: &U) -> Result<Derived<'f>, NoMemory>
    requires known_a { IsKnown 0 moves.outs a.now }
    requires known_b { IsKnown 0 moves.outs b.now }
    requires vanishes { Vanishes (a.now ⊗ b.now) }
    ensures { IfOk result (IsFromTo moves.entry.facts.now moves.entry.outs (a.now ⊗ b.now) O) }
{
    if vanishes(a) {
        nothing_first(moves, a, b)
    } else {
        nothing_second(moves, a, b)
    }
}

// The same of a product whose first part vanishes.
#[cycle(nothing)]
fn nothing_first<'f>(moves: Moves<'f>, a: &U, b: &U) -> Result<Derived<'f>, NoMemory>
    requires known_a { IsKnown 0 moves.outs a.now }
    requires known_b { IsKnown 0 moves.outs b.now }
    requires a { Vanishes a.now }
    ensures { IfOk result (IsFromTo moves.entry.facts.now moves.entry.outs (a.now ⊗ b.now) O) }
{
    let first = nothing(moves, a)?;
    let rest = still(moves, copied(moves.alloc, b)?)?;
    let both = multiplied(moves, first, rest)?;
    let end = zero_first(moves, b)?;
    joined(moves.alloc, both, end)
}

// The same of one whose second part does.
#[cycle(nothing)]
fn nothing_second<'f>(moves: Moves<'f>, a: &U, b: &U) -> Result<Derived<'f>, NoMemory>
    requires known_a { IsKnown 0 moves.outs a.now }
    requires known_b { IsKnown 0 moves.outs b.now }
    requires b { Vanishes b.now }
    ensures { IfOk result (IsFromTo moves.entry.facts.now moves.entry.outs (a.now ⊗ b.now) O) }
{
    let rest = still(moves, copied(moves.alloc, a)?)?;
    let second = nothing(moves, b)?;
    let both = multiplied(moves, rest, second)?;
    let end = zero_product(moves, a)?;
    joined(moves.alloc, both, end)
}

// The same of a sum over all values.
#[cycle(nothing)]
fn nothing_summed<'f>(moves: Moves<'f>, f: &U) -> Result<Derived<'f>, NoMemory>
    requires known { IsKnown 1 moves.outs f.now }
    requires vanishes { Vanishes f.now }
    ensures { IfOk result (IsFromTo moves.entry.facts.now moves.entry.outs (S f.now) O) }
{
    let part = nothing_opened(moves, f)?;
    let sum = summed(moves, part)?;
    let end = zero_sum(moves)?;
    joined(moves.alloc, sum, end)
}

// The same of a body, with the name `outs` for its place.
#[cycle(nothing)]
fn nothing_opened<'f>(moves: Moves<'f>, f: &U) -> Result<Derived<'f>, NoMemory>
    requires known { IsKnown 1 moves.outs f.now }
    requires vanishes { Vanishes f.now }
    ensures { IfOk result (IsFromTo moves.entry.facts.now (moves.entry.outs + 1) (opened f.now moves.entry.outs) O) }
{
    let inner = inside(moves)?;
    let body = Boxed::new(moves.alloc, opened(moves.alloc, f, moves.outs)?)?;
    nothing(inner, body.get())
}

// `0` before another factor becomes `0`.
fn zero_first<'f>(moves: Moves<'f>, x: &U) -> Result<Derived<'f>, NoMemory>
    requires { IsKnown 0 moves.outs x.now }
    ensures { IfOk result (IsFromTo moves.entry.facts.now moves.entry.outs (O ⊗ x.now) O) }
{
    let zero = Boxed::new(moves.alloc, U::Zero)?;
    let front = product(moves.alloc, zero.get(), x)?;
    let back = product(moves.alloc, x, zero.get())?;
    let turn = regrouped(moves, front.get(), back)?;
    let end = zero_product(moves, x)?;
    joined(moves.alloc, turn, end)
}
