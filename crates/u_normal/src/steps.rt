//! Single steps, and derivations one after the other.
ghost use Rattle.std.specs.Prelude.{◌≡◌, IfOk, IsPermutation};
ghost use Rattle.u_terms.specs.Products.{product_of};
ghost use Rattle.u_rules.specs.Terms.{◌⊗◌, ◌⊕◌, O, S, add_leaves, mul_leaves, neg, sq};
ghost use Rattle.u_moves.specs.Derivations.{IsKnown};
ghost use Rattle.normal_form.specs.Kinds.{ordered};
ghost use Rattle.normal_form.specs.NormalTerms.{sum_of};
ghost use Rattle.u_congruence.specs.Congruence.{IsBy, IsFromTo};
ghost use Rattle.u_normal.specs.Leading.{IsOneMore};
ghost use Rattle.u_normal.specs.Merging.{HasKinds};

use crate::NoMemory;
use normal_form::{in_order, in_row};
use std::alloc::Global;
use u_congruence::{Derived, copied, joined, still};
use u_moves::Moves;
use u_terms::{Boxed, U, same};

/// The product of copies.
pub fn product(alloc: Global, x: &U, y: &U) -> Result<Boxed<U>, NoMemory>
    ensures { IfOk result (λ u. u ≡ x.now ⊗ y.now) }
{
    let x = copied(alloc, x)?;
    let y = copied(alloc, y)?;
    Boxed::new(alloc, U::Mul(x, y))
}

/// The factors of a product change places, and `1` comes and goes, by one step at most.
pub fn regrouped<'f>(moves: Moves<'f>, u: &U, to: Boxed<U>) -> Result<Derived<'f>, NoMemory>
    requires known { IsKnown 0 moves.outs u.now }
    requires known_to { IsKnown 0 moves.outs to }
    requires leaves { IsPermutation (mul_leaves u.now) (mul_leaves to) }
    ensures { IfOk result (IsFromTo moves.entry.facts.now moves.entry.outs u.now to) }
{
    if same(u, to.get()) {
        return still(moves, to);
    }
    let from = copied(moves.alloc, u)?;
    let step = moves.mul_ac(from.into_inner(), to.into_inner())?;
    Boxed::new(moves.alloc, step)
}

/// A product with 0 becomes 0.
pub fn zero_product<'f>(moves: Moves<'f>, x: &U) -> Result<Derived<'f>, NoMemory>
    requires { IsKnown 0 moves.outs x.now }
    ensures { IfOk result (IsFromTo moves.entry.facts.now moves.entry.outs (x.now ⊗ O) O) }
{
    let x = copied(moves.alloc, x)?;
    let step = moves.mul_zero(x.into_inner())?;
    Boxed::new(moves.alloc, step)
}

/// A factor goes into both parts of a sum.
pub fn distributed<'f>(moves: Moves<'f>, x: &U, a: &U, b: &U) -> Result<Derived<'f>, NoMemory>
    requires x { IsKnown 0 moves.outs x.now }
    requires a { IsKnown 0 moves.outs a.now }
    requires b { IsKnown 0 moves.outs b.now }
    ensures { IfOk result (IsFromTo moves.entry.facts.now moves.entry.outs (x.now ⊗ (a.now ⊕ b.now)) (x.now ⊗ a.now ⊕ x.now ⊗ b.now)) }
{
    let x = copied(moves.alloc, x)?;
    let a = copied(moves.alloc, a)?;
    let b = copied(moves.alloc, b)?;
    let step = moves.distr(x.into_inner(), a.into_inner(), b.into_inner())?;
    Boxed::new(moves.alloc, step)
}

/// A factor goes into a sum over all values.
pub fn drawn_in<'f>(moves: Moves<'f>, x: &U, f: &U) -> Result<Derived<'f>, NoMemory>
    requires x { IsKnown 0 moves.outs x.now }
    requires f { IsKnown 1 moves.outs f.now }
    ensures { IfOk result (IsFromTo moves.entry.facts.now moves.entry.outs (x.now ⊗ S f.now) (S (x.now ⊗ f.now))) }
{
    let x = copied(moves.alloc, x)?;
    let f = copied(moves.alloc, f)?;
    let step = moves.sum_mul(x.into_inner(), f.into_inner())?;
    Boxed::new(moves.alloc, step)
}

/// The sum of two terms over all values becomes two sums over all values.
pub fn parted<'f>(moves: Moves<'f>, f: &U, g: &U) -> Result<Derived<'f>, NoMemory>
    requires f { IsKnown 1 moves.outs f.now }
    requires g { IsKnown 1 moves.outs g.now }
    ensures { IfOk result (IsFromTo moves.entry.facts.now moves.entry.outs (S (f.now ⊕ g.now)) (S f.now ⊕ S g.now)) }
{
    let f = copied(moves.alloc, f)?;
    let g = copied(moves.alloc, g)?;
    let step = moves.sum_add(f.into_inner(), g.into_inner())?;
    Boxed::new(moves.alloc, step)
}

/// The sum of 0 over all values becomes 0.
pub fn zero_sum<'f>(moves: Moves<'f>) -> Result<Derived<'f>, NoMemory>
    ensures { IfOk result (IsFromTo moves.entry.facts.now moves.entry.outs (S O) O) }
{
    let step = moves.sum_zero()?;
    Boxed::new(moves.alloc, step)
}

/// The derivation, and then what is added in its last term in one row, by one step at most.
pub fn then_in_row<'f>(moves: Moves<'f>, d: Derived<'f>) -> Result<Derived<'f>, NoMemory>
    requires { IsBy moves.facts.now moves.outs d }
    ensures ends { IfOk result (IsFromTo moves.entry.facts.now moves.entry.outs d.entry.from (sum_of (add_leaves d.entry.to))) }
    ensures more { IfOk result (IsOneMore d.entry) }
{
    let row = Boxed::new(moves.alloc, in_row(moves.alloc, d.get().to())?)?;
    if same(d.get().to(), row.get()) {
        return Ok(d);
    }
    let last = copied(moves.alloc, d.get().to())?;
    let step = moves.add_ac(last.into_inner(), row.into_inner())?;
    Boxed::new(moves.alloc, d.into_inner().then(moves.alloc, step)?)
}

/// The derivation, and then what is multiplied in its last term by kinds, by one step at most.
pub fn then_in_order<'f>(moves: Moves<'f>, d: Derived<'f>) -> Result<Derived<'f>, NoMemory>
    requires by { IsBy moves.facts.now moves.outs d }
    requires kinds { HasKinds d.to }
    ensures { IfOk result (IsFromTo moves.entry.facts.now moves.entry.outs d.entry.from (product_of (ordered (mul_leaves d.entry.to)))) }
{
    let row = Boxed::new(moves.alloc, in_order(moves.alloc, d.get().to())?)?;
    let turn = regrouped(moves, d.get().to(), row)?;
    joined(moves.alloc, d, turn)
}

/// A product of squashes becomes one squash.
pub fn squash_of_product<'f>(moves: Moves<'f>, p: &U, q: &U) -> Result<Derived<'f>, NoMemory>
    requires p { IsKnown 0 moves.outs p.now }
    requires q { IsKnown 0 moves.outs q.now }
    ensures { IfOk result (IsFromTo moves.entry.facts.now moves.entry.outs (sq p.now ⊗ sq q.now) (sq (p.now ⊗ q.now))) }
{
    let p = copied(moves.alloc, p)?;
    let q = copied(moves.alloc, q)?;
    let step = moves.sq_mul(p.into_inner(), q.into_inner())?;
    Boxed::new(moves.alloc, step)
}

/// A product of negations becomes the negation of a sum.
pub fn negation_of_sum<'f>(moves: Moves<'f>, p: &U, q: &U) -> Result<Derived<'f>, NoMemory>
    requires p { IsKnown 0 moves.outs p.now }
    requires q { IsKnown 0 moves.outs q.now }
    ensures { IfOk result (IsFromTo moves.entry.facts.now moves.entry.outs (neg p.now ⊗ neg q.now) (neg (p.now ⊕ q.now))) }
{
    let p = copied(moves.alloc, p)?;
    let q = copied(moves.alloc, q)?;
    let step = moves.not_add(p.into_inner(), q.into_inner())?;
    Boxed::new(moves.alloc, step.back(moves.alloc)?)
}
