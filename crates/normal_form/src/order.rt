//! A sum in one row, and a product in the order of kinds.
ghost use Rattle.std.specs.Prelude.{◌≡◌, ◌++◌, IfOk, OnOk};
ghost use Rattle.u_terms.specs.Products.{product_of};
ghost use Rattle.u_rules.specs.Terms.{add_leaves, mul_leaves, terms};
ghost use Rattle.normal_form.specs.Kinds.{of_kind, ordered};
ghost use Rattle.normal_form.specs.NormalTerms as spec;

use crate::NoMemory;
use crate::kind::{Kind, kind_of};
use std::alloc::Global;
use u_rules::leaves;
use u_terms::{Boxed, U};

/// What is added in a term, in one row to the right: `0` is left out.
pub fn in_row(alloc: Global, u: &U) -> Result<U, NoMemory>
    ensures { IfOk result (λ row. row ≡ spec.sum_of (add_leaves u.now)) }
{
    let gathered = leaves(alloc, u, false)?;
    let mut parts = Vec::with_capacity(alloc, gathered.len())?;
    for part in gathered.as_slice() {
        parts.push(part.copy(alloc)?)?;
    }
    sum(alloc, parts)
}

/// What is multiplied in a term, by kinds, in one row to the right: `1` is left out, and so is what is of no kind.
pub fn in_order(alloc: Global, u: &U) -> Result<U, NoMemory>
    ensures { IfOk result (λ row. row ≡ product_of (ordered (mul_leaves u.now))) }
{
    let gathered = leaves(alloc, u, true)?;
    let mut factors = Vec::with_capacity(alloc, gathered.len())?;
    append(alloc, Kind::Mark, gathered.as_slice(), &mut factors)?;
    append(alloc, Kind::Atom, gathered.as_slice(), &mut factors)?;
    append(alloc, Kind::Squash, gathered.as_slice(), &mut factors)?;
    append(alloc, Kind::Negation, gathered.as_slice(), &mut factors)?;
    product(alloc, factors)
}

// Appends copies of those of the kind.
fn append(alloc: Global, kind: Kind, gathered: &[&U], factors: &mut Vec<U>) -> Result<(), NoMemory>
    ensures { OnOk result (factors.new.items ≡ factors.old.items ++ of_kind kind (terms gathered.now)) }
{
    for factor in gathered {
        if kind_of(factor) == Some(kind) {
            factors.push(factor.copy(alloc)?)?;
        }
    }
    Ok(())
}

/// A sum of terms, in order.
#[tactic(auto, using(crate::proofs::Rows::rows))]
pub fn sum(alloc: Global, parts: Vec<U>) -> Result<U, NoMemory>
    ensures { IfOk result (λ u. u ≡ spec.sum_of parts.items) }
{
    let mut left = parts;
    let mut whole = match left.pop() {
        Some(last) => last,
        None => return Ok(U::Zero),
    };
    while let Some(part) = left.pop() {
        whole = U::Add(Boxed::new(alloc, part)?, Boxed::new(alloc, whole)?);
    }
    Ok(whole)
}

/// A product of factors, in order.
#[tactic(auto, using(crate::proofs::Rows::rows))]
pub fn product(alloc: Global, factors: Vec<U>) -> Result<U, NoMemory>
    ensures { IfOk result (λ u. u ≡ product_of factors.items) }
{
    let mut left = factors;
    let mut whole = match left.pop() {
        Some(last) => last,
        None => return Ok(U::One),
    };
    while let Some(factor) = left.pop() {
        whole = U::Mul(Boxed::new(alloc, factor)?, Boxed::new(alloc, whole)?);
    }
    Ok(whole)
}
