//! Factors taken out of products.
ghost use Rattle.std.specs.Prelude.{◌≡◌, ◌↔◌, IfOk, IsTrue, MatchOption};
ghost use Rattle.u_rules.specs.Terms.{◌⊗◌, I};
ghost use Rattle.normal_form.specs.Kinds as spec;
ghost use Rattle.u_normal.specs.Taking.{HasNone, IsTaken};

use crate::NoMemory;
use normal_form::{Kind, kind_of};
use std::alloc::Global;
use u_congruence::copied;
use u_terms::{Boxed, U};

/// A factor, and the product without it: where the factor stood there is `1`.
#[derive(Drop)]
pub struct Split {
    pub rest: Boxed<U>,
    pub part: Boxed<U>,
}

/// The first factor of the kind, or, for none, the first one that is a sum or `0`.
pub fn taken(alloc: Global, kind: Option<Kind>, u: &U) -> Result<Option<Split>, NoMemory>
    ensures { IfOk result (λ found. MatchOption found (HasNone kind u.now) (IsTaken kind u.now)) }
{
    match u {
        U::One => Ok(None),
        U::Mul(a, b) => match taken(alloc, kind, a.get())? {
            Some(found) => Ok(Some(before(alloc, found, b.get())?)),
            None => match taken(alloc, kind, b.get())? {
                Some(found) => Ok(Some(behind(alloc, a.get(), found)?)),
                None => Ok(None),
            },
        },
        _ if is_of(u, kind) => Ok(Some(alone(alloc, u)?)),
        _ => Ok(None),
    }
}

// Whether the factor is of the kind.
fn is_of(u: &U, kind: Option<Kind>) -> bool
    ensures { IsTrue result ↔ (spec.kind_of u.now ≡ kind) }
{
    kind_of(u) == kind
}

// The only factor.
fn alone(alloc: Global, u: &U) -> Result<Split, NoMemory>
    ensures rest { IfOk result (λ whole. whole.rest ≡ I) }
    ensures part { IfOk result (λ whole. whole.part ≡ u.now) }
{
    Ok(Split {
        rest: Boxed::new(alloc, U::One)?,
        part: copied(alloc, u)?,
    })
}

// A factor of the first part of a product.
fn before(alloc: Global, found: Split, b: &U) -> Result<Split, NoMemory>
    ensures rest { IfOk result (λ whole. whole.rest ≡ found.rest ⊗ b.now) }
    ensures part { IfOk result (λ whole. whole.part ≡ found.part) }
{
    let b = copied(alloc, b)?;
    Ok(Split {
        rest: Boxed::new(alloc, U::Mul(found.rest, b))?,
        part: found.part,
    })
}

// A factor of the second part of a product.
fn behind(alloc: Global, a: &U, found: Split) -> Result<Split, NoMemory>
    ensures rest { IfOk result (λ whole. whole.rest ≡ a.now ⊗ found.rest) }
    ensures part { IfOk result (λ whole. whole.part ≡ found.part) }
{
    let a = copied(alloc, a)?;
    Ok(Split {
        rest: Boxed::new(alloc, U::Mul(a, found.rest))?,
        part: found.part,
    })
}
