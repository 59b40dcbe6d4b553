//! The sides of the rules whose rows speak of numbers of sums, of keys and of foreign keys.
ghost use Rattle.std.specs.Prelude.{◌≡◌, ◌∷◌, ◌+◌, ◌<◌, ◌^◌, IfOk};
ghost use Rattle.u_terms.specs.Binding as binding;
ghost use Rattle.u_terms.specs.Products.{product_of};
ghost use Rattle.u_terms.specs.Size.{depth};
ghost use Rattle.u_rules.specs.Sides.{side_of};
ghost use Rattle.u_rules.specs.Terms as terms;
ghost use Rattle.u_rules.specs.Terms.{◌⊗◌, ◌≐◌, R};

use crate::build::{eq, mul, rel};
use crate::closedness::TOO_DEEP;
use std::alloc::{AllocError, Global};
use u_binder::{exchange, sums};
use u_terms::{Boxed, Fkey, List, U, Val, depth};

/// The body under the sums of both groups, exchanged where the right side is asked for. There is no memory for one that is too deep.
pub fn sum_swap_side(
    alloc: Global,
    outer: u32,
    inner: u32,
    body: &U,
    turned: bool,
) -> Result<U, AllocError>
    ensures { IfOk result (λ u. u ≡ side_of turned (binding.sums (outer + inner) body.now) (binding.sums (outer + inner) (terms.turned outer inner body.now))) }
{
    if depth(body).saturating_add(u64::from(outer) + u64::from(inner)) >= TOO_DEEP {
        return Err(AllocError);
    }
    sums(
        alloc,
        outer + inner,
        swapped(alloc, outer, inner, body, turned)?,
    )
}

// The body, its places exchanged where it is turned.
fn swapped(alloc: Global, outer: u32, inner: u32, body: &U, turned: bool) -> Result<U, AllocError>
    requires shallow { depth body.now + outer + inner < 2 ^ 32 }
    ensures { IfOk result (λ u. u ≡ side_of turned body.now (terms.turned outer inner body.now)) }
{
    let mut copy = body.copy(alloc)?;
    if turned {
        exchange(&mut copy, outer, inner);
    }
    Ok(copy)
}

// The value in a column, and `c0` past the last one.
fn value_at(alloc: Global, values: &[Val], at: u32) -> Result<Val, AllocError>
    ensures { IfOk result (λ v. v ≡ terms.column values.now at) }
{
    match values.get(at as usize) {
        Some(value) => value.copy(alloc),
        None => Ok(Val::Lit(0)),
    }
}

fn eq_columns(alloc: Global, s: &[Val], c: u32, t: &[Val], d: u32) -> Result<Boxed<U>, AllocError>
    ensures { IfOk result (λ u. u ≡ (terms.column s.now c ≐ terms.column t.now d)) }
{
    let u = U::Eq(value_at(alloc, s, c)?, value_at(alloc, t, d)?);
    Boxed::new(alloc, u)
}

// The product of this factor and the equalities of columns.
#[cycle(columns_after)]
fn columns_after(
    alloc: Global,
    head: Boxed<U>,
    s: &[Val],
    cs: &[u32],
    t: &[Val],
    ds: &[u32],
) -> Result<Boxed<U>, AllocError>
    ensures { IfOk result (λ u. u ≡ product_of (head ∷ terms.equal_columns s.now cs.now t.now ds.now)) }
{
    match cs {
        [] => Ok(head),
        [c, more @ ..] => match ds {
            [] => Ok(head),
            [d, others @ ..] => {
                let first = eq_columns(alloc, s, *c, t, *d)?;
                let rest = columns_after(alloc, first, s, more, t, others)?;
                mul(alloc, head, rest)
            }
        },
    }
}

// The product of this factor and the equalities of both rows.
#[cycle(rows_after)]
fn rows_after(alloc: Global, head: Boxed<U>, s: &[Val], t: &[Val]) -> Result<Boxed<U>, AllocError>
    ensures { IfOk result (λ u. u ≡ product_of (head ∷ terms.equal_rows s.now t.now)) }
{
    match s {
        [] => Ok(head),
        [a, more @ ..] => match t {
            [] => Ok(head),
            [b, others @ ..] => {
                let first = eq(alloc, a, b)?;
                let rest = rows_after(alloc, first, more, others)?;
                mul(alloc, head, rest)
            }
        },
    }
}

pub fn key_side(
    alloc: Global,
    table: u32,
    key: &[u32],
    one: &[Val],
    other: &[Val],
    turned: bool,
) -> Result<U, AllocError>
    ensures { IfOk result (λ u. u ≡ side_of turned (product_of (R table one.now ∷ (R table other.now ∷ terms.equal_columns one.now key.now other.now key.now))) (product_of (R table one.now ∷ terms.equal_rows one.now other.now))) }
{
    let head = rel(alloc, table, one)?;
    if turned {
        return Ok(rows_after(alloc, head, one, other)?.into_inner());
    }
    let rest = columns_after(alloc, rel(alloc, table, other)?, one, key, other, key)?;
    Ok(U::Mul(head, rest))
}

fn places(alloc: Global, count: u32) -> Result<List<Val>, AllocError>
    ensures { IfOk result (λ all. all ≡ terms.places count) }
{
    let mut all = List::new(alloc);
    for i in 0..count {
        all.push(Val::Bound(count - 1 - i))?;
    }
    Ok(all)
}

pub fn fkey_side(
    alloc: Global,
    fkey: &Fkey,
    width: u32,
    row: &[Val],
    turned: bool,
) -> Result<U, AllocError>
    ensures { IfOk result (λ u. u ≡ side_of turned (R fkey.now.from row.now) (R fkey.now.from row.now ⊗ terms.found_rows width fkey.now row.now)) }
{
    let head = rel(alloc, fkey.from, row)?;
    if !turned {
        return Ok(head.into_inner());
    }
    Ok(U::Mul(head, found_rows(alloc, fkey, width, row)?))
}

fn found_rows(alloc: Global, fkey: &Fkey, width: u32, row: &[Val]) -> Result<Boxed<U>, AllocError>
    ensures { IfOk result (λ u. u ≡ terms.found_rows width fkey.now row.now) }
{
    let places = places(alloc, width)?;
    let body = columns_after(
        alloc,
        rel(alloc, fkey.to, places.as_slice())?,
        places.as_slice(),
        fkey.key.as_slice(),
        row,
        fkey.cols.as_slice(),
    )?;
    Boxed::new(alloc, sums(alloc, width, body.into_inner())?)
}
