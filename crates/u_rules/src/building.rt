//! The term that a side is, written.
ghost use Rattle.std.specs.Prelude.{◌≡◌, IfOk, slice_get};
ghost use Rattle.u_terms.specs.declared.term.Val.TheVariants as v;
ghost use Rattle.u_rules.specs.Answers.{side_found};
ghost use Rattle.u_rules.specs.Sides.{side_of};
ghost use Rattle.u_rules.specs.Templates.{denote, num_of, term_of, value_of, values_of};
ghost use Rattle.u_rules.specs.Terms as terms;
ghost use Rattle.u_rules.specs.Terms.{◌≐◌, P};

use crate::build::{add, copied, mul, neg, one, pred, put, sq, sum, zero};
use crate::forms::{Side, Template};
use crate::found::Found;
use crate::holes::{copied_value, num, term, value, values};
use crate::rule::Arg;
use crate::tables::{fkey_side, key_side, sum_swap_side};
use std::alloc::{AllocError, Global};
use u_terms::{Boxed, U, Val};

/// The left or, turned, the right side.
pub fn build(alloc: Global, found: &Found<'_>, turned: bool) -> Result<U, AllocError>
    ensures { IfOk result (λ u. u ≡ side_found turned found.now) }
{
    match *found {
        Found::Plain(template, args) => template_side(alloc, template, args, turned),
        Found::SumSwap(outer, inner, body) => sum_swap_side(alloc, outer, inner, body, turned),
        Found::Key(table, key, one, other) => key_side(alloc, table, key, one, other, turned),
        Found::Fkey(fkey, width, row) => fkey_side(alloc, fkey, width, row, turned),
    }
}

fn template_side(
    alloc: Global,
    template: &Template<'_>,
    args: &[Arg],
    turned: bool,
) -> Result<U, AllocError>
    ensures { IfOk result (λ u. u ≡ side_of turned (denote args.now template.now.left) (denote args.now template.now.right)) }
{
    let side = if turned {
        fill(alloc, &template.right, args)?
    } else {
        fill(alloc, &template.left, args)?
    };
    Ok(side.into_inner())
}

fn fill(alloc: Global, side: &Side<'_>, args: &[Arg]) -> Result<Boxed<U>, AllocError>
    ensures { IfOk result (λ u. u ≡ denote args.now side.now) }
{
    match side {
        Side::Zero => zero(alloc),
        Side::One => one(alloc),
        Side::Add(a, b) => add(alloc, fill(alloc, a, args)?, fill(alloc, b, args)?),
        Side::Mul(a, b) => mul(alloc, fill(alloc, a, args)?, fill(alloc, b, args)?),
        Side::Squash(a) => sq(alloc, fill(alloc, a, args)?),
        Side::Not(a) => neg(alloc, fill(alloc, a, args)?),
        Side::Sum(a) => sum(alloc, fill(alloc, a, args)?),
        Side::Hole(i) => hole(alloc, args, *i),
        Side::Put(i, j) => put_hole(alloc, args, *i, *j),
        Side::Eq(i, j) => eq(alloc, args, *i, *j),
        Side::PlaceEq(j) => place_eq(alloc, args, *j),
        Side::Pred(i, j) => pred(alloc, num(args, *i), values(args, *j)),
    }
}

fn hole(alloc: Global, args: &[Arg], i: usize) -> Result<Boxed<U>, AllocError>
    ensures { IfOk result (λ u. u ≡ term_of (slice_get args.now i)) }
{
    match term(args, i) {
        Some(x) => copied(alloc, x),
        None => zero(alloc),
    }
}

fn put_hole(alloc: Global, args: &[Arg], i: usize, j: usize) -> Result<Boxed<U>, AllocError>
    ensures { IfOk result (λ u. u ≡ terms.put (value_of (slice_get args.now j)) (term_of (slice_get args.now i))) }
{
    match (term(args, i), value(args, j)) {
        (Some(f), Some(x)) => put(alloc, f, x),
        (Some(f), None) => put(alloc, f, &Val::Lit(0)),
        (None, Some(x)) => put(alloc, &U::Zero, x),
        (None, None) => put(alloc, &U::Zero, &Val::Lit(0)),
    }
}

fn eq(alloc: Global, args: &[Arg], i: usize, j: usize) -> Result<Boxed<U>, AllocError>
    ensures { IfOk result (λ u. u ≡ (value_of (slice_get args.now i) ≐ value_of (slice_get args.now j))) }
{
    let u = U::Eq(copied_value(alloc, args, i)?, copied_value(alloc, args, j)?);
    Boxed::new(alloc, u)
}

fn place_eq(alloc: Global, args: &[Arg], j: usize) -> Result<Boxed<U>, AllocError>
    ensures { IfOk result (λ u. u ≡ (v.Bound 0 ≐ value_of (slice_get args.now j))) }
{
    let x = copied_value(alloc, args, j)?;
    Boxed::new(alloc, U::Eq(Val::Bound(0), x))
}
