//! Comparison of a term in place with a body at whose places something else stands and whose names are closed, without writing it.
ghost use Rattle.std.specs.Prelude.{◌≡◌, ◌↔◌, ◌+◌, ◌<◌, ◌≤◌, ◌^◌, IsTrue, map};
ghost use Rattle.u_terms.specs.Binding.{mapped, mapped_value, place_for_names, same_name, same_place};
ghost use Rattle.u_binder.specs.Changes.{moved};
ghost use Rattle.u_rules.specs.Answers.{place_for};
ghost use Rattle.u_terms.specs.Size.{depth, list_depth, value_depth};

use crate::closed_same::same_values;
use u_terms::{U, Val};

/// What is done at the dangling places of a body.
#[derive(Clone, Copy)]
pub enum Change<'a> {
    /// The value is put at place 0.
    Put(&'a Val),
    /// The places of two groups of sums are exchanged: how many are in the outer and in the inner one.
    Exchange(u32, u32),
}

#[cycle(same_changed)]
#[tactic(auto, using(u_terms::proofs::Sizes::depth_at, u_terms::proofs::Mapped::mapped_at))]
pub fn same_changed(
    f: &U,
    change: Change<'_>,
    inside: u32,
    u: &U,
    first: u32,
    count: u32,
    binders: u32,
) -> bool
    requires within { inside ≤ binders }
    requires shallow { depth u.now + binders + count ≤ 2 ^ 32 }
    requires fits { first + count < 2 ^ 32 }
    ensures { IsTrue result ↔ (u.now ≡ mapped same_place (place_for_names first count) binders (mapped (place_for change.entry) same_name inside f.now)) }
{
    match f {
        U::Zero => matches!(u, U::Zero),
        U::One => matches!(u, U::One),
        U::Add(a, b) => match u {
            U::Add(x, y) => {
                same_changed(a.get(), change, inside, x.get(), first, count, binders)
                    && same_changed(b.get(), change, inside, y.get(), first, count, binders)
            }
            _ => false,
        },
        U::Mul(a, b) => match u {
            U::Mul(x, y) => {
                same_changed(a.get(), change, inside, x.get(), first, count, binders)
                    && same_changed(b.get(), change, inside, y.get(), first, count, binders)
            }
            _ => false,
        },
        U::Squash(a) => match u {
            U::Squash(x) => same_changed(a.get(), change, inside, x.get(), first, count, binders),
            _ => false,
        },
        U::Not(a) => match u {
            U::Not(x) => same_changed(a.get(), change, inside, x.get(), first, count, binders),
            _ => false,
        },
        U::Sum(a) => match u {
            U::Sum(x) => same_changed(
                a.get(),
                change,
                inside + 1,
                x.get(),
                first,
                count,
                binders + 1,
            ),
            _ => false,
        },
        U::Rel(i, a) => match u {
            U::Rel(j, x) => {
                i == j
                    && same_changed_list(
                        a.as_slice(),
                        change,
                        inside,
                        x.as_slice(),
                        first,
                        count,
                        binders,
                    )
            }
            _ => false,
        },
        U::Eq(a, b) => match u {
            U::Eq(x, y) => {
                same_changed_value(a, change, inside, x, first, count, binders)
                    && same_changed_value(b, change, inside, y, first, count, binders)
            }
            _ => false,
        },
        U::Pred(i, a) => match u {
            U::Pred(j, x) => {
                i == j
                    && same_changed_list(
                        a.as_slice(),
                        change,
                        inside,
                        x.as_slice(),
                        first,
                        count,
                        binders,
                    )
            }
            _ => false,
        },
    }
}

#[cycle(same_changed)]
#[tactic(auto, using(u_terms::proofs::Sizes::depth_at, u_terms::proofs::Mapped::mapped_at))]
fn same_changed_value(
    f: &Val,
    change: Change<'_>,
    inside: u32,
    v: &Val,
    first: u32,
    count: u32,
    binders: u32,
) -> bool
    requires within { inside ≤ binders }
    requires shallow { value_depth v.now + binders + count ≤ 2 ^ 32 }
    requires fits { first + count < 2 ^ 32 }
    ensures { IsTrue result ↔ (v.now ≡ mapped_value same_place (place_for_names first count) binders (mapped_value (place_for change.entry) same_name inside f.now)) }
{
    match f {
        Val::Bound(place) => { is_changed(*place, change, inside, v, first, count, binders) }
        Val::Free(_) => same_values(v, f, first, count, binders),
        Val::Lit(_) => same_values(v, f, first, count, binders),
        Val::Fun(i, a) => match v {
            Val::Fun(j, x) => {
                i == j
                    && same_changed_list(
                        a.as_slice(),
                        change,
                        inside,
                        x.as_slice(),
                        first,
                        count,
                        binders,
                    )
            }
            _ => false,
        },
        Val::Agg(i, a) => match v {
            Val::Agg(j, x) => {
                i == j
                    && same_changed(
                        a.get(),
                        change,
                        inside + 1,
                        x.get(),
                        first,
                        count,
                        binders + 1,
                    )
            }
            _ => false,
        },
    }
}

// Whether a value in place is what stands at this place of the body.
#[tactic(auto, using(u_terms::proofs::Mapped::mapped_at))]
fn is_changed(
    place: u32,
    change: Change<'_>,
    inside: u32,
    v: &Val,
    first: u32,
    count: u32,
    binders: u32,
) -> bool
    requires shallow { value_depth v.now + binders + count ≤ 2 ^ 32 }
    requires fits { first + count < 2 ^ 32 }
    ensures { IsTrue result ↔ (v.now ≡ mapped_value same_place (place_for_names first count) binders (place_for change.entry inside place)) }
{
    match change {
        Change::Put(e) => {
            if place == inside {
                same_values(v, e, first, count, binders)
            } else {
                same_values(v, &Val::Bound(place), first, count, binders)
            }
        }
        Change::Exchange(outer, inner) => match v {
            Val::Bound(found) => u64::from(*found) == exchanged_place(outer, inner, inside, place),
            _ => false,
        },
    }
}

// Where a place of the body stands after both groups are exchanged, under so many binders of its own.
fn exchanged_place(outer: u32, inner: u32, inside: u32, place: u32) -> u64
    ensures { result ≡ moved outer inner inside place }
{
    let (outer, inner) = (u64::from(outer), u64::from(inner));
    let (inside, place) = (u64::from(inside), u64::from(place));
    if place < inside {
        place
    } else if place < inside + inner {
        place + outer
    } else if place < inside + inner + outer {
        place - inner
    } else {
        place
    }
}

#[cycle(same_changed)]
fn same_changed_list(
    a: &[Val],
    change: Change<'_>,
    inside: u32,
    b: &[Val],
    first: u32,
    count: u32,
    binders: u32,
) -> bool
    requires within { inside ≤ binders }
    requires shallow { list_depth b.now + binders + count ≤ 2 ^ 32 }
    requires fits { first + count < 2 ^ 32 }
    ensures { IsTrue result ↔ (b.now ≡ map (mapped_value same_place (place_for_names first count) binders) (map (mapped_value (place_for change.entry) same_name inside) a.now)) }
{
    if a.len() != b.len() {
        return false;
    }
    for i in 0..b.len() {
        if !same_changed_value(&a[i], change, inside, &b[i], first, count, binders) {
            return false;
        }
    }
    true
}
