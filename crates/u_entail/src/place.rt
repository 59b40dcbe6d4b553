//! Values put at places of marks and of equalities.
ghost use Rattle.std.specs.Prelude.{◌≡◌, ◌+◌, ◌<◌, ◌∷◌, ◌++◌, IfOk, OnOk, drop, length, take};
ghost use Rattle.u_terms.specs.declared.term.U.TheVariants as u;
ghost use Rattle.u_entail.specs.Spots.{HasPointSpot, HasSpot, HasValueSpot, IsPointPut, IsPut, IsValuePut};

use crate::NoMemory;
use std::alloc::Global;
use u_terms::{Boxed, List, U, Val};

/// The term with the value at the place. A negation is no step on the way to a place.
pub fn put_at(alloc: Global, term: &U, place: &[usize], value: &Val) -> Result<U, NoMemory>
    requires { HasSpot term.now place.now }
    ensures { IfOk result (IsPut term.now place.now value.now) }
{
    match term {
        U::Pred(symbol, points) => {
            let points = put_in_points(alloc, points.as_slice(), place, value)?;
            Ok(U::Pred(*symbol, points))
        }
        U::Eq(a, b) => put_in_sides(alloc, a, b, place, value),
        U::Not(inner) => {
            let inner = put_at(alloc, inner.get(), place, value)?;
            Ok(U::Not(Boxed::new(alloc, inner)?))
        }
        _ => unreachable!(),
    }
}

fn put_in_sides(
    alloc: Global,
    a: &Val,
    b: &Val,
    place: &[usize],
    value: &Val,
) -> Result<U, NoMemory>
    requires { HasSpot (u.Eq a.now b.now) place.now }
    ensures { IfOk result (IsPut (u.Eq a.now b.now) place.now value.now) }
{
    if place[0] == 0 {
        let left = put_in_value(alloc, a, &place[1..], value)?;
        Ok(U::Eq(left, b.copy(alloc)?))
    } else {
        let right = put_in_value(alloc, b, &place[1..], value)?;
        Ok(U::Eq(a.copy(alloc)?, right))
    }
}

#[cycle(putting)]
fn put_in_value(alloc: Global, old: &Val, place: &[usize], value: &Val) -> Result<Val, NoMemory>
    requires { HasValueSpot old.now place.now }
    ensures { IfOk result (IsValuePut old.now place.now value.now) }
{
    if place.is_empty() {
        return value.copy(alloc);
    }
    match old {
        Val::Fun(symbol, args) => {
            let args = put_in_points(alloc, args.as_slice(), place, value)?;
            Ok(Val::Fun(*symbol, args))
        }
        _ => unreachable!(),
    }
}

#[cycle(putting)]
fn put_in_points(
    alloc: Global,
    points: &[Val],
    place: &[usize],
    value: &Val,
) -> Result<List<Val>, NoMemory>
    requires { HasPointSpot points.now place.now }
    ensures { IfOk result (IsPointPut points.now place.now value.now) }
{
    let at = place[0];
    let point = put_in_value(alloc, &points[at], &place[1..], value)?;
    with_item(alloc, points, at, point)
}

// The values with another one for this one.
fn with_item(alloc: Global, values: &[Val], at: usize, item: Val) -> Result<List<Val>, NoMemory>
    requires { at < length values.now }
    ensures { IfOk result (λ list. list ≡ take at values.now ++ item ∷ drop (at + 1) values.now) }
{
    let mut list = Vec::with_capacity(alloc, values.len())?;
    push_copies(alloc, &mut list, &values[..at])?;
    list.push(item)?;
    push_copies(alloc, &mut list, &values[at + 1..])?;
    Ok(List::from_vec(list))
}

fn push_copies(alloc: Global, list: &mut Vec<Val>, values: &[Val]) -> Result<(), NoMemory>
    ensures { OnOk result (list.new.items ≡ list.old.items ++ values.now) }
{
    for value in values {
        list.push(value.copy(alloc)?)?;
    }
    Ok(())
}
