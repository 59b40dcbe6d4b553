//! Sums over the values of a place that a factor makes equal to a value from outside.
ghost use Rattle.std.specs.Prelude.{◌≡◌, ◌↔◌, ◌+◌, ◌<◌, IfOk, IfSome, IsTrue};
ghost use Rattle.u_terms.specs.Binding.{closed_at, opened};
ghost use Rattle.u_terms.specs.Names.{IsFreeBelowValue};
ghost use Rattle.u_terms.specs.declared.term.Val.TheVariants as v;
ghost use Rattle.u_rules.specs.Terms.{◌⊗◌, ◌≐◌, I, S};
ghost use Rattle.u_moves.specs.Derivations.{IsKnown};
ghost use Rattle.u_moves.specs.Moving.{IsKnownValue};
ghost use Rattle.u_congruence.specs.Congruence.{IsBy, IsFromTo};
ghost use Rattle.u_normal.specs.Taking.{Takes};
ghost use Rattle.u_simple.specs.Passes.{IsFrom};
ghost use Rattle.u_simple.specs.Points.{IsPoint};
ghost use Rattle.u_simple.specs.Sums.{HasSide, HasSums};

use crate::NoMemory;
use crate::steps::{equality, products_rearranged, turned_round};
use crate::sums::{inside_sums, sums_of};
use std::alloc::Global;
use u_binder::value_free_below;
use u_congruence::{Derived, closed, copied, inside, joined, multiplied, opened, still, summed};
use u_moves::Moves;
use u_terms::{Boxed, U, Val};

/// The most sums that a step exchanges.
const MOST_SUMS: u32 = 2_048;

/// What a factor says of a name, and the other factors.
#[derive(Drop)]
pub struct Point {
    /// The value that the name equals.
    pub value: Val,
    /// Whether the name is the second side of the equality.
    pub turned: bool,
    pub rest: Boxed<U>,
}

/// The derivation, and then, where its last term is a sum over the values of such a place, the sum's body with the value in the place.
pub fn then_without_point<'f>(moves: Moves<'f>, d: Derived<'f>) -> Result<Derived<'f>, NoMemory>
    requires { IsBy moves.facts.now moves.outs d }
    ensures { IfOk result (IsFrom moves.entry.facts.now moves.entry.outs d.entry.from) }
{
    match reduced(moves, d.get().to())? {
        Some(step) => joined(moves.alloc, d, step),
        None => Ok(d),
    }
}

// From a sum over the values of such a place to its body with the value there.
fn reduced<'f>(moves: Moves<'f>, u: &U) -> Result<Option<Derived<'f>>, NoMemory>
    requires { IsKnown 0 moves.outs u.now }
    ensures { IfOk result (λ found. IfSome found (IsFrom moves.entry.facts.now moves.entry.outs u.now)) }
{
    match u {
        U::Sum(f) => reduced_sum(moves, f.get()),
        _ => Ok(None),
    }
}

// The same of the sum of `f`, where such a factor may stand in it: the sum goes inside the other ones first.
fn reduced_sum<'f>(moves: Moves<'f>, f: &U) -> Result<Option<Derived<'f>>, NoMemory>
    requires { IsKnown 1 moves.outs f.now }
    ensures { IfOk result (λ found. IfSome found (IsFrom moves.entry.facts.now moves.entry.outs (S f.now))) }
{
    match sums_of(f, MOST_SUMS - 1) {
        Some(count) if has_side(f, count) => moved_inward(moves, f, count),
        _ => Ok(None),
    }
}

// The same: the sum goes inside so many other ones first.
fn moved_inward<'f>(moves: Moves<'f>, f: &U, count: u32) -> Result<Option<Derived<'f>>, NoMemory>
    requires known { IsKnown 1 moves.outs f.now }
    requires sums { HasSums count f.now }
    requires few { count < 2048 }
    ensures { IfOk result (λ found. IfSome found (IsFrom moves.entry.facts.now moves.entry.outs (S f.now))) }
{
    if count == 0 {
        return at_product(moves, f);
    }
    let body = inside_sums(f, count).copy(moves.alloc)?;
    let inward = Boxed::new(moves.alloc, moves.sum_swap(1, count, body)?)?;
    match at_depth(moves, count, inward.get().to())? {
        Some(step) => Ok(Some(joined(moves.alloc, inward, step)?)),
        None => Ok(None),
    }
}

// The same of a term that begins with one sum more than so many.
#[cycle(at_depth)]
fn at_depth<'f>(moves: Moves<'f>, count: u32, u: &U) -> Result<Option<Derived<'f>>, NoMemory>
    requires { IsKnown 0 moves.outs u.now }
    ensures { IfOk result (λ found. IfSome found (IsFrom moves.entry.facts.now moves.entry.outs u.now)) }
{
    match u {
        U::Sum(f) if count == 0 => at_product(moves, f.get()),
        U::Sum(f) => in_body(moves, count - 1, f.get()),
        _ => Ok(None),
    }
}

#[cycle(at_depth)]
fn in_body<'f>(moves: Moves<'f>, count: u32, f: &U) -> Result<Option<Derived<'f>>, NoMemory>
    requires { IsKnown 1 moves.outs f.now }
    ensures { IfOk result (λ found. IfSome found (IsFrom moves.entry.facts.now moves.entry.outs (S f.now))) }
{
    let inner = inside(moves)?;
    let body = Boxed::new(moves.alloc, opened(moves.alloc, f, moves.outs)?)?;
    match at_depth(inner, count, body.get())? {
        Some(part) => Ok(Some(summed(moves, part)?)),
        None => Ok(None),
    }
}

// From the sum of a product, one of whose factors says what value the place has.
fn at_product<'f>(moves: Moves<'f>, f: &U) -> Result<Option<Derived<'f>>, NoMemory>
    requires { IsKnown 1 moves.outs f.now }
    ensures { IfOk result (λ found. IfSome found (IsFrom moves.entry.facts.now moves.entry.outs (S f.now))) }
{
    let body = Boxed::new(moves.alloc, opened(moves.alloc, f, moves.outs)?)?;
    match point_in(moves.alloc, moves.outs, body.get())? {
        Some(point) => Ok(Some(replaced(moves, f, &point)?)),
        None => Ok(None),
    }
}

// The value stands in the place.
fn replaced<'f>(moves: Moves<'f>, f: &U, point: &Point) -> Result<Derived<'f>, NoMemory>
    requires known { IsKnown 1 moves.outs f.now }
    requires point { IsPoint moves.outs (opened f.now moves.outs) point.now }
    ensures { IfOk result (IsFrom moves.entry.facts.now moves.entry.outs (S f.now)) }
{
    let front = fronted(moves, f, point)?;
    let sum = summed(moves, front)?;
    then_put(moves, sum, point)
}

// The equality comes before the other factors of the opened body.
fn fronted<'f>(moves: Moves<'f>, f: &U, point: &Point) -> Result<Derived<'f>, NoMemory>
    requires known { IsKnown 1 moves.outs f.now }
    requires point { IsPoint moves.outs (opened f.now moves.outs) point.now }
    ensures { IfOk result (IsFromTo moves.entry.facts.now (moves.entry.outs + 1) (opened f.now moves.entry.outs) ((v.Free moves.entry.outs ≐ point.now.value) ⊗ point.now.rest)) }
{
    let inner = inside(moves)?;
    let body = Boxed::new(moves.alloc, opened(moves.alloc, f, moves.outs)?)?;
    let name = Val::Free(moves.outs);
    if point.turned {
        let front = equation_first(inner, body.get(), &point.value, &name, point.rest.get())?;
        then_turned(inner, front, &point.value, &name, point.rest.get())
    } else {
        equation_first(inner, body.get(), &name, &point.value, point.rest.get())
    }
}

// An equality comes before the other factors.
fn equation_first<'f>(
    moves: Moves<'f>,
    u: &U,
    a: &Val,
    b: &Val,
    rest: &U,
) -> Result<Derived<'f>, NoMemory>
    requires known { IsKnown 0 moves.outs u.now }
    requires takes { Takes u.now rest.now (a.now ≐ b.now) }
    ensures { IfOk result (IsFromTo moves.entry.facts.now moves.entry.outs u.now ((a.now ≐ b.now) ⊗ rest.now)) }
{
    let equality = equality(moves.alloc, a, b)?;
    let rest = copied(moves.alloc, rest)?;
    let to = Boxed::new(moves.alloc, U::Mul(equality, rest))?;
    products_rearranged(moves, u, to.get())
}

// The derivation, and then the sides of the equality change places.
fn then_turned<'f>(
    moves: Moves<'f>,
    d: Derived<'f>,
    a: &Val,
    b: &Val,
    rest: &U,
) -> Result<Derived<'f>, NoMemory>
    requires by { IsBy moves.facts.now moves.outs d }
    requires known { IsKnown 0 moves.outs ((a.now ≐ b.now) ⊗ rest.now) }
    requires to { d.to ≡ (a.now ≐ b.now) ⊗ rest.now }
    ensures { IfOk result (IsFromTo moves.entry.facts.now moves.entry.outs d.entry.from ((b.now ≐ a.now) ⊗ rest.now)) }
{
    let turned = beside(moves, a, b, rest)?;
    joined(moves.alloc, d, turned)
}

// The sides of an equality beside another factor change places.
fn beside<'f>(moves: Moves<'f>, a: &Val, b: &Val, rest: &U) -> Result<Derived<'f>, NoMemory>
    requires known { IsKnown 0 moves.outs ((a.now ≐ b.now) ⊗ rest.now) }
    ensures { IfOk result (IsFromTo moves.entry.facts.now moves.entry.outs ((a.now ≐ b.now) ⊗ rest.now) ((b.now ≐ a.now) ⊗ rest.now)) }
{
    let turned = turned_round(moves, a, b)?;
    let stays = still(moves, copied(moves.alloc, rest)?)?;
    multiplied(moves, turned, stays)
}

// The derivation, and then the sum over one value becomes the body with it.
fn then_put<'f>(moves: Moves<'f>, d: Derived<'f>, point: &Point) -> Result<Derived<'f>, NoMemory>
    requires by { IsBy moves.facts.now moves.outs d }
    requires value { IsKnownValue moves.outs point.now.value }
    requires rest { IsKnown 0 (moves.outs + 1) point.now.rest }
    requires to { d.to ≡ S ((v.Bound 0 ≐ point.now.value) ⊗ closed_at point.now.rest moves.outs) }
    ensures { IfOk result (IsFrom moves.entry.facts.now moves.entry.outs d.entry.from) }
{
    let body = closed(moves.alloc, point.rest.get(), moves.outs)?;
    let value = point.value.copy(moves.alloc)?;
    let step = Boxed::new(moves.alloc, moves.sum_point(value, body.into_inner())?)?;
    joined(moves.alloc, d, step)
}

// The first factor that says what value the name has, one without the name and all later ones.
#[cycle(point_in)]
fn point_in(alloc: Global, name: u32, u: &U) -> Result<Option<Point>, NoMemory>
    ensures { IfOk result (λ found. IfSome found (IsPoint name u.now)) }
{
    match u {
        U::Mul(a, b) => match point_in(alloc, name, a.get())? {
            Some(found) => Ok(Some(before(alloc, found, b.get())?)),
            None => match point_in(alloc, name, b.get())? {
                Some(found) => Ok(Some(behind(alloc, a.get(), found)?)),
                None => Ok(None),
            },
        },
        U::Eq(a, b) if says(a, b, name) => Ok(Some(alone(alloc, b, false)?)),
        U::Eq(a, b) if says(b, a, name) => Ok(Some(alone(alloc, a, true)?)),
        _ => Ok(None),
    }
}

// Whether the first value is the name, and the second has neither it nor a later one.
fn says(a: &Val, b: &Val, name: u32) -> bool
    ensures { IsTrue result ↔ (a.now ≡ v.Free name × IsFreeBelowValue name b.now) }
{
    match a {
        Val::Free(other) => *other == name && value_free_below(b, u64::from(name)),
        _ => false,
    }
}

// The only factor.
fn alone(alloc: Global, value: &Val, turned: bool) -> Result<Point, NoMemory>
    ensures value { IfOk result (λ point. point.value ≡ value.now) }
    ensures turned { IfOk result (λ point. point.turned ≡ turned) }
    ensures rest { IfOk result (λ point. point.rest ≡ I) }
{
    Ok(Point {
        value: value.copy(alloc)?,
        turned,
        rest: Boxed::new(alloc, U::One)?,
    })
}

// A factor of the first part of a product.
fn before(alloc: Global, found: Point, b: &U) -> Result<Point, NoMemory>
    ensures value { IfOk result (λ point. point.value ≡ found.value) }
    ensures turned { IfOk result (λ point. point.turned ≡ found.turned) }
    ensures rest { IfOk result (λ point. point.rest ≡ found.rest ⊗ b.now) }
{
    let b = copied(alloc, b)?;
    Ok(Point {
        value: found.value,
        turned: found.turned,
        rest: Boxed::new(alloc, U::Mul(found.rest, b))?,
    })
}

// A factor of the second part of a product.
fn behind(alloc: Global, a: &U, found: Point) -> Result<Point, NoMemory>
    ensures value { IfOk result (λ point. point.value ≡ found.value) }
    ensures turned { IfOk result (λ point. point.turned ≡ found.turned) }
    ensures rest { IfOk result (λ point. point.rest ≡ a.now ⊗ found.rest) }
{
    let a = copied(alloc, a)?;
    Ok(Point {
        value: found.value,
        turned: found.turned,
        rest: Boxed::new(alloc, U::Mul(a, found.rest))?,
    })
}

// Whether an equality inside so many sums has the place around them as a side.
fn has_side(u: &U, count: u32) -> bool
    ensures { IsTrue result ↔ HasSide count u.now }
{
    match u {
        U::Sum(f) => has_side(f.get(), count),
        U::Mul(a, b) => has_side(a.get(), count) || has_side(b.get(), count),
        U::Eq(a, b) => is_place(a, count) || is_place(b, count),
        _ => false,
    }
}

fn is_place(value: &Val, place: u32) -> bool
    ensures { IsTrue result ↔ (value.now ≡ v.Bound place) }
{
    matches!(value, Val::Bound(found) if *found == place)
}
