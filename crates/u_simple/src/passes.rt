//! Derivations that go through a term from the inside out.
ghost use Rattle.std.specs.Prelude.{◌≡◌, ◌+◌, IfOk};
ghost use Rattle.u_terms.specs.Binding.{opened};
ghost use Rattle.u_rules.specs.Terms.{◌⊕◌, ◌⊗◌, S, neg, sq};
ghost use Rattle.u_moves.specs.Derivations.{IsKnown};
ghost use Rattle.u_moves.specs.Moving.{AreKnownValues, IsKnownValue};
ghost use Rattle.u_congruence.specs.Congruence.{IsBy};
ghost use Rattle.u_simple.specs.Passes.{IsFrom};

use crate::NoMemory;
use crate::bodies::then_in_body;
use crate::points::then_without_point;
use crate::sorting::{then_equality_in_order, then_product_in_order, then_sum_in_order};
use u_congruence::{
    Derived, added, copied, inside, multiplied, negated, opened, squashed, still, summed,
};
use u_moves::Moves;
use u_normal::extended;
use u_terms::{Boxed, U, Val};

/// What is done in each place.
#[derive(Clone, Copy)]
enum Pass {
    Order,
    Points,
}

/// From a term to one in which the parts of each sum and of each product, and the sides of each equality, stand in the order of their codes,
/// and no equality is one of a value with itself, in the bodies of aggregates too.
pub fn in_order<'f>(moves: Moves<'f>, u: &U) -> Result<Derived<'f>, NoMemory>
    requires { IsKnown 0 moves.outs u.now }
    ensures { IfOk result (IsFrom moves.entry.facts.now moves.entry.outs u.now) }
{
    passed(moves, Pass::Order, u)
}

/// From a term to one without sums over the values of a place that one of the factors makes equal to a value from outside, in the bodies
/// of aggregates too.
pub fn without_points<'f>(moves: Moves<'f>, u: &U) -> Result<Derived<'f>, NoMemory>
    requires { IsKnown 0 moves.outs u.now }
    ensures { IfOk result (IsFrom moves.entry.facts.now moves.entry.outs u.now) }
{
    passed(moves, Pass::Points, u)
}

#[cycle(passed)]
fn passed<'f>(moves: Moves<'f>, pass: Pass, u: &U) -> Result<Derived<'f>, NoMemory>
    requires { IsKnown 0 moves.outs u.now }
    ensures { IfOk result (IsFrom moves.entry.facts.now moves.entry.outs u.now) }
{
    match u {
        U::Add(a, b) => passed_sum(moves, pass, a.get(), b.get()),
        U::Mul(a, b) => passed_product(moves, pass, a.get(), b.get()),
        U::Squash(p) => passed_squash(moves, pass, p.get()),
        U::Not(p) => passed_negation(moves, pass, p.get()),
        U::Sum(f) => passed_body(moves, pass, f.get()),
        U::Eq(a, b) => passed_equality(moves, pass, u, a, b),
        U::Rel(_, values) => passed_row(moves, pass, u, values.as_slice()),
        U::Pred(_, values) => passed_row(moves, pass, u, values.as_slice()),
        _ => still_from(moves, u),
    }
}

// The same of a sum.
#[cycle(passed)]
fn passed_sum<'f>(moves: Moves<'f>, pass: Pass, a: &U, b: &U) -> Result<Derived<'f>, NoMemory>
    requires a { IsKnown 0 moves.outs a.now }
    requires b { IsKnown 0 moves.outs b.now }
    ensures { IfOk result (IsFrom moves.entry.facts.now moves.entry.outs (a.now ⊕ b.now)) }
{
    let left = passed_parts(moves, pass, a)?;
    let right = passed_parts(moves, pass, b)?;
    let both = added(moves, left, right)?;
    then_sum(moves, pass, both)
}

// From what is added to the same by parts: the whole is not gone through again.
#[cycle(passed)]
fn passed_parts<'f>(moves: Moves<'f>, pass: Pass, u: &U) -> Result<Derived<'f>, NoMemory>
    requires { IsKnown 0 moves.outs u.now }
    ensures { IfOk result (IsFrom moves.entry.facts.now moves.entry.outs u.now) }
{
    match u {
        U::Add(a, b) => {
            let left = passed_parts(moves, pass, a.get())?;
            let right = passed_parts(moves, pass, b.get())?;
            added_from(moves, left, right)
        }
        _ => passed(moves, pass, u),
    }
}

// The same of a product.
#[cycle(passed)]
fn passed_product<'f>(moves: Moves<'f>, pass: Pass, a: &U, b: &U) -> Result<Derived<'f>, NoMemory>
    requires a { IsKnown 0 moves.outs a.now }
    requires b { IsKnown 0 moves.outs b.now }
    ensures { IfOk result (IsFrom moves.entry.facts.now moves.entry.outs (a.now ⊗ b.now)) }
{
    let left = passed_factors(moves, pass, a)?;
    let right = passed_factors(moves, pass, b)?;
    let both = multiplied(moves, left, right)?;
    then_product(moves, pass, both)
}

// From what is multiplied to the same by factors.
#[cycle(passed)]
fn passed_factors<'f>(moves: Moves<'f>, pass: Pass, u: &U) -> Result<Derived<'f>, NoMemory>
    requires { IsKnown 0 moves.outs u.now }
    ensures { IfOk result (IsFrom moves.entry.facts.now moves.entry.outs u.now) }
{
    match u {
        U::Mul(a, b) => {
            let left = passed_factors(moves, pass, a.get())?;
            let right = passed_factors(moves, pass, b.get())?;
            multiplied_from(moves, left, right)
        }
        _ => passed(moves, pass, u),
    }
}

// The same of a squash.
#[cycle(passed)]
fn passed_squash<'f>(moves: Moves<'f>, pass: Pass, p: &U) -> Result<Derived<'f>, NoMemory>
    requires { IsKnown 0 moves.outs p.now }
    ensures { IfOk result (IsFrom moves.entry.facts.now moves.entry.outs (sq p.now)) }
{
    let part = passed(moves, pass, p)?;
    squashed(moves, part)
}

// The same of a negation.
#[cycle(passed)]
fn passed_negation<'f>(moves: Moves<'f>, pass: Pass, p: &U) -> Result<Derived<'f>, NoMemory>
    requires { IsKnown 0 moves.outs p.now }
    ensures { IfOk result (IsFrom moves.entry.facts.now moves.entry.outs (neg p.now)) }
{
    let part = passed(moves, pass, p)?;
    negated(moves, part)
}

// The same of a sum over all values.
#[cycle(passed)]
fn passed_body<'f>(moves: Moves<'f>, pass: Pass, f: &U) -> Result<Derived<'f>, NoMemory>
    requires { IsKnown 1 moves.outs f.now }
    ensures { IfOk result (IsFrom moves.entry.facts.now moves.entry.outs (S f.now)) }
{
    let part = passed_opened(moves, pass, f)?;
    let sum = summed(moves, part)?;
    then_over_values(moves, pass, sum)
}

// The same of a body, with the name `outs` for its place.
#[cycle(passed)]
fn passed_opened<'f>(moves: Moves<'f>, pass: Pass, f: &U) -> Result<Derived<'f>, NoMemory>
    requires { IsKnown 1 moves.outs f.now }
    ensures { IfOk result (IsFrom moves.entry.facts.now (moves.entry.outs + 1) (opened f.now moves.entry.outs)) }
{
    let inner = inside(moves)?;
    let body = Boxed::new(moves.alloc, opened(moves.alloc, f, moves.outs)?)?;
    passed(inner, pass, body.get())
}

// The same of a term with these values.
#[cycle(passed)]
fn passed_row<'f>(
    moves: Moves<'f>,
    pass: Pass,
    u: &U,
    values: &[Val],
) -> Result<Derived<'f>, NoMemory>
    requires known { IsKnown 0 moves.outs u.now }
    requires values { AreKnownValues moves.outs values.now }
    ensures { IfOk result (IsFrom moves.entry.facts.now moves.entry.outs u.now) }
{
    let whole = still_from(moves, u)?;
    passed_values(moves, pass, whole, &[], values)
}

// The same of an equality of these values.
#[cycle(passed)]
fn passed_equality<'f>(
    moves: Moves<'f>,
    pass: Pass,
    u: &U,
    a: &Val,
    b: &Val,
) -> Result<Derived<'f>, NoMemory>
    requires known { IsKnown 0 moves.outs u.now }
    requires a { IsKnownValue moves.outs a.now }
    requires b { IsKnownValue moves.outs b.now }
    ensures { IfOk result (IsFrom moves.entry.facts.now moves.entry.outs u.now) }
{
    let whole = still_from(moves, u)?;
    let half = passed_value(moves, pass, whole, &[], 0, a)?;
    let both = passed_value(moves, pass, half, &[], 1, b)?;
    then_equality(moves, pass, both)
}

// The derivation, and then the bodies of the aggregates in these values, which stand in its last term as arguments at the end of the path.
#[cycle(passed)]
fn passed_values<'f>(
    moves: Moves<'f>,
    pass: Pass,
    whole: Derived<'f>,
    path: &[u32],
    values: &[Val],
) -> Result<Derived<'f>, NoMemory>
    requires by { IsBy moves.facts.now moves.outs whole }
    requires known { AreKnownValues moves.outs values.now }
    ensures { IfOk result (IsFrom moves.entry.facts.now moves.entry.outs whole.entry.from) }
{
    let mut done = whole;
    for (index, value) in values.iter().enumerate() {
        done = passed_value(moves, pass, done, path, index, value)?;
    }
    Ok(done)
}

// The same of one such value, which stands as this argument.
#[cycle(passed)]
fn passed_value<'f>(
    moves: Moves<'f>,
    pass: Pass,
    whole: Derived<'f>,
    path: &[u32],
    index: usize,
    value: &Val,
) -> Result<Derived<'f>, NoMemory>
    requires by { IsBy moves.facts.now moves.outs whole }
    requires known { IsKnownValue moves.outs value.now }
    ensures { IfOk result (IsFrom moves.entry.facts.now moves.entry.outs whole.entry.from) }
{
    match value {
        Val::Fun(_, values) => {
            let place = extended(moves.alloc, path, index)?;
            passed_values(moves, pass, whole, place.as_slice(), values.as_slice())
        }
        Val::Agg(_, body) => {
            let place = extended(moves.alloc, path, index)?;
            let part = passed_opened(moves, pass, body.get())?;
            then_in_body(moves, whole, place.as_slice(), part)
        }
        _ => Ok(whole),
    }
}

fn then_equality<'f>(moves: Moves<'f>, pass: Pass, d: Derived<'f>) -> Result<Derived<'f>, NoMemory>
    requires { IsBy moves.facts.now moves.outs d }
    ensures { IfOk result (IsFrom moves.entry.facts.now moves.entry.outs d.entry.from) }
{
    match pass {
        Pass::Order => then_equality_in_order(moves, d),
        Pass::Points => Ok(d),
    }
}

fn then_sum<'f>(moves: Moves<'f>, pass: Pass, d: Derived<'f>) -> Result<Derived<'f>, NoMemory>
    requires { IsBy moves.facts.now moves.outs d }
    ensures { IfOk result (IsFrom moves.entry.facts.now moves.entry.outs d.entry.from) }
{
    match pass {
        Pass::Order => then_sum_in_order(moves, d),
        Pass::Points => Ok(d),
    }
}

fn then_product<'f>(moves: Moves<'f>, pass: Pass, d: Derived<'f>) -> Result<Derived<'f>, NoMemory>
    requires { IsBy moves.facts.now moves.outs d }
    ensures { IfOk result (IsFrom moves.entry.facts.now moves.entry.outs d.entry.from) }
{
    match pass {
        Pass::Order => then_product_in_order(moves, d),
        Pass::Points => Ok(d),
    }
}

fn then_over_values<'f>(
    moves: Moves<'f>,
    pass: Pass,
    d: Derived<'f>,
) -> Result<Derived<'f>, NoMemory>
    requires { IsBy moves.facts.now moves.outs d }
    ensures { IfOk result (IsFrom moves.entry.facts.now moves.entry.outs d.entry.from) }
{
    match pass {
        Pass::Order => Ok(d),
        Pass::Points => then_without_point(moves, d),
    }
}

fn still_from<'f>(moves: Moves<'f>, u: &U) -> Result<Derived<'f>, NoMemory>
    requires { IsKnown 0 moves.outs u.now }
    ensures { IfOk result (IsFrom moves.entry.facts.now moves.entry.outs u.now) }
{
    still(moves, copied(moves.alloc, u)?)
}

fn added_from<'f>(
    moves: Moves<'f>,
    left: Derived<'f>,
    right: Derived<'f>,
) -> Result<Derived<'f>, NoMemory>
    requires left { IsBy moves.facts.now moves.outs left }
    requires right { IsBy moves.facts.now moves.outs right }
    ensures { IfOk result (IsFrom moves.entry.facts.now moves.entry.outs (left.entry.from ⊕ right.entry.from)) }
{
    added(moves, left, right)
}

fn multiplied_from<'f>(
    moves: Moves<'f>,
    left: Derived<'f>,
    right: Derived<'f>,
) -> Result<Derived<'f>, NoMemory>
    requires left { IsBy moves.facts.now moves.outs left }
    requires right { IsBy moves.facts.now moves.outs right }
    ensures { IfOk result (IsFrom moves.entry.facts.now moves.entry.outs (left.entry.from ⊗ right.entry.from)) }
{
    multiplied(moves, left, right)
}
