//! Derivations of the bodies of aggregates.
ghost use Rattle.std.specs.Prelude.{◌≡◌, ◌+◌, IfOk, IsTrue};
ghost use Rattle.u_rules.specs.Terms.{◌≐◌};
ghost use Rattle.u_congruence.specs.Congruence.{IsBy};
ghost use Rattle.u_normal.specs.Values.{StandsWithBody};
ghost use Rattle.u_simple.specs.Bodies.{LeadsToBody, RowLeadsToBody};
ghost use Rattle.u_simple.specs.Passes.{IsFrom};

use crate::NoMemory;
use u_congruence::{Derived, closed};
use u_moves::Moves;
use u_normal::then_in_aggregate;
use u_terms::{U, Val, same};

/// The derivation, and then the other one in the body of the aggregate at the end of the path, if that is where the other one begins.
pub fn then_in_body<'f>(
    moves: Moves<'f>,
    whole: Derived<'f>,
    path: &[u32],
    part: Derived<'f>,
) -> Result<Derived<'f>, NoMemory>
    requires whole { IsBy moves.facts.now moves.outs whole }
    requires part { IsBy moves.facts.now (moves.outs + 1) part }
    ensures { IfOk result (IsFrom moves.entry.facts.now moves.entry.outs whole.entry.from) }
{
    let body = closed(moves.alloc, part.get().from(), moves.outs)?;
    if has_body(whole.get().to(), path, body.get()) {
        then_in_aggregate(moves.alloc, whole, path, part)
    } else {
        Ok(whole)
    }
}

// Whether the path leads to an aggregate with this body.
fn has_body(u: &U, path: &[u32], body: &U) -> bool
    ensures { IsTrue result → StandsWithBody path.now body.now u.now }
{
    match u {
        U::Rel(_, values) => row_has_body(values.as_slice(), path, body),
        U::Pred(_, values) => row_has_body(values.as_slice(), path, body),
        U::Eq(a, b) => sides_have_body(a, b, path, body),
        _ => false,
    }
}

// The same of the sides of an equality.
fn sides_have_body(a: &Val, b: &Val, path: &[u32], body: &U) -> bool
    ensures { IsTrue result → StandsWithBody path.now body.now (a.now ≐ b.now) }
{
    match path.split_first() {
        Some((0, rest)) => value_has_body(a, rest, body),
        Some((1, rest)) => value_has_body(b, rest, body),
        _ => false,
    }
}

// The same of a value.
#[cycle(has_body)]
fn value_has_body(value: &Val, path: &[u32], body: &U) -> bool
    ensures { IsTrue result → LeadsToBody body.now path.now value.now }
{
    match value {
        Val::Fun(_, values) => row_has_body(values.as_slice(), path, body),
        Val::Agg(_, found) => path.is_empty() && same(found.get(), body),
        _ => false,
    }
}

// The same of values in a row.
#[cycle(has_body)]
fn row_has_body(values: &[Val], path: &[u32], body: &U) -> bool
    ensures { IsTrue result → RowLeadsToBody body.now path.now values.now }
{
    let Some((index, rest)) = path.split_first() else {
        return false;
    };
    match values.get(*index as usize) {
        Some(value) => value_has_body(value, rest, body),
        None => false,
    }
}
