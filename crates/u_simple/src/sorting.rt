//! Parts in order.
ghost use Rattle.std.specs.Prelude.{◌≡◌, IfOk};
ghost use Rattle.u_rules.specs.Terms.{◌≐◌};
ghost use Rattle.u_moves.specs.Moving.{IsKnownValue};
ghost use Rattle.u_congruence.specs.Congruence.{IsBy};
ghost use Rattle.u_simple.specs.Passes.{IsFrom};

use crate::NoMemory;
use crate::order::{product_in_order, sum_in_order};
use crate::steps::{equality, products_rearranged, sums_rearranged, turned_round, vanished};
use u_congruence::{Derived, joined, still};
use u_moves::Moves;
use u_rules::code_of;
use u_terms::{Boxed, U, Val, same, same_value};

/// The derivation, and then, where its last term is an equality, the lesser of its sides first. One of a value with itself becomes `1`.
pub fn then_equality_in_order<'f>(moves: Moves<'f>, d: Derived<'f>) -> Result<Derived<'f>, NoMemory>
    requires { IsBy moves.facts.now moves.outs d }
    ensures { IfOk result (IsFrom moves.entry.facts.now moves.entry.outs d.entry.from) }
{
    match d.get().to() {
        U::Eq(a, b) => {
            let step = sorted_equality(moves, a, b)?;
            joined(moves.alloc, d, step)
        }
        _ => Ok(d),
    }
}

// The lesser of both sides of an equality comes first. One of a value with itself becomes `1`.
fn sorted_equality<'f>(moves: Moves<'f>, a: &Val, b: &Val) -> Result<Derived<'f>, NoMemory>
    requires a { IsKnownValue moves.outs a.now }
    requires b { IsKnownValue moves.outs b.now }
    ensures { IfOk result (IsFrom moves.entry.facts.now moves.entry.outs (a.now ≐ b.now)) }
{
    if same_value(a, b) {
        return vanished(moves, a);
    }
    let stays = equality(moves.alloc, a, b)?;
    let turned = equality(moves.alloc, b, a)?;
    if code_of(moves.alloc, turned.get())? < code_of(moves.alloc, stays.get())? {
        turned_round(moves, a, b)
    } else {
        still(moves, stays)
    }
}

/// The derivation, and then what is added in its last term in order, by one step at most.
pub fn then_sum_in_order<'f>(moves: Moves<'f>, d: Derived<'f>) -> Result<Derived<'f>, NoMemory>
    requires { IsBy moves.facts.now moves.outs d }
    ensures { IfOk result (IsFrom moves.entry.facts.now moves.entry.outs d.entry.from) }
{
    let row = Boxed::new(moves.alloc, sum_in_order(moves.alloc, d.get().to())?)?;
    if same(d.get().to(), row.get()) {
        return Ok(d);
    }
    let step = sums_rearranged(moves, d.get().to(), row.get())?;
    joined(moves.alloc, d, step)
}

/// The derivation, and then what is multiplied in its last term in order, by one step at most.
pub fn then_product_in_order<'f>(moves: Moves<'f>, d: Derived<'f>) -> Result<Derived<'f>, NoMemory>
    requires { IsBy moves.facts.now moves.outs d }
    ensures { IfOk result (IsFrom moves.entry.facts.now moves.entry.outs d.entry.from) }
{
    let row = Boxed::new(moves.alloc, product_in_order(moves.alloc, d.get().to())?)?;
    if same(d.get().to(), row.get()) {
        return Ok(d);
    }
    let step = products_rearranged(moves, d.get().to(), row.get())?;
    joined(moves.alloc, d, step)
}
