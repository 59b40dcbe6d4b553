//! From any term to a normal one, as far as there is room. The room is the most nodes that the last term may have: a derivation whose last
//! term has more goes no further, and nothing else is said of it.
ghost use Rattle.std.specs.Prelude.{◌≡◌, ◌↔◌, ◌+◌, ◌++◌, ◌∷◌, [], IfOk, IsTrue, Some};
ghost use Rattle.u_terms.specs.Binding.{opened};
ghost use Rattle.u_rules.specs.Terms.{◌⊕◌, S};
ghost use Rattle.u_moves.specs.Derivations.{IsKnown};
ghost use Rattle.u_moves.specs.Moving.{AreKnownValues, IsKnownValue};
ghost use Rattle.normal_form.specs.Kinds as spec;
ghost use Rattle.normal_form.specs.declared.kind.Kind.TheVariants as kind;
ghost use Rattle.normal_form.specs.NormalTerms.{IsNormal};
ghost use Rattle.u_congruence.specs.Congruence.{IsBy};
ghost use Rattle.u_normal.specs.Finishing.{IsFactorOrOne, IsFinished, IsFinishedPlain, IsPlainFactor};
ghost use Rattle.u_normal.specs.Heads.{HasHead, IsFactorRow, IsTidy};
ghost use Rattle.u_normal.specs.Leading.{Leads};
ghost use Rattle.u_normal.specs.Rooms.{InRoom, BecomesInRoom};
ghost use Rattle.u_normal.specs.Summing.{IsBlockSum, IsSumOverBlocks};
ghost use Rattle.u_normal.specs.Values.{AreNormalAt, AreStanding, IsNormalAt, LeadsOn, Stands};

use crate::NoMemory;
use crate::heads::headed;
use crate::rooms::{is_over, room_beside};
use crate::steps::{then_in_order, then_in_row};
use crate::sums::then_over_each;
use crate::values::{extended, then_in_aggregate};
use crate::vanishing::{nothing, vanishes};
use normal_form::{Kind, kind_of};
use u_congruence::{
    Derived, added, copied, inside, joined, multiplied, negated, opened, squashed, still, summed,
};
use u_moves::Moves;
use u_terms::{Boxed, U, Val};

/// From a term to a normal one. Nothing is simplified that the form does not ask for. A factor beside a sum is copied into each product
/// as it is, and made normal there. What is added is gathered in one row by one step at the end, however deep it is nested.
#[cycle(normal)]
pub fn normal_within<'f>(moves: Moves<'f>, room: u64, u: &U) -> Result<Derived<'f>, NoMemory>
    requires { IsKnown 0 moves.outs u.now }
    ensures { IfOk result (Leads (InRoom room IsNormal) moves.entry.facts.now moves.entry.outs u.now) }
{
    let sum = block_sum(moves, room, u)?;
    gathered(moves, room, sum)
}

// From a term to a sum of normal blocks.
#[cycle(normal)]
fn block_sum<'f>(moves: Moves<'f>, room: u64, u: &U) -> Result<Derived<'f>, NoMemory>
    requires { IsKnown 0 moves.outs u.now }
    ensures { IfOk result (Leads (InRoom room IsBlockSum) moves.entry.facts.now moves.entry.outs u.now) }
{
    match u {
        U::Zero => still(moves, copied(moves.alloc, u)?),
        U::Add(a, b) => sum_of_parts(moves, room, a.get(), b.get()),
        U::Sum(f) => sum_of_body(moves, room, f.get()),
        _ => sum_of_product(moves, room, u),
    }
}

// The same of a sum. What the first part leads to takes room from the second.
#[cycle(normal)]
fn sum_of_parts<'f>(moves: Moves<'f>, room: u64, a: &U, b: &U) -> Result<Derived<'f>, NoMemory>
    requires a { IsKnown 0 moves.outs a.now }
    requires b { IsKnown 0 moves.outs b.now }
    ensures { IfOk result (Leads (InRoom room IsBlockSum) moves.entry.facts.now moves.entry.outs (a.now ⊕ b.now)) }
{
    let left = block_sum(moves, room, a)?;
    let left_over = room_beside(room, &left);
    let right = block_sum(moves, left_over, b)?;
    added(moves, left, right)
}

// The same of a sum over all values.
#[cycle(normal)]
fn sum_of_body<'f>(moves: Moves<'f>, room: u64, f: &U) -> Result<Derived<'f>, NoMemory>
    requires { IsKnown 1 moves.outs f.now }
    ensures { IfOk result (Leads (InRoom room IsBlockSum) moves.entry.facts.now moves.entry.outs (S f.now)) }
{
    let part = sum_opened(moves, room, f)?;
    let sum = summed(moves, part)?;
    over_each_in_room(moves, room, sum)
}

// The same of a body, with the name `outs` for its place.
#[cycle(normal)]
fn sum_opened<'f>(moves: Moves<'f>, room: u64, f: &U) -> Result<Derived<'f>, NoMemory>
    requires { IsKnown 1 moves.outs f.now }
    ensures { IfOk result (Leads (InRoom room IsBlockSum) moves.entry.facts.now (moves.entry.outs + 1) (opened f.now moves.entry.outs)) }
{
    let inner = inside(moves)?;
    let body = Boxed::new(moves.alloc, opened(moves.alloc, f, moves.outs)?)?;
    block_sum(inner, room, body.get())
}

// The same of a product. One of which nothing is left is not taken apart, so each one that is ends in a block at least.
#[cycle(normal)]
fn sum_of_product<'f>(moves: Moves<'f>, room: u64, u: &U) -> Result<Derived<'f>, NoMemory>
    requires { IsKnown 0 moves.outs u.now }
    ensures { IfOk result (Leads (InRoom room IsBlockSum) moves.entry.facts.now moves.entry.outs u.now) }
{
    if vanishes(u) {
        return nothing(moves, u);
    }
    let first = headed(moves, u)?;
    if is_over(&first, room) {
        return Ok(first);
    }
    let rest = sum_of_head(moves, room, first.get().to())?;
    joined(moves.alloc, first, rest)
}

// The same of a sum, or of a product without sums.
#[cycle(normal)]
fn sum_of_head<'f>(moves: Moves<'f>, room: u64, u: &U) -> Result<Derived<'f>, NoMemory>
    requires known { IsKnown 0 moves.outs u.now }
    requires head { HasHead u.now }
    ensures { IfOk result (Leads (InRoom room IsBlockSum) moves.entry.facts.now moves.entry.outs u.now) }
{
    match u {
        U::Zero => still(moves, copied(moves.alloc, u)?),
        U::Add(a, b) => sum_of_parts(moves, room, a.get(), b.get()),
        U::Sum(f) => sum_of_body(moves, room, f.get()),
        _ => {
            let row = normal_row(moves, room, u)?;
            in_block(moves, room, u, row)
        }
    }
}

// From factors to normal ones.
#[cycle(normal)]
fn normal_row<'f>(moves: Moves<'f>, room: u64, u: &U) -> Result<Derived<'f>, NoMemory>
    requires known { IsKnown 0 moves.outs u.now }
    requires row { IsFactorRow u.now }
    ensures { IfOk result (Leads (InRoom room (IsFinished u.now)) moves.entry.facts.now moves.entry.outs u.now) }
{
    match u {
        U::Mul(factor, others) => {
            let first = normal_factor(moves, room, factor.get())?;
            let left_over = room_beside(room, &first);
            let rest = normal_row(moves, left_over, others.get())?;
            multiplied(moves, first, rest)
        }
        _ => normal_factor(moves, room, u),
    }
}

// From a factor to a normal one.
#[cycle(normal)]
fn normal_factor<'f>(moves: Moves<'f>, room: u64, u: &U) -> Result<Derived<'f>, NoMemory>
    requires known { IsKnown 0 moves.outs u.now }
    requires factor { IsFactorOrOne u.now }
    ensures { IfOk result (Leads (InRoom room (IsFinished u.now)) moves.entry.facts.now moves.entry.outs u.now) }
{
    match u {
        U::Squash(p) => {
            let body = normal_within(moves, room, p.get())?;
            squashed(moves, body)
        }
        U::Not(p) if is_negation(u) => {
            let part = normal_within(moves, room, p.get())?;
            negated(moves, part)
        }
        U::Not(p) => {
            let part = normal_plain(moves, room, p.get())?;
            negated(moves, part)
        }
        _ => normal_plain(moves, room, u),
    }
}

// From an equality, a predicate, a relation or 1 to one whose values are normal.
#[cycle(normal)]
fn normal_plain<'f>(moves: Moves<'f>, room: u64, u: &U) -> Result<Derived<'f>, NoMemory>
    requires known { IsKnown 0 moves.outs u.now }
    requires plain { IsPlainFactor u.now }
    ensures { IfOk result (Leads (InRoom room (IsFinishedPlain u.now)) moves.entry.facts.now moves.entry.outs u.now) }
{
    let whole = still(moves, copied(moves.alloc, u)?)?;
    match u {
        U::Rel(_, values) => normal_values(moves, room, whole, &[], values.as_slice()),
        U::Pred(_, values) => normal_values(moves, room, whole, &[], values.as_slice()),
        U::Eq(a, b) => {
            let half = normal_value(moves, room, whole, &[], 0, a)?;
            if is_over(&half, room) {
                return Ok(half);
            }
            normal_value(moves, room, half, &[], 1, b)
        }
        _ => Ok(whole),
    }
}

// The derivation, and then the values made normal that stand in its last term as arguments at the end of the path.
#[cycle(normal)]
fn normal_values<'f>(
    moves: Moves<'f>,
    room: u64,
    whole: Derived<'f>,
    path: &[u32],
    values: &[Val],
) -> Result<Derived<'f>, NoMemory>
    requires by { IsBy moves.facts.now moves.outs whole }
    requires known { AreKnownValues moves.outs values.now }
    requires stand { AreStanding path.now values.now whole.to }
    ensures { IfOk result (LeadsOn (BecomesInRoom room (AreNormalAt path.now values.now)) whole.entry) }
{
    let mut done = whole;
    for (index, value) in values.iter().enumerate() {
        if is_over(&done, room) {
            return Ok(done);
        }
        done = normal_value(moves, room, done, path, index, value)?;
    }
    Ok(done)
}

// The same of one such value, which stands as this argument.
#[cycle(normal)]
fn normal_value<'f>(
    moves: Moves<'f>,
    room: u64,
    whole: Derived<'f>,
    path: &[u32],
    index: usize,
    value: &Val,
) -> Result<Derived<'f>, NoMemory>
    requires by { IsBy moves.facts.now moves.outs whole }
    requires known { IsKnownValue moves.outs value.now }
    requires stands { Stands (path.now ++ index ∷ []) value.now whole.to }
    ensures { IfOk result (LeadsOn (BecomesInRoom room (IsNormalAt (path.now ++ index ∷ []) value.now)) whole.entry) }
{
    match value {
        Val::Bound(_) => Ok(whole),
        Val::Free(_) => Ok(whole),
        Val::Lit(_) => Ok(whole),
        Val::Fun(_, values) => {
            let place = extended(moves.alloc, path, index)?;
            normal_values(moves, room, whole, place.as_slice(), values.as_slice())
        }
        Val::Agg(_, body) => {
            let place = extended(moves.alloc, path, index)?;
            let part = normal_opened(moves, room, body.get())?;
            then_in_aggregate(moves.alloc, whole, place.as_slice(), part)
        }
    }
}

// From the body of an aggregate to a normal one, with the name `outs` for its place.
#[cycle(normal)]
fn normal_opened<'f>(moves: Moves<'f>, room: u64, f: &U) -> Result<Derived<'f>, NoMemory>
    requires { IsKnown 1 moves.outs f.now }
    ensures { IfOk result (Leads (InRoom room IsNormal) moves.entry.facts.now (moves.entry.outs + 1) (opened f.now moves.entry.outs)) }
{
    let inner = inside(moves)?;
    let body = Boxed::new(moves.alloc, opened(moves.alloc, f, moves.outs)?)?;
    normal_within(inner, room, body.get())
}

// Whether a factor is the negation of another term than an equality or a predicate.
fn is_negation(u: &U) -> bool
    ensures { IsTrue result ↔ (spec.kind_of u.now ≡ Some kind.Negation) }
{
    kind_of(u) == Some(Kind::Negation)
}

// The blocks of the last term in one row, by one step at most.
fn gathered<'f>(moves: Moves<'f>, room: u64, sum: Derived<'f>) -> Result<Derived<'f>, NoMemory>
    requires by { IsBy moves.facts.now moves.outs sum }
    requires sum { InRoom room IsBlockSum sum.to }
    ensures { IfOk result (Leads (InRoom room IsNormal) moves.entry.facts.now moves.entry.outs sum.entry.from) }
{
    if is_over(&sum, room) {
        return Ok(sum);
    }
    then_in_row(moves, sum)
}

// A sum over all values before each block of the last term.
fn over_each_in_room<'f>(
    moves: Moves<'f>,
    room: u64,
    sum: Derived<'f>,
) -> Result<Derived<'f>, NoMemory>
    requires by { IsBy moves.facts.now moves.outs sum }
    requires sum { InRoom room IsSumOverBlocks sum.to }
    ensures { IfOk result (Leads (InRoom room IsBlockSum) moves.entry.facts.now moves.entry.outs sum.entry.from) }
{
    if is_over(&sum, room) {
        return Ok(sum);
    }
    then_over_each(moves, sum)
}

// The normal factors in order.
fn in_block<'f>(
    moves: Moves<'f>,
    room: u64,
    u: &U,
    row: Derived<'f>,
) -> Result<Derived<'f>, NoMemory>
    requires tidy { IsTidy u.now }
    requires row { Leads (InRoom room (IsFinished u.now)) moves.facts.now moves.outs u.now row }
    ensures { IfOk result (Leads (InRoom room IsBlockSum) moves.entry.facts.now moves.entry.outs u.now) }
{
    if is_over(&row, room) {
        return Ok(row);
    }
    then_in_order(moves, row)
}
