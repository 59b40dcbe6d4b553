//! A move by each rule.
ghost use Rattle.std.specs.Prelude.{◌≤◌, IfOk};
ghost use Rattle.u_moves.specs.Derivations.{IsKnown};
ghost use Rattle.u_moves.specs.Moving.{AreKnownValues, IsKnownValue};

use crate::fault::CallFault;
use crate::known::{are_known_values, is_known, is_known_value};
use crate::read::instance;
use crate::write::two_texts;
use std::alloc::Global;
use u_moves::{Deriv, Moves, NoMemory};
use u_rules::{Arg, Rule, same_leaves};
use u_terms::{Boxed, Facts, List, U, Val};

/// The names that arguments may have are below this one.
const OUTS: u32 = 7;

/// A move is made, or its arguments are others.
type Made<'f> = Result<Result<Deriv<'f>, NoMemory>, CallFault>;

/// `move RULE ARGUMENT ..`: the terms from and to which the move by the rule leads.
pub fn moved(alloc: Global, facts: &Facts, words: &str) -> Result<String, CallFault> {
    let (rule, mut args) = instance(alloc, words)?;
    args.reverse();
    let moves = Moves {
        alloc,
        facts,
        outs: OUTS,
    };
    let deriv = made(moves, rule, &mut args)??;
    two_texts(alloc, deriv.from(), deriv.to())
}

fn made<'f>(moves: Moves<'f>, rule: Rule, args: &mut Vec<Arg>) -> Made<'f> {
    match rule {
        Rule::SqZero | Rule::NotZero | Rule::NotOne | Rule::SumZero => of_nothing(moves, rule),
        Rule::AddAc | Rule::MulAc => rearranged(moves, rule, args),
        Rule::SqAdd | Rule::SqMul | Rule::SqPart => of_terms(moves, rule, args),
        Rule::NotMul | Rule::NotAdd | Rule::Distr => of_terms(moves, rule, args),
        Rule::SqEq | Rule::EqRefl | Rule::EqSym => of_values(moves, rule, args),
        Rule::EqSplit | Rule::EqSubst => of_values(moves, rule, args),
        Rule::SqPred => of_list(moves, args),
        Rule::SumAdd | Rule::SumMul | Rule::SumSq => of_sums(moves, rule, args),
        Rule::SumPoint | Rule::SumUse => of_points(moves, rule, args),
        Rule::SumSwap => swapped(moves, args),
        _ => of_term(moves, rule, args),
    }
}

// ---- arguments, the first of which is the last in the list
fn term(moves: Moves<'_>, args: &mut Vec<Arg>) -> Result<Boxed<U>, CallFault>
    ensures { IfOk result (λ x. IsKnown 0 moves.entry.outs x) }
{
    match args.pop() {
        Some(Arg::Term(x)) => known(moves, x, 0),
        _ => Err(CallFault::BadStep),
    }
}

// The body of so many sums.
fn body(moves: Moves<'_>, args: &mut Vec<Arg>, places: u64) -> Result<Boxed<U>, CallFault>
    requires { places ≤ 9 }
    ensures { IfOk result (λ f. IsKnown places moves.entry.outs f) }
{
    match args.pop() {
        Some(Arg::Body(f)) => known(moves, f, places),
        _ => Err(CallFault::BadStep),
    }
}

fn known(moves: Moves<'_>, u: U, places: u64) -> Result<Boxed<U>, CallFault>
    requires { places ≤ 9 }
    ensures { IfOk result (λ u. IsKnown places moves.entry.outs u) }
{
    let u = Boxed::new(moves.alloc, u)?;
    if is_known(u.get(), places, moves.outs) {
        Ok(u)
    } else {
        Err(CallFault::NotClosed)
    }
}

fn value(moves: Moves<'_>, args: &mut Vec<Arg>) -> Result<Boxed<Val>, CallFault>
    ensures { IfOk result (λ a. IsKnownValue moves.entry.outs a) }
{
    match args.pop() {
        Some(Arg::Value(a)) => known_value(moves, a),
        _ => Err(CallFault::BadStep),
    }
}

fn known_value(moves: Moves<'_>, a: Val) -> Result<Boxed<Val>, CallFault>
    ensures { IfOk result (λ a. IsKnownValue moves.entry.outs a) }
{
    let a = Boxed::new(moves.alloc, a)?;
    if is_known_value(a.get(), moves.outs) {
        Ok(a)
    } else {
        Err(CallFault::NotClosed)
    }
}

fn values(moves: Moves<'_>, args: &mut Vec<Arg>) -> Result<List<Val>, CallFault>
    ensures { IfOk result (λ s. AreKnownValues moves.entry.outs s) }
{
    match args.pop() {
        Some(Arg::Values(s)) => known_values(moves, s),
        _ => Err(CallFault::BadStep),
    }
}

fn known_values(moves: Moves<'_>, s: List<Val>) -> Result<List<Val>, CallFault>
    ensures { IfOk result (λ s. AreKnownValues moves.entry.outs s) }
{
    if are_known_values(s.as_slice(), moves.outs) {
        Ok(s)
    } else {
        Err(CallFault::NotClosed)
    }
}

fn number(args: &mut Vec<Arg>) -> Result<u32, CallFault> {
    match args.pop() {
        Some(Arg::Num(number)) => Ok(number),
        _ => Err(CallFault::BadStep),
    }
}

// ---- moves by their arguments
fn of_nothing(moves: Moves<'_>, rule: Rule) -> Made<'_> {
    match rule {
        Rule::SqZero => Ok(moves.sq_zero()),
        Rule::NotZero => Ok(moves.not_zero()),
        Rule::NotOne => Ok(moves.not_one()),
        _ => Ok(moves.sum_zero()),
    }
}

fn of_term<'f>(moves: Moves<'f>, rule: Rule, args: &mut Vec<Arg>) -> Made<'f> {
    let x = term(moves, args)?.into_inner();
    match rule {
        Rule::MulZero => Ok(moves.mul_zero(x)),
        Rule::SqOne => Ok(moves.sq_one(x)),
        Rule::SqDup => Ok(moves.sq_dup(x)),
        Rule::SqAbs => Ok(moves.sq_abs(x)),
        Rule::SqFix => Ok(moves.sq_fix(moves.sq_dup(x)?)),
        Rule::NotSq => Ok(moves.not_sq(x)),
        Rule::SqNot => Ok(moves.sq_not(x)),
        Rule::NotSelf => Ok(moves.not_self(x)),
        Rule::NotNot => Ok(moves.not_not(x)),
        Rule::Split => Ok(moves.split(x)),
        _ => Err(CallFault::NoSuchCall),
    }
}

fn of_terms<'f>(moves: Moves<'f>, rule: Rule, args: &mut Vec<Arg>) -> Made<'f> {
    let x = term(moves, args)?;
    let y = term(moves, args)?;
    match rule {
        Rule::SqAdd => Ok(moves.sq_add(x.into_inner(), y.into_inner())),
        Rule::SqMul => Ok(moves.sq_mul(x.into_inner(), y.into_inner())),
        Rule::SqPart => Ok(moves.sq_part(x.into_inner(), y.into_inner())),
        Rule::NotMul => Ok(moves.not_mul(x.into_inner(), y.into_inner())),
        Rule::NotAdd => Ok(moves.not_add(x.into_inner(), y.into_inner())),
        _ => {
            let z = term(moves, args)?;
            Ok(moves.distr(x.into_inner(), y.into_inner(), z.into_inner()))
        }
    }
}

// Sums or products of the same leaves, in another order.
fn rearranged<'f>(moves: Moves<'f>, rule: Rule, args: &mut Vec<Arg>) -> Made<'f> {
    let x = term(moves, args)?;
    let y = term(moves, args)?;
    if rule == Rule::AddAc && same_leaves(moves.alloc, x.get(), y.get(), false)? {
        return Ok(moves.add_ac(x.into_inner(), y.into_inner()));
    }
    if rule == Rule::MulAc && same_leaves(moves.alloc, x.get(), y.get(), true)? {
        return Ok(moves.mul_ac(x.into_inner(), y.into_inner()));
    }
    Err(CallFault::BadStep)
}

fn of_values<'f>(moves: Moves<'f>, rule: Rule, args: &mut Vec<Arg>) -> Made<'f> {
    let a = value(moves, args)?;
    if rule == Rule::EqRefl {
        return Ok(moves.eq_refl(a.into_inner()));
    }
    let b = value(moves, args)?;
    match rule {
        Rule::SqEq => Ok(moves.sq_eq(a.into_inner(), b.into_inner())),
        Rule::EqSym => Ok(moves.eq_sym(a.into_inner(), b.into_inner())),
        Rule::EqSplit => Ok(moves.eq_split(a.into_inner(), b.into_inner())),
        _ => {
            let f = body(moves, args, 1)?;
            Ok(moves.eq_subst(a.into_inner(), b.into_inner(), f.into_inner()))
        }
    }
}

fn of_list<'f>(moves: Moves<'f>, args: &mut Vec<Arg>) -> Made<'f> {
    let symbol = number(args)?;
    let s = values(moves, args)?;
    Ok(moves.sq_pred(symbol, s))
}

fn of_sums<'f>(moves: Moves<'f>, rule: Rule, args: &mut Vec<Arg>) -> Made<'f> {
    if rule == Rule::SumMul {
        let x = term(moves, args)?;
        let f = body(moves, args, 1)?;
        return Ok(moves.sum_mul(x.into_inner(), f.into_inner()));
    }
    let f = body(moves, args, 1)?;
    if rule == Rule::SumSq {
        return Ok(moves.sum_sq(f.into_inner()));
    }
    let g = body(moves, args, 1)?;
    Ok(moves.sum_add(f.into_inner(), g.into_inner()))
}

fn of_points<'f>(moves: Moves<'f>, rule: Rule, args: &mut Vec<Arg>) -> Made<'f> {
    let e = value(moves, args)?;
    let f = body(moves, args, 1)?;
    if rule == Rule::SumPoint {
        return Ok(moves.sum_point(e.into_inner(), f.into_inner()));
    }
    Ok(moves.sum_use(e.into_inner(), f.into_inner()))
}

// Two sums and one change places.
fn swapped<'f>(moves: Moves<'f>, args: &mut Vec<Arg>) -> Made<'f> {
    let outer = number(args)?;
    let inner = number(args)?;
    if outer != 2 || inner != 1 {
        return Err(CallFault::NoSuchCall);
    }
    let f = body(moves, args, 3)?;
    Ok(moves.sum_swap(2, 1, f.into_inner()))
}
