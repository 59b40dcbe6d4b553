//! Terms and values, each read over a kept one: where that has the form of the one that is read, its boxes and lists serve again.
ghost use Rattle.std.specs.Prelude.{◌≡◌, ◌<◌, ◌-◌};
ghost use Rattle.u_terms.specs.declared.term.U.TheVariants as u;
ghost use Rattle.u_terms.specs.declared.term.Val.TheVariants as v;
ghost use Rattle.proof_text.specs.Signs.{code};
ghost use Rattle.proof_text.specs.Signs as s;
ghost use Rattle.proof_text.specs.Reading.{Gives, list_of, pair_of, term_at, term_with, value_at, value_with, within};
ghost use Rattle.proof_text.specs.Over.{GivesOver};

use crate::cursor::{Cursor, Stop};
use crate::kept::{cut, drop_long, list_of, one_box, put, ready_value, two_boxes};
use crate::number::number;
use crate::sign::{Sign, code};
use std::alloc::Global;
use u_terms::{Boxed, List, U, Val};

/// The term that begins here, with so many levels left.
#[cycle(term)]
#[inline(never)]
pub fn term(alloc: Global, cursor: &mut Cursor<'_>, levels: u32, kept: &mut U) -> Result<(), Stop>
    ensures { GivesOver result kept.new cursor.new (term_at levels cursor.old) }
{
    match cursor.peek() {
        Sign::Digit0 => {
            cursor.enter(levels)?;
            put_zero(kept);
            Ok(())
        }
        Sign::Digit1 => {
            cursor.enter(levels)?;
            put_one(kept);
            Ok(())
        }
        Sign::Plus => {
            cursor.enter(levels)?;
            addition(alloc, cursor, levels - 1, kept)
        }
        Sign::Star => {
            cursor.enter(levels)?;
            product(alloc, cursor, levels - 1, kept)
        }
        Sign::Hash => {
            cursor.enter(levels)?;
            squash(alloc, cursor, levels - 1, kept)
        }
        Sign::Bang => {
            cursor.enter(levels)?;
            negation(alloc, cursor, levels - 1, kept)
        }
        Sign::UpperS => {
            cursor.enter(levels)?;
            sum(alloc, cursor, levels - 1, kept)
        }
        Sign::UpperR => {
            cursor.enter(levels)?;
            table(alloc, cursor, levels - 1, kept)
        }
        Sign::Equals => {
            cursor.enter(levels)?;
            equality(alloc, cursor, levels - 1, kept)
        }
        Sign::UpperP => {
            cursor.enter(levels)?;
            predicate(alloc, cursor, levels - 1, kept)
        }
        _ => Err(Stop::Unexpected),
    }
}

#[inline(always)]
fn put_zero(kept: &mut U)
    ensures { kept.new ≡ u.Zero }
{
    if !matches!(kept, U::Zero) {
        new_zero(kept);
    }
}

#[inline(never)]
fn new_zero(kept: &mut U)
    ensures { kept.new ≡ u.Zero }
{
    put(kept, U::Zero);
}

#[inline(always)]
fn put_one(kept: &mut U)
    ensures { kept.new ≡ u.One }
{
    if !matches!(kept, U::One) {
        new_one(kept);
    }
}

#[inline(never)]
fn new_one(kept: &mut U)
    ensures { kept.new ≡ u.One }
{
    put(kept, U::One);
}

// The rest of a sum of two terms.
#[cycle(term)]
#[inline(always)]
fn addition(alloc: Global, cursor: &mut Cursor<'_>, levels: u32, kept: &mut U) -> Result<(), Stop>
    ensures { GivesOver result kept.new cursor.new (term_with (term_at levels) (value_at levels) s.Plus cursor.old) }
{
    match kept {
        U::Add(left, right) => terms(alloc, cursor, levels, left.get_mut(), right.get_mut()),
        _ => new_addition(alloc, cursor, levels, kept),
    }
}

// The same over no sum.
#[cycle(term)]
#[inline(never)]
fn new_addition(
    alloc: Global,
    cursor: &mut Cursor<'_>,
    levels: u32,
    kept: &mut U,
) -> Result<(), Stop>
    ensures { GivesOver result kept.new cursor.new (term_with (term_at levels) (value_at levels) s.Plus cursor.old) }
{
    let (left, right) = boxed_terms(alloc, cursor, levels, kept)?;
    put(kept, U::Add(left, right));
    Ok(())
}

// The rest of a product.
#[cycle(term)]
#[inline(always)]
fn product(alloc: Global, cursor: &mut Cursor<'_>, levels: u32, kept: &mut U) -> Result<(), Stop>
    ensures { GivesOver result kept.new cursor.new (term_with (term_at levels) (value_at levels) s.Star cursor.old) }
{
    match kept {
        U::Mul(left, right) => terms(alloc, cursor, levels, left.get_mut(), right.get_mut()),
        _ => new_product(alloc, cursor, levels, kept),
    }
}

// The same over no product.
#[cycle(term)]
#[inline(never)]
fn new_product(
    alloc: Global,
    cursor: &mut Cursor<'_>,
    levels: u32,
    kept: &mut U,
) -> Result<(), Stop>
    ensures { GivesOver result kept.new cursor.new (term_with (term_at levels) (value_at levels) s.Star cursor.old) }
{
    let (left, right) = boxed_terms(alloc, cursor, levels, kept)?;
    put(kept, U::Mul(left, right));
    Ok(())
}

// The rest of a squash.
#[cycle(term)]
#[inline(always)]
fn squash(alloc: Global, cursor: &mut Cursor<'_>, levels: u32, kept: &mut U) -> Result<(), Stop>
    ensures { GivesOver result kept.new cursor.new (term_with (term_at levels) (value_at levels) s.Hash cursor.old) }
{
    match kept {
        U::Squash(part) => inside(alloc, cursor, levels, part.get_mut()),
        _ => new_squash(alloc, cursor, levels, kept),
    }
}

// The same over no squash.
#[cycle(term)]
#[inline(never)]
fn new_squash(alloc: Global, cursor: &mut Cursor<'_>, levels: u32, kept: &mut U) -> Result<(), Stop>
    ensures { GivesOver result kept.new cursor.new (term_with (term_at levels) (value_at levels) s.Hash cursor.old) }
{
    let part = boxed_inside(alloc, cursor, levels, kept)?;
    put(kept, U::Squash(part));
    Ok(())
}

// The rest of a negation.
#[cycle(term)]
#[inline(always)]
fn negation(alloc: Global, cursor: &mut Cursor<'_>, levels: u32, kept: &mut U) -> Result<(), Stop>
    ensures { GivesOver result kept.new cursor.new (term_with (term_at levels) (value_at levels) s.Bang cursor.old) }
{
    match kept {
        U::Not(part) => inside(alloc, cursor, levels, part.get_mut()),
        _ => new_negation(alloc, cursor, levels, kept),
    }
}

// The same over no negation.
#[cycle(term)]
#[inline(never)]
fn new_negation(
    alloc: Global,
    cursor: &mut Cursor<'_>,
    levels: u32,
    kept: &mut U,
) -> Result<(), Stop>
    ensures { GivesOver result kept.new cursor.new (term_with (term_at levels) (value_at levels) s.Bang cursor.old) }
{
    let part = boxed_inside(alloc, cursor, levels, kept)?;
    put(kept, U::Not(part));
    Ok(())
}

// The rest of a sum over all values.
#[cycle(term)]
#[inline(always)]
fn sum(alloc: Global, cursor: &mut Cursor<'_>, levels: u32, kept: &mut U) -> Result<(), Stop>
    ensures { GivesOver result kept.new cursor.new (term_with (term_at levels) (value_at levels) s.UpperS cursor.old) }
{
    match kept {
        U::Sum(body) => inside(alloc, cursor, levels, body.get_mut()),
        _ => new_sum(alloc, cursor, levels, kept),
    }
}

// The same over no sum.
#[cycle(term)]
#[inline(never)]
fn new_sum(alloc: Global, cursor: &mut Cursor<'_>, levels: u32, kept: &mut U) -> Result<(), Stop>
    ensures { GivesOver result kept.new cursor.new (term_with (term_at levels) (value_at levels) s.UpperS cursor.old) }
{
    let body = boxed_inside(alloc, cursor, levels, kept)?;
    put(kept, U::Sum(body));
    Ok(())
}

// The two parts of a term, in parentheses.
#[cycle(term)]
#[inline(never)]
fn terms(
    alloc: Global,
    cursor: &mut Cursor<'_>,
    levels: u32,
    left: &mut U,
    right: &mut U,
) -> Result<(), Stop>
    ensures { GivesOver result (left.new, right.new) cursor.new (pair_of (term_at levels) cursor.old) }
{
    cursor.expect(Sign::Open)?;
    term(alloc, cursor, levels, left)?;
    cursor.expect(Sign::Comma)?;
    term(alloc, cursor, levels, right)?;
    cursor.expect(Sign::Close)
}

// The same, in boxes.
#[cycle(term)]
#[inline(always)]
fn boxed_terms(
    alloc: Global,
    cursor: &mut Cursor<'_>,
    levels: u32,
    kept: &mut U,
) -> Result<(Boxed<U>, Boxed<U>), Stop>
    ensures { Gives result cursor.new (pair_of (term_at levels) cursor.old) }
{
    let (mut left, mut right) = two_boxes(alloc, kept)?;
    terms(alloc, cursor, levels, left.get_mut(), right.get_mut())?;
    Ok((left, right))
}

// The part of a term, in parentheses.
#[cycle(term)]
#[inline(never)]
fn inside(alloc: Global, cursor: &mut Cursor<'_>, levels: u32, part: &mut U) -> Result<(), Stop>
    ensures { GivesOver result part.new cursor.new (within (term_at levels) cursor.old) }
{
    cursor.expect(Sign::Open)?;
    term(alloc, cursor, levels, part)?;
    cursor.expect(Sign::Close)
}

// The same, in a box.
#[cycle(term)]
#[inline(always)]
fn boxed_inside(
    alloc: Global,
    cursor: &mut Cursor<'_>,
    levels: u32,
    kept: &mut U,
) -> Result<Boxed<U>, Stop>
    ensures { Gives result cursor.new (within (term_at levels) cursor.old) }
{
    let mut part = one_box(alloc, kept)?;
    inside(alloc, cursor, levels, part.get_mut())?;
    Ok(part)
}

// The rest of the rows of a table.
#[cycle(term)]
#[inline(never)]
fn table(alloc: Global, cursor: &mut Cursor<'_>, levels: u32, kept: &mut U) -> Result<(), Stop>
    ensures { GivesOver result kept.new cursor.new (term_with (term_at levels) (value_at levels) s.UpperR cursor.old) }
{
    match kept {
        U::Rel(table, arguments) => {
            *table = number(cursor)?;
            values(alloc, cursor, levels, arguments)
        }
        _ => new_table(alloc, cursor, levels, kept),
    }
}

// The same over no table.
#[cycle(term)]
#[inline(never)]
fn new_table(alloc: Global, cursor: &mut Cursor<'_>, levels: u32, kept: &mut U) -> Result<(), Stop>
    ensures { GivesOver result kept.new cursor.new (term_with (term_at levels) (value_at levels) s.UpperR cursor.old) }
{
    let table = number(cursor)?;
    let mut arguments = list_of(alloc, kept);
    values(alloc, cursor, levels, &mut arguments)?;
    put(kept, U::Rel(table, arguments));
    Ok(())
}

// The rest of a predicate of values.
#[cycle(term)]
#[inline(never)]
fn predicate(alloc: Global, cursor: &mut Cursor<'_>, levels: u32, kept: &mut U) -> Result<(), Stop>
    ensures { GivesOver result kept.new cursor.new (term_with (term_at levels) (value_at levels) s.UpperP cursor.old) }
{
    match kept {
        U::Pred(symbol, arguments) => {
            *symbol = number(cursor)?;
            values(alloc, cursor, levels, arguments)
        }
        _ => new_predicate(alloc, cursor, levels, kept),
    }
}

// The same over no predicate.
#[cycle(term)]
#[inline(never)]
fn new_predicate(
    alloc: Global,
    cursor: &mut Cursor<'_>,
    levels: u32,
    kept: &mut U,
) -> Result<(), Stop>
    ensures { GivesOver result kept.new cursor.new (term_with (term_at levels) (value_at levels) s.UpperP cursor.old) }
{
    let symbol = number(cursor)?;
    let mut arguments = list_of(alloc, kept);
    values(alloc, cursor, levels, &mut arguments)?;
    put(kept, U::Pred(symbol, arguments));
    Ok(())
}

// The rest of an equality of two values.
#[cycle(term)]
#[inline(always)]
fn equality(alloc: Global, cursor: &mut Cursor<'_>, levels: u32, kept: &mut U) -> Result<(), Stop>
    ensures { GivesOver result kept.new cursor.new (term_with (term_at levels) (value_at levels) s.Equals cursor.old) }
{
    match kept {
        U::Eq(left, right) => two_values(alloc, cursor, levels, left, right),
        _ => new_equality(alloc, cursor, levels, kept),
    }
}

// The same over no equality.
#[cycle(term)]
#[inline(never)]
fn new_equality(
    alloc: Global,
    cursor: &mut Cursor<'_>,
    levels: u32,
    kept: &mut U,
) -> Result<(), Stop>
    ensures { GivesOver result kept.new cursor.new (term_with (term_at levels) (value_at levels) s.Equals cursor.old) }
{
    let (mut left, mut right) = (Val::Bound(0), Val::Bound(0));
    two_values(alloc, cursor, levels, &mut left, &mut right)?;
    put(kept, U::Eq(left, right));
    Ok(())
}

// Two values in parentheses.
#[cycle(term)]
#[inline(never)]
fn two_values(
    alloc: Global,
    cursor: &mut Cursor<'_>,
    levels: u32,
    left: &mut Val,
    right: &mut Val,
) -> Result<(), Stop>
    ensures { GivesOver result (left.new, right.new) cursor.new (pair_of (value_at levels) cursor.old) }
{
    cursor.expect(Sign::Open)?;
    value(alloc, cursor, levels, left)?;
    cursor.expect(Sign::Comma)?;
    value(alloc, cursor, levels, right)?;
    cursor.expect(Sign::Close)
}

/// Values in parentheses, with so many levels left.
#[cycle(term)]
#[inline(never)]
pub fn values(
    alloc: Global,
    cursor: &mut Cursor<'_>,
    levels: u32,
    kept: &mut List<Val>,
) -> Result<(), Stop>
    ensures { GivesOver result kept.new cursor.new (list_of (value_at levels) cursor.old) }
{
    drop_long(alloc, kept);
    cursor.expect(Sign::Open)?;
    if code(cursor.peek()) == code(Sign::Close) {
        cursor.pass();
        cut(alloc, kept, 0);
        return Ok(());
    }
    for at in 0..cursor.left() {
        ready_value(kept, at)?;
        value(alloc, cursor, levels, kept.at_mut(at))?;
        if code(cursor.peek()) != code(Sign::Comma) {
            cursor.expect(Sign::Close)?;
            cut(alloc, kept, at + 1);
            return Ok(());
        }
        cursor.pass();
    }
    Err(Stop::Unexpected)
}

/// The value that begins here, with so many levels left.
#[cycle(term)]
#[inline(always)]
pub fn value(
    alloc: Global,
    cursor: &mut Cursor<'_>,
    levels: u32,
    kept: &mut Val,
) -> Result<(), Stop>
    ensures { GivesOver result kept.new cursor.new (value_at levels cursor.old) }
{
    match cursor.peek() {
        Sign::SmallB => {
            cursor.enter(levels)?;
            put_bound(kept, number(cursor)?);
            Ok(())
        }
        Sign::SmallF => {
            cursor.enter(levels)?;
            put_free(kept, number(cursor)?);
            Ok(())
        }
        Sign::SmallC => {
            cursor.enter(levels)?;
            put_literal(kept, number(cursor)?);
            Ok(())
        }
        Sign::UpperF => {
            cursor.enter(levels)?;
            function(alloc, cursor, levels - 1, kept)
        }
        Sign::UpperG => {
            cursor.enter(levels)?;
            aggregate(alloc, cursor, levels - 1, kept)
        }
        _ => Err(Stop::Unexpected),
    }
}

#[inline(always)]
fn put_bound(kept: &mut Val, read: u32)
    ensures { kept.new ≡ v.Bound read }
{
    match kept {
        Val::Bound(place) => *place = read,
        _ => put(kept, Val::Bound(read)),
    }
}

#[inline(always)]
fn put_free(kept: &mut Val, read: u32)
    ensures { kept.new ≡ v.Free read }
{
    match kept {
        Val::Free(name) => *name = read,
        _ => put(kept, Val::Free(read)),
    }
}

#[inline(always)]
fn put_literal(kept: &mut Val, read: u32)
    ensures { kept.new ≡ v.Lit read }
{
    match kept {
        Val::Lit(literal) => *literal = read,
        _ => put(kept, Val::Lit(read)),
    }
}

// The rest of a function of values.
#[cycle(term)]
#[inline(never)]
fn function(alloc: Global, cursor: &mut Cursor<'_>, levels: u32, kept: &mut Val) -> Result<(), Stop>
    ensures { GivesOver result kept.new cursor.new (value_with (term_at levels) (value_at levels) s.UpperF cursor.old) }
{
    let read = number(cursor)?;
    match kept {
        Val::Fun(symbol, arguments) => {
            *symbol = read;
            values(alloc, cursor, levels, arguments)
        }
        _ => {
            let mut arguments = List::new(alloc);
            values(alloc, cursor, levels, &mut arguments)?;
            put(kept, Val::Fun(read, arguments));
            Ok(())
        }
    }
}

// The rest of an aggregate of a term.
#[cycle(term)]
#[inline(never)]
fn aggregate(
    alloc: Global,
    cursor: &mut Cursor<'_>,
    levels: u32,
    kept: &mut Val,
) -> Result<(), Stop>
    ensures { GivesOver result kept.new cursor.new (value_with (term_at levels) (value_at levels) s.UpperG cursor.old) }
{
    let read = number(cursor)?;
    match kept {
        Val::Agg(aggregate, body) => {
            *aggregate = read;
            inside(alloc, cursor, levels, body.get_mut())
        }
        _ => {
            let mut body = Boxed::new(alloc, U::Zero)?;
            inside(alloc, cursor, levels, body.get_mut())?;
            put(kept, Val::Agg(read, body));
            Ok(())
        }
    }
}
