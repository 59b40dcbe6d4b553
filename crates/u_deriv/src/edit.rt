//! Edits at the end of a path, in place: one walk counts the binders on the path, compares what stands at its end, and writes
//! something else there.
ghost use Rattle.std.specs.Prelude.{◌≡◌, ◌+◌, ◌<◌, ◌≤◌, ◌^◌, option_and_then, slice_get};
ghost use Rattle.u_terms.specs.Binding.{closed_path};
ghost use Rattle.u_terms.specs.Size.{depth as depth_of, list_depth, value_depth};
ghost use Rattle.u_deriv.specs.Editing.{Answers, HasRoom, IsRefused, OfEnd, part_after};
ghost use Rattle.u_deriv.specs.Walk.{changed_at, end_of, end_of_value, ended, ended_value, on_value, placed, placed_value};
ghost use Rattle.u_deriv.specs.declared.edit.Edit.TheVariants as edit;

use crate::fault::StepFault;
use crate::place::Place;
use crate::run::Turn;
use crate::sides::{look, put_side};
use crate::step::Step;
use crate::way::Way;
use std::alloc::Global;
use std::mem;
use u_binder::close_path;
use u_rules::same_closed;
use u_terms::{Facts, List, U, Val};

/// What is put in the place of what, both under names for the binders on the path.
#[derive(Clone, Copy)]
pub enum Edit<'a> {
    /// Nothing, where the one side of the step's instance stands: its place is told.
    Look {
        alloc: Global,
        facts: &'a Facts,
        step: &'a Step,
    },
    /// A term of the caller's in the place of this one, where this number of names is at most that of the outputs and of the binders
    /// on the way.
    Term {
        from: &'a U,
        names: u64,
    },
    /// The other side of the step's instance in the place of the one.
    Side {
        alloc: Global,
        facts: &'a Facts,
        step: &'a Step,
    },
}

/// Makes the edit at the end of the way, and tells where that is. After a refusal the term is as before.
#[cycle(edit_at)]
#[tactic(auto, using(u_terms::proofs::Sizes::depth_at))]
pub fn edit_at(
    u: &mut U,
    way: Way,
    place: Place,
    outs: u32,
    by: &Edit<'_>,
    other: &mut U,
) -> Result<Place, StepFault>
    requires shallow { outs + place.turns + depth_of u.old < 2 ^ 32 }
    requires bound { place.binders ≤ place.turns }
    requires room { OfEnd (Unit {0}) (λ part. HasRoom outs other.old (placed way place u.old)) (end_of way u.old) }
    ensures term { u.new ≡ ended (part_after by.now outs other.old result) way.entry place u.old }
    ensures found { OfEnd (IsRefused result) (Answers by.now outs result (placed way.entry place u.old)) (end_of way.entry u.old) }
{
    match way.next() {
        None => put(u, place, outs, by, other),
        Some((turn, rest)) => match turn {
            Turn::Left => match u {
                U::Add(a, _) => edit_at(a.get_mut(), rest, place.next(), outs, by, other),
                U::Mul(a, _) => edit_at(a.get_mut(), rest, place.next(), outs, by, other),
                _ => Err(StepFault::NoResult),
            },
            Turn::Right => match u {
                U::Add(_, b) => edit_at(b.get_mut(), rest, place.next(), outs, by, other),
                U::Mul(_, b) => edit_at(b.get_mut(), rest, place.next(), outs, by, other),
                _ => Err(StepFault::NoResult),
            },
            Turn::Inside => match u {
                U::Squash(a) => edit_at(a.get_mut(), rest, place.next(), outs, by, other),
                U::Not(a) => edit_at(a.get_mut(), rest, place.next(), outs, by, other),
                U::Sum(body) => edit_at(body.get_mut(), rest, place.under(), outs, by, other),
                _ => Err(StepFault::NoResult),
            },
            Turn::Argument(index) => match u {
                U::Rel(_, args) => edit_argument(args, index, rest, place.next(), outs, by, other),
                U::Pred(_, args) => edit_argument(args, index, rest, place.next(), outs, by, other),
                U::Eq(a, b) => match index {
                    0 => edit_value(a, rest, place.next(), outs, by, other),
                    1 => edit_value(b, rest, place.next(), outs, by, other),
                    _ => Err(StepFault::NoResult),
                },
                _ => Err(StepFault::NoResult),
            },
        },
    }
}

#[cycle(edit_at)]
#[tactic(auto, using(u_terms::proofs::Sizes::depth_at))]
fn edit_value(
    value: &mut Val,
    way: Way,
    place: Place,
    outs: u32,
    by: &Edit<'_>,
    other: &mut U,
) -> Result<Place, StepFault>
    requires shallow { outs + place.turns + value_depth value.old < 2 ^ 32 }
    requires bound { place.binders ≤ place.turns }
    requires room { OfEnd (Unit {0}) (λ part. HasRoom outs other.old (placed_value way place value.old)) (end_of_value way value.old) }
    ensures term { value.new ≡ ended_value (part_after by.now outs other.old result) way.entry place value.old }
    ensures found { OfEnd (IsRefused result) (Answers by.now outs result (placed_value way.entry place value.old)) (end_of_value way.entry value.old) }
{
    match way.next() {
        None => Err(StepFault::NoResult),
        Some((turn, rest)) => match turn {
            Turn::Inside => match value {
                Val::Agg(_, body) => edit_at(body.get_mut(), rest, place.under(), outs, by, other),
                _ => Err(StepFault::NoResult),
            },
            Turn::Argument(index) => match value {
                Val::Fun(_, args) => edit_argument(
                    args,
                    index,
                    rest,
                    place.next(),
                    outs,
                    by,
                    other,
                ),
                _ => Err(StepFault::NoResult),
            },
            _ => Err(StepFault::NoResult),
        },
    }
}

#[cycle(edit_at)]
fn edit_argument(
    args: &mut List<Val>,
    index: u32,
    way: Way,
    place: Place,
    outs: u32,
    by: &Edit<'_>,
    other: &mut U,
) -> Result<Place, StepFault>
    requires shallow { outs + place.turns + list_depth args.old < 2 ^ 32 }
    requires bound { place.binders ≤ place.turns }
    requires room { OfEnd (Unit {0}) (λ part. HasRoom outs other.old (on_value place (placed_value way place) (slice_get args.old index))) (option_and_then (end_of_value way) (slice_get args.old index)) }
    ensures term { args.new ≡ changed_at index (ended_value (part_after by.now outs other.old result) way.entry place) args.old }
    ensures found { OfEnd (IsRefused result) (Answers by.now outs result (on_value place (placed_value way.entry place) (slice_get args.old index))) (option_and_then (end_of_value way.entry) (slice_get args.old index)) }
{
    let index = index as usize;
    if index < args.len() {
        edit_value(args.at_mut(index), way, place, outs, by, other)
    } else {
        Err(StepFault::NoResult)
    }
}

// Makes the edit here.
fn put(
    part: &mut U,
    place: Place,
    outs: u32,
    by: &Edit<'_>,
    other: &mut U,
) -> Result<Place, StepFault>
    requires shallow { outs + place.turns + depth_of part.old < 2 ^ 32 }
    requires bound { place.binders ≤ place.turns }
    requires room { HasRoom outs other.old place }
    ensures term { part.new ≡ part_after by.now outs other.old result place part.old }
    ensures found { Answers by.now outs result place part.old }
{
    match by {
        Edit::Look { alloc, facts, step } => look(*alloc, part, place, outs, facts, step),
        Edit::Term { from, names } => put_term(part, place, outs, from, *names, other),
        Edit::Side { alloc, facts, step } => put_side(*alloc, part, place, outs, facts, step),
    }
}

fn put_term(
    part: &mut U,
    place: Place,
    outs: u32,
    from: &U,
    names: u64,
    other: &mut U,
) -> Result<Place, StepFault>
    requires shallow { outs + place.turns + depth_of part.old < 2 ^ 32 }
    requires bound { place.binders ≤ place.turns }
    requires room { HasRoom outs other.old place }
    ensures term { part.new ≡ part_after (edit.Term from.entry names) outs other.old result place part.old }
    ensures found { Answers (edit.Term from.entry names) outs result place part.old }
{
    if names > u64::from(outs + place.binders) || !same_closed(part, from, outs, place.binders) {
        return Err(StepFault::NoResult);
    }
    close_names(other, outs, place.binders);
    mem::swap(part, other);
    Ok(place)
}

// Puts places for the names of the binders on the way, if there are any.
fn close_names(u: &mut U, outs: u32, count: u32)
    requires shallow { depth_of u.old + count < 2 ^ 32 }
    requires fits { outs + count < 2 ^ 32 }
    ensures { u.new ≡ closed_path u.old outs count }
{
    if count > 0 {
        close_path(u, outs, count);
    }
}
