//! One side of a step's instance in the place of the other one.
ghost use Rattle.std.specs.Prelude.{◌≡◌, ◌↔◌, ◌+◌, ◌<◌, ◌≤◌, ◌^◌, IsTrue, Ok, true};
ghost use Rattle.data_model.specs.Lists.{Each};
ghost use Rattle.u_terms.specs.Binding.{closed_path};
ghost use Rattle.u_terms.specs.Names.{IsFreeBelowValue};
ghost use Rattle.u_terms.specs.Size.{depth as depth_of};
ghost use Rattle.u_rules.specs.Sides.{AreNamed, HasInstance, HasNames};
ghost use Rattle.u_terms.specs.declared.term.U.TheVariants as u;
ghost use Rattle.u_deriv.specs.declared.edit.Edit.TheVariants as edit;
ghost use Rattle.u_deriv.specs.Applying.{Tells};
ghost use Rattle.u_deriv.specs.Editing.{Answers, ClosesTo, IsSide, part_after, to_side};
ghost use Rattle.u_deriv.specs.declared.step.Step.{out-Step};

use crate::fault::StepFault;
use crate::place::Place;
use crate::step::Step;
use std::alloc::Global;
use std::mem;
use u_binder::{close_path, free_below, value_free_below};
use u_rules::{Arg, InstanceFault, side, stands};
use u_terms::{Facts, U, Val, depth};

/// No term is as deep: there is no memory for it.
pub const TOO_DEEP: u64 = 0x1_0000_0000;

/// Tells the place where `put_side` would write, and writes nothing.
pub fn look(
    alloc: Global,
    part: &U,
    place: Place,
    outs: u32,
    facts: &Facts,
    step: &Step,
) -> Result<Place, StepFault>
    requires shallow { outs + place.turns + depth_of part.now < 2 ^ 32 }
    requires bound { place.binders ≤ place.turns }
    ensures { Answers (edit.Look alloc facts.entry step.entry) outs result place part.now }
{
    match is_side(alloc, part, place, outs, facts, step) {
        Ok(true) => Ok(place),
        Ok(false) => Err(StepFault::NoResult),
        Err(fault) => Err(fault),
    }
}

/// Where the part is the one side of the step's instance, and the arguments have no other names than those of the place,
/// writes the other side.
pub fn put_side(
    alloc: Global,
    part: &mut U,
    place: Place,
    outs: u32,
    facts: &Facts,
    step: &Step,
) -> Result<Place, StepFault>
    requires shallow { outs + place.turns + depth_of part.old < 2 ^ 32 }
    requires bound { place.binders ≤ place.turns }
    ensures term { part.new ≡ part_after (edit.Side alloc facts.entry step.entry) outs u.Zero result place part.old }
    ensures found { Answers (edit.Side alloc facts.entry step.entry) outs result place part.old }
{
    match is_side(alloc, part, place, outs, facts, step) {
        Ok(true) => match other_side(alloc, facts, step, outs, place.binders) {
            Ok(mut other) => {
                mem::swap(part, &mut other);
                Ok(place)
            }
            Err(fault) => Err(fault),
        },
        Ok(false) => Err(StepFault::NoResult),
        Err(fault) => Err(fault),
    }
}

// Whether the part is the one side of the step's instance with the names closed, and the arguments have no other names than
// those of the place.
fn is_side(
    alloc: Global,
    part: &U,
    place: Place,
    outs: u32,
    facts: &Facts,
    step: &Step,
) -> Result<bool, StepFault>
    requires shallow { outs + place.turns + depth_of part.now < 2 ^ 32 }
    requires bound { place.binders ≤ place.turns }
    ensures side { Tells (IsSide facts.now outs place.binders step.now part.now) result }
    ensures instance { result ≡ Ok true → HasInstance facts.now (out-Step step.now).rule (out-Step step.now).args }
{
    let args = step.args.as_slice();
    if !are_named(args, u64::from(outs + place.binders)) {
        return Ok(false);
    }
    match stands(
        alloc,
        facts,
        step.rule,
        args,
        !step.forward,
        part,
        outs,
        place.binders,
    ) {
        Ok(is_side) => Ok(is_side),
        Err(InstanceFault::BadInstance { .. }) => Ok(false),
        Err(InstanceFault::NoMemory) => Err(StepFault::NoMemory),
    }
}

// The side that the step ends with, the names closed.
fn other_side(
    alloc: Global,
    facts: &Facts,
    step: &Step,
    outs: u32,
    count: u32,
) -> Result<U, StepFault>
    requires stands { HasInstance facts.now (out-Step step.now).rule (out-Step step.now).args }
    requires fits { outs + count < 2 ^ 32 }
    ensures { ClosesTo (closed_path (to_side facts.now step.now) outs count) result }
{
    let to = side(alloc, facts, step.rule, step.args.as_slice(), step.forward)?;
    close(to, outs, count)
}

// The term after the names of the path are closed.
fn close(u: U, outs: u32, count: u32) -> Result<U, StepFault>
    requires fits { outs + count < 2 ^ 32 }
    ensures { ClosesTo (closed_path u outs count) result }
{
    if count == 0 {
        return Ok(u);
    }
    if depth(&u).saturating_add(u64::from(count)) >= TOO_DEEP {
        return Err(StepFault::NoMemory);
    }
    let mut closed = u;
    close_path(&mut closed, outs, count);
    Ok(closed)
}

// Whether each free name of the arguments is below the bound.
fn are_named(args: &[Arg], bound: u64) -> bool
    ensures { IsTrue result ↔ AreNamed bound args.now }
{
    for arg in args {
        if !is_named(arg, bound) {
            return false;
        }
    }
    true
}

fn is_named(arg: &Arg, bound: u64) -> bool
    ensures { IsTrue result ↔ HasNames (λ name. name < bound) arg.now }
{
    match arg {
        Arg::Term(u) => free_below(u, bound),
        Arg::Body(f) => free_below(f, bound),
        Arg::Value(value) => value_free_below(value, bound),
        Arg::Values(values) => are_values_named(values.as_slice(), bound),
        Arg::Num(_) => true,
    }
}

fn are_values_named(values: &[Val], bound: u64) -> bool
    ensures { IsTrue result ↔ Each (IsFreeBelowValue bound) values.now }
{
    for value in values {
        if !value_free_below(value, bound) {
            return false;
        }
    }
    true
}
