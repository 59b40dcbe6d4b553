//! Steps that are made in place.
ghost use Rattle.std.specs.Prelude.{◌≡◌, ◌+◌, ◌<◌, ◌^◌, option_copied};
ghost use Rattle.u_terms.specs.Size.{depth as depth_of};
ghost use Rattle.u_terms.specs.declared.term.U.{U as TheU};
ghost use Rattle.u_rules.specs.Terms.{◌⊗◌};
ghost use Rattle.u_rules.specs.declared.rule.Rule.TheVariants as rule;
ghost use Rattle.u_rules.specs.Measures.{capped};
ghost use Rattle.u_deriv.specs.Applying.{Finds, IsApplied, IsExchanged, IsMade, IsOnlyTerm, IsReplayed, Tells};
ghost use Rattle.u_deriv.specs.Editing.{ClosesTo};
ghost use Rattle.u_deriv.specs.Steps.{Replays, Sides};
ghost use Rattle.u_deriv.specs.declared.step.Step.{out-Step};

use crate::edit::{Edit, edit_at};
use crate::fault::StepFault;
use crate::place::Place;
use crate::sides::TOO_DEEP;
use crate::step::Step;
use crate::way::Way;
use std::alloc::Global;
use u_rules::{Arg, Rule, sizes};
use u_terms::{Boxed, Facts, U, depth, same};

/// Makes the step on the term. After a refusal the term is as before.
pub fn apply(
    alloc: Global,
    facts: &Facts,
    outs: u32,
    u: &mut U,
    step: &Step,
) -> Result<(), StepFault>
    requires shallow { outs + depth_of u.old < 2 ^ 32 }
    ensures { IsApplied facts.now outs u.old step.now u.new result }
{
    match make(alloc, facts, outs, u, step) {
        Ok(_) => Ok(()),
        Err(fault) => Err(fault),
    }
}

/// Exchanges the sides of the step's instance at the end of its path, and tells where that is. The inner steps are not
/// looked at. After a refusal the term is as before.
pub fn exchange(
    alloc: Global,
    facts: &Facts,
    outs: u32,
    u: &mut U,
    step: &Step,
) -> Result<Place, StepFault>
    requires shallow { outs + depth_of u.old < 2 ^ 32 }
    ensures { IsExchanged facts.now outs u.old step.now u.new result }
{
    let mut none = U::Zero;
    let side = Edit::Side { alloc, facts, step };
    edit_at(
        u,
        Way::along(&step.path),
        Place::root(),
        outs,
        &side,
        &mut none,
    )
}

#[cycle(make)]
fn make(alloc: Global, facts: &Facts, outs: u32, u: &mut U, step: &Step) -> Result<Place, StepFault>
    requires shallow { outs + depth_of u.old < 2 ^ 32 }
    ensures { IsMade facts.now outs u.old step.now u.new result }
{
    match step.rule {
        Rule::SqFix => make_by_proof(alloc, facts, outs, u, step),
        _ => make_by_rule(alloc, facts, outs, u, step),
    }
}

// A step of a rule that asks for no inner steps.
fn make_by_rule(
    alloc: Global,
    facts: &Facts,
    outs: u32,
    u: &mut U,
    step: &Step,
) -> Result<Place, StepFault>
    requires shallow { outs + depth_of u.old < 2 ^ 32 }
    requires plain { (out-Step step.now).rule ≡ rule.SqFix → ⊥ }
    ensures { IsMade facts.now outs u.old step.now u.new result }
{
    if !step.inner.is_empty() {
        return Err(StepFault::NoResult);
    }
    exchange(alloc, facts, outs, u, step)
}

// A step of `sq_fix`: its inner steps lead from the square of its argument to the argument. They are made only where the one
// side stands.
#[cycle(make)]
fn make_by_proof(
    alloc: Global,
    facts: &Facts,
    outs: u32,
    u: &mut U,
    step: &Step,
) -> Result<Place, StepFault>
    requires shallow { outs + depth_of u.old < 2 ^ 32 }
    requires proved { (out-Step step.now).rule ≡ rule.SqFix }
    ensures { IsMade facts.now outs u.old step.now u.new result }
{
    match only_term(step.args.as_slice()) {
        Some(x) => match find(alloc, facts, outs, u, step) {
            Ok(place) => {
                let names = outs + place.binders;
                match shows_square(alloc, facts, names, x, step.inner.as_slice()) {
                    Ok(true) => exchange(alloc, facts, outs, u, step),
                    Ok(false) => Err(StepFault::NoResult),
                    Err(fault) => Err(fault),
                }
            }
            Err(fault) => Err(fault),
        },
        None => Err(StepFault::NoResult),
    }
}

// The one argument, if it is a term.
fn only_term(args: &[Arg]) -> Option<&U>
    ensures { IsOnlyTerm args.now (option_copied result) }
{
    match args {
        [Arg::Term(x)] => Some(x),
        _ => None,
    }
}

// Where the one side of the step's instance stands. The term stays as it is.
fn find(alloc: Global, facts: &Facts, outs: u32, u: &mut U, step: &Step) -> Result<Place, StepFault>
    requires shallow { outs + depth_of u.old < 2 ^ 32 }
    ensures found { Finds facts.now outs u.old step.now result }
    ensures same { u.new ≡ u.old }
{
    let mut none = U::Zero;
    let look = Edit::Look { alloc, facts, step };
    edit_at(
        u,
        Way::along(&step.path),
        Place::root(),
        outs,
        &look,
        &mut none,
    )
}

// Whether the steps lead from the square of the term to the term.
#[cycle(make)]
fn shows_square(
    alloc: Global,
    facts: &Facts,
    outs: u32,
    x: &U,
    steps: &[Step],
) -> Result<bool, StepFault>
    ensures { Tells (Replays facts.now outs (x.now ⊗ x.now) steps.now x.now) result }
{
    let mut term = match square(alloc, x) {
        Ok(term) => term,
        Err(fault) => return Err(fault),
    };
    match replay(alloc, facts, outs, &mut term, steps) {
        Ok(true) => Ok(same(&term, x)),
        Ok(false) => Ok(false),
        Err(fault) => Err(fault),
    }
}

fn square(alloc: Global, x: &U) -> Result<U, StepFault>
    ensures { ClosesTo (x.now ⊗ x.now) result }
{
    let left = Boxed::new(alloc, x.copy(alloc)?)?;
    let right = Boxed::new(alloc, x.copy(alloc)?)?;
    Ok(U::Mul(left, right))
}

// Makes the steps one after the other, as far as the first that has no result. How deep the term may be is known from the
// places of the steps: it is gone through once.
#[cycle(make)]
fn replay(
    alloc: Global,
    facts: &Facts,
    outs: u32,
    u: &mut U,
    steps: &[Step],
) -> Result<bool, StepFault>
    ensures { IsReplayed facts.now outs u.old steps.now u.new result }
{
    let mut most = depth(u);
    for step in steps {
        if most.saturating_add(u64::from(outs)) >= TOO_DEEP {
            return Err(StepFault::NoMemory);
        }
        match make(alloc, facts, outs, u, step) {
            Ok(place) => {
                let new = u64::from(place.turns).saturating_add(new_depth(facts, step));
                most = most.max(new);
            }
            Err(StepFault::NoResult) => return Ok(false),
            Err(StepFault::NoMemory) => return Err(StepFault::NoMemory),
        }
    }
    Ok(true)
}

// The depth of the side that the step ends with.
fn new_depth(facts: &Facts, step: &Step) -> u64
    ensures { (from to : TheU) → Sides facts.now (out-Step step.now).forward step.now from to → result ≡ capped (depth_of to) }
{
    let sizes = sizes(facts, step.rule, step.args.as_slice());
    if step.forward {
        sizes.right_depth
    } else {
        sizes.left_depth
    }
}
