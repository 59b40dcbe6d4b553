//! Instances of rules, and the first reason why there is none.
ghost use Rattle.std.specs.Prelude.{◌≡◌, ◌+◌, ◌<◌, ◌^◌, IfOk};
ghost use Rattle.u_terms.specs.Facts.{FactsOk};
ghost use Rattle.u_terms.specs.Size.{depth};
ghost use Rattle.u_terms.specs.declared.facts.Facts.{Facts as TheFacts};
ghost use Rattle.u_terms.specs.declared.term.U.{U as TheU};
ghost use Rattle.u_rules.specs.Answers.{Admits, TellsLeaves};
ghost use Rattle.u_rules.specs.Rows.{row, Instance};
ghost use Rattle.u_rules.specs.Sides.{Answers, AreSound, HasInstance, TellsSide, side_of};
ghost use Rattle.u_rules.specs.declared.rule.InstanceFault.TheVariants.{BadInstance as bad};

use crate::NoMemory;
use crate::building::build;
use crate::closedness::are_closed;
use crate::comparing::compares;
use crate::faults::Unfit;
use crate::found::{Found, find};
use crate::leaf_lists::same_leaves;
use crate::rule::{Arg, InstanceFault, Rule, Why};
use std::alloc::{AllocError, Global};
use u_terms::{Facts, U};

/// The two sides that the rule has for these arguments, or the first reason why it has none. They mean the same wherever
/// the facts are met.
pub fn instance(
    alloc: Global,
    facts: &Facts,
    rule: Rule,
    args: &[Arg],
) -> Result<(U, U), InstanceFault>
    ensures answers { Answers facts.now rule args.now result }
    ensures sound { FactsOk facts.now → AreSound facts.now rule result }
{
    answer(alloc, facts, rule, args)
}

/// One side of the instance that the rule has for these arguments: the left or, turned, the right one. The other one is not written, and
/// neither closedness nor leaves are tested again.
pub fn side(
    alloc: Global,
    facts: &Facts,
    rule: Rule,
    args: &[Arg],
    turned: bool,
) -> Result<U, NoMemory>
    requires stands { HasInstance facts.now rule args.now }
    ensures { IfOk result (λ u. (l r : TheU) → Instance facts.now rule args.now l r → u ≡ side_of turned l r) }
{
    match find(facts, rule, args) {
        Ok(found) => build(alloc, &found, turned),
        Err(_) => Err(AllocError),
    }
}

/// Whether a term in place is the left or, turned, the right side that the rule has for these arguments, after the names from
/// `first` on are closed, the last one innermost; or the first reason why the rule has none. Neither side is written: the term is
/// compared where it stands.
pub fn stands(
    alloc: Global,
    facts: &Facts,
    rule: Rule,
    args: &[Arg],
    turned: bool,
    part: &U,
    first: u32,
    count: u32,
) -> Result<bool, InstanceFault>
    requires shallow { depth part.now + count < 2 ^ 32 }
    requires fits { first + count < 2 ^ 32 }
    ensures { TellsSide facts.now rule args.now turned part.now first count result }
{
    match admitted(alloc, facts, rule, args) {
        Ok(found) => Ok(compares(&found, turned, part, first, count)),
        Err(fault) => Err(fault),
    }
}

fn answer(alloc: Global, facts: &Facts, rule: Rule, args: &[Arg]) -> Result<(U, U), InstanceFault>
    ensures { Answers facts.now rule args.now result }
{
    match admitted(alloc, facts, rule, args) {
        Ok(found) => {
            let left = build(alloc, &found, false)?;
            let right = build(alloc, &found, true)?;
            Ok((left, right))
        }
        Err(fault) => Err(fault),
    }
}

// The sides of the instance, or the first reason why there is none.
fn admitted<'a>(
    alloc: Global,
    facts: &'a Facts,
    rule: Rule,
    args: &'a [Arg],
) -> Result<Found<'a>, InstanceFault>
    ensures { Admits facts.now rule args.now result }
{
    match find(facts, rule, args) {
        Err(Unfit::ArgKinds) => Err(refused(Why::ArgKinds)),
        Err(Unfit::Wrong(misfit)) => {
            if !are_closed(rule, args)? {
                return Err(refused(Why::NotClosed));
            }
            Err(refused(misfit.why()))
        }
        Ok(found) => {
            if !are_closed(rule, args)? {
                return Err(refused(Why::NotClosed));
            }
            if !leaves_agree(alloc, rule, args)? {
                return Err(refused(Why::LeavesDiffer));
            }
            Ok(found)
        }
    }
}

fn refused(why: Why) -> InstanceFault
    ensures { result ≡ bad why }
{
    InstanceFault::BadInstance { why }
}

// Whether the leaves of both sides agree where they must; the sides are then the arguments.
fn leaves_agree(alloc: Global, rule: Rule, args: &[Arg]) -> Result<bool, NoMemory>
    ensures { IfOk result (λ agree. (F : TheFacts) → TellsLeaves rule (row F rule args.now) agree) }
{
    match rule {
        Rule::AddAc => match args {
            [Arg::Term(x), Arg::Term(y)] => same_leaves(alloc, x, y, false),
            _ => Ok(true),
        },
        Rule::MulAc => match args {
            [Arg::Term(x), Arg::Term(y)] => same_leaves(alloc, x, y, true),
            _ => Ok(true),
        },
        _ => Ok(true),
    }
}
