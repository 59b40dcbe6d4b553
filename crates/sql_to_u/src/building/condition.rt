//! Conditions.
ghost use Rattle.std.specs.Prelude.{◌≡◌, ◌+◌, ◌++◌, ◌∷◌, [], IfOk, OnOk};
ghost use Rattle.u_terms.specs.declared.term.U.TheVariants as u;
ghost use Rattle.scope_core.specs.Width.{width};
ghost use Rattle.sql_to_u.specs.Factors.{names_from, over_names};
ghost use Rattle.sql_to_u.specs.TermLists.{condition_terms_listed, having_written, scope_within, terms_of};
ghost use Rattle.sql_to_u.specs.Translation.{condition_term, query_term};

use crate::building::block::query_term;
use crate::building::value::{value_term, value_terms};
use crate::factors::{not, product, some_over, squash, sum};
use crate::naming::{name_after, names};
use crate::scope::Scope;
use plain_data::Kept;
use scope_core::{NoMemory, RCond, RQuery, Resolved, query_width};
use std::alloc::Global;
use u_terms::U;

/// Appends the terms of conditions.
#[cycle(build)]
pub fn add_conditions(
    factors: &mut Vec<U>,
    alloc: Global,
    conditions: &[RCond],
    scope: &Scope,
    next: u32,
    views: &[Resolved],
) -> Result<(), NoMemory>
    ensures { OnOk result (factors.new.items ≡ factors.old.items ++ condition_terms_listed (terms_of views.now) (scope_within views.now scope.now) conditions.now next) }
{
    for condition in conditions {
        let term = condition_term(alloc, condition, scope, next, views)?;
        factors.push(term)?;
    }
    Ok(())
}

#[cycle(build)]
#[tactic(auto, using(crate::proofs::terms::TermLaws::conditions, crate::proofs::terms::Weights::conditions))]
fn condition_term(
    alloc: Global,
    condition: &RCond,
    scope: &Scope,
    next: u32,
    views: &[Resolved],
) -> Result<U, NoMemory>
    ensures { IfOk result (λ u. u ≡ condition_term (terms_of views.now) condition.now (scope_within views.now scope.now) next) }
{
    match condition {
        RCond::Eq { left, right } => {
            let left = Kept::new(value_term(alloc, left.get(), scope, next, views)?);
            let right = value_term(alloc, right, scope, next, views)?;
            Ok(U::Eq(left.into_inner(), right))
        }
        RCond::Pred { sym, args } => Ok(U::Pred(
            *sym,
            value_terms(alloc, args.as_slice(), scope, next, views)?,
        )),
        RCond::And { parts } => {
            let mut factors = Vec::new(alloc);
            add_conditions(&mut factors, alloc, parts.as_slice(), scope, next, views)?;
            product(alloc, factors)
        }
        RCond::Or { parts } => {
            let mut factors = Vec::new(alloc);
            add_conditions(&mut factors, alloc, parts.as_slice(), scope, next, views)?;
            squash(alloc, sum(alloc, factors)?)
        }
        RCond::Not { part } => {
            not(
                alloc,
                condition_term(alloc, part.get(), scope, next, views)?,
            )
        }
        RCond::Exists { query } => exists_term(alloc, query.get(), scope, next, views),
        RCond::In { value, query } => {
            let value = value_term(alloc, value, scope, next, views)?;
            // An error is handed on behind the value's end.
            let term = query_term(alloc, query.get(), scope, &[value], next, views);
            squash(alloc, term?)
        }
    }
}

/// Of EXISTS: whether any row is in the query's answer. The columns of the row have the names from `next` on.
#[cycle(build)]
fn exists_term(
    alloc: Global,
    query: &RQuery,
    scope: &Scope,
    next: u32,
    views: &[Resolved],
) -> Result<U, NoMemory>
    ensures { IfOk result (λ t. t ≡ u.Squash (over_names next (width query.now) (query_term (terms_of views.now) query.now (scope_within views.now scope.now) (names_from next (width query.now)) (next + width query.now)))) }
{
    let width = u32::try_from(query_width(query)).map_err(|_| NoMemory)?;
    let after = name_after(next, width)?;
    let row = names(alloc, next, width)?;
    let body = query_term(alloc, query, scope, row.as_slice(), after, views)?;
    some_over(alloc, next, width, body)
}

/// Appends what HAVING gives: an AND gives a factor for each of its parts.
#[cycle(build)]
#[tactic(auto, using(crate::proofs::terms::TermLaws::having_at, crate::proofs::terms::Weights::having_at))]
pub fn add_having(
    factors: &mut Vec<U>,
    alloc: Global,
    having: &Option<RCond>,
    scope: &Scope,
    next: u32,
    views: &[Resolved],
) -> Result<(), NoMemory>
    ensures { OnOk result (factors.new.items ≡ factors.old.items ++ having_written (terms_of views.now) (scope_within views.now scope.now) having.now next) }
{
    match having {
        None => Ok(()),
        Some(condition) => match condition {
            RCond::And { parts } => {
                add_conditions(factors, alloc, parts.as_slice(), scope, next, views)
            }
            RCond::Eq { .. } => add_condition(factors, alloc, condition, scope, next, views),
            RCond::Pred { .. } => add_condition(factors, alloc, condition, scope, next, views),
            RCond::Or { .. } => add_condition(factors, alloc, condition, scope, next, views),
            RCond::Not { .. } => add_condition(factors, alloc, condition, scope, next, views),
            RCond::Exists { .. } => add_condition(factors, alloc, condition, scope, next, views),
            RCond::In { .. } => add_condition(factors, alloc, condition, scope, next, views),
        },
    }
}

#[cycle(build)]
fn add_condition(
    factors: &mut Vec<U>,
    alloc: Global,
    condition: &RCond,
    scope: &Scope,
    next: u32,
    views: &[Resolved],
) -> Result<(), NoMemory>
    ensures { OnOk result (factors.new.items ≡ factors.old.items ++ condition_term (terms_of views.now) condition.now (scope_within views.now scope.now) next ∷ []) }
{
    let term = condition_term(alloc, condition, scope, next, views)?;
    factors.push(term)?;
    Ok(())
}
