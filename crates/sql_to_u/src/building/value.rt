//! Values and items.
ghost use Rattle.std.specs.Prelude.{◌≡◌, ◌++◌, IfOk, OnOk, drop};
ghost use Rattle.sql_to_u.specs.TermLists.{item_factors_listed, scope_within, terms_of, value_terms_listed};
ghost use Rattle.sql_to_u.specs.Translation.{scalar_term, value_term};

use crate::aggregate::counts_rows;
use crate::building::aggregate::counted_term;
use crate::factors::aggregate;
use crate::naming::name_after;
use crate::scope::{Group, Scope, first_at, key_of};
use plain_data::{Kept, List};
use scope_core::items::Parts;
use scope_core::{Items, NoMemory, RBlock, RVal, Resolved};
use std::alloc::Global;
use u_terms::{U, Val};

/// Appends the equalities of the items with the values of a row.
#[cycle(build)]
pub fn add_items(
    factors: &mut Vec<U>,
    alloc: Global,
    items: &Items<RVal>,
    scope: &Scope,
    row: &[Val],
    next: u32,
    views: &[Resolved],
) -> Result<(), NoMemory>
    ensures { OnOk result (factors.new.items ≡ factors.old.items ++ item_factors_listed (terms_of views.now) (scope_within views.now scope.now) items.now row.now next) }
{
    let Parts {
        before: front,
        last,
    } = items.parts();
    let mut rest = row;
    for part in front {
        let values = part.get().as_slice();
        add_values(factors, alloc, values, scope, rest, next, views)?;
        rest = after(rest, values.len());
    }
    add_values(factors, alloc, last, scope, rest, next, views)
}

/// The values behind the first `count`.
fn after(row: &[Val], count: usize) -> &[Val]
    ensures { result.now ≡ drop count row.now }
{
    if count <= row.len() {
        return &row[count..];
    }
    &[]
}

/// The same of values that stand in one slice.
#[cycle(build)]
fn add_values(
    factors: &mut Vec<U>,
    alloc: Global,
    items: &[RVal],
    scope: &Scope,
    row: &[Val],
    next: u32,
    views: &[Resolved],
) -> Result<(), NoMemory>
    ensures { OnOk result (factors.new.items ≡ factors.old.items ++ item_factors_listed (terms_of views.now) (scope_within views.now scope.now) items.now row.now next) }
{
    for (index, item) in items.iter().enumerate() {
        if index < row.len() {
            let left = Kept::new(value_term(alloc, item, scope, next, views)?);
            let right = row[index].copy(alloc)?;
            factors.push(U::Eq(left.into_inner(), right))?;
        }
    }
    Ok(())
}

/// Of a value; an aggregate counts its values by the name `next`.
#[cycle(build)]
#[tactic(auto, using(crate::proofs::terms::TermLaws::values, crate::proofs::terms::Weights::values))]
pub fn value_term(
    alloc: Global,
    value: &RVal,
    scope: &Scope,
    next: u32,
    views: &[Resolved],
) -> Result<Val, NoMemory>
    ensures { IfOk result (λ t. t ≡ value_term (terms_of views.now) value.now (scope_within views.now scope.now) next) }
{
    match value {
        RVal::Col { up, entry, col } => {
            Ok(Val::Free(name_after(first_at(scope, *up, *entry), *col)?))
        }
        RVal::Key { place } => Ok(Val::Free(name_after(key_of(scope), *place)?)),
        RVal::Lit { lit } => Ok(Val::Lit(*lit)),
        RVal::Fun { sym, args } => Ok(Val::Fun(
            *sym,
            value_terms(alloc, args.as_slice(), scope, next, views)?,
        )),
        RVal::Agg { fun, distinct, arg } => {
            let counting = counts_rows(*fun, *distinct);
            let body = counted_term(alloc, arg, counting, scope, next, views)?;
            aggregate(alloc, *fun, *distinct, body, next)
        }
        RVal::Sub { block } => scalar_term(alloc, block.get(), scope, next, views),
    }
}

/// Of values in order.
#[cycle(build)]
pub fn value_terms(
    alloc: Global,
    values: &[RVal],
    scope: &Scope,
    next: u32,
    views: &[Resolved],
) -> Result<List<Val>, NoMemory>
    ensures { IfOk result (λ vs. vs ≡ value_terms_listed (terms_of views.now) (scope_within views.now scope.now) values.now next) }
{
    let mut terms = Vec::new(alloc);
    for value in values {
        let term = value_term(alloc, value, scope, next, views)?;
        terms.push(term)?;
    }
    Ok(List::from_vec(terms))
}

/// Of the one item of a scalar subquery.
#[cycle(build)]
#[tactic(auto, using(crate::proofs::terms::TermLaws::scalars))]
fn scalar_term(
    alloc: Global,
    block: &RBlock,
    scope: &Scope,
    next: u32,
    views: &[Resolved],
) -> Result<Val, NoMemory>
    ensures { IfOk result (λ t. t ≡ scalar_term (terms_of views.now) block.now (scope_within views.now scope.now) next) }
{
    match block.items.first() {
        None => Ok(Val::Lit(0)),
        Some(item) => {
            let inside = Scope::Group {
                group: Group {
                    block: &*block,
                    columns: &[],
                    key: next,
                },
                outer: &*scope,
            };
            value_term(alloc, item, &inside, next, views)
        }
    }
}
