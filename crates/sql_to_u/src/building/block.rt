//! Queries and blocks.
ghost use Rattle.std.specs.Prelude.{◌≡◌, ◌++◌, IfOk};
ghost use Rattle.u_terms.specs.declared.term.U.TheVariants as u;
ghost use Rattle.scope_core.specs.declared.tree.RBlock.{out-RBlock};
ghost use Rattle.sql_to_u.specs.Factors.{over_names};
ghost use Rattle.u_terms.specs.Products.{product_of};
ghost use Rattle.sql_to_u.specs.Listed.{columns_listed};
ghost use Rattle.sql_to_u.specs.TermLists.{joined_listed, keys_term, members_listed, one_term, plain_term, scope_within, terms_of};
ghost use Rattle.sql_to_u.specs.Translation.{block_term, query_term};

use crate::building::condition::{add_conditions, add_having};
use crate::building::source::add_sources;
use crate::building::value::add_items;
use crate::factors::{add_keys, combined, product, product_over, some_over, squash_if};
use crate::naming::{count_columns, firsts, name_after};
use crate::scope::{Group, Scope};
use scope_core::{Grouping, NoMemory, RBlock, RQuery, Resolved};
use std::alloc::Global;
use u_terms::{Boxed, U, Val};

/// Of the query at a row of values.
#[cycle(build)]
#[tactic(auto, using(crate::proofs::terms::TermLaws::queries, crate::proofs::terms::Weights::queries))]
pub fn query_term(
    alloc: Global,
    query: &RQuery,
    scope: &Scope,
    row: &[Val],
    next: u32,
    views: &[Resolved],
) -> Result<U, NoMemory>
    ensures { IfOk result (λ u. u ≡ query_term (terms_of views.now) query.now (scope_within views.now scope.now) row.now next) }
{
    match query {
        RQuery::Block { block } => block_term(alloc, block.get(), scope, row, next, views),
        RQuery::Set { op, left, right } => {
            let left = Boxed::new(
                alloc,
                query_term(alloc, left.get(), scope, row, next, views)?,
            )?;
            let right = Boxed::new(
                alloc,
                query_term(alloc, right.get(), scope, row, next, views)?,
            )?;
            combined(alloc, *op, left, right)
        }
    }
}

#[cycle(build)]
#[tactic(auto, using(crate::proofs::terms::TermLaws::blocks, crate::proofs::terms::Weights::blocks))]
fn block_term(
    alloc: Global,
    block: &RBlock,
    scope: &Scope,
    row: &[Val],
    next: u32,
    views: &[Resolved],
) -> Result<U, NoMemory>
    ensures { IfOk result (λ u. u ≡ block_term (terms_of views.now) block.now (scope_within views.now scope.now) row.now next) }
{
    match &block.grouping {
        Grouping::Plain => plain_term(alloc, block, scope, row, next, views),
        Grouping::One => one_term(alloc, block, scope, row, next, views),
        Grouping::Keys { columns } => {
            keys_term(alloc, block, columns.as_slice(), scope, row, next, views)
        }
    }
}

#[cycle(build)]
fn plain_term(
    alloc: Global,
    block: &RBlock,
    scope: &Scope,
    row: &[Val],
    next: u32,
    views: &[Resolved],
) -> Result<U, NoMemory>
    ensures { IfOk result (λ u. u ≡ plain_term (terms_of views.now) block.now (scope_within views.now scope.now) row.now next) }
{
    let entries = block.entries.as_slice();
    let count = count_columns(entries)?;
    let after = name_after(next, count)?;
    let firsts = firsts(alloc, entries, next)?;
    let rows = Scope::Rows {
        firsts: firsts.as_slice(),
        outer: &*scope,
    };
    let mut factors = joined(alloc, &*block, &*scope, next, views)?;
    let items = &block.items;
    add_items(&mut factors, alloc, items, &rows, row, after, views)?;
    let term = product_over(alloc, next, count, factors)?;
    squash_if(alloc, block.distinct, term)
}

/// Of a block that is one group, which is there even where it has no members.
#[cycle(build)]
fn one_term(
    alloc: Global,
    block: &RBlock,
    scope: &Scope,
    row: &[Val],
    next: u32,
    views: &[Resolved],
) -> Result<U, NoMemory>
    ensures { IfOk result (λ u. u ≡ one_term (terms_of views.now) block.now (scope_within views.now scope.now) row.now next) }
{
    let inside = Scope::Group {
        group: Group {
            block: &*block,
            columns: &[],
            key: next,
        },
        outer: &*scope,
    };
    let mut factors = Vec::new(alloc);
    add_having(&mut factors, alloc, &block.having, &inside, next, views)?;
    let items = &block.items;
    add_items(&mut factors, alloc, items, &inside, row, next, views)?;
    let term = product(alloc, factors)?;
    squash_if(alloc, block.distinct, term)
}

/// Of a block with a group for each key that occurs. The columns of the key have the names from `next` on.
#[cycle(build)]
fn keys_term(
    alloc: Global,
    block: &RBlock,
    columns: &[(u32, u32)],
    scope: &Scope,
    row: &[Val],
    next: u32,
    views: &[Resolved],
) -> Result<U, NoMemory>
    ensures { IfOk result (λ u. u ≡ keys_term (terms_of views.now) columns.now block.now (scope_within views.now scope.now) row.now next) }
{
    let count = u32::try_from(columns.len()).map_err(|_| NoMemory)?;
    let inner = name_after(next, count)?;
    let group = Group {
        block: &*block,
        columns: &*columns,
        key: next,
    };
    let some = some_member(alloc, &group, &*scope, inner, views)?;
    let inside = Scope::Group {
        group,
        outer: &*scope,
    };
    let mut factors = Vec::new(alloc);
    factors.push(some)?;
    add_having(&mut factors, alloc, &block.having, &inside, inner, views)?;
    let items = &block.items;
    add_items(&mut factors, alloc, items, &inside, row, inner, views)?;
    let groups = product_over(alloc, next, count, factors)?;
    squash_if(alloc, block.distinct, groups)
}

/// That a group has a member. The columns of the member have the names from `first` on.
#[cycle(build)]
fn some_member(
    alloc: Global,
    group: &Group,
    outer: &Scope,
    first: u32,
    views: &[Resolved],
) -> Result<U, NoMemory>
    ensures { IfOk result (λ t. t ≡ u.Squash (over_names first (columns_listed (out-RBlock group.now.block.now).entries) (product_of ((members_listed (terms_of views.now) group.now.block.now group.now.columns.now group.now.key (scope_within views.now outer.now)).factors first)))) }
{
    let count = count_columns(group.block.entries.as_slice())?;
    let factors = member_factors(alloc, group, outer, first, views)?;
    some_over(alloc, first, count, product(alloc, factors)?)
}

/// The factors that say that the names from `first` on are those of a member of a group.
#[cycle(build)]
pub fn member_factors(
    alloc: Global,
    group: &Group,
    outer: &Scope,
    first: u32,
    views: &[Resolved],
) -> Result<Vec<U>, NoMemory>
    ensures { IfOk result (λ factors. factors.items ≡ (members_listed (terms_of views.now) group.now.block.now group.now.columns.now group.now.key (scope_within views.now outer.now)).factors first) }
{
    let firsts = firsts(alloc, group.block.entries.as_slice(), first)?;
    let mut factors = joined(alloc, group.block, outer, first, views)?;
    add_keys(&mut factors, group.columns, firsts.as_slice(), group.key)?;
    Ok(factors)
}

/// The factors for a block's entries, whose columns have the names from `first` on, and for its conditions.
#[cycle(build)]
fn joined(
    alloc: Global,
    block: &RBlock,
    scope: &Scope,
    first: u32,
    views: &[Resolved],
) -> Result<Vec<U>, NoMemory>
    ensures { IfOk result (λ factors. factors.items ≡ joined_listed (terms_of views.now) block.now (scope_within views.now scope.now) first) }
{
    let entries = block.entries.as_slice();
    let count = count_columns(entries)?;
    let after = name_after(first, count)?;
    let firsts = firsts(alloc, entries, first)?;
    let rows = Scope::Rows {
        firsts: firsts.as_slice(),
        outer: &*scope,
    };
    let mut factors = Vec::new(alloc);
    add_sources(&mut factors, alloc, entries, &*scope, first, after, views)?;
    let conditions = block.conds.as_slice();
    add_conditions(&mut factors, alloc, conditions, &rows, after, views)?;
    Ok(factors)
}
