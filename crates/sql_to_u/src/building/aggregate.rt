//! Aggregates: how often each value comes among the members of a group.
ghost use Rattle.std.specs.Prelude.{◌≡◌, ◌+◌, ◌∷◌, [], IfOk};
ghost use Rattle.scope_core.specs.declared.tree.RBlock.{out-RBlock};
ghost use Rattle.sql_to_u.specs.Listed.{columns_listed};
ghost use Rattle.sql_to_u.specs.Scopes.{counted, nobody, rows_here};
ghost use Rattle.sql_to_u.specs.TermLists.{argument_written, counted_written, firsts_listed, members_listed, scope_within, terms_of};

use crate::building::block::member_factors;
use crate::building::value::value_term;
use crate::factors::{over_names, product_over};
use crate::naming::{count_columns, firsts, name_after};
use crate::scope::{Group, Scope};
use plain_data::Boxed;
use scope_core::{NoMemory, RVal, Resolved};
use std::alloc::Global;
use u_terms::{U, Val};

/// How often an argument has the value of the name `next` among the members of the innermost block's group.
#[cycle(build)]
pub fn counted_term(
    alloc: Global,
    arg: &Option<Boxed<RVal>>,
    counting: bool,
    scope: &Scope,
    next: u32,
    views: &[Resolved],
) -> Result<U, NoMemory>
    ensures { IfOk result (λ t. t ≡ counted_written (terms_of views.now) counting (scope_within views.now scope.now) arg.now next) }
{
    match scope {
        Scope::Outside => counted_nowhere(alloc, arg, counting, &Scope::Outside, next, views),
        Scope::Rows { outer, .. } => counted_nowhere(alloc, arg, counting, *outer, next, views),
        Scope::Group { group, outer } => {
            counted_members(alloc, arg, counting, group, *outer, next, views)
        }
    }
}

/// Where there is no group.
#[cycle(build)]
fn counted_nowhere(
    alloc: Global,
    arg: &Option<Boxed<RVal>>,
    counting: bool,
    outer: &Scope,
    next: u32,
    views: &[Resolved],
) -> Result<U, NoMemory>
    ensures { IfOk result (λ t. t ≡ counted nobody (argument_written (terms_of views.now) counting (rows_here [] ∷ scope_within views.now outer.now) arg.now (next + 1 + 0)) next) }
{
    let first = name_after(next, 1)?;
    let rows = Scope::Rows {
        firsts: &[],
        outer: &*outer,
    };
    let value = argument_term(alloc, arg, counting, &rows, first, views)?;
    over_names(alloc, first, 0, U::Eq(value, Val::Free(next)))
}

/// Among the members of a group.
#[cycle(build)]
fn counted_members(
    alloc: Global,
    arg: &Option<Boxed<RVal>>,
    counting: bool,
    group: &Group,
    outer: &Scope,
    next: u32,
    views: &[Resolved],
) -> Result<U, NoMemory>
    ensures { IfOk result (λ t. t ≡ counted (members_listed (terms_of views.now) group.now.block.now group.now.columns.now group.now.key (scope_within views.now outer.now)) (argument_written (terms_of views.now) counting (rows_here (firsts_listed (out-RBlock group.now.block.now).entries (next + 1)) ∷ scope_within views.now outer.now) arg.now (next + 1 + columns_listed (out-RBlock group.now.block.now).entries)) next) }
{
    let entries = group.block.entries.as_slice();
    let first = name_after(next, 1)?;
    let count = count_columns(entries)?;
    let after = name_after(first, count)?;
    let firsts = firsts(alloc, entries, first)?;
    let mut factors = member_factors(alloc, &*group, &*outer, first, views)?;
    let rows = Scope::Rows {
        firsts: firsts.as_slice(),
        outer: &*outer,
    };
    let value = argument_term(alloc, arg, counting, &rows, after, views)?;
    factors.push(U::Eq(value, Val::Free(next)))?;
    product_over(alloc, first, count, factors)
}

/// An aggregate that counts rows is handed the literal numbered 0 in place of its argument.
#[cycle(build)]
fn argument_term(
    alloc: Global,
    arg: &Option<Boxed<RVal>>,
    counting: bool,
    scope: &Scope,
    next: u32,
    views: &[Resolved],
) -> Result<Val, NoMemory>
    ensures { IfOk result (λ t. t ≡ argument_written (terms_of views.now) counting (scope_within views.now scope.now) arg.now next) }
{
    match arg {
        None => Ok(Val::Lit(0)),
        Some(value) => {
            if counting {
                return Ok(Val::Lit(0));
            }
            value_term(alloc, value.get(), scope, next, views)
        }
    }
}
