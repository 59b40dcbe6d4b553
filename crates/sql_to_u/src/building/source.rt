//! Sources of entries, and views.
ghost use Rattle.std.specs.Prelude.{◌≡◌, ◌++◌, IfOk, OnOk, get_or};
ghost use Rattle.u_terms.specs.declared.term.U.TheVariants as u;
ghost use Rattle.sql_to_u.specs.TermLists.{scope_within, source_terms_listed, terms_of};
ghost use Rattle.sql_to_u.specs.Translation.{source_term};

use crate::building::block::query_term;
use crate::factors::copies;
use crate::naming::{name_after, names};
use crate::scope::Scope;
use scope_core::{NoMemory, REntry, RSource, Resolved};
use std::alloc::Global;
use u_terms::{U, Val};

/// Appends the terms of the entries, whose columns have the names from `first` on.
#[cycle(build)]
pub fn add_sources(
    factors: &mut Vec<U>,
    alloc: Global,
    entries: &[REntry],
    scope: &Scope,
    first: u32,
    next: u32,
    views: &[Resolved],
) -> Result<(), NoMemory>
    ensures { OnOk result (factors.new.items ≡ factors.old.items ++ source_terms_listed (terms_of views.now) (scope_within views.now scope.now) entries.now first next) }
{
    let mut name = first;
    for entry in entries {
        let row = names(alloc, name, entry.width)?;
        let term = source_term(alloc, &entry.source, scope, row.as_slice(), next, views)?;
        factors.push(term)?;
        name = name_after(name, entry.width)?;
    }
    Ok(())
}

#[cycle(build)]
#[tactic(auto, using(crate::proofs::terms::TermLaws::sources, crate::proofs::terms::Weights::sources))]
fn source_term(
    alloc: Global,
    source: &RSource,
    scope: &Scope,
    row: &[Val],
    next: u32,
    views: &[Resolved],
) -> Result<U, NoMemory>
    ensures { IfOk result (λ u. u ≡ source_term (terms_of views.now) source.now (scope_within views.now scope.now) row.now next) }
{
    match source {
        RSource::Table { number } => Ok(U::Rel(*number, copies(alloc, row)?)),
        RSource::View { place } => view_term(alloc, *place as usize, row, next, views),
        RSource::Query { query } => query_term(alloc, query.get(), scope, row, next, views),
    }
}

/// Of a view, which sees the views before it.
#[cycle(build)]
fn view_term(
    alloc: Global,
    place: usize,
    row: &[Val],
    next: u32,
    views: &[Resolved],
) -> Result<U, NoMemory>
    ensures { IfOk result (λ t. t ≡ get_or (terms_of views.now) place (λ row next. u.Zero) row.now next) }
{
    if place >= views.len() {
        return Ok(U::Zero);
    }
    let tree = views[place].tree();
    query_term(alloc, tree, &Scope::Outside, row, next, &views[..place])
}
