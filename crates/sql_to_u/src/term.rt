//! The term of a query, where it is not too big.
ghost use Rattle.std.specs.Prelude.{◌≡◌, [], IfErr, IfOk, None, OnOk, Some};
ghost use Rattle.scope_core.specs.Fitting.{DoViewsFit, FitsViews};
ghost use Rattle.scope_core.specs.Width.{width};
ghost use Rattle.u_terms.specs.Names.{IsFreeBelow};
ghost use Rattle.u_terms.specs.Places.{IsClosed};
ghost use Rattle.sql_to_u.specs.Answer.{translation};
ghost use Rattle.sql_to_u.specs.Limits.{IsCause, IsWithinLimits, too_big};
ghost use Rattle.sql_to_u.specs.Reckoned.{too_big_size};
ghost use Rattle.sql_to_u.specs.Sizes.{translation_size, view_size, view_sizes};

use crate::building::query_term;
use crate::fault::{LimitKind, TermFault};
use crate::naming::names;
use crate::product::Row;
use crate::scope::Scope;
use crate::size::Size;
use crate::sizing::query_size;
use scope_core::{NoMemory, Resolved, Views};
use std::alloc::Global;
use u_terms::U;

/// The term of a query, with the names 0, 1, .. for the columns of its answer, where it is within the limits. How large it is is reckoned from
/// the trees, in time linear in them, before anything of it is built.
#[tactic(auto, using(crate::proofs::queries::Wholes::laws))]
pub fn translate(alloc: Global, views: &Views, query: &Resolved) -> Result<U, TermFault>
    requires fits { FitsViews views.now query.now }
    ensures value { IfOk result (λ u. u ≡ translation views.now query.now) }
    ensures closed { IfOk result (λ u. IsClosed 0 u) }
    ensures names { IfOk result (λ u. IsFreeBelow (width query.now) u) }
    ensures within { IfOk result (λ u. IsWithinLimits u) }
    ensures err { IfErr result (λ f. IsCause f (too_big (translation views.now query.now))) }
{
    let views = views.as_slice();
    check_size(alloc, views, query)?;
    let term = build(alloc, views, query)?;
    Ok(term)
}

/// That a query's term is within the limits.
#[tactic(auto, using(crate::proofs::queries::Wholes::checks))]
fn check_size(alloc: Global, views: &[Resolved], query: &Resolved) -> Result<(), TermFault>
    requires fit { DoViewsFit [] views.now }
    requires fits { FitsViews views.now query.now }
    ensures fine { OnOk result (too_big (translation views.now query.now) ≡ None) }
    ensures err { IfErr result (λ f. IsCause f (too_big (translation views.now query.now))) }
{
    let sizes = view_sizes(alloc, views)?;
    within_limits(tree_size(query, sizes.as_slice()))
}

/// That a size is within the limits.
fn within_limits(size: Size) -> Result<(), TermFault>
    ensures fine { OnOk result (too_big_size size ≡ None) }
    ensures err { IfErr result (λ f. too_big_size size ≡ Some f) }
{
    if size.nodes > 200_000 {
        return Err(TermFault::TooBig {
            what: LimitKind::Nodes,
            count: size.nodes,
        });
    }
    if size.depth > 2_048 {
        return Err(TermFault::TooBig {
            what: LimitKind::Depth,
            count: size.depth,
        });
    }
    Ok(())
}

/// The size of each view's term at a row of names.
fn view_sizes(alloc: Global, views: &[Resolved]) -> Result<Vec<Size>, NoMemory>
    ensures { IfOk result (λ sizes. sizes.items ≡ view_sizes [] views.now) }
{
    let mut sizes = Vec::with_capacity(alloc, views.len())?;
    for view in views {
        let size = tree_size(view, sizes.as_slice());
        sizes.push(size)?;
    }
    Ok(sizes)
}

/// The size of a tree's term at a row of names, over those of the views.
fn tree_size(tree: &Resolved, views: &[Size]) -> Size
    ensures { result ≡ view_size views.now tree.now }
{
    query_size(tree.tree(), Row::Names(tree.width() as usize), views)
}

/// The term of a query.
#[tactic(auto, unfolding(crate::specs::TermLists::terms_of))]
fn build(alloc: Global, views: &[Resolved], query: &Resolved) -> Result<U, NoMemory>
    ensures { IfOk result (λ u. u ≡ translation views.now query.now) }
{
    let width = query.width();
    let row = names(alloc, 0, width)?;
    query_term(
        alloc,
        query.tree(),
        &Scope::Outside,
        row.as_slice(),
        width,
        views,
    )
}
