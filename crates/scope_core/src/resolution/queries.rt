//! Queries, each in a box: blocks, and sets of two queries of one width.
ghost use Rattle.std.specs.Option.{option_or};
ghost use Rattle.std.specs.Prelude.{◌≡◌, IfOk, IfErr, None, length};
ghost use Rattle.sql_model.specs.Headings.{block_columns, output_columns};
ghost use Rattle.scope_core.specs.declared.tree.RQuery.TheVariants as query;
ghost use Rattle.scope_core.specs.Answer.{IsCause};
ghost use Rattle.scope_core.specs.FirstFault.{fault_at};
ghost use Rattle.scope_core.specs.Lent.{headings_of, levels_of, relations_of};
ghost use Rattle.scope_core.specs.Parts.{block_fault, fault_within};
ghost use Rattle.scope_core.specs.Resolving.{resolved, resolved_block};
ghost use Rattle.scope_core.specs.Sites.{TwoWidths};

use super::Projected;
use super::blocks::resolve_block;
use crate::catalog::Catalog;
use crate::checks::check_widths;
use crate::fault::ScopeFault;
use crate::level::Levels;
use crate::tree::{RBlock, RQuery};
use plain_data::{Boxed, Shared};
use sql_model::{Block, Query, SetOp};
use std::alloc::Global;

/// A block within the blocks around it, so that copies of a value share it. The columns are those of its items.
#[cycle(resolve)]
#[inline(never)]
#[tactic(auto, using(crate::proofs::resolving::Values::laws))]
pub fn resolve_shared_block<'k, 'a>(
    alloc: Global,
    block: &'a Boxed<Block>,
    known: &'k Catalog<'a>,
    levels: &Levels<'_, 'k, 'a>,
) -> Result<Projected<'k, 'a, Shared<RBlock>>, ScopeFault>
    ensures fine { IfOk result (λ v. block_fault (relations_of known.now) (levels_of levels.now) block.now ≡ None) }
    ensures value { IfOk result (λ v. v.tree ≡ resolved_block block.now (relations_of known.now) (levels_of levels.now)) }
    ensures columns { IfOk result (λ v. v.columns ≡ block_columns block.now (headings_of known.now)) }
    ensures err { IfErr result (λ f. IsCause f (block_fault (relations_of known.now) (levels_of levels.now) block.now)) }
{
    let block = resolve_block(alloc, block.get(), known, levels)?;
    Ok(Projected {
        tree: Shared::new(alloc, block.tree)?,
        columns: block.columns,
    })
}

/// A query within the blocks around it, in a box. The columns of a set are those of its left operand.
#[cycle(resolve)]
#[inline(never)]
#[tactic(auto, using(crate::proofs::resolving::Queries::laws, crate::proofs::resolving::Outputs::outputs))]
pub fn resolve_query<'k, 'a>(
    alloc: Global,
    query: &'a Query,
    known: &'k Catalog<'a>,
    levels: &Levels<'_, 'k, 'a>,
) -> Result<Projected<'k, 'a, Boxed<RQuery>>, ScopeFault>
    ensures fine { IfOk result (λ v. fault_within (relations_of known.now) (levels_of levels.now) query.now ≡ None) }
    ensures value { IfOk result (λ v. v.tree ≡ resolved query.now (relations_of known.now) (levels_of levels.now)) }
    ensures columns { IfOk result (λ v. v.columns ≡ output_columns query.now (headings_of known.now)) }
    ensures err { IfErr result (λ f. IsCause f (fault_within (relations_of known.now) (levels_of levels.now) query.now)) }
{
    match query {
        Query::Block { block } => resolve_block_query(alloc, block, known, levels),
        Query::Set {
            op,
            left,
            right,
            at,
        } => {
            // A function that is called in one place alone may become part of its caller, frame and all, whatever it is marked. So the block
            // that a chain of sets ends at has calls of its own.
            match left.get() {
                Query::Block { block } => {
                    let left = resolve_block_query(alloc, block, known, levels)?;
                    resolve_right(alloc, *op, left, right.get(), *at, known, levels)
                }
                Query::Set { .. } => {
                    let left = resolve_query(alloc, left.get(), known, levels)?;
                    resolve_right(alloc, *op, left, right.get(), *at, known, levels)
                }
            }
        }
    }
}

#[cycle(resolve)]
#[inline(never)]
#[tactic(auto, using(crate::proofs::resolving::Queries::laws))]
fn resolve_block_query<'k, 'a>(
    alloc: Global,
    block: &'a Boxed<Block>,
    known: &'k Catalog<'a>,
    levels: &Levels<'_, 'k, 'a>,
) -> Result<Projected<'k, 'a, Boxed<RQuery>>, ScopeFault>
    ensures fine { IfOk result (λ v. block_fault (relations_of known.now) (levels_of levels.now) block.now ≡ None) }
    ensures value { IfOk result (λ v. v.tree ≡ query.Block (resolved_block block.now (relations_of known.now) (levels_of levels.now))) }
    ensures columns { IfOk result (λ v. v.columns ≡ block_columns block.now (headings_of known.now)) }
    ensures err { IfErr result (λ f. IsCause f (block_fault (relations_of known.now) (levels_of levels.now) block.now)) }
{
    let block = resolve_shared_block(alloc, block, known, levels)?;
    let tree = RQuery::Block { block: block.tree };
    Ok(Projected {
        tree: Boxed::new(alloc, tree)?,
        columns: block.columns,
    })
}

/// A set of a query that is resolved and another, of one width. A chain of sets goes down on the left, so that the right operand takes no
/// room on the way.
#[cycle(resolve)]
#[inline(never)]
#[tactic(auto, using(crate::proofs::resolving::Queries::laws))]
fn resolve_right<'k, 'a>(
    alloc: Global,
    op: SetOp,
    left: Projected<'k, 'a, Boxed<RQuery>>,
    right: &'a Query,
    at: u32,
    known: &'k Catalog<'a>,
    levels: &Levels<'_, 'k, 'a>,
) -> Result<Projected<'k, 'a, Boxed<RQuery>>, ScopeFault>
    ensures right { IfOk result (λ v. fault_within (relations_of known.now) (levels_of levels.now) right.now ≡ None) }
    ensures widths { IfOk result (λ v. fault_at (TwoWidths (length left.entry.columns) (length (output_columns right.now (headings_of known.now))) at) ≡ None) }
    ensures value { IfOk result (λ v. v.tree ≡ query.Set op left.entry.tree (resolved right.now (relations_of known.now) (levels_of levels.now))) }
    ensures columns { IfOk result (λ v. v.columns ≡ left.entry.columns) }
    ensures err { IfErr result (λ f. IsCause f (option_or (fault_within (relations_of known.now) (levels_of levels.now) right.now)
        (fault_at (TwoWidths (length left.entry.columns) (length (output_columns right.now (headings_of known.now))) at)))) }
{
    let right = resolve_query(alloc, right, known, levels)?;
    check_widths(left.columns.width(), right.columns.width(), at)?;
    let tree = RQuery::Set {
        op,
        left: left.tree,
        right: right.tree,
    };
    Ok(Projected {
        tree: Boxed::new(alloc, tree)?,
        columns: left.columns,
    })
}
