//! What may be wrong at a node before its parts are looked at.
ghost use Rattle.std.specs.Prelude.{◌≡◌, ◌||◌, OnOk, IfOk, IfErr, IfSome, IfNone, map, None, is_some};
ghost use Rattle.sql_model.specs.Grouping.{has_aggregate, item_has_aggregate};
ghost use Rattle.scope_core.specs.Answer.{IsCause};
ghost use Rattle.scope_core.specs.Parts.{IsAndOf, IsSingle, is_aggregate_item, is_one_aggregate_listed, is_scalar_block};
ghost use Rattle.scope_core.specs.FirstFault.{fault_at};
ghost use Rattle.scope_core.specs.Lent.{list_has_aggregate, items_have_aggregate_listed, relations_of, source_of};
ghost use Rattle.scope_core.specs.Resolving.{source_named};
ghost use Rattle.scope_core.specs.Sites.{ASource, AnAlias, Outputs, TwoWidths};

use crate::catalog::Catalog;
use crate::fault::{ScopeCode, ScopeFault, number, refused};
use crate::heading::{Heading, Stored};
use crate::tree::RSource;
use sql_model::{Block, Expr, Item, Name};

/// The most outputs of a block.
pub const MOST_OUTPUTS: usize = 2048;

/// The relation that an entry names.
#[tactic(auto, using(crate::proofs::resolving::Columns::names))]
pub fn resolve_name(name: &Name, at: u32, known: &Catalog) -> Result<RSource, ScopeFault>
    ensures fine { IfOk result (λ source. fault_at (ASource name.now (relations_of known.now) at) ≡ None) }
    ensures value { IfOk result (λ source. source ≡ source_named name.now (relations_of known.now)) }
    ensures err { IfErr result (λ f. IsCause f (fault_at (ASource name.now (relations_of known.now) at))) }
{
    match known.relation(name) {
        Some(relation) => Ok(source_of(relation.stored)),
        None => Err(refused(ScopeCode::UnknownTable, at)),
    }
}

fn source_of(stored: Stored) -> RSource
    ensures { result ≡ source_of stored }
{
    match stored {
        Stored::Table { number } => RSource::Table { number },
        Stored::View { place } => RSource::View { place },
    }
}

/// That no entry before has the alias.
#[tactic(auto, using(crate::proofs::resolving::Columns::names))]
pub fn check_alias(alias: &Name, at: u32, before: &[Heading]) -> Result<(), ScopeFault>
    ensures fine { OnOk result (fault_at (AnAlias alias.now (map (λ h. h.alias) before.now) at) ≡ None) }
    ensures err { IfErr result (λ f. IsCause f (fault_at (AnAlias alias.now (map (λ h. h.alias) before.now) at))) }
{
    for heading in before {
        if heading.is_alias(alias) {
            return Err(refused(ScopeCode::AliasTwice, at));
        }
    }
    Ok(())
}

/// That two widths agree.
#[tactic(auto, using(crate::proofs::resolving::Columns::causes))]
pub fn check_widths(first: usize, second: usize, at: u32) -> Result<(), ScopeFault>
    ensures fine { OnOk result (fault_at (TwoWidths first second at) ≡ None) }
    ensures err { IfErr result (λ f. IsCause f (fault_at (TwoWidths first second at))) }
{
    if first == second {
        return Ok(());
    }
    Err(ScopeFault::Refused {
        code: ScopeCode::WidthDiffers,
        at,
        first: number(first)?,
        second: number(second)?,
    })
}

/// That the outputs of a block are no more than the limit admits.
#[tactic(auto, using(crate::proofs::resolving::Columns::causes))]
pub fn check_outputs(count: usize) -> Result<(), ScopeFault>
    ensures fine { OnOk result (fault_at (Outputs count) ≡ None) }
    ensures err { IfErr result (λ f. IsCause f (fault_at (Outputs count))) }
{
    if count > MOST_OUTPUTS {
        return Err(ScopeFault::TooWide {
            width: number(count)?,
        });
    }
    Ok(())
}

/// Whether an aggregate stands in an expression, outside its subqueries.
#[cycle(aggregates)]
#[tactic(auto, using(crate::proofs::resolving::Aggregates::laws))]
fn has_aggregate(expr: &Expr) -> bool
    ensures { result ≡ has_aggregate expr.now }
{
    match expr {
        Expr::Agg { .. } => true,
        Expr::Fun { args, .. } => some_has_aggregate(args.as_slice()),
        Expr::Pred { args, .. } => some_has_aggregate(args.as_slice()),
        Expr::Call { args, .. } => some_has_aggregate(args.as_slice()),
        Expr::Eq { left, right, .. } => has_aggregate(left.get()) || has_aggregate(right.get()),
        Expr::And { parts, .. } => some_has_aggregate(parts.as_slice()),
        Expr::Or { parts, .. } => some_has_aggregate(parts.as_slice()),
        Expr::Not { part, .. } => has_aggregate(part.get()),
        Expr::In { value, .. } => has_aggregate(value.get()),
        Expr::Col { .. } | Expr::Lit { .. } | Expr::Sub { .. } | Expr::Exists { .. } => false,
    }
}

#[cycle(aggregates)]
#[tactic(auto, using(crate::proofs::resolving::Aggregates::laws))]
fn some_has_aggregate(exprs: &[Expr]) -> bool
    ensures { result ≡ list_has_aggregate exprs.now }
{
    for expr in exprs {
        if has_aggregate(expr) {
            return true;
        }
    }
    false
}

/// Whether a block without GROUP BY is one group.
#[tactic(auto, using(crate::proofs::resolving::Aggregates::items))]
pub fn is_one_group(items: &[Item], having: &Option<Expr>) -> bool
    ensures { result ≡ (is_some having.now || items_have_aggregate_listed items.now) }
{
    having.is_some() || items_have_aggregate(items)
}

#[tactic(auto, using(crate::proofs::resolving::Aggregates::items))]
fn items_have_aggregate(items: &[Item]) -> bool
    ensures { result ≡ items_have_aggregate_listed items.now }
{
    for item in items {
        if item_has_aggregate(item) {
            return true;
        }
    }
    false
}

fn item_has_aggregate(item: &Item) -> bool
    ensures { result ≡ item_has_aggregate item.now }
{
    match item {
        Item::Value { expr, .. } => has_aggregate(expr),
        Item::Star { .. } => false,
        Item::AliasStar { .. } => false,
    }
}

/// The parts of an AND.
#[tactic(auto, using(crate::proofs::resolving::Singles::singles))]
pub fn conjuncts_of(expr: &Expr) -> Option<&[Expr]>
    ensures parts { IfSome result (λ parts. IsAndOf parts.now expr.now) }
    ensures single { IfNone result (IsSingle expr.now) }
{
    match expr {
        Expr::And { parts, .. } => Some(parts.as_slice()),
        Expr::Col { .. } => None,
        Expr::Lit { .. } => None,
        Expr::Fun { .. } => None,
        Expr::Pred { .. } => None,
        Expr::Call { .. } => None,
        Expr::Agg { .. } => None,
        Expr::Sub { .. } => None,
        Expr::Eq { .. } => None,
        Expr::Or { .. } => None,
        Expr::Not { .. } => None,
        Expr::Exists { .. } => None,
        Expr::In { .. } => None,
    }
}

/// Whether a block is one item, an aggregate, without DISTINCT, GROUP BY and HAVING.
#[tactic(auto, using(crate::proofs::resolving::Scalars::laws))]
pub fn is_scalar(block: &Block) -> bool
    ensures { result ≡ is_scalar_block block.now }
{
    if block.distinct || block.groups.is_some() || block.having.is_some() {
        return false;
    }
    is_one_aggregate(block.items.as_slice())
}

#[tactic(auto, using(crate::proofs::resolving::Scalars::laws))]
fn is_one_aggregate(items: &[Item]) -> bool
    ensures { result ≡ is_one_aggregate_listed items.now }
{
    items.len() == 1 && is_aggregate(&items[0])
}

fn is_aggregate(item: &Item) -> bool
    ensures { result ≡ is_aggregate_item item.now }
{
    match item {
        Item::Value { expr, .. } => matches!(expr, Expr::Agg { .. }),
        Item::Star { .. } => false,
        Item::AliasStar { .. } => false,
    }
}
