//! Values.
ghost use Rattle.std.specs.Prelude.{◌≡◌, IfOk, IfErr, None};
ghost use Rattle.sql_model.specs.declared.tree.Expr.TheVariants as expr;
ghost use Rattle.scope_core.specs.Answer.{IsCause};
ghost use Rattle.scope_core.specs.Lent.{levels_of, relations_of};
ghost use Rattle.scope_core.specs.Parts.{value_fault, values_fault, values_listed};
ghost use Rattle.scope_core.specs.Resolving.{resolved_value};

use super::check_subquery;
use super::queries::resolve_shared_block;
use crate::catalog::Catalog;
use crate::checks::is_scalar;
use crate::column::resolve_column;
use crate::fault::{ScopeCode, ScopeFault, refused};
use crate::level::Levels;
use crate::tree::RVal;
use plain_data::{Boxed, List};
use sql_model::{AggFun, Block, Expr, Query};
use std::alloc::Global;

/// A value.
#[cycle(resolve)]
#[tactic(auto, using(crate::proofs::resolving::Values::laws))]
pub fn resolve_value<'k, 'a>(
    alloc: Global,
    expr: &'a Expr,
    known: &'k Catalog<'a>,
    levels: &Levels<'_, 'k, 'a>,
) -> Result<RVal, ScopeFault>
    ensures fine { IfOk result (λ v. value_fault (relations_of known.now) (levels_of levels.now) expr.now ≡ None) }
    ensures value { IfOk result (λ v. v ≡ resolved_value expr.now (relations_of known.now) (levels_of levels.now)) }
    ensures err { IfErr result (λ f. IsCause f (value_fault (relations_of known.now) (levels_of levels.now) expr.now)) }
{
    match expr {
        Expr::Col {
            qual,
            qual_at,
            name,
            at,
        } => resolve_column(qual, *qual_at, name, *at, levels),
        Expr::Lit { lit, .. } => Ok(RVal::Lit { lit: *lit }),
        Expr::Fun { sym, args, .. } => Ok(RVal::Fun {
            sym: *sym,
            args: resolve_values(alloc, args.as_slice(), known, levels)?,
        }),
        Expr::Call { sym, args, .. } => Ok(RVal::Fun {
            sym: *sym,
            args: resolve_values(alloc, args.as_slice(), known, levels)?,
        }),
        Expr::Agg {
            fun,
            distinct,
            arg,
            at,
        } => resolve_aggregate(alloc, *fun, *distinct, arg, *at, known, levels),
        Expr::Sub { query, at } => resolve_scalar(alloc, query, *at, known, levels),
        Expr::Pred { at, .. } => Err(refused(ScopeCode::NotValue, *at)),
        Expr::Eq { at, .. } => Err(refused(ScopeCode::NotValue, *at)),
        Expr::And { at, .. } => Err(refused(ScopeCode::NotValue, *at)),
        Expr::Or { at, .. } => Err(refused(ScopeCode::NotValue, *at)),
        Expr::Not { at, .. } => Err(refused(ScopeCode::NotValue, *at)),
        Expr::Exists { at, .. } => Err(refused(ScopeCode::NotValue, *at)),
        Expr::In { at, .. } => Err(refused(ScopeCode::NotValue, *at)),
    }
}

/// Values in a row. Those of operators are resolved here, since a chain of operators goes down through them.
#[cycle(resolve)]
#[tactic(auto, using(crate::proofs::resolving::Values::laws))]
pub fn resolve_values<'k, 'a>(
    alloc: Global,
    exprs: &'a [Expr],
    known: &'k Catalog<'a>,
    levels: &Levels<'_, 'k, 'a>,
) -> Result<List<RVal>, ScopeFault>
    ensures fine { IfOk result (λ vs. values_fault (relations_of known.now) (levels_of levels.now) exprs.now ≡ None) }
    ensures value { IfOk result (λ vs. vs ≡ values_listed (relations_of known.now) (levels_of levels.now) exprs.now) }
    ensures err { IfErr result (λ f. IsCause f (values_fault (relations_of known.now) (levels_of levels.now) exprs.now)) }
{
    let mut values = Vec::with_capacity(alloc, exprs.len())?;
    for expr in exprs {
        match expr {
            Expr::Fun { sym, args, .. } => {
                let args = resolve_values(alloc, args.as_slice(), known, levels)?;
                values.push_reserved(RVal::Fun { sym: *sym, args });
            }
            other => {
                let value = resolve_value(alloc, other, known, levels)?;
                values.push_reserved(value);
            }
        }
    }
    Ok(List::from_vec(values))
}

/// An aggregate; its argument sees the members of the group.
#[cycle(resolve)]
#[inline(never)]
#[tactic(auto, using(crate::proofs::resolving::Values::laws))]
fn resolve_aggregate<'k, 'a>(
    alloc: Global,
    fun: AggFun,
    distinct: bool,
    arg: &'a Option<Boxed<Expr>>,
    at: u32,
    known: &'k Catalog<'a>,
    levels: &Levels<'_, 'k, 'a>,
) -> Result<RVal, ScopeFault>
    ensures fine { IfOk result (λ v. value_fault (relations_of known.now) (levels_of levels.now) (expr.Agg fun distinct arg.now at) ≡ None) }
    ensures value { IfOk result (λ v. v ≡ resolved_value (expr.Agg fun distinct arg.now at) (relations_of known.now) (levels_of levels.now)) }
    ensures err { IfErr result (λ f. IsCause f (value_fault (relations_of known.now) (levels_of levels.now) (expr.Agg fun distinct arg.now at))) }
{
    if !levels.is_group() {
        return Err(refused(ScopeCode::AggregateHere, at));
    }
    let arg = match arg {
        Some(expr) => {
            let member = levels.of_member();
            let value = resolve_value(alloc, expr.get(), known, &member)?;
            Some(Boxed::new(alloc, value)?)
        }
        None => None,
    };
    Ok(RVal::Agg { fun, distinct, arg })
}

/// A scalar subquery. `at` is the place of its parenthesis.
#[cycle(resolve)]
#[inline(never)]
#[tactic(auto, using(crate::proofs::resolving::Values::laws))]
fn resolve_scalar<'k, 'a>(
    alloc: Global,
    query: &'a Boxed<Query>,
    at: u32,
    known: &'k Catalog<'a>,
    levels: &Levels<'_, 'k, 'a>,
) -> Result<RVal, ScopeFault>
    ensures fine { IfOk result (λ v. value_fault (relations_of known.now) (levels_of levels.now) (expr.Sub query.now at) ≡ None) }
    ensures value { IfOk result (λ v. v ≡ resolved_value (expr.Sub query.now at) (relations_of known.now) (levels_of levels.now)) }
    ensures err { IfErr result (λ f. IsCause f (value_fault (relations_of known.now) (levels_of levels.now) (expr.Sub query.now at))) }
{
    check_subquery(at, levels)?;
    match query.get() {
        Query::Block { block } => {
            if !is_scalar(block.get()) {
                return Err(refused(ScopeCode::ScalarNotAggregate, at));
            }
            let block = resolve_shared_block(alloc, block, known, levels)?;
            Ok(RVal::Sub { block: block.tree })
        }
        Query::Set { .. } => Err(refused(ScopeCode::ScalarNotAggregate, at)),
    }
}
