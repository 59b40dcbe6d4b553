//! Conditions, and the lists of their conjuncts.
ghost use Rattle.std.specs.Prelude.{◌≡◌, ◌++◌, ◌∷◌, [], OnOk, IfOk, IfErr, IfSome, None};
ghost use Rattle.sql_model.specs.declared.tree.Expr.TheVariants as expr;
ghost use Rattle.scope_core.specs.declared.tree.RCond.TheVariants as condition;
ghost use Rattle.scope_core.specs.Answer.{IsCause};
ghost use Rattle.scope_core.specs.Lent.{levels_of, relations_of};
ghost use Rattle.scope_core.specs.Parts.{AreBounds, AreBoundsOfOne, conditions_listed, conjuncts_listed, truth_fault, truths_fault, value_fault, values_fault, values_listed, written_fault, written_listed, having_listed};
ghost use Rattle.scope_core.specs.Resolving.{conjunction, conjuncts, resolved, resolved_value};

use super::check_subquery;
use super::queries::resolve_query;
use super::values::{resolve_value, resolve_values};
use crate::NoMemory;
use crate::catalog::Catalog;
use crate::checks::{check_widths, conjuncts_of};
use crate::fault::{ScopeCode, ScopeFault, refused};
use crate::grouping::conjunction;
use crate::level::Levels;
use crate::tree::{RCond, RVal};
use plain_data::{Boxed, Kept, List, Shared};
use sql_model::{Expr, Query};
use std::alloc::Global;

/// The left side of an equality, and what it resolved to.
#[derive(Drop)]
struct Operand {
    expr: Shared<Expr>,
    value: Shared<RVal>,
}

impl Operand {
    fn share(&self) -> Result<Operand, NoMemory>
        ensures { IfOk result (λ operand. operand ≡ self.now) }
    {
        Ok(Operand {
            expr: self.expr.share()?,
            value: self.value.share()?,
        })
    }
}

/// Two predicates, as those that BETWEEN stands for: each by its number in `Symbols`, and its arguments.
#[derive(Drop)]
struct Bounds<'a> {
    above: u32,
    low: &'a [Expr],
    below: u32,
    high: &'a [Expr],
}

/// The two predicates that these parts are.
fn bounds_in(parts: &[Expr]) -> Option<Bounds<'_>>
    ensures { IfSome result (λ b. AreBounds b.above b.low.now b.below b.high.now parts.now) }
{
    match parts {
        [
            Expr::Pred {
                sym: above,
                args: low,
                ..
            },
            Expr::Pred {
                sym: below,
                args: high,
                ..
            },
        ] => Some(Bounds {
            above: *above,
            low: low.as_slice(),
            below: *below,
            high: high.as_slice(),
        }),
        _ => None,
    }
}

/// A condition: an AND of its conjuncts, where it has more than one.
#[cycle(resolve)]
#[tactic(auto, using(crate::proofs::resolving::Conditions::laws))]
fn resolve_condition<'k, 'a>(
    alloc: Global,
    expr: &'a Expr,
    known: &'k Catalog<'a>,
    levels: &Levels<'_, 'k, 'a>,
) -> Result<RCond, ScopeFault>
    ensures fine { IfOk result (λ v. truth_fault (relations_of known.now) (levels_of levels.now) expr.now ≡ None) }
    ensures value { IfOk result (λ v. v ≡ conjunction (conjuncts expr.now (relations_of known.now) (levels_of levels.now))) }
    ensures err { IfErr result (λ f. IsCause f (truth_fault (relations_of known.now) (levels_of levels.now) expr.now)) }
{
    match expr {
        Expr::Pred { sym, args, .. } => predicate(alloc, *sym, args.as_slice(), known, levels),
        Expr::Call { sym, args, .. } => predicate(alloc, *sym, args.as_slice(), known, levels),
        Expr::Eq { left, right, .. } => {
            let left = Shared::new(alloc, resolve_value(alloc, left.get(), known, levels)?)?;
            let right = resolve_value(alloc, right.get(), known, levels)?;
            Ok(RCond::Eq { left, right })
        }
        Expr::And { parts, .. } => resolve_and(alloc, parts.as_slice(), known, levels),
        Expr::Or { parts, .. } => Ok(RCond::Or {
            parts: resolve_conditions(alloc, parts.as_slice(), known, levels)?,
        }),
        Expr::Not { part, .. } => Ok(RCond::Not {
            part: resolve_part(alloc, part, known, levels)?,
        }),
        Expr::Exists { query, at } => resolve_exists(alloc, query, *at, known, levels),
        Expr::In {
            value,
            query,
            at,
            in_at,
        } => {
            check_subquery(*at, levels)?;
            let value = Kept::new(resolve_value(alloc, value.get(), known, levels)?);
            let query = resolve_query(alloc, query.get(), known, levels)?;
            check_widths(1, query.columns.width(), *in_at)?;
            Ok(RCond::In {
                value: value.into_inner(),
                query: query.tree,
            })
        }
        Expr::Col { at, .. } => Err(refused(ScopeCode::NotTruth, *at)),
        Expr::Lit { at, .. } => Err(refused(ScopeCode::NotTruth, *at)),
        Expr::Fun { at, .. } => Err(refused(ScopeCode::NotTruth, *at)),
        Expr::Agg { at, .. } => Err(refused(ScopeCode::NotTruth, *at)),
        Expr::Sub { at, .. } => Err(refused(ScopeCode::NotTruth, *at)),
    }
}

/// A predicate or a called name.
#[cycle(resolve)]
#[inline(never)]
#[tactic(auto, using(crate::proofs::resolving::Conditions::laws))]
fn predicate<'k, 'a>(
    alloc: Global,
    sym: u32,
    args: &'a [Expr],
    known: &'k Catalog<'a>,
    levels: &Levels<'_, 'k, 'a>,
) -> Result<RCond, ScopeFault>
    ensures fine { IfOk result (λ v. values_fault (relations_of known.now) (levels_of levels.now) args.now ≡ None) }
    ensures value { IfOk result (λ v. v ≡ condition.Pred sym (values_listed (relations_of known.now) (levels_of levels.now) args.now)) }
    ensures err { IfErr result (λ f. IsCause f (values_fault (relations_of known.now) (levels_of levels.now) args.now)) }
{
    Ok(RCond::Pred {
        sym,
        args: resolve_values(alloc, args, known, levels)?,
    })
}

/// An EXISTS at this place.
#[cycle(resolve)]
#[inline(never)]
#[tactic(auto, using(crate::proofs::resolving::Conditions::laws))]
fn resolve_exists<'k, 'a>(
    alloc: Global,
    query: &'a Boxed<Query>,
    at: u32,
    known: &'k Catalog<'a>,
    levels: &Levels<'_, 'k, 'a>,
) -> Result<RCond, ScopeFault>
    ensures fine { IfOk result (λ v. truth_fault (relations_of known.now) (levels_of levels.now) (expr.Exists query.now at) ≡ None) }
    ensures value { IfOk result (λ v. v ≡ condition.Exists (resolved query.now (relations_of known.now) (levels_of levels.now))) }
    ensures err { IfErr result (λ f. IsCause f (truth_fault (relations_of known.now) (levels_of levels.now) (expr.Exists query.now at))) }
{
    check_subquery(at, levels)?;
    let query = resolve_query(alloc, query.get(), known, levels)?;
    Ok(RCond::Exists { query: query.tree })
}

#[cycle(resolve)]
#[inline(never)]
#[tactic(auto, using(crate::proofs::resolving::Conditions::laws))]
fn resolve_and<'k, 'a>(
    alloc: Global,
    parts: &'a [Expr],
    known: &'k Catalog<'a>,
    levels: &Levels<'_, 'k, 'a>,
) -> Result<RCond, ScopeFault>
    ensures fine { IfOk result (λ v. truths_fault (relations_of known.now) (levels_of levels.now) parts.now ≡ None) }
    ensures value { IfOk result (λ v. v ≡ conjunction (conjuncts_listed (relations_of known.now) (levels_of levels.now) parts.now)) }
    ensures err { IfErr result (λ f. IsCause f (truths_fault (relations_of known.now) (levels_of levels.now) parts.now)) }
{
    let mut conditions = Vec::new(alloc);
    add_parts(&mut conditions, alloc, parts, known, levels)?;
    Ok(conjunction(conditions))
}

#[cycle(resolve)]
#[inline(never)]
#[tactic(auto, using(crate::proofs::resolving::Conditions::laws))]
fn resolve_part<'k, 'a>(
    alloc: Global,
    part: &'a Boxed<Expr>,
    known: &'k Catalog<'a>,
    levels: &Levels<'_, 'k, 'a>,
) -> Result<Boxed<RCond>, ScopeFault>
    ensures fine { IfOk result (λ v. truth_fault (relations_of known.now) (levels_of levels.now) part.now ≡ None) }
    ensures value { IfOk result (λ v. v ≡ conjunction (conjuncts part.now (relations_of known.now) (levels_of levels.now))) }
    ensures err { IfErr result (λ f. IsCause f (truth_fault (relations_of known.now) (levels_of levels.now) part.now)) }
{
    let part = resolve_condition(alloc, part.get(), known, levels)?;
    Ok(Boxed::new(alloc, part)?)
}

/// The left side of an equality. Where the equality before has the same one, as in a list of IN, it is not resolved again.
#[cycle(resolve)]
#[inline(never)]
#[tactic(auto, using(crate::proofs::resolving::Conditions::laws))]
fn resolve_operand<'k, 'a>(
    alloc: Global,
    expr: &'a Shared<Expr>,
    before: &Option<Operand>,
    known: &'k Catalog<'a>,
    levels: &Levels<'_, 'k, 'a>,
) -> Result<Operand, ScopeFault>
    requires fine { IfSome before.now (λ o. value_fault (relations_of known.now) (levels_of levels.now) o.expr ≡ None) }
    requires value { IfSome before.now (λ o. o.value ≡ resolved_value o.expr (relations_of known.now) (levels_of levels.now)) }
    ensures fine { IfOk result (λ o. value_fault (relations_of known.now) (levels_of levels.now) expr.now ≡ None) }
    ensures value { IfOk result (λ o. o.value ≡ resolved_value expr.now (relations_of known.now) (levels_of levels.now)) }
    ensures expr { IfOk result (λ o. o.expr ≡ expr.now) }
    ensures err { IfErr result (λ f. IsCause f (value_fault (relations_of known.now) (levels_of levels.now) expr.now)) }
{
    if let Some(operand) = before {
        if operand.expr.get().is_same(expr.get()) {
            return Ok(operand.share()?);
        }
    }
    let value = Shared::new(alloc, resolve_value(alloc, expr.get(), known, levels)?)?;
    Ok(Operand {
        expr: expr.share()?,
        value,
    })
}

/// A disjunct. `before` is the left side of the last equality among those before it, and afterwards its own where it is one.
#[cycle(resolve)]
#[inline(never)]
#[tactic(auto, using(crate::proofs::resolving::Conditions::laws))]
fn resolve_disjunct<'k, 'a>(
    alloc: Global,
    part: &'a Expr,
    before: &mut Option<Operand>,
    known: &'k Catalog<'a>,
    levels: &Levels<'_, 'k, 'a>,
) -> Result<RCond, ScopeFault>
    requires fine { IfSome before.old (λ o. value_fault (relations_of known.now) (levels_of levels.now) o.expr ≡ None) }
    requires value { IfSome before.old (λ o. o.value ≡ resolved_value o.expr (relations_of known.now) (levels_of levels.now)) }
    ensures fine { IfOk result (λ v. truth_fault (relations_of known.now) (levels_of levels.now) part.now ≡ None) }
    ensures value { IfOk result (λ v. v ≡ conjunction (conjuncts part.now (relations_of known.now) (levels_of levels.now))) }
    ensures before_fine { OnOk result (IfSome before.new (λ o. value_fault (relations_of known.now) (levels_of levels.now) o.expr ≡ None)) }
    ensures before_value { OnOk result (IfSome before.new (λ o. o.value ≡ resolved_value o.expr (relations_of known.now) (levels_of levels.now))) }
    ensures err { IfErr result (λ f. IsCause f (truth_fault (relations_of known.now) (levels_of levels.now) part.now)) }
{
    let Expr::Eq { left, right, .. } = part else {
        return resolve_condition(alloc, part, known, levels);
    };
    let operand = resolve_operand(alloc, left, &*before, known, levels)?;
    let left = operand.value.share()?;
    *before = Some(operand);
    let right = resolve_value(alloc, right.get(), known, levels)?;
    Ok(RCond::Eq { left, right })
}

#[cycle(resolve)]
#[tactic(auto, using(crate::proofs::resolving::Conditions::laws))]
fn resolve_conditions<'k, 'a>(
    alloc: Global,
    parts: &'a [Expr],
    known: &'k Catalog<'a>,
    levels: &Levels<'_, 'k, 'a>,
) -> Result<List<RCond>, ScopeFault>
    ensures fine { IfOk result (λ v. truths_fault (relations_of known.now) (levels_of levels.now) parts.now ≡ None) }
    ensures value { IfOk result (λ v. v ≡ conditions_listed (relations_of known.now) (levels_of levels.now) parts.now) }
    ensures err { IfErr result (λ f. IsCause f (truths_fault (relations_of known.now) (levels_of levels.now) parts.now)) }
{
    let mut conditions = Vec::with_capacity(alloc, parts.len())?;
    let mut before = None;
    for part in parts {
        let condition = resolve_disjunct(alloc, part, &mut before, known, levels)?;
        conditions.push_reserved(condition);
    }
    Ok(List::from_vec(conditions))
}

/// Appends the conjuncts of a condition: those of an AND's parts, and else the condition itself.
#[cycle(resolve)]
#[tactic(auto, using(crate::proofs::resolving::Conditions::laws))]
fn add_conjuncts<'k, 'a>(
    conditions: &mut Vec<RCond>,
    alloc: Global,
    expr: &'a Expr,
    known: &'k Catalog<'a>,
    levels: &Levels<'_, 'k, 'a>,
) -> Result<(), ScopeFault>
    ensures fine { OnOk result (truth_fault (relations_of known.now) (levels_of levels.now) expr.now ≡ None) }
    ensures value { OnOk result (conditions.new.items ≡ conditions.old.items ++ conjuncts expr.now (relations_of known.now) (levels_of levels.now)) }
    ensures err { IfErr result (λ f. IsCause f (truth_fault (relations_of known.now) (levels_of levels.now) expr.now)) }
{
    match conjuncts_of(expr) {
        Some(parts) => add_parts(conditions, alloc, parts, known, levels),
        None => {
            let condition = resolve_condition(alloc, expr, known, levels)?;
            conditions.push(condition)?;
            Ok(())
        }
    }
}

/// Appends the conjuncts of an AND's parts.
#[cycle(resolve)]
#[inline(never)]
#[tactic(auto, using(crate::proofs::resolving::Conditions::laws))]
fn add_parts<'k, 'a>(
    conditions: &mut Vec<RCond>,
    alloc: Global,
    parts: &'a [Expr],
    known: &'k Catalog<'a>,
    levels: &Levels<'_, 'k, 'a>,
) -> Result<(), ScopeFault>
    ensures fine { OnOk result (truths_fault (relations_of known.now) (levels_of levels.now) parts.now ≡ None) }
    ensures value { OnOk result (conditions.new.items ≡ conditions.old.items ++ conjuncts_listed (relations_of known.now) (levels_of levels.now) parts.now) }
    ensures err { IfErr result (λ f. IsCause f (truths_fault (relations_of known.now) (levels_of levels.now) parts.now)) }
{
    let Some(bounds) = bounds_in(parts) else {
        return add_conjuncts_of_each(conditions, alloc, parts, known, levels);
    };
    let low = resolve_values(alloc, bounds.low, known, levels)?;
    let high = resolve_behind(
        alloc,
        bounds.high,
        bounds.low,
        low.as_slice(),
        known,
        levels,
    )?;
    push_predicates(conditions, (bounds.above, low), (bounds.below, high))?;
    Ok(())
}

/// The arguments of a predicate behind another one with these, which are resolved. A value between two bounds is the last of these and
/// the first of its own, and is not resolved again. Both are compared once they are known to be values.
#[cycle(resolve)]
#[inline(never)]
#[tactic(auto, using(crate::proofs::resolving::Values::laws))]
fn resolve_behind<'k, 'a>(
    alloc: Global,
    args: &'a [Expr],
    before: &'a [Expr],
    resolved: &[RVal],
    known: &'k Catalog<'a>,
    levels: &Levels<'_, 'k, 'a>,
) -> Result<List<RVal>, ScopeFault>
    requires fine { values_fault (relations_of known.now) (levels_of levels.now) before.now ≡ None }
    requires value { resolved.now ≡ values_listed (relations_of known.now) (levels_of levels.now) before.now }
    ensures fine { IfOk result (λ vs. values_fault (relations_of known.now) (levels_of levels.now) args.now ≡ None) }
    ensures value { IfOk result (λ vs. vs ≡ values_listed (relations_of known.now) (levels_of levels.now) args.now) }
    ensures err { IfErr result (λ f. IsCause f (values_fault (relations_of known.now) (levels_of levels.now) args.now)) }
{
    let Some(high) = high_bound(before, args) else {
        return resolve_values(alloc, args, known, levels);
    };
    let [_, value] = resolved else {
        return resolve_values(alloc, args, known, levels);
    };
    let high = resolve_value(alloc, high, known, levels)?;
    Ok(copied_before(alloc, value, high)?)
}

/// The high bound in the arguments of the second of two predicates, where the value that it bounds ends those of the first.
fn high_bound<'a>(before: &'a [Expr], args: &'a [Expr]) -> Option<&'a Expr>
    ensures { IfSome result (λ high. AreBoundsOfOne before.now args.now high.now) }
{
    let ([_, value], [again, high]) = (before, args) else {
        return None;
    };
    if !value.is_same(again) {
        return None;
    }
    Some(high)
}

/// A copy of a value, and another one behind it.
fn copied_before(alloc: Global, value: &RVal, behind: RVal) -> Result<List<RVal>, NoMemory>
    ensures { IfOk result (λ pair. pair ≡ value.now ∷ behind ∷ []) }
{
    let value = value.copy(alloc)?;
    Ok(List::from_vec(vec![in alloc; value, behind]?))
}

/// Appends two predicates, each by its number and its arguments.
fn push_predicates(
    conditions: &mut Vec<RCond>,
    first: (u32, List<RVal>),
    second: (u32, List<RVal>),
) -> Result<(), NoMemory>
    ensures { OnOk result (conditions.new.items ≡ conditions.old.items ++ condition.Pred first.0 first.1 ∷ condition.Pred second.0 second.1 ∷ []) }
{
    conditions.reserve(2)?;
    conditions.push_reserved(RCond::Pred {
        sym: first.0,
        args: first.1,
    });
    conditions.push_reserved(RCond::Pred {
        sym: second.0,
        args: second.1,
    });
    Ok(())
}

#[cycle(resolve)]
#[tactic(auto, using(crate::proofs::resolving::Conditions::laws))]
fn add_conjuncts_of_each<'k, 'a>(
    conditions: &mut Vec<RCond>,
    alloc: Global,
    parts: &'a [Expr],
    known: &'k Catalog<'a>,
    levels: &Levels<'_, 'k, 'a>,
) -> Result<(), ScopeFault>
    ensures fine { OnOk result (truths_fault (relations_of known.now) (levels_of levels.now) parts.now ≡ None) }
    ensures value { OnOk result (conditions.new.items ≡ conditions.old.items ++ conjuncts_listed (relations_of known.now) (levels_of levels.now) parts.now) }
    ensures err { IfErr result (λ f. IsCause f (truths_fault (relations_of known.now) (levels_of levels.now) parts.now)) }
{
    for part in parts {
        add_conjuncts(conditions, alloc, part, known, levels)?;
    }
    Ok(())
}

/// Appends the conjuncts of a condition, if one is written.
#[cycle(resolve)]
#[inline(never)]
#[tactic(auto, using(crate::proofs::resolving::Conditions::laws))]
pub fn add_written<'k, 'a>(
    conditions: &mut Vec<RCond>,
    alloc: Global,
    condition: &'a Option<Expr>,
    known: &'k Catalog<'a>,
    levels: &Levels<'_, 'k, 'a>,
) -> Result<(), ScopeFault>
    ensures fine { OnOk result (written_fault (relations_of known.now) (levels_of levels.now) condition.now ≡ None) }
    ensures value { OnOk result (conditions.new.items ≡ conditions.old.items ++ written_listed (relations_of known.now) (levels_of levels.now) condition.now) }
    ensures err { IfErr result (λ f. IsCause f (written_fault (relations_of known.now) (levels_of levels.now) condition.now)) }
{
    match condition {
        Some(expr) => add_conjuncts(conditions, alloc, expr, known, levels),
        None => Ok(()),
    }
}

/// The condition of HAVING, if one is written.
#[cycle(resolve)]
#[inline(never)]
#[tactic(auto, using(crate::proofs::resolving::Conditions::laws))]
pub fn resolve_having<'k, 'a>(
    alloc: Global,
    condition: &'a Option<Expr>,
    known: &'k Catalog<'a>,
    levels: &Levels<'_, 'k, 'a>,
) -> Result<Option<RCond>, ScopeFault>
    ensures fine { IfOk result (λ v. written_fault (relations_of known.now) (levels_of levels.now) condition.now ≡ None) }
    ensures value { IfOk result (λ v. v ≡ having_listed (relations_of known.now) (levels_of levels.now) condition.now) }
    ensures err { IfErr result (λ f. IsCause f (written_fault (relations_of known.now) (levels_of levels.now) condition.now)) }
{
    match condition {
        Some(expr) => Ok(Some(resolve_condition(alloc, expr, known, levels)?)),
        None => Ok(None),
    }
}
