//! GROUP BY, and conjunctions.
ghost use Rattle.std.specs.Prelude.{◌≡◌, ◌∷◌, IfErr, IfOk};
ghost use Rattle.scope_core.specs.Answer.{IsCause};
ghost use Rattle.scope_core.specs.Lent.{levels_of, sight_of};
ghost use Rattle.scope_core.specs.Parts.{columns_fault, group_by_fault, group_fault, grouping_listed, places_listed};
ghost use Rattle.scope_core.specs.Resolving.{conjunction};
ghost use Rattle.scope_core.specs.Scope.{output_sight, rows_level, group_place};

use crate::column::resolve_own_column;
use crate::fault::{ScopeCode, ScopeFault, refused};
use crate::heading::Heading;
use crate::level::{Levels, Sight};
use crate::tree::{Grouping, RCond};
use plain_data::List;
use sql_model::Expr;
use std::alloc::Global;

/// One condition alone, or an AND.
pub fn conjunction(mut conditions: Vec<RCond>) -> RCond
    ensures { result ≡ conjunction conditions.items }
{
    if conditions.len() == 1 {
        if let Some(condition) = conditions.pop() {
            return condition;
        }
    }
    RCond::And {
        parts: List::from_vec(conditions),
    }
}

/// How the items and HAVING of a block of this grouping see it.
pub fn sight_by(grouping: &Grouping) -> Sight
    ensures { sight_of result ≡ output_sight grouping.now }
{
    match grouping {
        Grouping::Plain => Sight::Rows,
        Grouping::One => Sight::Group { columns: &[] },
        Grouping::Keys { columns } => Sight::Group {
            columns: columns.as_slice(),
        },
    }
}

/// The key of a block, or that it has none.
#[inline(never)]
#[tactic(auto, using(crate::proofs::resolving::Groups::laws))]
pub fn resolve_grouping<'s, 'k, 'a>(
    alloc: Global,
    groups: &Option<List<Expr>>,
    one_group: bool,
    headings: &'s [Heading<'k, 'a>],
    levels: &'s Levels<'s, 'k, 'a>,
) -> Result<Grouping, ScopeFault>
    ensures fine { IfOk result (λ v. group_by_fault (rows_level headings.now ∷ levels_of levels.now) groups.now ≡ None) }
    ensures value { IfOk result (λ v. v ≡ grouping_listed groups.now one_group headings.now) }
    ensures err { IfErr result (λ f. IsCause f (group_by_fault (rows_level headings.now ∷ levels_of levels.now) groups.now)) }
{
    match groups {
        Some(columns) => Ok(Grouping::Keys {
            columns: resolve_columns(alloc, columns.as_slice(), headings, levels)?,
        }),
        None => Ok(if one_group {
            Grouping::One
        } else {
            Grouping::Plain
        }),
    }
}

#[tactic(auto, using(crate::proofs::resolving::Groups::laws))]
fn resolve_columns<'s, 'k, 'a>(
    alloc: Global,
    columns: &[Expr],
    headings: &'s [Heading<'k, 'a>],
    levels: &'s Levels<'s, 'k, 'a>,
) -> Result<List<(u32, u32)>, ScopeFault>
    ensures fine { IfOk result (λ v. columns_fault (rows_level headings.now ∷ levels_of levels.now) columns.now ≡ None) }
    ensures value { IfOk result (λ v. v ≡ places_listed headings.now columns.now) }
    ensures err { IfErr result (λ f. IsCause f (columns_fault (rows_level headings.now ∷ levels_of levels.now) columns.now)) }
{
    let mut places = Vec::with_capacity(alloc, columns.len())?;
    for column in columns {
        let place = resolve_group_column(column, headings, levels)?;
        places.push(place)?;
    }
    Ok(List::from_vec(places))
}

#[tactic(auto, using(crate::proofs::resolving::Groups::laws))]
fn resolve_group_column<'s, 'k, 'a>(
    column: &Expr,
    headings: &'s [Heading<'k, 'a>],
    levels: &'s Levels<'s, 'k, 'a>,
) -> Result<(u32, u32), ScopeFault>
    ensures fine { IfOk result (λ v. group_fault (rows_level headings.now ∷ levels_of levels.now) column.now ≡ None) }
    ensures value { IfOk result (λ v. v ≡ group_place column.now headings.now) }
    ensures err { IfErr result (λ f. IsCause f (group_fault (rows_level headings.now ∷ levels_of levels.now) column.now)) }
{
    match column {
        Expr::Col {
            qual,
            qual_at,
            name,
            at,
        } => resolve_own_column(qual, *qual_at, name, *at, headings, levels),
        Expr::Lit { at, .. } => Err(refused(ScopeCode::UnknownColumn, *at)),
        Expr::Fun { at, .. } => Err(refused(ScopeCode::UnknownColumn, *at)),
        Expr::Pred { at, .. } => Err(refused(ScopeCode::UnknownColumn, *at)),
        Expr::Call { at, .. } => Err(refused(ScopeCode::UnknownColumn, *at)),
        Expr::Agg { at, .. } => Err(refused(ScopeCode::UnknownColumn, *at)),
        Expr::Sub { at, .. } => Err(refused(ScopeCode::UnknownColumn, *at)),
        Expr::Eq { at, .. } => Err(refused(ScopeCode::UnknownColumn, *at)),
        Expr::And { at, .. } => Err(refused(ScopeCode::UnknownColumn, *at)),
        Expr::Or { at, .. } => Err(refused(ScopeCode::UnknownColumn, *at)),
        Expr::Not { at, .. } => Err(refused(ScopeCode::UnknownColumn, *at)),
        Expr::Exists { at, .. } => Err(refused(ScopeCode::UnknownColumn, *at)),
        Expr::In { at, .. } => Err(refused(ScopeCode::UnknownColumn, *at)),
    }
}
