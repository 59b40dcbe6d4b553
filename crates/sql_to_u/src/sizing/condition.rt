//! Conditions.
ghost use Rattle.std.specs.Prelude.{◌≡◌, ◌∷◌, []};
ghost use Rattle.sql_to_u.specs.Sizes.{condition_size, with_factor, with_factors};
ghost use Rattle.sql_to_u.specs.Sizes as sizes;
ghost use Rattle.sql_to_u.specs.Listed.{condition_sizes_listed, having_sizes_written};

use crate::product::{GroupSize, Product, Row};
use crate::size::{Size, both, nothing, over, under};
use crate::sizing::block::query_size;
use crate::sizing::value::{value_size, values_size};
use scope_core::{RCond, query_width};

/// A factor for each condition.
#[cycle(sizes)]
pub fn add_conditions(
    before: Product,
    conditions: &[RCond],
    group: GroupSize,
    views: &[Size],
) -> Product
    ensures { result ≡ with_factors before (condition_sizes_listed views.now group conditions.now) }
{
    let mut factors = before;
    for condition in conditions {
        factors = factors.with(condition_size(condition, group, views));
    }
    factors
}

#[cycle(sizes)]
#[tactic(auto, using(crate::proofs::sizes::SizeLaws::at_nodes))]
fn condition_size(condition: &RCond, group: GroupSize, views: &[Size]) -> Size
    ensures { result ≡ condition_size views.now condition.now group }
{
    match condition {
        RCond::Eq { left, right } => {
            let left = value_size(left.get(), group, views);
            let right = value_size(right, group, views);
            both(left, right)
        }
        RCond::Pred { args, .. } => under(values_size(nothing(), args.as_slice(), group, views)),
        RCond::And { parts } => {
            add_conditions(Product::Empty, parts.as_slice(), group, views).size()
        }
        RCond::Or { parts } => {
            under(add_conditions(Product::Empty, parts.as_slice(), group, views).size())
        }
        RCond::Not { part } => under(condition_size(part.get(), group, views)),
        RCond::Exists { query } => {
            let width = query_width(query.get());
            let inside = query_size(query.get(), Row::Names(width), views);
            under(over(width as u64, inside))
        }
        RCond::In { value, query } => {
            let value = value_size(value, group, views);
            under(query_size(query.get(), Row::One(value), views))
        }
    }
}

/// What HAVING gives: an AND gives a factor for each of its parts.
#[cycle(sizes)]
#[tactic(auto, using(crate::proofs::sizes::SizeLaws::having_at))]
pub fn add_having(
    before: Product,
    having: &Option<RCond>,
    group: GroupSize,
    views: &[Size],
) -> Product
    ensures { result ≡ with_factors before (having_sizes_written views.now group having.now) }
{
    match having {
        None => before,
        Some(condition) => match condition {
            RCond::And { parts } => add_conditions(before, parts.as_slice(), group, views),
            RCond::Eq { .. } => before.with(condition_size(condition, group, views)),
            RCond::Pred { .. } => before.with(condition_size(condition, group, views)),
            RCond::Or { .. } => before.with(condition_size(condition, group, views)),
            RCond::Not { .. } => before.with(condition_size(condition, group, views)),
            RCond::Exists { .. } => before.with(condition_size(condition, group, views)),
            RCond::In { .. } => before.with(condition_size(condition, group, views)),
        },
    }
}
