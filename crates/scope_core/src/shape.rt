//! The width of a resolved tree, and whether it is plain.
ghost use Rattle.std.specs.Prelude.{◌≡◌};
ghost use Rattle.std.specs.List.{list_all};
ghost use Rattle.scope_core.specs.declared.tree.RQuery.TheVariants as query;
ghost use Rattle.scope_core.specs.Plain.{is_grouping, is_plain_tree, is_table, is_tree_equality, is_tree_point};
ghost use Rattle.scope_core.specs.Width.{width};

use crate::items::Items;
use crate::tree::{Grouping, RBlock, RCond, REntry, RQuery, RSource, RVal};
use plain_data::{List, Shared};

/// How many columns the answer of a tree has.
#[tactic(auto, using(crate::proofs::trees::Shapes::widths))]
pub fn query_width(tree: &RQuery) -> usize
    ensures { result ≡ width tree.now }
{
    match tree {
        RQuery::Block { block } => block.get().items.len(),
        RQuery::Set { left, .. } => query_width(left.get()),
    }
}

/// Whether a tree is one block without DISTINCT, grouping and HAVING, over base tables, whose items and conditions hold columns and
/// literals alone.
#[tactic(auto, using(crate::proofs::trees::Shapes::plain))]
pub fn is_plain(tree: &RQuery) -> bool
    ensures { result ≡ is_plain_tree tree.now }
{
    match tree {
        RQuery::Block { block } => is_plain_block(block.get()),
        RQuery::Set { .. } => false,
    }
}

#[tactic(auto, using(crate::proofs::trees::Shapes::plain))]
fn is_plain_block(block: &RBlock) -> bool
    ensures { result ≡ is_plain_tree (query.Block block.now) }
{
    if block.distinct || block.having.is_some() || is_grouping(&block.grouping) {
        return false;
    }
    are_tables(block.entries.as_slice())
        && are_equalities(block.conds.as_slice())
        && are_all_points(&block.items)
}

/// Whether a grouping makes groups.
fn is_grouping(grouping: &Grouping) -> bool
    ensures { result ≡ is_grouping grouping.now }
{
    match grouping {
        Grouping::Plain => false,
        Grouping::One => true,
        Grouping::Keys { .. } => true,
    }
}

fn are_tables(entries: &[REntry]) -> bool
    ensures { result ≡ list_all (λ entry. is_table entry.source) entries.now }
{
    entries.iter().all(|entry| is_table(&entry.source))
}

#[tactic(auto, using(crate::proofs::trees::Shapes::kinds))]
fn is_table(source: &RSource) -> bool
    ensures { result ≡ is_table source.now }
{
    match source {
        RSource::Table { .. } => true,
        RSource::View { .. } => false,
        RSource::Query { .. } => false,
    }
}

fn are_equalities(conditions: &[RCond]) -> bool
    ensures { result ≡ list_all (λ condition. is_tree_equality condition) conditions.now }
{
    conditions.iter().all(|condition| is_equality(condition))
}

#[tactic(auto, using(crate::proofs::trees::Shapes::kinds))]
fn is_equality(condition: &RCond) -> bool
    ensures { result ≡ is_tree_equality condition.now }
{
    match condition {
        RCond::Eq { left, right } => is_point(left.get()) && is_point(right),
        RCond::Pred { .. } => false,
        RCond::And { .. } => false,
        RCond::Or { .. } => false,
        RCond::Not { .. } => false,
        RCond::Exists { .. } => false,
        RCond::In { .. } => false,
    }
}

fn are_all_points(items: &Items<RVal>) -> bool
    ensures { result ≡ list_all (λ value. is_tree_point value) items.now }
{
    let parts = items.parts();
    are_parts_points(parts.before) && are_points(parts.last)
}

fn are_parts_points(parts: &[Shared<List<RVal>>]) -> bool
    ensures { result ≡ list_all (λ part. list_all (λ value. is_tree_point value) part) parts.now }
{
    parts.iter().all(|part| are_points(part.get().as_slice()))
}

fn are_points(values: &[RVal]) -> bool
    ensures { result ≡ list_all (λ value. is_tree_point value) values.now }
{
    values.iter().all(|value| is_point(value))
}

/// Whether a value is a column or a literal.
#[tactic(auto, using(crate::proofs::trees::Shapes::kinds))]
fn is_point(value: &RVal) -> bool
    ensures { result ≡ is_tree_point value.now }
{
    match value {
        RVal::Col { .. } => true,
        RVal::Lit { .. } => true,
        RVal::Key { .. } => false,
        RVal::Fun { .. } => false,
        RVal::Agg { .. } => false,
        RVal::Sub { .. } => false,
    }
}
