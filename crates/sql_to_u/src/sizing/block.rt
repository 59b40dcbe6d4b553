//! Queries, blocks and sources.
ghost use Rattle.std.specs.Prelude.{◌≡◌, get_or};
ghost use Rattle.sql_to_u.specs.Sizes.{block_size, capped, key_sizes, no_members, query_size, source_size, with_factors};
ghost use Rattle.sql_to_u.specs.Sizes as sizes;
ghost use Rattle.sql_to_u.specs.Listed.{columns_listed, row_sizes, source_sizes_listed};
ghost use Rattle.sql_to_u.specs.BlockSizes.{group_size, joined_size, keys_size, one_size, plain_size};
ghost use Rattle.scope_core.specs.declared.tree.RBlock.{out-RBlock};

use crate::product::{GroupSize, Product, Row, no_group};
use crate::size::{Size, both, combined, leaf, names, over, squash_if, under};
use crate::sizing::condition::{add_conditions, add_having};
use crate::sizing::value::add_items;
use scope_core::{Grouping, RBlock, REntry, RQuery, RSource};

/// Of a query at values of these sizes.
#[cycle(sizes)]
#[tactic(auto, using(crate::proofs::sizes::SizeLaws::at_nodes))]
pub fn query_size(query: &RQuery, row: Row, views: &[Size]) -> Size
    ensures { result ≡ query_size views.now query.now (row_sizes row) }
{
    match query {
        RQuery::Block { block } => block_size(block.get(), row, views),
        RQuery::Set { op, left, right } => {
            let left = query_size(left.get(), row, views);
            let right = query_size(right.get(), row, views);
            combined(*op, left, right)
        }
    }
}

#[cycle(sizes)]
#[tactic(auto, using(crate::proofs::sizes::SizeLaws::blocks))]
fn block_size(block: &RBlock, row: Row, views: &[Size]) -> Size
    ensures { result ≡ block_size views.now block.now (row_sizes row) }
{
    match &block.grouping {
        Grouping::Plain => plain_size(block, row, views),
        Grouping::One => one_size(block, row, views),
        Grouping::Keys { columns } => keys_size(block, columns.as_slice(), row, views),
    }
}

#[cycle(sizes)]
fn plain_size(block: &RBlock, row: Row, views: &[Size]) -> Size
    ensures { result ≡ plain_size views.now block.now (row_sizes row) }
{
    let joined = joined_size(block, views);
    let factors = add_items(joined, &block.items, no_group(), row, views);
    let sums = count_columns(block.entries.as_slice());
    squash_if(block.distinct, over(sums, factors.size()))
}

#[cycle(sizes)]
fn one_size(block: &RBlock, row: Row, views: &[Size]) -> Size
    ensures { result ≡ one_size views.now block.now (row_sizes row) }
{
    let group = group_size(block, joined_size(block, views));
    let having = add_having(Product::Empty, &block.having, group, views);
    let factors = add_items(having, &block.items, group, row, views);
    squash_if(block.distinct, factors.size())
}

#[cycle(sizes)]
fn keys_size(block: &RBlock, key: &[(u32, u32)], row: Row, views: &[Size]) -> Size
    ensures { result ≡ keys_size views.now key.now block.now (row_sizes row) }
{
    let members = add_keys(joined_size(block, views), key);
    let group = group_size(block, members);
    let some = under(over(group.columns, group.factors.size()));
    let having = add_having(Product::Empty.with(some), &block.having, group, views);
    let factors = add_items(having, &block.items, group, row, views);
    squash_if(block.distinct, over(key.len() as u64, factors.size()))
}

/// The factors for a block's entries and conditions.
#[cycle(sizes)]
pub fn joined_size(block: &RBlock, views: &[Size]) -> Product
    ensures { result ≡ joined_size views.now block.now }
{
    let sources = add_sources(Product::Empty, block.entries.as_slice(), views);
    add_conditions(sources, block.conds.as_slice(), no_group(), views)
}

/// The members of a block's group.
pub fn group_size(block: &RBlock, factors: Product) -> GroupSize
    ensures { result ≡ record { columns = capped (columns_listed (out-RBlock block.now).entries); factors = factors } }
{
    GroupSize {
        columns: count_columns(block.entries.as_slice()),
        factors,
    }
}

/// How many columns the entries have.
#[tactic(auto, using(crate::proofs::sizes::SizeLaws::entries))]
fn count_columns(entries: &[REntry]) -> u64
    ensures { result ≡ capped (columns_listed entries.now) }
{
    let mut count: u64 = 0;
    for entry in entries {
        count = count.saturating_add(u64::from(entry.width));
    }
    count
}

/// An equality for each column of a key.
fn add_keys(before: Product, key: &[(u32, u32)]) -> Product
    ensures { result ≡ with_factors before (key_sizes key.now) }
{
    let mut factors = before;
    for _column in key {
        factors = factors.with(both(leaf(), leaf()));
    }
    factors
}

#[cycle(sizes)]
fn add_sources(before: Product, entries: &[REntry], views: &[Size]) -> Product
    ensures { result ≡ with_factors before (source_sizes_listed views.now entries.now) }
{
    let mut factors = before;
    for entry in entries {
        factors = factors.with(source_size(&entry.source, entry.width, views));
    }
    factors
}

/// Of a source at a row of so many names.
#[cycle(sizes)]
#[tactic(auto, using(crate::proofs::sizes::SizeLaws::at_nodes))]
fn source_size(source: &RSource, wide: u32, views: &[Size]) -> Size
    ensures { result ≡ source_size views.now source.now wide }
{
    match source {
        RSource::Table { .. } => under(names(wide)),
        RSource::View { place } => view_size(*place, views),
        RSource::Query { query } => query_size(query.get(), Row::Names(wide as usize), views),
    }
}

fn view_size(place: u32, views: &[Size]) -> Size
    ensures { result ≡ get_or views.now place sizes.leaf }
{
    match views.get(place as usize) {
        Some(size) => *size,
        None => leaf(),
    }
}
