//! Blocks: their entries, conditions, groups and items.
ghost use Rattle.std.specs.Prelude.{◌≡◌, ◌++◌, [], OnOk, IfOk, IfErr, IfSome, None, length, map};
ghost use Rattle.sql_model.specs.Headings.{block_columns, source_columns};
ghost use Rattle.scope_core.specs.Answer.{IsCause};
ghost use Rattle.scope_core.specs.FirstFault.{fault_at};
ghost use Rattle.scope_core.specs.Lent.{entries_headings, headings_of, levels_of, relations_of};
ghost use Rattle.scope_core.specs.Parts.{block_fault, entries_fault, entries_listed, filter_fault, filter_listed, from_headings, grouping_over, item_fault, items_fault, items_listed, on_fault, on_listed, output_fault, output_having, output_items, source_fault};
ghost use Rattle.scope_core.specs.Resolving.{resolved_block, resolved_item, resolved_source, star};
ghost use Rattle.scope_core.specs.Scope.{headings_here, no_entry};
ghost use Rattle.scope_core.specs.Sites.{AnAlias};

use super::Projected;
use super::conditions::{add_written, resolve_having};
use super::queries::resolve_query;
use super::values::resolve_value;
use crate::NoMemory;
use crate::catalog::Catalog;
use crate::checks::{check_alias, check_outputs, is_one_group, resolve_name};
use crate::fault::{ScopeFault, number};
use crate::grouping::{resolve_grouping, sight_by};
use crate::guide::Guide;
use crate::heading::Heading;
use crate::items::Items;
use crate::level::{Levels, Sight};
use crate::output::Projection;
use crate::star::{WrittenStar, add_alias_star, add_star, write_star};
use crate::tree::{Grouping, RBlock, RCond, REntry, RSource, RVal};
use plain_data::{Kept, List};
use sql_model::{Block, Entry, Item, Query, Source};
use std::alloc::Global;

/// A block: its entries, then what stands in ON and WHERE, GROUP BY, the items and HAVING.
#[cycle(resolve)]
#[inline(never)]
#[tactic(auto, using(crate::proofs::resolving::Blocks::laws, crate::proofs::resolving::Blocks::tree))]
pub fn resolve_block<'k, 'a>(
    alloc: Global,
    block: &'a Block,
    known: &'k Catalog<'a>,
    levels: &Levels<'_, 'k, 'a>,
) -> Result<Projected<'k, 'a, RBlock>, ScopeFault>
    ensures fine { IfOk result (λ v. block_fault (relations_of known.now) (levels_of levels.now) block.now ≡ None) }
    ensures value { IfOk result (λ v. v.tree ≡ resolved_block block.now (relations_of known.now) (levels_of levels.now)) }
    ensures columns { IfOk result (λ v. v.columns ≡ block_columns block.now (headings_of known.now)) }
    ensures err { IfErr result (λ f. IsCause f (block_fault (relations_of known.now) (levels_of levels.now) block.now)) }
{
    let from = resolve_entries(alloc, block.entries.as_slice(), &*known, &*levels)?;
    let headings = from.headings.as_slice();
    let conds = resolve_filter(alloc, block, headings, &*known, &*levels)?;
    let output = resolve_output(alloc, block, headings, &*known, &*levels)?;
    let width = output.items.len();
    let tree = RBlock {
        distinct: block.distinct,
        entries: from.entries,
        conds,
        grouping: output.grouping,
        having: output.having,
        items: output.items,
    };
    Ok(Projected {
        tree,
        columns: Projection::new(block.items.as_slice(), from.headings, width),
    })
}

/// What the rows of a block's entries have to meet: the conjuncts of ON and WHERE.
#[cycle(resolve)]
#[inline(never)]
#[tactic(auto, using(crate::proofs::resolving::Blocks::filter))]
fn resolve_filter<'s, 'k, 'a>(
    alloc: Global,
    block: &'a Block,
    headings: &'s [Heading<'k, 'a>],
    known: &'k Catalog<'a>,
    levels: &'s Levels<'s, 'k, 'a>,
) -> Result<List<RCond>, ScopeFault>
    requires { headings.now ≡ from_headings block.now (headings_of known.now) }
    ensures fine { IfOk result (λ v. filter_fault (relations_of known.now) (levels_of levels.now) block.now headings.now ≡ None) }
    ensures value { IfOk result (λ v. v ≡ filter_listed (relations_of known.now) (levels_of levels.now) block.now headings.now) }
    ensures err { IfErr result (λ f. IsCause f (filter_fault (relations_of known.now) (levels_of levels.now) block.now headings.now)) }
{
    let mut conditions = Vec::new(alloc);
    add_on_conditions(
        &mut conditions,
        alloc,
        block.entries.as_slice(),
        headings,
        known,
        &*levels,
    )?;
    let rows = Levels::Block {
        first: 0,
        headings,
        sight: Sight::Rows,
        outer: levels,
    };
    add_written(&mut conditions, alloc, &block.cond, known, &rows)?;
    Ok(List::from_vec(conditions))
}

/// What a block makes of the rows that are left: their groups, those of them that HAVING keeps, and the items.
#[derive(Drop)]
struct Output {
    grouping: Grouping,
    items: Items<RVal>,
    having: Option<RCond>,
}

#[cycle(resolve)]
#[inline(never)]
#[tactic(auto, using(crate::proofs::resolving::Blocks::outputs))]
fn resolve_output<'s, 'k, 'a>(
    alloc: Global,
    block: &'a Block,
    headings: &'s [Heading<'k, 'a>],
    known: &'k Catalog<'a>,
    levels: &'s Levels<'s, 'k, 'a>,
) -> Result<Output, ScopeFault>
    ensures fine { IfOk result (λ v. output_fault (relations_of known.now) (levels_of levels.now) block.now headings.now ≡ None) }
    ensures grouping { IfOk result (λ v. v.grouping ≡ grouping_over block.now headings.now) }
    ensures items { IfOk result (λ v. v.items ≡ output_items (relations_of known.now) (levels_of levels.now) block.now headings.now) }
    ensures having { IfOk result (λ v. v.having ≡ output_having (relations_of known.now) (levels_of levels.now) block.now headings.now) }
    ensures err { IfErr result (λ f. IsCause f (output_fault (relations_of known.now) (levels_of levels.now) block.now headings.now)) }
{
    let one_group = is_one_group(block.items.as_slice(), &block.having);
    let grouping = resolve_grouping(alloc, &block.groups, one_group, &*headings, &*levels)?;
    let output = Levels::Block {
        first: 0,
        headings: &*headings,
        sight: sight_by(&grouping),
        outer: &*levels,
    };
    let items = resolve_items(alloc, block.items.as_slice(), known, &output)?;
    let having = resolve_having(alloc, &block.having, known, &output)?;
    Ok(Output {
        grouping,
        items,
        having,
    })
}

/// The entries of FROM, and what stands behind their names.
#[derive(Drop)]
struct FromClause<'k, 'a> {
    entries: List<REntry>,
    headings: Vec<Heading<'k, 'a>>,
}

#[cycle(resolve)]
#[inline(never)]
#[tactic(auto, using(crate::proofs::resolving::Queries::laws))]
fn resolve_entries<'k, 'a>(
    alloc: Global,
    entries: &'a [Entry],
    known: &'k Catalog<'a>,
    levels: &Levels<'_, 'k, 'a>,
) -> Result<FromClause<'k, 'a>, ScopeFault>
    ensures fine { IfOk result (λ v. entries_fault (relations_of known.now) (levels_of levels.now) [] entries.now ≡ None) }
    ensures value { IfOk result (λ v. v.entries ≡ entries_listed (relations_of known.now) (levels_of levels.now) entries.now) }
    ensures headings { IfOk result (λ v. v.headings.items ≡ entries_headings entries.now (headings_of known.now)) }
    ensures err { IfErr result (λ f. IsCause f (entries_fault (relations_of known.now) (levels_of levels.now) [] entries.now)) }
{
    let mut resolved = Vec::with_capacity(alloc, entries.len())?;
    let mut headings = Vec::with_capacity(alloc, entries.len())?;
    for entry in entries {
        let source = resolve_source(alloc, &entry.source, known, levels)?;
        let width = width_of_new(entry, source.columns.get(), headings.as_slice())?;
        resolved.push_reserved(REntry {
            source: source.tree.into_inner(),
            width,
        });
        let columns = source.columns.into_inner();
        headings.push_reserved(Heading::new(&entry.alias, columns));
    }
    Ok(FromClause {
        entries: List::from_vec(resolved),
        headings,
    })
}

/// What an entry takes its rows from, and its columns.
#[derive(Drop)]
struct FromSource<'k, 'a> {
    tree: Kept<RSource>,
    columns: Kept<Guide<'k, 'a>>,
}

/// The columns of a derived table: where they are all those of one source, its own are handed on.
fn guide_of<'k, 'a>(
    alloc: Global,
    source: &'a Source,
    columns: Projection<'k, 'a>,
    known: &'k Catalog<'a>,
) -> Result<Guide<'k, 'a>, NoMemory>
    requires { columns ≡ source_columns source.now (headings_of known.now) }
    ensures { IfOk result (λ guide. guide ≡ columns.entry) }
{
    match columns.into_only() {
        Some(guide) => Ok(guide),
        None => Guide::of_source(alloc, source, known),
    }
}

/// How many columns an entry has, whose name no entry before it may have.
#[tactic(auto, using(crate::proofs::resolving::Columns::causes))]
fn width_of_new(entry: &Entry, columns: &Guide, before: &[Heading]) -> Result<u32, ScopeFault>
    ensures fine { OnOk result (fault_at (AnAlias entry.now.alias (map (λ h. h.alias) before.now) entry.now.at) ≡ None) }
    ensures value { IfOk result (λ width. width ≡ length columns.now) }
    ensures err { IfErr result (λ f. IsCause f (fault_at (AnAlias entry.now.alias (map (λ h. h.alias) before.now) entry.now.at))) }
{
    check_alias(&entry.alias, entry.at, before)?;
    number(columns.len())
}

#[cycle(resolve)]
#[inline(never)]
#[tactic(auto, using(crate::proofs::resolving::Queries::laws, crate::proofs::resolving::Outputs::outputs))]
fn resolve_source<'k, 'a>(
    alloc: Global,
    source: &'a Source,
    known: &'k Catalog<'a>,
    levels: &Levels<'_, 'k, 'a>,
) -> Result<FromSource<'k, 'a>, ScopeFault>
    ensures fine { IfOk result (λ v. source_fault (relations_of known.now) (levels_of levels.now) source.now ≡ None) }
    ensures value { IfOk result (λ v. v.tree ≡ resolved_source source.now (relations_of known.now) (levels_of levels.now)) }
    ensures columns { IfOk result (λ v. v.columns ≡ source_columns source.now (headings_of known.now)) }
    ensures err { IfErr result (λ f. IsCause f (source_fault (relations_of known.now) (levels_of levels.now) source.now)) }
{
    match source {
        Source::Named { name, at } => Ok(FromSource {
            tree: Kept::new(resolve_name(name, *at, known)?),
            columns: Kept::new(Guide::of_source(alloc, source, known)?),
        }),
        Source::Query { query } => {
            let query = resolve_query(alloc, query.get(), known, levels)?;
            Ok(FromSource {
                columns: Kept::new(guide_of(alloc, source, query.columns, known)?),
                tree: Kept::new(RSource::Query { query: query.tree }),
            })
        }
    }
}

/// Appends the conjuncts of the ON conditions. After a comma an ON sees its own entry alone, after a JOIN those before it too.
#[cycle(resolve)]
#[inline(never)]
#[tactic(auto, using(crate::proofs::resolving::Queries::laws))]
fn add_on_conditions<'s, 'k, 'a>(
    conditions: &mut Vec<RCond>,
    alloc: Global,
    entries: &'a [Entry],
    headings: &'s [Heading<'k, 'a>],
    known: &'k Catalog<'a>,
    levels: &'s Levels<'s, 'k, 'a>,
) -> Result<(), ScopeFault>
    requires { headings.now ≡ entries_headings entries.now (headings_of known.now) }
    ensures fine { OnOk result (on_fault (relations_of known.now) (levels_of levels.now) 0 no_entry entries.now ≡ None) }
    ensures value { OnOk result (conditions.new.items ≡ conditions.old.items ++ on_listed (relations_of known.now) (levels_of levels.now) 0 no_entry entries.now) }
    ensures err { IfErr result (λ f. IsCause f (on_fault (relations_of known.now) (levels_of levels.now) 0 no_entry entries.now)) }
{
    let mut first = 0;
    for (index, entry) in entries.iter().enumerate() {
        if !entry.joined {
            first = index;
        }
        let seen = Levels::Block {
            first: number(first)?,
            headings: &headings[first..=index],
            sight: Sight::Rows,
            outer: levels,
        };
        add_written(conditions, alloc, &entry.on, known, &seen)?;
    }
    Ok(())
}

/// The values of the items, one for each output.
#[cycle(resolve)]
#[inline(never)]
#[tactic(auto, using(crate::proofs::resolving::Queries::laws))]
fn resolve_items<'k, 'a>(
    alloc: Global,
    items: &'a [Item],
    known: &'k Catalog<'a>,
    levels: &Levels<'_, 'k, 'a>,
) -> Result<Items<RVal>, ScopeFault>
    ensures fine { IfOk result (λ v. items_fault (relations_of known.now) (levels_of levels.now) 0 items.now ≡ None) }
    ensures value { IfOk result (λ v. v ≡ items_listed (relations_of known.now) (levels_of levels.now) items.now) }
    ensures err { IfErr result (λ f. IsCause f (items_fault (relations_of known.now) (levels_of levels.now) 0 items.now)) }
{
    let mut values = Items::with_capacity(alloc, count_values(items))?;
    let written = write_star(alloc, items, levels)?;
    for item in items {
        add_item(item, &mut values, alloc, &written, known, levels)?;
        check_outputs(values.len())?;
    }
    Ok(values)
}

/// How many items are values.
fn count_values(items: &[Item]) -> usize {
    items
        .iter()
        .filter(|item| matches!(item, Item::Value { .. }))
        .count()
}

/// Appends the values of an item.
#[cycle(resolve)]
#[inline(never)]
#[tactic(auto, using(crate::proofs::resolving::Queries::laws))]
fn add_item<'k, 'a>(
    item: &'a Item,
    values: &mut Items<RVal>,
    alloc: Global,
    written: &WrittenStar,
    known: &'k Catalog<'a>,
    levels: &Levels<'_, 'k, 'a>,
) -> Result<(), ScopeFault>
    requires { IfSome written.now.columns (λ columns. columns ≡ star 0 (headings_here (levels_of levels.now))) }
    ensures fine { OnOk result (item_fault (relations_of known.now) (levels_of levels.now) item.now ≡ None) }
    ensures value { OnOk result (values.new ≡ values.old ++ resolved_item item.now (relations_of known.now) (levels_of levels.now)) }
    ensures err { IfErr result (λ f. IsCause f (item_fault (relations_of known.now) (levels_of levels.now) item.now)) }
{
    match item {
        Item::Star { at } => add_star(values, alloc, *at, written, levels),
        Item::AliasStar { alias, at } => add_alias_star(values, alloc, alias, *at, levels),
        Item::Value { expr, .. } => {
            let value = resolve_value(alloc, expr, known, levels)?;
            values.push(value)?;
            Ok(())
        }
    }
}
