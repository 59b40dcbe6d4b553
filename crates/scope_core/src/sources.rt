//! The columns of sources, made of the queries that they are: ropes that share those of the relations that a query names.
ghost use Rattle.std.specs.Prelude.{◌≡◌, ◌++◌, [], List, Bool, true, map, IfOk, IfSome, OnOk};
ghost use Rattle.std.specs.List.{flat_map, list_any};
ghost use Rattle.sql_model.specs.Columns.{is_called};
ghost use Rattle.sql_model.specs.Headings.{Heading as TheHeading, block_columns, columns_of, item_columns, output_columns, source_columns};
ghost use Rattle.sql_model.specs.Syntax.{Name as TheName};
ghost use Rattle.scope_core.specs.Catalogs.{declared_by};
ghost use Rattle.scope_core.specs.Directed.{AreDirected, IsMadeOf, Widens, headings_in, is_shown, is_star_of};
ghost use Rattle.scope_core.specs.Lent.{entries_headings, headings_of, list_columns};
ghost use Rattle.scope_core.specs.Names.{is_one_of, names_of};
ghost use Rattle.scope_core.specs.Ropes.{AreDirectedParts, IsDirected, columns_listed, columns_within};

use crate::NoMemory;
use crate::catalog::Catalog;
use crate::directed::{Directed, Joining};
use crate::names::Names;
use crate::output::item_name;
use sql_model::{Block, Entry, Item, Name, Query, Source, Table};
use std::alloc::Global;
use std::marker::Model;

/// Columns for a relation to come, with the names of their values, which it is to declare.
#[derive(Drop)]
pub struct NewColumns<'a> {
    pub columns: Directed<'a>,
    pub outside: Vec<&'a Name>,
}

impl<'a> NewColumns<'a> {
    /// Those of a base table.
    pub fn of_table(alloc: Global, table: &'a Table) -> Result<NewColumns<'a>, NoMemory>
        ensures columns { IfOk result (λ new. columns_within new.columns ≡ map (λ name. Some name) table.now.columns) }
        ensures directed { IfOk result (λ new. (declared : _) → IsDirected declared (is_one_of new.outside.items) new.columns) }
    {
        let names = Names::of_table(alloc, table.columns.as_slice())?;
        let mut outside = Vec::new(alloc);
        gather(&mut outside, names.names())?;
        let columns = Directed::of_names(alloc, names)?;
        Ok(NewColumns { columns, outside })
    }

    /// Those of a view's query.
    pub fn of_query(
        alloc: Global,
        query: &'a Query,
        known: &Catalog<'a>,
    ) -> Result<NewColumns<'a>, NoMemory>
        ensures columns { IfOk result (λ new. columns_within new.columns ≡ output_columns query.now (headings_of known.now)) }
        ensures directed { IfOk result (λ new. IsDirected (declared_by known.now) (is_one_of new.outside.items) new.columns) }
    {
        let mut outside = Vec::new(alloc);
        let columns = directed_query(alloc, query, known, &mut outside)?;
        Ok(NewColumns { columns, outside })
    }
}

/// An entry of FROM as stars see it: its alias and its columns.
#[derive(Drop)]
struct DirectedEntry<'a> {
    alias: &'a Name,
    columns: Directed<'a>,
}

/// The columns of a query, over the relations that it can name. `outside` gets the names of their values, which stand outside of relations.
#[cycle(directed)]
#[tactic(auto, using(crate::proofs::resolving::Outputs::outputs))]
fn directed_query<'a>(
    alloc: Global,
    query: &'a Query,
    known: &Catalog<'a>,
    outside: &mut Vec<&'a Name>,
) -> Result<Directed<'a>, NoMemory>
    ensures columns { IfOk result (λ d. columns_within d ≡ output_columns query.now (headings_of known.now)) }
    ensures directed { IfOk result (λ d. IsDirected (declared_by known.now) (is_one_of outside.new.items) d) }
    ensures kept { OnOk result (Widens (is_one_of outside.old.items) (is_one_of outside.new.items)) }
{
    match query {
        Query::Block { block } => directed_block(alloc, block.get(), known, outside),
        Query::Set { left, .. } => directed_query(alloc, left.get(), known, outside),
    }
}

/// The columns of a block. Without stars they are those of its values, whatever stands in FROM.
#[cycle(directed)]
#[tactic(auto, using(crate::proofs::resolving::Outputs::outputs))]
#[inline(never)]
fn directed_block<'a>(
    alloc: Global,
    block: &'a Block,
    known: &Catalog<'a>,
    outside: &mut Vec<&'a Name>,
) -> Result<Directed<'a>, NoMemory>
    ensures columns { IfOk result (λ d. columns_within d ≡ block_columns block.now (headings_of known.now)) }
    ensures directed { IfOk result (λ d. IsDirected (declared_by known.now) (is_one_of outside.new.items) d) }
    ensures kept { OnOk result (Widens (is_one_of outside.old.items) (is_one_of outside.new.items)) }
{
    let items = block.items.as_slice();
    match values_alone(alloc, items)? {
        Some(values) => columns_of_values(alloc, values.as_slice(), outside),
        None => {
            let entries = directed_entries(alloc, block.entries.as_slice(), items, known, outside)?;
            directed_items(alloc, items, entries, outside)
        }
    }
}

/// The entries whose columns these items show.
#[cycle(directed)]
#[tactic(auto, using(crate::proofs::resolving::Outputs::outputs))]
#[inline(never)]
fn directed_entries<'a>(
    alloc: Global,
    entries: &'a [Entry],
    items: &[Item],
    known: &Catalog<'a>,
    outside: &mut Vec<&'a Name>,
) -> Result<Vec<DirectedEntry<'a>>, NoMemory>
    ensures columns { IfOk result (λ es. list_columns items.now (headings_in es.items) ≡ list_columns items.now (entries_headings entries.now (headings_of known.now))) }
    ensures directed { IfOk result (λ es. AreDirected (declared_by known.now) (is_one_of outside.new.items) es.items) }
    ensures kept { OnOk result (Widens (is_one_of outside.old.items) (is_one_of outside.new.items)) }
{
    let mut shown = Vec::new(alloc);
    for entry in entries {
        if is_shown(items, &entry.alias) {
            let columns = directed_source(alloc, &entry.source, known, outside)?;
            shown.push(DirectedEntry {
                alias: &entry.alias,
                columns,
            })?;
        }
    }
    Ok(shown)
}

/// Whether an item stands for the columns of the entry of this alias, maybe beside others.
fn is_shown(items: &[Item], alias: &Name) -> bool
    ensures { result ≡ is_shown items.now alias.now }
{
    items.iter().any(|item| is_star_of(alias, item))
}

fn is_star_of(alias: &Name, item: &Item) -> bool
    ensures { result ≡ is_star_of alias.now item.now }
{
    match item {
        Item::Star { .. } => true,
        Item::AliasStar { alias: called, .. } => called == alias,
        Item::Value { .. } => false,
    }
}

/// The columns of an entry's source.
#[cycle(directed)]
#[tactic(auto, using(crate::proofs::resolving::Outputs::outputs))]
#[inline(never)]
pub fn directed_source<'a>(
    alloc: Global,
    source: &'a Source,
    known: &Catalog<'a>,
    outside: &mut Vec<&'a Name>,
) -> Result<Directed<'a>, NoMemory>
    ensures columns { IfOk result (λ d. columns_within d ≡ source_columns source.now (headings_of known.now)) }
    ensures directed { IfOk result (λ d. IsDirected (declared_by known.now) (is_one_of outside.new.items) d) }
    ensures kept { OnOk result (Widens (is_one_of outside.old.items) (is_one_of outside.new.items)) }
{
    match source {
        Source::Named { name, .. } => directed_relation(name, known),
        Source::Query { query } => directed_query(alloc, query.get(), known, outside),
    }
}

/// The columns of the relation of this name, or none. All their names are declared.
fn directed_relation<'a>(name: &Name, known: &Catalog<'a>) -> Result<Directed<'a>, NoMemory>
    ensures columns { IfOk result (λ d. columns_within d ≡ columns_of name.now (headings_of known.now)) }
    ensures directed { IfOk result (λ d. (outside : TheName → Bool) → IsDirected (declared_by known.now) outside d) }
{
    match known.relation(name) {
        Some(relation) => relation.columns.share(),
        None => Ok(Directed::new()),
    }
}

/// The columns of items among which there is no star, by name where they have one.
fn values_alone<'a>(
    alloc: Global,
    items: &'a [Item],
) -> Result<Option<Vec<Option<&'a Name>>>, NoMemory>
    ensures { IfOk result (λ values. IfSome values (λ names. (from : List TheHeading) → names_of names.items ≡ list_columns items.now from)) }
{
    if count_stars(items) > 0 {
        return Ok(None);
    }
    let mut names = Vec::new(alloc);
    for item in items {
        match item {
            Item::Star { .. } => return Ok(None),
            Item::AliasStar { .. } => return Ok(None),
            Item::Value { expr, name } => names.push(item_name(expr, name))?,
        }
    }
    Ok(Some(names))
}

fn count_stars(items: &[Item]) -> usize {
    items
        .iter()
        .filter(|item| !matches!(item, Item::Value { .. }))
        .count()
}

/// The columns of values that stand side by side.
fn columns_of_values<'a>(
    alloc: Global,
    values: &[Option<&'a Name>],
    outside: &mut Vec<&'a Name>,
) -> Result<Directed<'a>, NoMemory>
    ensures columns { IfOk result (λ d. columns_within d ≡ names_of values.now) }
    ensures directed { IfOk result (λ d. (declared : _) → IsDirected declared (is_one_of outside.new.items) d) }
    ensures kept { OnOk result (Widens (is_one_of outside.old.items) (is_one_of outside.new.items)) }
{
    gather(outside, values)?;
    match values {
        [name] => Directed::of_one(alloc, *name),
        _ => Directed::of_names(alloc, Names::of_columns(alloc, values)?),
    }
}

/// Appends the names of columns that have one.
fn gather<'a>(outside: &mut Vec<&'a Name>, columns: &[Option<&'a Name>]) -> Result<(), NoMemory>
    ensures kept { OnOk result (Widens (is_one_of outside.old.items) (is_one_of outside.new.items)) }
    ensures gathered { OnOk result (Widens (λ name. list_any (is_called name) (names_of columns.now)) (is_one_of outside.new.items)) }
{
    for name in columns {
        if let Some(own) = name {
            outside.push(*own)?;
        }
    }
    Ok(())
}

/// What stars stand for: the entries of FROM, and the columns of all of them where a star has asked for these.
#[derive(Drop)]
struct Sources<'a> {
    entries: Vec<DirectedEntry<'a>>,
    all: Option<Directed<'a>>,
}

impl<'a> Model for Sources<'a> {
    ghost use Rattle.std.specs.Prelude.{◌≡◌, [], List, IfSome};
    ghost use Rattle.std.specs.Coded.{codes};
    ghost use Rattle.std.specs.List.{flat_map};
    ghost use mir.Syntax.{static};
    ghost use Rattle.scope_core.specs.contracts.sources.DirectedEntry as entry_type;
    ghost use Rattle.scope_core.specs.declared.sources.DirectedEntry.{DirectedEntry};
    ghost use Rattle.scope_core.specs.Directed.{IsMadeOf, headings_in};
    ghost use Rattle.scope_core.specs.Ropes.{columns_within};

    ghost Value = { List DirectedEntry };

    ghost coded = { Prim.hlevel (codes, (entry_type.the_row (record { mir = static; lft = [] })).coded) };

    ghost view = { λ sources. sources.entries.items };

    ghost invariant = { λ sources. IfSome sources.all (λ all.
        (columns_within all ≡ flat_map (λ h. h.columns) (headings_in sources.entries.items)) × IsMadeOf sources.entries.items all) };
}

impl<'a> Sources<'a> {
    fn new(entries: Vec<DirectedEntry<'a>>) -> Sources<'a>
        ensures { result ≡ entries.entry.items }
    {
        Sources { entries, all: None }
    }

    /// The columns of all entries, which are joined once.
    fn all(&mut self, alloc: Global) -> Result<Directed<'a>, NoMemory>
        ensures kept { self.new ≡ self.old }
        ensures columns { IfOk result (λ all. columns_within all ≡ flat_map (λ h. h.columns) (headings_in self.old)) }
        ensures made { IfOk result (λ all. IsMadeOf self.old all) }
    {
        if let Some(all) = &self.all {
            return all.share();
        }
        let all = all_columns(alloc, self.entries.as_slice())?;
        self.all = Some(all.share()?);
        Ok(all)
    }
}

/// The columns of all entries.
fn all_columns<'a>(alloc: Global, entries: &[DirectedEntry<'a>]) -> Result<Directed<'a>, NoMemory>
    ensures columns { IfOk result (λ all. columns_within all ≡ flat_map (λ h. h.columns) (headings_in entries.now)) }
    ensures made { IfOk result (λ all. IsMadeOf entries.now all) }
{
    if let [only] = entries {
        return only.columns.share();
    }
    let mut all = Joining::with_capacity(alloc, entries.len())?;
    for entry in entries {
        all.push(entry.columns.share()?)?;
    }
    all.joined(alloc)
}

/// The columns of items over entries, in parts: stars share those of their sources, and values that stand side by side are one part.
fn directed_items<'a>(
    alloc: Global,
    items: &'a [Item],
    entries: Vec<DirectedEntry<'a>>,
    outside: &mut Vec<&'a Name>,
) -> Result<Directed<'a>, NoMemory>
    ensures columns { IfOk result (λ d. columns_within d ≡ list_columns items.now (headings_in entries.entry.items)) }
    ensures made { IfOk result (λ d. (declared : _) → AreDirected declared (is_one_of outside.old.items) entries.entry.items
        → IsDirected declared (is_one_of outside.new.items) d) }
    ensures kept { OnOk result (Widens (is_one_of outside.old.items) (is_one_of outside.new.items)) }
{
    let mut sources = Sources::new(entries);
    let mut parts = Joining::with_capacity(alloc, most_parts(items))?;
    let mut values = Vec::new(alloc);
    for item in items {
        add_item(alloc, &mut parts, &mut values, outside, &mut sources, item)?;
    }
    add_values(alloc, &mut parts, &mut values, outside)?;
    parts.joined(alloc)
}

/// How many parts items make at most: one for each star, and one for the values before, between and behind them.
fn most_parts(items: &[Item]) -> usize {
    count_stars(items)
        .saturating_mul(2)
        .saturating_add(1)
        .min(items.len())
}

/// Appends the columns of an item to parts, behind those of values, which are taken where a star stands.
fn add_item<'a>(
    alloc: Global,
    parts: &mut Joining<'a>,
    values: &mut Vec<Option<&'a Name>>,
    outside: &mut Vec<&'a Name>,
    sources: &mut Sources<'a>,
    item: &'a Item,
) -> Result<(), NoMemory>
    ensures sources { OnOk result (sources.new ≡ sources.old) }
    ensures columns { OnOk result (columns_listed parts.new ++ names_of values.new.items
        ≡ (columns_listed parts.old ++ names_of values.old.items) ++ item_columns item.now (headings_in sources.old)) }
    ensures made { OnOk result ((declared : _) → AreDirected declared (is_one_of outside.old.items) sources.old
        → AreDirectedParts declared (is_one_of outside.old.items) parts.old → AreDirectedParts declared (is_one_of outside.new.items) parts.new) }
    ensures kept { OnOk result (Widens (is_one_of outside.old.items) (is_one_of outside.new.items)) }
{
    match item {
        Item::Star { .. } => {
            add_values(alloc, parts, values, outside)?;
            parts.push(sources.all(alloc)?)
        }
        Item::AliasStar { alias, .. } => {
            add_values(alloc, parts, values, outside)?;
            add_called(parts, alias, sources.entries.as_slice())
        }
        Item::Value { expr, name } => {
            values.push(item_name(expr, name))?;
            Ok(())
        }
    }
}

/// Appends the columns of values, which are taken.
fn add_values<'a>(
    alloc: Global,
    parts: &mut Joining<'a>,
    values: &mut Vec<Option<&'a Name>>,
    outside: &mut Vec<&'a Name>,
) -> Result<(), NoMemory>
    ensures columns { OnOk result (columns_listed parts.new ≡ columns_listed parts.old ++ names_of values.old.items) }
    ensures taken { OnOk result (names_of values.new.items ≡ []) }
    ensures directed { OnOk result ((declared : _) → AreDirectedParts declared (is_one_of outside.old.items) parts.old
        → AreDirectedParts declared (is_one_of outside.new.items) parts.new) }
    ensures kept { OnOk result (Widens (is_one_of outside.old.items) (is_one_of outside.new.items)) }
{
    if values.len() == 0 {
        return Ok(());
    }
    parts.push(columns_of_values(alloc, values.as_slice(), outside)?)?;
    values.clear();
    Ok(())
}

/// Appends the columns of the first entry of this alias.
fn add_called<'a>(
    parts: &mut Joining<'a>,
    alias: &Name,
    entries: &[DirectedEntry<'a>],
) -> Result<(), NoMemory>
    ensures columns { OnOk result (columns_listed parts.new ≡ columns_listed parts.old ++ columns_of alias.now (headings_in entries.now)) }
    ensures made { OnOk result ((declared outside : _) → AreDirected declared outside entries.now → AreDirectedParts declared outside parts.old
        → AreDirectedParts declared outside parts.new) }
{
    for entry in entries {
        if alias == entry.alias {
            return parts.push(entry.columns.share()?);
        }
    }
    Ok(())
}
