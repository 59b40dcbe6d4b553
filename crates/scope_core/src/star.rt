//! Stars of SELECT: all columns of a block's entries, or of one of them.
ghost use Rattle.std.specs.Prelude.{◌≡◌, ◌++◌, ◌<◌, ◌≤◌, true, OnOk, IfErr, IfNone, IfOk, IfSome, find, get_or, is_some, length};
ghost use Rattle.sql_model.specs.Columns.{same_name};
ghost use Rattle.sql_model.specs.Headings.{Heading as TheHeading};
ghost use Rattle.scope_core.specs.declared.fault.ScopeFault.TheVariants as fault;
ghost use Rattle.scope_core.specs.Answer.{IsCause};
ghost use Rattle.scope_core.specs.FirstFault.{fault_at};
ghost use Rattle.scope_core.specs.Lent.{levels_of};
ghost use Rattle.scope_core.specs.Resolving.{alias_star, entry_columns, star};
ghost use Rattle.scope_core.specs.Runs.{columns_from};
ghost use Rattle.scope_core.specs.Scope.{headings_here};
ghost use Rattle.scope_core.specs.Sites.{AStar, AnAliasStar};

use crate::NoMemory;
use crate::fault::{ScopeCode, ScopeFault, number, refused};
use crate::heading::Heading;
use crate::items::Items;
use crate::level::Levels;
use crate::run::{Run, Runs};
use crate::tree::RVal;
use plain_data::{List, Shared};
use sql_model::{Item, Name};
use std::alloc::Global;

/// All columns of the innermost block, for several stars that share them.
#[derive(Drop)]
pub struct WrittenStar {
    columns: Option<Shared<List<RVal>>>,
}

/// How many pointers to shared columns take as much memory as a column that is written.
const POINTERS: usize = 4;

/// The columns of the innermost block, written for its stars where they take less than what each star would share with those of other blocks.
pub fn write_star(alloc: Global, items: &[Item], levels: &Levels) -> Result<WrittenStar, ScopeFault>
    ensures value { IfOk result (λ written. IfSome written.columns (λ columns. columns ≡ star 0 (headings_here (levels_of levels.now)))) }
    ensures err { IfErr result (λ f. f ≡ fault.NoMemory) }
{
    let headings = levels.headings();
    if !saves_room(count_stars(items), headings) {
        return Ok(WrittenStar { columns: None });
    }
    let columns = written_columns(alloc, headings)?;
    Ok(WrittenStar {
        columns: Some(Shared::new(alloc, columns)?),
    })
}

/// How many items are stars of all entries.
fn count_stars(items: &[Item]) -> usize {
    items
        .iter()
        .filter(|item| matches!(item, Item::Star { .. }))
        .count()
}

/// Whether so many stars over these entries take more, at a pointer for each entry, than the columns that they stand for.
fn saves_room(stars: usize, headings: &[Heading]) -> bool {
    let mut width: usize = 0;
    for heading in headings {
        width = width.saturating_add(heading.len());
    }
    stars.saturating_mul(headings.len()) >= width.saturating_mul(POINTERS)
}

/// All columns of these entries, one by one.
fn written_columns(alloc: Global, headings: &[Heading]) -> Result<List<RVal>, ScopeFault>
    ensures value { IfOk result (λ columns. columns ≡ star 0 headings.now) }
    ensures err { IfErr result (λ f. f ≡ fault.NoMemory) }
{
    let mut columns = Vec::new(alloc);
    for (entry, heading) in headings.iter().enumerate() {
        write_columns(&mut columns, number(entry)?, number(heading.len())?)?;
    }
    columns.shrink_to_fit();
    Ok(List::from_vec(columns))
}

/// Appends so many columns of an entry.
fn write_columns(columns: &mut Vec<RVal>, entry: u32, count: u32) -> Result<(), NoMemory>
    ensures { OnOk result (columns.new.items ≡ columns.old.items ++ columns_from entry 0 count) }
{
    for col in 0..count {
        columns.push(RVal::Col { up: 0, entry, col })?;
    }
    Ok(())
}

/// Appends all columns of the innermost block.
#[tactic(auto, using(crate::proofs::resolving::Columns::stars))]
pub fn add_star(
    items: &mut Items<RVal>,
    alloc: Global,
    at: u32,
    written: &WrittenStar,
    levels: &Levels,
) -> Result<(), ScopeFault>
    requires { IfSome written.now.columns (λ columns. columns ≡ star 0 (headings_here (levels_of levels.now))) }
    ensures fine { OnOk result (fault_at (AStar (levels_of levels.now) at) ≡ None) }
    ensures value { OnOk result (items.new ≡ items.old ++ star 0 (headings_here (levels_of levels.now))) }
    ensures err { IfErr result (λ f. IsCause f (fault_at (AStar (levels_of levels.now) at))) }
{
    if levels.is_in_group() {
        return Err(refused(ScopeCode::StarInGroup, at));
    }
    match &written.columns {
        Some(columns) => {
            items.append_shared(alloc, columns.share()?)?;
            Ok(())
        }
        None => add_all(items, alloc, levels.headings(), levels.runs()),
    }
}

fn add_all(
    items: &mut Items<RVal>,
    alloc: Global,
    headings: &[Heading],
    runs: &Runs,
) -> Result<(), ScopeFault>
    ensures value { OnOk result (items.new ≡ items.old ++ star 0 headings.now) }
    ensures err { IfErr result (λ f. f ≡ fault.NoMemory) }
{
    for (entry, heading) in headings.iter().enumerate() {
        add_columns(items, alloc, entry, heading, runs)?;
    }
    Ok(())
}

/// Appends the columns of the first entry of this alias.
#[tactic(auto, using(crate::proofs::resolving::Columns::stars))]
pub fn add_alias_star(
    items: &mut Items<RVal>,
    alloc: Global,
    alias: &Name,
    at: u32,
    levels: &Levels,
) -> Result<(), ScopeFault>
    ensures fine { OnOk result (fault_at (AnAliasStar alias.now (levels_of levels.now) at) ≡ None) }
    ensures value { OnOk result (items.new ≡ items.old ++ alias_star alias.now 0 (headings_here (levels_of levels.now))) }
    ensures err { IfErr result (λ f. IsCause f (fault_at (AnAliasStar alias.now (levels_of levels.now) at))) }
{
    if levels.is_in_group() {
        return Err(refused(ScopeCode::StarInGroup, at));
    }
    match find_alias(alias, levels.headings()) {
        Some(entry) => {
            let heading = &levels.headings()[entry];
            add_columns(items, alloc, entry, heading, levels.runs())
        }
        None => Err(refused(ScopeCode::UnknownAlias, at)),
    }
}

/// The number of the first entry of this alias.
fn find_alias(alias: &Name, headings: &[Heading]) -> Option<usize>
    ensures none { IfNone result (find (λ h. same_name alias.now h.alias) headings.now ≡ None) }
    ensures found { IfSome result (λ i. is_some (find (λ h. same_name alias.now h.alias) headings.now) ≡ true) }
    ensures within { IfSome result (λ i. i < length headings.now) }
    ensures value { IfSome result (λ i. (d : TheHeading) → alias_star alias.now 0 headings.now ≡ entry_columns i 0 (get_or headings.now i d).columns) }
{
    for (entry, heading) in headings.iter().enumerate() {
        if heading.is_alias(alias) {
            return Some(entry);
        }
    }
    None
}

/// Appends the columns of an entry, in pieces that stars share.
fn add_columns(
    items: &mut Items<RVal>,
    alloc: Global,
    entry: usize,
    heading: &Heading,
    runs: &Runs,
) -> Result<(), ScopeFault>
    ensures value { OnOk result (items.new ≡ items.old ++ entry_columns entry 0 heading.now.columns) }
    ensures err { IfErr result (λ f. f ≡ fault.NoMemory) }
{
    let entry = number(entry)?;
    let end = number(heading.len())?;
    let mut first = 0;
    while first < end {
        let count = piece(end - first);
        let run = Run {
            entry,
            first,
            count,
        };
        items.append_shared(alloc, runs.columns(alloc, run)?)?;
        first += count;
    }
    Ok(())
}

/// The most columns that are a piece whatever their number.
const SHORT: u32 = 8;

/// A count that is short, or else the greatest power of two that is not above it. Long pieces begin at multiples of their lengths, so few differ.
fn piece(count: u32) -> u32
    requires { 0 < count }
    ensures some { 0 < result }
    ensures within { result ≤ count }
{
    if count <= SHORT {
        return count;
    }
    let mut length = 1;
    while length <= count - length {
        length += length;
    }
    length
}
