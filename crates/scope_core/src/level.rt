//! What a place of a query sees of the blocks around it.
ghost use Rattle.std.specs.Prelude.{◌≡◌, position, nat_lt, not, false, length, IfNone, IfSome, unwrap_or};
ghost use Rattle.std.specs.List.{flat_map, list_any};
ghost use Rattle.sql_model.specs.Columns.{is_called};
ghost use Rattle.sql_model.specs.Headings.{columns_of};
ghost use Rattle.scope_core.specs.Faults.{count_called, is_group, is_in_group, is_member};
ghost use Rattle.scope_core.specs.Lent.{is_lacking_in, is_twice_in, levels_of};
ghost use Rattle.scope_core.specs.Scope.{headings_here, member_levels, place_in, sight_here};

use crate::heading::Heading;
use crate::run::Runs;
use sql_model::Name;

/// How a place sees a block around it: by the rows of its entries, by the columns of a group, or by the rows of one member.
#[derive(Clone, Copy)]
pub enum Sight<'a> {
    Rows,
    Group { columns: &'a [(u32, u32)] },
    Member,
}

/// The blocks around a place, the innermost first. The first of the headings is that of entry number `first`.
#[derive(Clone, Copy)]
pub enum Levels<'s, 'k, 'a> {
    /// Around all blocks: the columns that stars share.
    Outside {
        runs: &'s Runs,
    },
    Block {
        first: u32,
        headings: &'s [Heading<'k, 'a>],
        sight: Sight<'s>,
        outer: &'s Levels<'s, 'k, 'a>,
    },
}

impl<'s, 'k, 'a> Levels<'s, 'k, 'a> {
    /// Whether this is the argument of an aggregate.
    pub fn is_member(&self) -> bool
        ensures { result ≡ is_member (sight_here (levels_of self.now)) }
    {
        match self {
            Levels::Block {
                sight: Sight::Member,
                ..
            } => true,
            _ => false,
        }
    }

    /// Whether the innermost block is seen by the columns of a group.
    pub fn is_group(&self) -> bool
        ensures { result ≡ is_group (sight_here (levels_of self.now)) }
    {
        match self {
            Levels::Block {
                sight: Sight::Group { .. },
                ..
            } => true,
            _ => false,
        }
    }

    /// Whether this is in the items or HAVING of a grouped block, arguments of aggregates included.
    pub fn is_in_group(&self) -> bool
        ensures { result ≡ is_in_group (sight_here (levels_of self.now)) }
    {
        self.is_group() || self.is_member()
    }

    /// What stands behind the names of the innermost block.
    pub fn headings(&self) -> &'s [Heading<'k, 'a>]
        ensures { result.now ≡ headings_here (levels_of self.now) }
    {
        match self {
            Levels::Block { headings, .. } => *headings,
            Levels::Outside { .. } => &[],
        }
    }

    /// The columns that stars share.
    pub fn runs(&self) -> &'s Runs {
        match self {
            Levels::Outside { runs } => *runs,
            Levels::Block { outer, .. } => outer.runs(),
        }
    }

    /// What the argument of an aggregate sees.
    pub fn of_member(&self) -> Levels<'s, 'k, 'a>
        ensures { levels_of result ≡ member_levels (levels_of self.now) }
    {
        match self {
            Levels::Outside { runs } => Levels::Outside { runs: *runs },
            Levels::Block {
                first,
                headings,
                sight: _,
                outer,
            } => Levels::Block {
                first: *first,
                headings: *headings,
                sight: Sight::Member,
                outer: *outer,
            },
        }
    }
}

/// Where a block has a name. `twice` is whether two of the columns that are meant have it, and `lacks` whether none has.
#[derive(Clone, Copy)]
pub struct Found {
    pub entry: usize,
    pub column: usize,
    pub twice: bool,
    pub lacks: bool,
}

/// Whether a column of these entries has this name.
fn is_offered(name: &Name, headings: &[Heading]) -> bool
    ensures { result ≡ list_any (λ h. list_any (is_called name.now) h.columns) headings.now }
{
    headings.iter().any(|heading| heading.has(name))
}

/// A bare name. Each entry is asked once for it, at most: those after the first that has it tell whether it stands twice.
fn find_bare(name: &Name, first: u32, headings: &[Heading]) -> Option<Found>
    ensures none { IfNone result (place_in None name.now first headings.now ≡ None) }
    ensures place { IfSome result (λ f. place_in None name.now first headings.now ≡ Some (f.entry, f.column)) }
    ensures twice { IfSome result (λ f. f.twice ≡ nat_lt 1 (count_called name.now (flat_map (λ h. h.columns) headings.now))) }
    ensures lacks { IfSome result (λ f. f.lacks ≡ false) }
{
    for (index, heading) in headings.iter().enumerate() {
        if let Some(seen) = heading.find(name) {
            return Some(Found {
                entry: first as usize + index,
                column: seen.first,
                twice: seen.twice || is_offered(name, &headings[index + 1..]),
                lacks: false,
            });
        }
    }
    None
}

/// A name in the entry of its qualifier: one past the columns where the entry lacks it.
#[tactic(auto, using(crate::proofs::basics::Occurring::entry))]
fn find_in_entry(name: &Name, entry: usize, heading: &Heading) -> Found
    ensures place { (result.entry ≡ entry) × (result.column ≡ unwrap_or (position (is_called name.now) heading.now.columns) (length heading.now.columns)) }
    ensures twice { result.twice ≡ nat_lt 1 (count_called name.now heading.now.columns) }
    ensures lacks { result.lacks ≡ not (list_any (is_called name.now) heading.now.columns) }
{
    match heading.find(name) {
        Some(seen) => Found {
            entry,
            column: seen.first,
            twice: seen.twice,
            lacks: false,
        },
        None => Found {
            entry,
            column: heading.len(),
            twice: false,
            lacks: true,
        },
    }
}

fn find_qualified(alias: &Name, name: &Name, first: u32, headings: &[Heading]) -> Option<Found>
    ensures none { IfNone result (place_in (Some alias.now) name.now first headings.now ≡ None) }
    ensures place { IfSome result (λ f. place_in (Some alias.now) name.now first headings.now ≡ Some (f.entry, f.column)) }
    ensures twice { IfSome result (λ f. f.twice ≡ nat_lt 1 (count_called name.now (columns_of alias.now headings.now))) }
    ensures lacks { IfSome result (λ f. f.lacks ≡ not (list_any (is_called name.now) (columns_of alias.now headings.now))) }
{
    for (index, heading) in headings.iter().enumerate() {
        if heading.is_alias(alias) {
            let entry = first as usize + index;
            return Some(find_in_entry(name, entry, heading));
        }
    }
    None
}

/// A name in one block.
pub fn find_in(qual: &Option<Name>, name: &Name, first: u32, headings: &[Heading]) -> Option<Found>
    ensures none { IfNone result (place_in qual.now name.now first headings.now ≡ None) }
    ensures place { IfSome result (λ f. place_in qual.now name.now first headings.now ≡ Some (f.entry, f.column)) }
    ensures twice { IfSome result (λ f. f.twice ≡ is_twice_in qual.now name.now headings.now) }
    ensures lacks { IfSome result (λ f. f.lacks ≡ is_lacking_in qual.now name.now headings.now) }
{
    match qual {
        Some(alias) => find_qualified(alias, name, first, headings),
        None => find_bare(name, first, headings),
    }
}
