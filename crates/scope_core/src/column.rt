//! Columns: where a name is in the blocks around it, and what may be wrong there.
ghost use Rattle.std.specs.Prelude.{◌≡◌, ◌&&◌, ◌∷◌, nat_eq, true, not, IfNone, IfSome, IfOk, IfErr, is_some};
ghost use Rattle.sql_model.specs.declared.tree.Expr.TheVariants as expr;
ghost use Rattle.scope_core.specs.declared.fault.ScopeFault.TheVariants as fault;
ghost use Rattle.scope_core.specs.Answer.{IsCause, found_code};
ghost use Rattle.scope_core.specs.Faults.{block_meant, is_here, is_no_key, lacks_column, names_two, not_grouped};
ghost use Rattle.scope_core.specs.FirstFault.{fault_at};
ghost use Rattle.scope_core.specs.Lent.{levels_of, place_here, sight_of};
ghost use Rattle.scope_core.specs.Scope.{is_among_places, rows_level, group_place};
ghost use Rattle.scope_core.specs.Resolving.{column_at, index_of, resolved_column};
ghost use Rattle.scope_core.specs.Parts.{group_fault};
ghost use Rattle.scope_core.specs.Sites.{AColumn};

use crate::fault::{ScopeCode, ScopeFault, number, refused};
use crate::heading::Heading;
use crate::level::{Found, Levels, Sight, find_in};
use crate::tree::RVal;
use sql_model::Name;

/// The innermost block that has a name: how many blocks outwards it is, how it is seen, and where the name is there.
#[derive(Clone, Copy)]
struct Sought<'a> {
    up: u32,
    sight: Sight<'a>,
    found: Found,
}

/// Seeks a name from the innermost block outwards.
fn seek<'s, 'k, 'a>(
    qual: &Option<Name>,
    name: &Name,
    levels: &Levels<'s, 'k, 'a>,
) -> Result<Option<Sought<'s>>, ScopeFault>
    ensures err { IfErr result (λ f. f ≡ fault.NoMemory) }
    ensures none { IfOk result (λ s. IfNone s (block_meant qual.now name.now (levels_of levels.now) ≡ None)) }
    ensures some { IfOk result (λ s. IfSome s (λ t. is_some (block_meant qual.now name.now (levels_of levels.now)) ≡ true)) }
    ensures twice { IfOk result (λ s. IfSome s (λ t. names_two qual.now name.now (levels_of levels.now) ≡ t.found.twice)) }
    ensures lacks { IfOk result (λ s. IfSome s (λ t. lacks_column qual.now name.now (levels_of levels.now) ≡ t.found.lacks)) }
    ensures here { IfOk result (λ s. IfSome s (λ t. is_here qual.now name.now (levels_of levels.now) ≡ nat_eq t.up 0)) }
    ensures grouped { IfOk result (λ s. IfSome s (λ t. not_grouped (AColumn qual.now 0 name.now (levels_of levels.now) 0)
        ≡ (nat_eq t.up 0 && is_no_key (sight_of t.sight) (Some (t.found.entry, t.found.column))))) }
    ensures place { IfOk result (λ s. IfSome s (λ t.
        t.up ≡ 0 → place_here qual.now name.now (levels_of levels.now) ≡ Some (t.found.entry, t.found.column))) }
    ensures column { IfOk result (λ s. IfSome s (λ t.
        resolved_column qual.now name.now (levels_of levels.now) ≡ column_at t.up (sight_of t.sight) (t.found.entry, t.found.column))) }
{
    let mut up = 0u32;
    let mut current = levels;
    while let Levels::Block {
        first,
        headings,
        sight,
        outer,
    } = current
    {
        if let Some(found) = find_in(qual, name, *first, headings) {
            return Ok(Some(Sought {
                up,
                sight: *sight,
                found,
            }));
        }
        up = match up.checked_add(1) {
            Some(next) => next,
            None => return Err(ScopeFault::NoMemory),
        };
        current = outer;
    }
    Ok(None)
}

/// Whether a place is none of the columns of the group that a block is seen by.
fn is_no_key(sight: Sight, entry: usize, column: usize) -> bool
    ensures { result ≡ is_no_key (sight_of sight.entry) (Some (entry, column)) }
{
    match sight {
        Sight::Group { columns } => !is_among(entry, column, columns),
        Sight::Rows | Sight::Member => false,
    }
}

fn is_among(entry: usize, column: usize, places: &[(u32, u32)]) -> bool
    ensures { result ≡ is_among_places (entry, column) places.now }
{
    for place in places {
        if entry == place.0 as usize && column == place.1 as usize {
            return true;
        }
    }
    false
}

/// The first of the places that it is, or how many they are.
fn index_of(entry: usize, column: usize, places: &[(u32, u32)]) -> usize
    ensures { result ≡ index_of (entry, column) places.now }
{
    for (index, place) in places.iter().enumerate() {
        if entry == place.0 as usize && column == place.1 as usize {
            return index;
        }
    }
    places.len()
}

/// What a resolved tree says for a name that was found.
fn value_of(sought: &Sought) -> Result<RVal, ScopeFault>
    ensures err { IfErr result (λ f. f ≡ fault.NoMemory) }
    ensures value { IfOk result (λ v.
        v ≡ column_at sought.now.up (sight_of sought.now.sight) (sought.now.found.entry, sought.now.found.column)) }
{
    let found = sought.found;
    match sought.sight {
        Sight::Group { columns } => Ok(RVal::Key {
            place: number(index_of(found.entry, found.column, columns))?,
        }),
        Sight::Rows | Sight::Member => Ok(RVal::Col {
            up: sought.up,
            entry: number(found.entry)?,
            col: number(found.column)?,
        }),
    }
}

/// The code of what is wrong with a name that was found.
fn code_of(sought: &Sought, in_member: bool) -> Option<ScopeCode>
    ensures { result ≡ found_code sought.now.found.twice sought.now.found.lacks (in_member && not (nat_eq sought.now.up 0))
        (nat_eq sought.now.up 0 && is_no_key (sight_of sought.now.sight) (Some (sought.now.found.entry, sought.now.found.column))) }
{
    let found = sought.found;
    if found.twice {
        return Some(ScopeCode::Ambiguous);
    }
    if found.lacks {
        return Some(ScopeCode::UnknownColumn);
    }
    if in_member && sought.up != 0 {
        return Some(ScopeCode::OuterAggregate);
    }
    if sought.up == 0 && is_no_key(sought.sight, found.entry, found.column) {
        return Some(ScopeCode::NotGrouped);
    }
    None
}

/// A column, sought from the innermost block outwards. `at` is the place of its word, `qual_at` that of its qualifier.
#[inline(never)]
#[tactic(auto, using(crate::proofs::resolving::Columns::laws))]
pub fn resolve_column(
    qual: &Option<Name>,
    qual_at: u32,
    name: &Name,
    at: u32,
    levels: &Levels,
) -> Result<RVal, ScopeFault>
    ensures fine { IfOk result (λ v. fault_at (AColumn qual.now qual_at name.now (levels_of levels.now) at) ≡ None) }
    ensures value { IfOk result (λ v. v ≡ resolved_column qual.now name.now (levels_of levels.now)) }
    ensures err { IfErr result (λ f. IsCause f (fault_at (AColumn qual.now qual_at name.now (levels_of levels.now) at))) }
{
    let Some(sought) = seek(qual, name, levels)? else {
        return match qual {
            Some(_) => Err(refused(ScopeCode::UnknownAlias, qual_at)),
            None => Err(refused(ScopeCode::UnknownColumn, at)),
        };
    };
    match code_of(&sought, levels.is_member()) {
        Some(code) => Err(refused(code, at)),
        None => value_of(&sought),
    }
}

/// A column of GROUP BY, which is one of its block's: its entry, and its place in that.
#[inline(never)]
#[tactic(auto, using(crate::proofs::resolving::Groups::own))]
pub fn resolve_own_column<'s, 'k, 'a>(
    qual: &Option<Name>,
    qual_at: u32,
    name: &Name,
    at: u32,
    headings: &'s [Heading<'k, 'a>],
    levels: &'s Levels<'s, 'k, 'a>,
) -> Result<(u32, u32), ScopeFault>
    ensures fine { IfOk result (λ v. group_fault (rows_level headings.now ∷ levels_of levels.now) (expr.Col qual.now qual_at name.now at) ≡ None) }
    ensures value { IfOk result (λ v. v ≡ group_place (expr.Col qual.now qual_at name.now at) headings.now) }
    ensures err { IfErr result (λ f. IsCause f (group_fault (rows_level headings.now ∷ levels_of levels.now) (expr.Col qual.now qual_at name.now at))) }
{
    let rows = Levels::Block {
        first: 0,
        headings,
        sight: Sight::Rows,
        outer: levels,
    };
    let Some(sought) = seek(qual, name, &rows)? else {
        return match qual {
            Some(_) => Err(refused(ScopeCode::UnknownAlias, qual_at)),
            None => Err(refused(ScopeCode::UnknownColumn, at)),
        };
    };
    let found = sought.found;
    if found.twice {
        return Err(refused(ScopeCode::Ambiguous, at));
    }
    if found.lacks || sought.up != 0 {
        return Err(refused(ScopeCode::UnknownColumn, at));
    }
    let entry = number(found.entry)?;
    let column = number(found.column)?;
    Ok((entry, column))
}
