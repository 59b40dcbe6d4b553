//! The columns of a source: a rope, which is a tree of concatenations whose parts are shared. So a star takes a part, however many columns it
//! stands for. (H.-J. Boehm, R. Atkinson, M. Plass: Ropes, an alternative to strings. Software: Practice and Experience 25, 1995.)
ghost use Rattle.std.specs.Prelude.{◌≡◌, ◌++◌, ◌+◌, ◌<◌, ◌^◌, ◌∷◌, [], length, option_map, Bool, true, IfOk, OnOk, IfSome};
ghost use Rattle.std.specs.List.{list_any};
ghost use Rattle.sql_model.specs.Columns.{is_called};
ghost use Rattle.sql_model.specs.Syntax.{Name as TheName};
ghost use Rattle.scope_core.specs.declared.relation_set.RelationSet.{RelationSet};
ghost use Rattle.scope_core.specs.Faults.{name_twice};
ghost use Rattle.scope_core.specs.Names.{occurrences};
ghost use Rattle.scope_core.specs.Ropes.{are_listed_sound, columns_in, columns_listed, is_sound, shown_in, stand_listed, stands_among};

use crate::NoMemory;
use crate::names::{Names, Occurrences};
use crate::relation_set::RelationSet;
use plain_data::{Boxed, List, Shared};
use sql_model::Name;
use std::alloc::Global;

/// Columns by their parts.
#[cycle(rope)]
#[derive(Drop)]
pub enum Rope<'a> {
    /// One alone, which takes no index.
    One {
        name: Option<&'a Name>,
    },
    /// Those that are written one by one.
    Named {
        names: Boxed<Names<'a>>,
    },
    /// Those of a relation, whose number declares the names of the values inside.
    Relation {
        inside: Shared<Rope<'a>>,
        number: usize,
        extent: Boxed<Extent>,
    },
    /// Those of parts, one behind the other.
    Joined {
        parts: List<Part<'a>>,
        extent: Boxed<Extent>,
    },
}

/// A part of a rope, which others may have too.
#[cycle(rope)]
#[derive(Drop)]
pub struct Part<'a> {
    pub rope: Shared<Rope<'a>>,
}

/// How many columns a rope has, and the relations that are its parts.
#[derive(Clone, Copy)]
pub struct Extent {
    pub width: usize,
    pub shown: RelationSet,
}

/// A name, and the relations that declare it.
#[derive(Clone, Copy)]
pub struct DeclaredName<'n> {
    pub name: &'n Name,
    pub relations: RelationSet,
}

/// Whether a column of this name, or of none, is called so.
fn is_called(own: Option<&Name>, name: &Name) -> bool
    ensures { result ≡ is_called name.now (option_map (λ n. n.now) own.entry) }
{
    match own {
        Some(own) => name == own,
        None => false,
    }
}

/// Where this name stands where there is one column.
fn find_alone(own: Option<&Name>, name: &Name) -> Option<Occurrences>
    ensures { result ≡ occurrences name.now (option_map (λ n. n.now) own.entry ∷ []) }
{
    if is_called(own, name) {
        Some(Occurrences {
            first: 0,
            twice: false,
        })
    } else {
        None
    }
}

/// How many columns there are.
pub fn width_in(rope: &Rope) -> usize
    requires { is_sound rope.now ≡ true }
    ensures { result ≡ length (columns_in rope.now) }
{
    match rope {
        Rope::One { .. } => 1,
        Rope::Named { names } => names.get().len(),
        Rope::Relation { extent, .. } => extent.get().width,
        Rope::Joined { extent, .. } => extent.get().width,
    }
}

/// The relations of its parts.
pub fn shown_in(rope: &Rope) -> RelationSet
    ensures { result ≡ shown_in rope.now }
{
    match rope {
        Rope::One { .. } => RelationSet::empty(),
        Rope::Named { .. } => RelationSet::empty(),
        Rope::Relation { extent, .. } => extent.get().shown,
        Rope::Joined { extent, .. } => extent.get().shown,
    }
}

/// Where this name stands, if one look-up tells: in columns that are written one by one, and in those of a relation that has no others.
#[cycle(single)]
pub fn find_single(rope: &Rope, name: &Name) -> Option<Option<Occurrences>>
    ensures { IfSome result (λ found. found ≡ occurrences name.now (columns_in rope.now)) }
{
    match rope {
        Rope::One { name: own } => Some(find_alone(*own, name)),
        Rope::Named { names } => Some(names.get().find(name)),
        Rope::Relation { inside, .. } => find_single(inside.get(), name),
        Rope::Joined { .. } => None,
    }
}

/// Whether one look-up tells where a name stands.
#[cycle(is_single)]
pub fn is_single(rope: &Rope) -> bool {
    match rope {
        Rope::One { .. } | Rope::Named { .. } => true,
        Rope::Relation { inside, .. } => is_single(inside.get()),
        Rope::Joined { .. } => false,
    }
}

/// Whether a rope has few parts, each of which is asked at once.
pub fn is_shallow(rope: &Rope) -> bool {
    match few_parts(rope) {
        Some(parts) => parts
            .iter()
            .all(|part| !matches!(part.rope.get(), Rope::Joined { .. })),
        None => false,
    }
}

/// Whether two columns have one name.
#[cycle(twice)]
pub fn has_name_twice(alloc: Global, rope: &Rope) -> Result<bool, NoMemory>
    ensures { IfOk result (λ twice. twice ≡ name_twice (columns_in rope.now)) }
{
    match rope {
        Rope::One { .. } => Ok(false),
        Rope::Named { names } => Ok(names.get().has_name_twice()),
        Rope::Relation { inside, .. } => has_name_twice(alloc, inside.get()),
        Rope::Joined { .. } => {
            let mut names = Names::new(alloc);
            add_names(&mut names, rope)?;
            Ok(names.has_name_twice())
        }
    }
}

/// The most parts of a rope that become parts of the one above it, so that ropes are less deep.
const MOST_SPLICED: usize = 4;

/// The parts of a rope that has few.
pub fn few_parts<'r, 'a>(rope: &'r Rope<'a>) -> Option<&'r [Part<'a>]>
    ensures columns { IfSome result (λ parts. columns_in rope.now ≡ columns_listed parts.now) }
    ensures sound { IfSome result (λ parts. is_sound rope.now ≡ true → are_listed_sound parts.now ≡ true) }
    ensures stand { IfSome result (λ parts. (declared : RelationSet) (outside : Bool) (name : TheName)
        → stands_among declared outside name rope.now ≡ stand_listed declared outside name parts.now) }
{
    match rope {
        Rope::Joined { parts, .. } if parts.len() <= MOST_SPLICED => Some(parts.as_slice()),
        _ => None,
    }
}

/// Whether a column has this name; `outside` is whether one outside of relations may have it.
#[cycle(has)]
pub fn has_among(rope: &Rope, sought: &DeclaredName, outside: bool) -> bool
    requires sound { is_sound rope.now ≡ true }
    requires stands { stands_among sought.now.relations outside sought.now.name.now rope.now ≡ true }
    ensures { result ≡ list_any (is_called sought.now.name.now) (columns_in rope.now) }
{
    match rope {
        Rope::One { name } => outside && is_called(*name, sought.name),
        Rope::Named { names } => outside && names.get().find(sought.name).is_some(),
        Rope::Relation {
            inside,
            number,
            extent,
        } => {
            let inner = sought.relations.has(*number);
            sought.relations.meets(&extent.get().shown) && has_among(inside.get(), sought, inner)
        }
        Rope::Joined { parts, extent } => {
            (outside || sought.relations.meets(&extent.get().shown))
                && has_in_parts(parts.as_slice(), sought, outside)
        }
    }
}

#[cycle(has)]
fn has_in_parts(parts: &[Part], sought: &DeclaredName, outside: bool) -> bool
    requires sound { are_listed_sound parts.now ≡ true }
    requires stands { stand_listed sought.now.relations outside sought.now.name.now parts.now ≡ true }
    ensures { result ≡ list_any (is_called sought.now.name.now) (columns_listed parts.now) }
{
    for part in parts {
        if has_among(part.rope.get(), sought, outside) {
            return true;
        }
    }
    false
}

/// Where this name stands; `outside` is whether a column outside of relations may have it.
#[cycle(find)]
pub fn find_among(rope: &Rope, sought: &DeclaredName, outside: bool) -> Option<Occurrences>
    requires sound { is_sound rope.now ≡ true }
    requires stands { stands_among sought.now.relations outside sought.now.name.now rope.now ≡ true }
    ensures { result ≡ occurrences sought.now.name.now (columns_in rope.now) }
{
    match rope {
        Rope::One { name } => {
            if outside {
                find_alone(*name, sought.name)
            } else {
                None
            }
        }
        Rope::Named { names } => {
            if outside {
                names.get().find(sought.name)
            } else {
                None
            }
        }
        Rope::Relation {
            inside,
            number,
            extent,
        } => {
            if !sought.relations.meets(&extent.get().shown) {
                return None;
            }
            let inner = sought.relations.has(*number);
            find_among(inside.get(), sought, inner)
        }
        Rope::Joined { parts, extent } => {
            if !outside && !sought.relations.meets(&extent.get().shown) {
                return None;
            }
            find_in_parts(parts.as_slice(), sought, outside)
        }
    }
}

#[cycle(find)]
fn find_in_parts(parts: &[Part], sought: &DeclaredName, outside: bool) -> Option<Occurrences>
    requires sound { are_listed_sound parts.now ≡ true }
    requires short { length (columns_listed parts.now) < 2 ^ 64 }
    requires stands { stand_listed sought.now.relations outside sought.now.name.now parts.now ≡ true }
    ensures { result ≡ occurrences sought.now.name.now (columns_listed parts.now) }
{
    let mut before = 0;
    for (index, part) in parts.iter().enumerate() {
        if let Some(seen) = find_among(part.rope.get(), sought, outside) {
            return Some(Occurrences {
                first: before + seen.first,
                twice: seen.twice || has_in_parts(&parts[index + 1..], sought, outside),
            });
        }
        before += width_in(part.rope.get());
    }
    None
}

/// Appends all columns.
#[cycle(all)]
fn add_names<'a>(names: &mut Names<'a>, rope: &Rope<'a>) -> Result<(), NoMemory>
    ensures { OnOk result (names.new ≡ names.old ++ columns_in rope.now) }
{
    match rope {
        Rope::One { name } => names.push(*name),
        Rope::Named { names: own } => names.append(own.get()),
        Rope::Relation { inside, .. } => add_names(names, inside.get()),
        Rope::Joined { parts, .. } => add_names_of(names, parts.as_slice()),
    }
}

#[cycle(all)]
fn add_names_of<'a>(names: &mut Names<'a>, parts: &[Part<'a>]) -> Result<(), NoMemory>
    ensures { OnOk result (names.new ≡ names.old ++ columns_listed parts.now) }
{
    for part in parts {
        add_names(names, part.rope.get())?;
    }
    Ok(())
}
