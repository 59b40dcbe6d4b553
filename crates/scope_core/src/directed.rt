//! Columns in which a name is sought by the relations that declare it.
ghost use Rattle.std.specs.Prelude.{◌≡◌, ◌++◌, ◌∷◌, [], length, true, IfOk, IfSome, OnOk, Some, None};
ghost use Rattle.std.specs.List.{list_any};
ghost use Rattle.sql_model.specs.Columns.{is_called};
ghost use Rattle.scope_core.specs.Faults.{name_twice};
ghost use Rattle.scope_core.specs.Names.{occurrences};
ghost use Rattle.scope_core.specs.Ropes.{AreDirectedParts, IsDirected, Named, One, are_listed_sound, columns_listed, columns_within, is_sound, part_of, relation_within, shown_listed, stands_within};

use crate::NoMemory;
use crate::names::{Names, Occurrences};
use crate::relation_set::RelationSet;
use crate::rope::{
    DeclaredName, Extent, Part, Rope, few_parts, find_among, find_single, has_among,
    has_name_twice, is_shallow, is_single, shown_in, width_in,
};
use plain_data::{Boxed, List, Shared};
use sql_model::Name;
use std::alloc::Global;
use std::marker::Model;

/// Columns: a rope, or nothing where there are none. Contracts see the rope.
#[derive(Drop)]
pub struct Directed<'a> {
    rope: Option<Shared<Rope<'a>>>,
}

impl<'a> Model for Directed<'a> {
    ghost use Rattle.std.specs.Prelude.{◌≡◌, [], Option, true};
    ghost use Rattle.std.specs.Coded.{codes};
    ghost use mir.Syntax.{static};
    ghost use Rattle.scope_core.specs.contracts.rope.Rope as parts;
    ghost use Rattle.scope_core.specs.declared.rope.Rope.{Rope};
    ghost use Rattle.scope_core.specs.Ropes.{is_sound_within};

    ghost Value = { Option Rope };

    ghost coded = { Prim.hlevel (codes, (parts.the_row (record { mir = static; lft = [] })).coded) };

    ghost view = { λ directed. directed.rope };

    ghost invariant = { λ directed. is_sound_within directed.rope ≡ true };
}

impl<'a> Directed<'a> {
    /// No columns, which take no memory.
    pub fn new() -> Directed<'a>
        ensures { result ≡ None }
    {
        Directed { rope: None }
    }

    /// Columns that were written one by one.
    pub fn of_names(alloc: Global, names: Names<'a>) -> Result<Directed<'a>, NoMemory>
        ensures { IfOk result (λ d. d ≡ Some (Named names.entry)) }
    {
        let names = Boxed::new(alloc, names)?;
        let rope = Shared::new(alloc, Rope::Named { names })?;
        Ok(Directed { rope: Some(rope) })
    }

    /// One column.
    pub fn of_one(alloc: Global, name: Option<&'a Name>) -> Result<Directed<'a>, NoMemory>
        ensures { IfOk result (λ d. d ≡ Some (One name.entry)) }
    {
        let rope = Shared::new(alloc, Rope::One { name })?;
        Ok(Directed { rope: Some(rope) })
    }

    /// The same columns for one owner more.
    pub fn share(&self) -> Result<Directed<'a>, NoMemory>
        ensures { IfOk result (λ d. d ≡ self.now) }
    {
        let rope = match &self.rope {
            Some(rope) => Some(rope.share()?),
            None => None,
        };
        Ok(Directed { rope })
    }

    /// These columns as those of the relation of this number.
    pub fn of_relation(self, alloc: Global, number: usize) -> Result<Directed<'a>, NoMemory>
        ensures { IfOk result (λ d. d ≡ relation_within number self.entry) }
    {
        let Directed { rope } = self;
        let Some(inside) = rope else {
            return Ok(Directed { rope: None });
        };
        let extent = Extent {
            width: width_in(inside.get()),
            shown: shown_in(inside.get()).with(number),
        };
        let rope = Rope::Relation {
            inside,
            number,
            extent: Boxed::new(alloc, extent)?,
        };
        Ok(Directed {
            rope: Some(Shared::new(alloc, rope)?),
        })
    }

    /// How many columns there are.
    pub fn len(&self) -> usize
        ensures { result ≡ length (columns_within self.now) }
    {
        match &self.rope {
            Some(rope) => width_in(rope.get()),
            None => 0,
        }
    }

    /// Whether two columns have one name.
    pub fn has_name_twice(&self, alloc: Global) -> Result<bool, NoMemory>
        ensures { IfOk result (λ twice. twice ≡ name_twice (columns_within self.now)) }
    {
        match &self.rope {
            Some(rope) => has_name_twice(alloc, rope.get()),
            None => Ok(false),
        }
    }

    /// Where this name stands, if one look-up tells.
    pub fn find_single(&self, name: &Name) -> Option<Option<Occurrences>>
        ensures { IfSome result (λ found. found ≡ occurrences name.now (columns_within self.now)) }
    {
        match &self.rope {
            Some(rope) => find_single(rope.get(), name),
            None => Some(None),
        }
    }

    /// Whether one look-up tells where a name stands.
    pub fn is_single(&self) -> bool {
        match &self.rope {
            Some(rope) => is_single(rope.get()),
            None => true,
        }
    }

    /// Whether a name outside of relations is found with few look-ups.
    pub fn is_shallow(&self) -> bool {
        match &self.rope {
            Some(rope) => is_shallow(rope.get()),
            None => true,
        }
    }

    /// Whether a column has a name that these relations declare; `outside` is whether one outside of relations may have it.
    pub fn has_among(&self, sought: &DeclaredName, outside: bool) -> bool
        requires { stands_within sought.now.relations outside sought.now.name.now self.now ≡ true }
        ensures { result ≡ list_any (is_called sought.now.name.now) (columns_within self.now) }
    {
        match &self.rope {
            Some(rope) => has_among(rope.get(), sought, outside),
            None => false,
        }
    }

    /// Where a name stands that these relations declare.
    pub fn find_among(&self, sought: &DeclaredName, outside: bool) -> Option<Occurrences>
        requires { stands_within sought.now.relations outside sought.now.name.now self.now ≡ true }
        ensures { result ≡ occurrences sought.now.name.now (columns_within self.now) }
    {
        match &self.rope {
            Some(rope) => find_among(rope.get(), sought, outside),
            None => None,
        }
    }
}

/// Parts that are being joined.
#[derive(Drop)]
pub struct Joining<'a> {
    parts: Vec<Part<'a>>,
}

impl<'a> Model for Joining<'a> {
    ghost use Rattle.std.specs.Prelude.{◌≡◌, [], List, true};
    ghost use Rattle.std.specs.Coded.{codes};
    ghost use mir.Syntax.{static};
    ghost use Rattle.scope_core.specs.contracts.rope.Part as part_type;
    ghost use Rattle.scope_core.specs.declared.rope.Part.{Part};
    ghost use Rattle.scope_core.specs.Ropes.{are_listed_sound};

    ghost Value = { List Part };

    ghost coded = { Prim.hlevel (codes, (part_type.the_row (record { mir = static; lft = [] })).coded) };

    ghost view = { λ joining. joining.parts.items };

    ghost invariant = { λ joining. are_listed_sound joining.parts.items ≡ true };
}

impl<'a> Joining<'a> {
    /// No parts yet, with room for so many.
    pub fn with_capacity(alloc: Global, count: usize) -> Result<Joining<'a>, NoMemory>
        ensures { IfOk result (λ joining. joining ≡ []) }
    {
        Ok(Joining {
            parts: Vec::with_capacity(alloc, count)?,
        })
    }

    /// Appends columns. A rope of few parts is spliced in.
    pub fn push(&mut self, columns: Directed<'a>) -> Result<(), NoMemory>
        ensures columns { OnOk result (columns_listed self.new ≡ columns_listed self.old ++ columns_within columns.entry) }
        ensures directed { OnOk result ((declared outside : _) → AreDirectedParts declared outside self.old → IsDirected declared outside columns.entry
            → AreDirectedParts declared outside self.new) }
    {
        let Directed { rope } = columns;
        let Some(rope) = rope else {
            return Ok(());
        };
        if let Some(few) = few_parts(rope.get()) {
            return self.push_all(few);
        }
        self.push_part(rope)
    }

    fn push_part(&mut self, rope: Shared<Rope<'a>>) -> Result<(), NoMemory>
        requires { is_sound rope ≡ true }
        ensures { OnOk result (self.new ≡ self.old ++ part_of rope.entry ∷ []) }
    {
        self.parts.push(Part { rope })?;
        Ok(())
    }

    fn push_all(&mut self, parts: &[Part<'a>]) -> Result<(), NoMemory>
        requires { are_listed_sound parts.now ≡ true }
        ensures { OnOk result (self.new ≡ self.old ++ parts.now) }
    {
        for part in parts {
            self.push_part(part.rope.share()?)?;
        }
        Ok(())
    }

    /// The columns of all parts.
    pub fn joined(self, alloc: Global) -> Result<Directed<'a>, NoMemory>
        ensures columns { IfOk result (λ d. columns_within d ≡ columns_listed self.entry) }
        ensures directed { IfOk result (λ d. (declared outside : _) → AreDirectedParts declared outside self.entry → IsDirected declared outside d) }
    {
        let Joining { parts } = self;
        match parts.as_slice() {
            [] => Ok(Directed::new()),
            [part] => Ok(Directed {
                rope: Some(part.rope.share()?),
            }),
            _ => joined_parts(alloc, parts),
        }
    }
}

/// Several parts as one rope.
fn joined_parts<'a>(alloc: Global, parts: Vec<Part<'a>>) -> Result<Directed<'a>, NoMemory>
    requires { are_listed_sound parts.items ≡ true }
    ensures columns { IfOk result (λ d. columns_within d ≡ columns_listed parts.entry.items) }
    ensures directed { IfOk result (λ d. (declared outside : _) → AreDirectedParts declared outside parts.entry.items → IsDirected declared outside d) }
{
    let parts = trimmed(parts);
    let extent = extent_of(parts.as_slice())?;
    let rope = Rope::Joined {
        parts: List::from_vec(parts),
        extent: Boxed::new(alloc, extent)?,
    };
    Ok(Directed {
        rope: Some(Shared::new(alloc, rope)?),
    })
}

/// The same parts, without much room for more. A little stays: a block of memory that is cut by a few bytes leaves a hole that the lists of later ropes
/// do not fit into.
fn trimmed<'a>(mut parts: Vec<Part<'a>>) -> Vec<Part<'a>>
    ensures { result.items ≡ parts.entry.items }
{
    if parts.capacity().saturating_sub(parts.len()) > parts.len() / 8 {
        parts.shrink_to_fit();
    }
    parts
}

/// How many columns parts have, and the relations among them.
fn extent_of(parts: &[Part]) -> Result<Extent, NoMemory>
    requires { are_listed_sound parts.now ≡ true }
    ensures width { IfOk result (λ extent. extent.width ≡ length (columns_listed parts.now)) }
    ensures shown { IfOk result (λ extent. extent.shown ≡ shown_listed parts.now) }
{
    let mut width: usize = 0;
    let mut shown = RelationSet::empty();
    for part in parts {
        width = match width.checked_add(width_in(part.rope.get())) {
            Some(more) => more,
            None => return Err(NoMemory),
        };
        shown = shown.union(shown_in(part.rope.get()));
    }
    Ok(Extent { width, shown })
}
