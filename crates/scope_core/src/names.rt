//! Names of columns, lent from the trees that they are written in, with an index: where a name stands is found without a walk.
ghost use Rattle.std.specs.Prelude.{◌≡◌, ◌++◌, ◌∷◌, [], cond, is_some, length, map, option_map, OnOk, OnErr, IfOk, Some, None};
ghost use Rattle.sql_model.specs.Columns.{same_name};
ghost use Rattle.sql_model.specs.Syntax.{Name as TheName};
ghost use Rattle.scope_core.specs.Faults.{name_twice};
ghost use Rattle.scope_core.specs.Names.{indexed, names_of, noted, occurrences};

use crate::NoMemory;
use indexmap::IndexMap;
use sql_model::Name;
use std::alloc::Global;
use std::marker::Model;

/// Where a name stands among columns: the place of the first that has it, and whether another has it too.
#[derive(Clone, Copy)]
pub struct Occurrences {
    pub first: usize,
    pub twice: bool,
}

/// Notes that one column more, at this place, has the name. Answers whether one before it has.
fn note<'a>(
    index: &mut IndexMap<&'a Name, Occurrences>,
    name: &'a Name,
    place: usize,
) -> Result<bool, NoMemory>
    ensures seen { IfOk result (λ seen. seen ≡ is_some (indexed name.entry.now index.old.entries)) }
    ensures noted { OnOk result ((other : TheName) → indexed other index.new.entries
        ≡ cond (same_name name.entry.now other) (Some (noted place (indexed name.entry.now index.old.entries))) (indexed other index.old.entries)) }
    ensures err { OnErr result (index.new.entries ≡ index.old.entries) }
{
    let once = Occurrences {
        first: place,
        twice: false,
    };
    match index.insert(name, once)? {
        Some(before) => {
            let again = Occurrences {
                first: before.first,
                twice: true,
            };
            index.insert(name, again)?;
            Ok(true)
        }
        None => Ok(false),
    }
}

/// Columns that are written one by one, by name where they have one.
#[derive(Drop)]
pub struct Names<'a> {
    names: Vec<Option<&'a Name>>,
    index: IndexMap<&'a Name, Occurrences>,
    repeats: bool,
}

impl<'a> Model for Names<'a> {
    ghost use Rattle.std.specs.Prelude.{◌≡◌, List};
    ghost use Rattle.sql_model.specs.Frames.{ColumnName};
    ghost use Rattle.scope_core.specs.Faults.{name_twice};
    ghost use Rattle.scope_core.specs.Names.{IsIndexOf, names_of};

    ghost Value = { List ColumnName };

    ghost view = { λ names. names_of names.names.items };

    ghost invariant = { λ names.
        IsIndexOf names.index.entries (names_of names.names.items)
        × (names.repeats ≡ name_twice (names_of names.names.items)) };
}

impl<'a> Names<'a> {
    /// No columns, which take no memory.
    pub fn new(alloc: Global) -> Names<'a>
        ensures { result ≡ [] }
    {
        Names {
            names: Vec::new(alloc),
            index: IndexMap::new(alloc),
            repeats: false,
        }
    }

    /// The columns of a table.
    pub fn of_table(alloc: Global, columns: &'a [Name]) -> Result<Names<'a>, NoMemory>
        ensures { IfOk result (λ names. names ≡ map (λ name. Some name) columns.now) }
    {
        let mut names = Names::new(alloc);
        for name in columns {
            names.push(Some(name))?;
        }
        Ok(names)
    }

    /// These columns.
    pub fn of_columns(alloc: Global, columns: &[Option<&'a Name>]) -> Result<Names<'a>, NoMemory>
        ensures { IfOk result (λ names. names ≡ names_of columns.now) }
    {
        let mut names = Names::new(alloc);
        for name in columns {
            names.push(*name)?;
        }
        Ok(names)
    }

    /// A column for each of these names.
    pub fn of_lent(alloc: Global, lent: &[&'a Name]) -> Result<Names<'a>, NoMemory>
        ensures { IfOk result (λ names. names ≡ map (λ name. Some name.now) lent.now) }
    {
        let mut names = Names::new(alloc);
        for name in lent {
            names.push(Some(*name))?;
        }
        Ok(names)
    }

    /// How many columns there are.
    pub fn len(&self) -> usize
        ensures { result ≡ length self.now }
    {
        self.names.len()
    }

    /// The names, one for each column.
    pub fn names(&self) -> &[Option<&'a Name>]
        ensures { names_of result.now ≡ self.now }
    {
        self.names.as_slice()
    }

    /// Where this name stands among them, found without a walk.
    pub fn find(&self, name: &Name) -> Option<Occurrences>
        ensures { result ≡ occurrences name.now self.now }
    {
        self.index.get(&name).copied()
    }

    /// Whether two columns have one name.
    pub fn has_name_twice(&self) -> bool
        ensures { result ≡ name_twice self.now }
    {
        self.repeats
    }

    /// Appends a column.
    pub fn push(&mut self, name: Option<&'a Name>) -> Result<(), NoMemory>
        ensures ok { OnOk result (self.new ≡ self.old ++ option_map (λ n. n.now) name.entry ∷ []) }
        ensures err { OnErr result (self.new ≡ self.old) }
    {
        match name {
            Some(own) => self.push_named(own),
            None => self.push_unnamed(),
        }
    }

    fn push_named(&mut self, name: &'a Name) -> Result<(), NoMemory>
        ensures ok { OnOk result (self.new ≡ self.old ++ Some name.entry.now ∷ []) }
        ensures err { OnErr result (self.new ≡ self.old) }
    {
        self.names.reserve(1)?;
        let seen = note(&mut self.index, name, self.names.len())?;
        self.repeats = self.repeats | seen;
        self.names.push_reserved(Some(name));
        Ok(())
    }

    fn push_unnamed(&mut self) -> Result<(), NoMemory>
        ensures ok { OnOk result (self.new ≡ self.old ++ None ∷ []) }
        ensures err { OnErr result (self.new ≡ self.old) }
    {
        self.names.push(None)?;
        Ok(())
    }

    /// Appends the columns of another.
    pub fn append(&mut self, others: &Names<'a>) -> Result<(), NoMemory>
        ensures { OnOk result (self.new ≡ self.old ++ others.now) }
    {
        for name in others.names.iter() {
            self.push(*name)?;
        }
        Ok(())
    }
}
