//! What stands behind a name of FROM.
ghost use Rattle.std.specs.Prelude.{◌≡◌, length};
ghost use Rattle.std.specs.List.{list_any};
ghost use Rattle.sql_model.specs.Columns.{is_called, same_name};
ghost use Rattle.scope_core.specs.Names.{occurrences};

use crate::guide::Guide;
use crate::names::Occurrences;
use sql_model::Name;
use std::marker::Model;

/// What stands behind a name of FROM: its alias and its columns.
#[derive(Drop)]
pub struct Heading<'k, 'a> {
    alias: &'a Name,
    columns: Guide<'k, 'a>,
}

impl<'k, 'a> Model for Heading<'k, 'a> {
    ghost use Rattle.sql_model.specs.Headings.{Heading as TheHeading};

    ghost Value = { TheHeading };

    ghost view = { λ h. record { alias = h.alias.now; columns = h.columns } };
}

impl<'k, 'a> Heading<'k, 'a> {
    /// An entry of this alias and these columns.
    pub fn new(alias: &'a Name, columns: Guide<'k, 'a>) -> Heading<'k, 'a>
        ensures { result ≡ record { alias = alias.entry.now; columns = columns.entry } }
    {
        Heading { alias, columns }
    }

    /// Its columns, handed on.
    pub fn into_columns(self) -> Guide<'k, 'a>
        ensures { result ≡ self.entry.columns }
    {
        let Heading { columns, .. } = self;
        columns
    }

    /// How many columns it has.
    pub fn len(&self) -> usize
        ensures { result ≡ length self.now.columns }
    {
        self.columns.len()
    }

    /// Whether this is its alias.
    pub fn is_alias(&self, alias: &Name) -> bool
        ensures { result ≡ same_name alias.now self.now.alias }
    {
        alias == self.alias
    }

    /// Whether a column has this name.
    pub fn has(&self, name: &Name) -> bool
        ensures { result ≡ list_any (is_called name.now) self.now.columns }
    {
        self.columns.has(name)
    }

    /// Where this name stands among its columns.
    pub fn find(&self, name: &Name) -> Option<Occurrences>
        ensures { result ≡ occurrences name.now self.now.columns }
    {
        self.columns.find(name)
    }
}

/// Where a relation's rows are kept: a base table by its number, a view by its place.
#[derive(Clone, Copy)]
pub enum Stored {
    Table { number: u32 },
    View { place: u32 },
}
