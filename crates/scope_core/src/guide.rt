//! The columns of an entry of FROM, with what says where a name may stand among them.
ghost use Rattle.std.specs.Prelude.{◌≡◌, IfOk, length, true};
ghost use Rattle.std.specs.List.{list_any};
ghost use Rattle.sql_model.specs.Columns.{is_called};
ghost use Rattle.sql_model.specs.Headings.{source_columns};
ghost use Rattle.scope_core.specs.Directed.{Widens, admits};
ghost use Rattle.scope_core.specs.Lent.{headings_of};
ghost use Rattle.scope_core.specs.Names.{is_one_of, occurrences};

use crate::NoMemory;
use crate::catalog::Catalog;
use crate::directed::Directed;
use crate::names::{Names, Occurrences};
use crate::rope::DeclaredName;
use crate::sources::directed_source;
use plain_data::Boxed;
use sql_model::{Name, Source};
use std::alloc::Global;
use std::marker::Model;

/// The names that may stand outside of relations.
#[derive(Drop)]
pub enum Outside<'a> {
    Nothing,
    Anything,
    Among { names: Boxed<Names<'a>> },
}

impl<'a> Outside<'a> {
    /// Whether this name may be one of them.
    fn admits(&self, name: &Name) -> bool
        ensures { result ≡ admits self.now name.now }
    {
        match self {
            Outside::Nothing => false,
            Outside::Anything => true,
            Outside::Among { names } => names.get().find(name).is_some(),
        }
    }

    /// These names, with an index. Where few look-ups find a name anyway none is kept out, and no index takes memory.
    fn of_columns(
        alloc: Global,
        columns: &Directed<'a>,
        names: &[&'a Name],
    ) -> Result<Outside<'a>, NoMemory>
        ensures { IfOk result (λ outside. Widens (is_one_of names.now) (admits outside)) }
    {
        if columns.is_single() {
            return Ok(Outside::Anything);
        }
        if names.len() == 0 {
            return Ok(Outside::Nothing);
        }
        if columns.is_shallow() {
            return Ok(Outside::Anything);
        }
        Ok(Outside::Among {
            names: Boxed::new(alloc, Names::of_lent(alloc, names)?)?,
        })
    }
}

/// Columns, with the catalog whose declarations say where a name may stand among them.
#[derive(Drop)]
pub struct Guide<'k, 'a> {
    known: &'k Catalog<'a>,
    columns: Directed<'a>,
    outside: Outside<'a>,
}

impl<'k, 'a> Model for Guide<'k, 'a> {
    ghost use Rattle.std.specs.Prelude.{List};
    ghost use Rattle.sql_model.specs.Frames.{ColumnName};
    ghost use Rattle.scope_core.specs.Catalogs.{declared_by};
    ghost use Rattle.scope_core.specs.Directed.{admits};
    ghost use Rattle.scope_core.specs.Ropes.{IsDirected, columns_within};

    ghost Value = { List ColumnName };

    ghost view = { λ guide. columns_within guide.columns };

    ghost invariant = { λ guide. IsDirected (declared_by guide.known.now) (admits guide.outside) guide.columns };
}

impl<'k, 'a> Guide<'k, 'a> {
    /// The columns of a source.
    pub fn of_source(
        alloc: Global,
        source: &'a Source,
        known: &'k Catalog<'a>,
    ) -> Result<Guide<'k, 'a>, NoMemory>
        ensures { IfOk result (λ guide. guide ≡ source_columns source.now (headings_of known.now)) }
    {
        let mut names = Vec::new(alloc);
        let columns = directed_source(alloc, source, known, &mut names)?;
        let outside = Outside::of_columns(alloc, &columns, names.as_slice())?;
        Ok(Guide {
            known,
            columns,
            outside,
        })
    }

    /// How many columns there are.
    pub fn len(&self) -> usize
        ensures { result ≡ length self.now }
    {
        self.columns.len()
    }

    /// Whether a column has this name.
    pub fn has(&self, name: &Name) -> bool
        ensures { result ≡ list_any (is_called name.now) self.now }
    {
        if let Outside::Anything = self.outside {
            if let Some(found) = self.columns.find_single(name) {
                return found.is_some();
            }
        }
        let sought = DeclaredName {
            name,
            relations: self.known.declared(name),
        };
        self.columns.has_among(&sought, self.outside.admits(name))
    }

    /// Where this name stands among them.
    pub fn find(&self, name: &Name) -> Option<Occurrences>
        ensures { result ≡ occurrences name.now self.now }
    {
        if let Outside::Anything = self.outside {
            if let Some(found) = self.columns.find_single(name) {
                return found;
            }
        }
        let sought = DeclaredName {
            name,
            relations: self.known.declared(name),
        };
        self.columns.find_among(&sought, self.outside.admits(name))
    }
}
