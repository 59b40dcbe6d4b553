//! Resolved queries, and the views of a schema.
ghost use Rattle.std.specs.Prelude.{◌≡◌, [], IfErr, IfOk, option_map, slice_get};
ghost use Rattle.scope_core.specs.declared.fault.ScopeFault.TheVariants as fault;
ghost use Rattle.scope_core.specs.Fitting.{DoViewsFit};
ghost use Rattle.scope_core.specs.Plain.{is_plain_tree};
ghost use Rattle.scope_core.specs.Sound.{IsSoundAlone};
ghost use Rattle.scope_core.specs.Width.{width};

use crate::fault::{ScopeFault, number};
use crate::shape::{is_plain, query_width};
use crate::tree::RQuery;
use plain_data::List;
use std::marker::Model;

/// A resolved query.
#[derive(Drop)]
pub struct Resolved {
    tree: RQuery,
    width: u32,
    plain: bool,
}

impl Model for Resolved {
    ghost use Rattle.std.specs.Prelude.{◌≡◌};
    ghost use Rattle.std.specs.Coded.{codes};
    ghost use Rattle.scope_core.specs.Syntax.{RQuery as Tree};
    ghost use Rattle.scope_core.specs.contracts.tree.RQuery as query;
    ghost use Rattle.scope_core.specs.Plain.{is_plain_tree};
    ghost use Rattle.scope_core.specs.Sound.{IsSoundAlone};
    ghost use Rattle.scope_core.specs.Width.{width as tree_width};

    ghost Value = { Tree };

    ghost coded = { Prim.hlevel (codes, query.the_row.coded) };

    ghost view = { λ r. r.tree };

    ghost invariant = { λ r. (r.width ≡ tree_width r.tree) × (r.plain ≡ is_plain_tree r.tree) × IsSoundAlone r.tree };
}

impl Resolved {
    /// The tree with what is known of it.
    pub(crate) fn new(tree: RQuery) -> Result<Resolved, ScopeFault>
        requires { IsSoundAlone tree }
        ensures value { IfOk result (λ r. r ≡ tree) }
        ensures err { IfErr result (λ f. f ≡ fault.NoMemory) }
    {
        let width = number(query_width(&tree))?;
        let plain = is_plain(&tree);
        Ok(Resolved { tree, width, plain })
    }

    /// The tree, lent.
    pub fn tree(&self) -> &RQuery
        ensures value { result.now ≡ self.now }
        ensures sound { IsSoundAlone self.now }
    {
        &self.tree
    }

    /// How many columns the answer has.
    pub fn width(&self) -> u32
        ensures { result ≡ width self.now }
    {
        self.width
    }

    /// Whether the query is one block without DISTINCT, grouping and HAVING, over base tables, whose items and conditions hold columns and
    /// literals alone.
    pub fn plain(&self) -> bool
        ensures { result ≡ is_plain_tree self.now }
    {
        self.plain
    }
}

/// The resolved queries of a schema's views, in order of declaration. Each is over the views before it.
#[derive(Drop)]
pub struct Views {
    trees: List<Resolved>,
}

impl Model for Views {
    ghost use Rattle.std.specs.Prelude.{List, []};
    ghost use Rattle.std.specs.Coded.{codes};
    ghost use Rattle.scope_core.specs.Fitting.{DoViewsFit};
    ghost use Rattle.scope_core.specs.Syntax.{RQuery as Tree};
    ghost use Rattle.scope_core.specs.contracts.tree.RQuery as query;

    ghost Value = { List Tree };

    ghost coded = { Prim.hlevel (codes, query.the_row.coded) };

    ghost view = { λ views. views.trees };

    ghost invariant = { λ views. DoViewsFit [] views.trees };
}

impl Views {
    pub(crate) fn new(trees: List<Resolved>) -> Views
        requires { DoViewsFit [] trees }
        ensures { result ≡ trees }
    {
        Views { trees }
    }

    /// The view at this place, and none past the last.
    pub fn get(&self, place: u32) -> Option<&Resolved>
        ensures { option_map (λ view. view.now) result ≡ slice_get self.now place }
    {
        self.trees.as_slice().get(place as usize)
    }

    /// All views, lent.
    pub fn as_slice(&self) -> &[Resolved]
        ensures value { result.now ≡ self.now }
        ensures fit { DoViewsFit [] self.now }
    {
        self.trees.as_slice()
    }
}
