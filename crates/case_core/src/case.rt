//! A case that was read.
ghost use Rattle.std.specs.Prelude.{◌≡◌};
ghost use Rattle.case_core.specs.Fitting.{FitsSymbols, TreesFitSymbols};
ghost use Rattle.data_model.specs.Lists.{Each};
ghost use Rattle.scope_core.specs.Fitting.{FitsViews};
ghost use Rattle.scope_core.specs.Width.{width};

use scope_core::{Resolved, Views};
use sql_model::{Schema, Symbols};
use std::marker::Model;
use u_terms::Facts;

/// A schema, and two resolved queries of one width over it.
#[derive(Drop)]
pub struct Case {
    schema: Schema,
    views: Views,
    facts: Facts,
    left: Resolved,
    right: Resolved,
    symbols: Symbols,
}

impl Model for Case {
    ghost use Rattle.std.specs.Prelude.{◌≡◌};
    ghost use Rattle.std.specs.Coded.{codes};
    ghost use Rattle.case_core.specs.Fitting.{TreesFitSymbols};
    ghost use Rattle.case_core.specs.Parts.{Parts};
    ghost use Rattle.scope_core.specs.Fitting.{FitsViews};
    ghost use Rattle.scope_core.specs.Width.{width as tree_width};
    ghost use Rattle.scope_core.specs.contracts.tree.RQuery as query;
    ghost use Rattle.sql_model.specs.contracts.schema.Schema as schema_type;
    ghost use Rattle.sql_model.specs.contracts.symbols.Symbols as symbols_type;
    ghost use Rattle.u_terms.specs.contracts.facts.Facts as facts_type;

    ghost Value = { Parts };

    ghost coded = { Prim.hlevel (codes, query.the_row.coded, schema_type.the_row.coded, symbols_type.the_row.coded, facts_type.the_row.coded) };

    ghost view = { λ c. record {
      schema = c.schema;
      views = c.views;
      facts = c.facts;
      left = c.left;
      right = c.right;
      symbols = c.symbols;
    } };

    ghost invariant = { λ c. (tree_width c.left ≡ tree_width c.right) × FitsViews c.views c.left × FitsViews c.views c.right × TreesFitSymbols c.symbols c.views c.left c.right };
}

impl Case {
    /// Of two queries of one width over the views, where the symbols have all their literals.
    pub(crate) fn new(
        schema: Schema,
        views: Views,
        facts: Facts,
        queries: (Resolved, Resolved),
        symbols: Symbols,
    ) -> Case
        requires one_width { width queries.0 ≡ width queries.1 }
        requires left { FitsViews views queries.0 }
        requires right { FitsViews views queries.1 }
        requires symbols { TreesFitSymbols symbols views queries.0 queries.1 }
        ensures { result ≡ record { schema = schema; views = views; facts = facts; left = queries.0; right = queries.1; symbols = symbols } }
    {
        let (left, right) = queries;
        Case {
            schema,
            views,
            facts,
            left,
            right,
            symbols,
        }
    }

    /// The schema that the statements build.
    pub fn schema(&self) -> &Schema
        ensures { result.now ≡ self.now.schema }
    {
        &self.schema
    }

    /// The resolved queries of the schema's views.
    pub fn views(&self) -> &Views
        ensures value { result.now ≡ self.now.views }
        ensures symbols { Each (FitsSymbols self.now.symbols) self.now.views }
    {
        &self.views
    }

    /// The facts of the schema.
    pub fn facts(&self) -> &Facts
        ensures { result.now ≡ self.now.facts }
    {
        &self.facts
    }

    /// The first query.
    pub fn left(&self) -> &Resolved
        ensures value { result.now ≡ self.now.left }
        ensures fits { FitsViews self.now.views self.now.left }
        ensures symbols { FitsSymbols self.now.symbols self.now.left }
    {
        &self.left
    }

    /// The second query.
    pub fn right(&self) -> &Resolved
        ensures value { result.now ≡ self.now.right }
        ensures fits { FitsViews self.now.views self.now.right }
        ensures symbols { FitsSymbols self.now.symbols self.now.right }
    {
        &self.right
    }

    /// The literals and called names of the text, by their numbers.
    pub fn symbols(&self) -> &Symbols
        ensures { result.now ≡ self.now.symbols }
    {
        &self.symbols
    }

    /// How many columns each of the two queries has.
    pub fn outs(&self) -> u32
        ensures left { result ≡ width self.now.left }
        ensures right { result ≡ width self.now.right }
    {
        self.left.width()
    }
}
