//! The views of a schema, and queries over them.
ghost use Rattle.std.specs.Prelude.{◌≡◌, ℕ, IfErr, IfOk, List, OnOk, [], false, length, map};
ghost use Rattle.data_model.specs.Lists.{Each};
ghost use Rattle.sql_model.specs.Headings.{output_columns};
ghost use Rattle.scope_core.specs.declared.fault.ScopeCode.TheVariants as code;
ghost use Rattle.scope_core.specs.declared.fault.ScopeFault.TheVariants as fault;
ghost use Rattle.scope_core.specs.Answer.{IsCause};
ghost use Rattle.scope_core.specs.Faults.{name_twice};
ghost use Rattle.scope_core.specs.FirstFault.{query_fault, relation_fault, schema_fault};
ghost use Rattle.scope_core.specs.Fitting.{AreSoundViews, FitsViews, IsSoundOver};
ghost use Rattle.scope_core.specs.Lent.{relations_of};
ghost use Rattle.scope_core.specs.Literals.{QueryFits, SchemaFits, TreeFits};
ghost use Rattle.scope_core.specs.Parts.{fault_within, name_twice_fault};
ghost use Rattle.scope_core.specs.Plain.{is_plain, is_plain_tree};
ghost use Rattle.scope_core.specs.Relations.{known_of, known_with};
ghost use Rattle.scope_core.specs.ViewTrees.{Resolves, trees_with, views_of};
ghost use Rattle.scope_core.specs.Resolving.{resolved};
ghost use Rattle.scope_core.specs.Ropes.{columns_within};
ghost use Rattle.scope_core.specs.Scope.{heading};
ghost use Rattle.scope_core.specs.WellFormed.{SchemaWellFormed, SchemaWithinWidth, WellFormed, WithinWidth};
ghost use Rattle.scope_core.specs.Width.{width};

use crate::catalog::{Catalog, known_relations};
use crate::directed::Directed;
use crate::fault::{ScopeCode, ScopeFault, number, refused};
use crate::level::Levels;
use crate::resolution::resolve_query;
use crate::resolved::{Resolved, Views};
use crate::run::Runs;
use crate::sources::NewColumns;
use plain_data::List;
use sql_model::{Name, Query, Relation, Schema};
use std::alloc::Global;

/// The resolved queries of a schema's views. A view sees the relations declared before it.
#[tactic(auto, using(crate::proofs::schema::Schemas::calls))]
pub fn resolve_views(alloc: Global, schema: &Schema) -> Result<Views, ScopeFault>
    ensures well_formed { OnOk result (SchemaWellFormed schema.now × SchemaWithinWidth schema.now) }
    ensures value { IfOk result (λ views. views ≡ views_of schema.now) }
    ensures sound { IfOk result (λ views. AreSoundViews schema.now.relations.entries [] views) }
    ensures symbols { IfOk result (λ views. (count : ℕ) → SchemaFits count schema.now → Each (TreeFits count) views) }
    ensures err { IfErr result (λ f. IsCause f (schema_fault schema.now)) }
{
    let mut known = Catalog::new(alloc);
    let mut trees = Vec::new(alloc);
    let runs = Runs::new(alloc);
    for (name, relation) in schema.relations.iter() {
        add_relation(&mut known, &mut trees, alloc, &runs, name, relation)?;
    }
    Ok(Views::new(List::from_vec(trees)))
}

/// The resolved query, over the relations of a schema. `views` are what `resolve_views` answers for the schema.
#[tactic(auto, using(crate::proofs::schema::Schemas::calls))]
pub fn resolve<'a>(
    alloc: Global,
    schema: &'a Schema,
    views: &Views,
    query: &'a Query,
) -> Result<Resolved, ScopeFault>
    requires well_formed { SchemaWellFormed schema.now }
    requires views { views.now ≡ views_of schema.now }
    ensures well_formed { OnOk result (WellFormed schema.now query.now × WithinWidth schema.now query.now) }
    ensures value { IfOk result (λ tree. Resolves schema.now query.now tree) }
    ensures sound { IfOk result (λ tree. IsSoundOver schema.now.relations.entries views.now tree) }
    ensures fits { IfOk result (λ tree. FitsViews views.now tree) }
    ensures symbols { IfOk result (λ tree. (count : ℕ) → QueryFits count query.now → TreeFits count tree) }
    ensures wide { IfOk result (λ tree. width tree ≡ length (output_columns query.now (map heading (known_of schema.now)))) }
    ensures plain { IfOk result (λ tree. is_plain_tree tree ≡ is_plain query.now (known_of schema.now)) }
    ensures err { IfErr result (λ f. IsCause f (query_fault schema.now query.now)) }
{
    let known = known_relations(alloc, schema)?;
    resolve_over(alloc, query, &known, &Runs::new(alloc))
}

/// A query that stands by itself, over these relations.
#[tactic(auto, using(crate::proofs::schema::Schemas::alone))]
fn resolve_over<'k, 'a>(
    alloc: Global,
    query: &'a Query,
    known: &'k Catalog<'a>,
    runs: &Runs,
) -> Result<Resolved, ScopeFault>
    ensures fine { IfOk result (λ tree. fault_within (relations_of known.now) [] query.now ≡ None) }
    ensures value { IfOk result (λ tree. tree ≡ resolved query.now (relations_of known.now) []) }
    ensures err { IfErr result (λ f. IsCause f (fault_within (relations_of known.now) [] query.now)) }
{
    let outside = Levels::Outside { runs };
    let query = resolve_query(alloc, query, known, &outside)?;
    Resolved::new(query.tree.into_inner())
}

/// Appends a relation to those that are known, and its tree where it is a view.
#[tactic(auto, using(crate::proofs::schema::Schemas::steps))]
fn add_relation<'a>(
    known: &mut Catalog<'a>,
    trees: &mut Vec<Resolved>,
    alloc: Global,
    runs: &Runs,
    name: &'a Name,
    relation: &'a Relation,
) -> Result<(), ScopeFault>
    ensures fine { OnOk result (relation_fault (relations_of known.old) relation.now ≡ None) }
    ensures known { OnOk result (relations_of known.new ≡ known_with (relations_of known.old) (length trees.old.items) name.now relation.now) }
    ensures trees { OnOk result (trees.new.items ≡ trees_with (relations_of known.old) trees.old.items relation.now) }
    ensures err { IfErr result (λ f. IsCause f (relation_fault (relations_of known.old) relation.now)) }
{
    match relation {
        Relation::Table { table } => known.add_table(alloc, name, table)?,
        Relation::View { query, at } => {
            let place = number(trees.len())?;
            let tree = resolve_over(alloc, query, &*known, runs)?;
            trees.push(tree)?;
            let columns = NewColumns::of_query(alloc, query, &*known)?;
            check_names(alloc, &columns.columns, *at)?;
            known.add_view(alloc, name, query, columns, place)?;
        }
    }
    Ok(())
}

/// That no two columns of a view have one name.
#[tactic(auto, using(crate::proofs::schema::Schemas::names, crate::proofs::resolving::Columns::causes))]
fn check_names(alloc: Global, columns: &Directed, at: u32) -> Result<(), ScopeFault>
    ensures fine { OnOk result (name_twice_fault (columns_within columns.now) at ≡ None) }
    ensures err { IfErr result (λ f. IsCause f (name_twice_fault (columns_within columns.now) at)) }
{
    if columns.has_name_twice(alloc)? {
        return Err(refused(ScopeCode::NameTwice, at));
    }
    Ok(())
}
