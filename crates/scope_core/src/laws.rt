//! Laws of the definitions, each the contract of a function that does nothing.
ghost use Rattle.std.specs.Prelude.{◌≡◌, ◌↔◌, ◌≤◌, ℕ, List, [], length, map, None};
ghost use Rattle.data_model.specs.Reading.{IsOn, Reading};
ghost use Rattle.data_model.specs.Rows.{IsRow};
ghost use Rattle.data_model.specs.Database.{Database};
ghost use Rattle.sql_model.specs.declared.schema.Schema.{Schema};
ghost use Rattle.sql_model.specs.Syntax.{Query};
ghost use Rattle.sql_model.specs.Headings.{output_columns};
ghost use Rattle.sql_model.specs.Meets.{Meets};
ghost use Rattle.sql_model.specs.Relations.{answer};
ghost use Rattle.scope_core.specs.Evaluation.{answer as resolved_answer};
ghost use Rattle.scope_core.specs.Fitting.{AreSoundViews, IsSoundOver};
ghost use Rattle.data_model.specs.Lists.{Each};
ghost use Rattle.scope_core.specs.Literals.{QueryFits, SchemaFits, TreeFits};
ghost use Rattle.scope_core.specs.Relations.{known_of};
ghost use Rattle.scope_core.specs.ViewTrees.{tree_of, views_of};
ghost use Rattle.scope_core.specs.Plain.{is_plain, is_plain_tree};
ghost use Rattle.scope_core.specs.Scope.{heading};
ghost use Rattle.scope_core.specs.Syntax.{RQuery};
ghost use Rattle.scope_core.specs.Width.{width};
ghost use Rattle.scope_core.specs.WellFormed.{SchemaWellFormed, SchemaWithinWidth, WellFormed, WithinWidth};
ghost use Rattle.scope_core.specs.FirstFault.{query_fault, schema_fault};

/// The resolved tree of a well-formed query has the rows of its query, in the same order: over every domain, under every reading
/// and on every database that meets the schema, where the views have the trees of theirs.
#[tactic(auto, using(crate::proofs::schema::Relations::laws))]
pub fn resolving_keeps_the_rows()
    ensures { (schema : Schema) (query : Query) (n : ℕ) (reading : Reading) (db : Database) →
        SchemaWellFormed schema → WellFormed schema query → Meets schema n db →
        resolved_answer n reading db (views_of schema) (tree_of schema query) ≡ answer schema n reading db query }
{}

/// A schema or a query has no first fault exactly where it is well formed and no block has more outputs than the limit admits.
#[tactic(auto, using(crate::proofs::well_formed::NoFault::laws))]
pub fn no_fault_in_well_formed()
    ensures schema { (schema : Schema) →
        (schema_fault schema ≡ None) ↔ (SchemaWellFormed schema × SchemaWithinWidth schema) }
    ensures query { (schema : Schema) (query : Query) →
        (query_fault schema query ≡ None) ↔ (WellFormed schema query × WithinWidth schema query) }
{}

/// The trees of a well-formed schema and query are sound, and fit the schema and the views before them; and a tree is as wide as
/// its query has columns.
#[tactic(auto, using(crate::proofs::schema::SoundTrees::laws))]
pub fn resolved_trees_are_sound()
    ensures views { (schema : Schema) → SchemaWellFormed schema →
        AreSoundViews schema.relations.entries [] (views_of schema) }
    ensures query { (schema : Schema) (query : Query) → SchemaWellFormed schema → WellFormed schema query →
        IsSoundOver schema.relations.entries (views_of schema) (tree_of schema query) }
    ensures wide { (schema : Schema) (query : Query) →
        width (tree_of schema query) ≡ length (output_columns query (map heading (known_of schema))) }
{}

/// Each row of a sound tree's answer is as wide as the tree and has values of the domain: over every domain, under every reading and on
/// every database that meets the schema.
#[tactic(auto, using(crate::proofs::schema::AnswersFit::laws))]
pub fn rows_are_of_their_width()
    ensures { (schema : Schema) (views : List RQuery) (tree : RQuery) (n : ℕ) (reading : Reading) (db : Database) →
        AreSoundViews schema.relations.entries [] views → IsSoundOver schema.relations.entries views tree →
        1 ≤ n → IsOn n reading → Meets schema n db → Each (IsRow n (width tree)) (resolved_answer n reading db views tree) }
{}

/// The literals of trees are those of their queries: trees fit symbols where the queries do.
#[tactic(auto, using(crate::proofs::trees::SymbolLaws::laws))]
pub fn trees_fit_symbols()
    ensures views { (count : ℕ) (schema : Schema) → SchemaFits count schema → Each (TreeFits count) (views_of schema) }
    ensures query { (count : ℕ) (schema : Schema) (query : Query) → QueryFits count query → TreeFits count (tree_of schema query) }
{}

/// The tree of a well-formed query is plain exactly where the query is.
#[tactic(auto, using(crate::proofs::trees::PlainTrees::laws))]
pub fn plain_trees()
    ensures { (schema : Schema) (query : Query) → WellFormed schema query →
        is_plain_tree (tree_of schema query) ≡ is_plain query (known_of schema) }
{}
