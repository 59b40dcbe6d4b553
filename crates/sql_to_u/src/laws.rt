//! Laws of the definitions, each the contract of a function that does nothing.
ghost use Rattle.std.specs.Prelude.{◌≡◌, ◌≤◌, ℕ, List, [], length};
ghost use Rattle.data_model.specs.Rows.{Row, occurrences};
ghost use Rattle.data_model.specs.Reading.{Reading, IsOn};
ghost use Rattle.data_model.specs.Database.{Database};
ghost use Rattle.sql_model.specs.declared.schema.Schema.{Schema};
ghost use Rattle.sql_model.specs.Syntax.{Query};
ghost use Rattle.sql_model.specs.Meets.{Meets};
ghost use Rattle.sql_model.specs.Relations.{answer};
ghost use Rattle.u_terms.specs.Names.{IsFreeBelow};
ghost use Rattle.u_terms.specs.Places.{IsClosed};
ghost use Rattle.u_terms.specs.Meaning.{meaning};
ghost use Rattle.scope_core.specs.Syntax.{RQuery};
ghost use Rattle.scope_core.specs.Evaluation.{answer as resolved_answer};
ghost use Rattle.scope_core.specs.Fitting.{AreSoundViews, DoViewsFit, FitsViews, IsSoundOver};
ghost use Rattle.scope_core.specs.ViewTrees.{tree_of, views_of};
ghost use Rattle.scope_core.specs.WellFormed.{SchemaWellFormed, WellFormed};
ghost use Rattle.scope_core.specs.Width.{width};
ghost use Rattle.sql_to_u.specs.Answer.{translation};
ghost use Rattle.sql_to_u.specs.Sizes.{term_size, translation_size};

/// The term of a tree, at a row, is how often the row occurs in the tree's answer: over every domain, under every reading and on every
/// database that meets the schema, where the tree and the views are sound and fit the schema.
#[tactic(auto, using(crate::proofs::queries::Whole::laws))]
pub fn terms_count_the_rows()
    ensures tree { (schema : Schema) (views : List RQuery) (tree : RQuery) (n : ℕ) (reading : Reading) (db : Database) (r : Row) →
        AreSoundViews schema.relations.entries [] views → IsSoundOver schema.relations.entries views tree →
        1 ≤ n → IsOn n reading → Meets schema n db → length r ≡ width tree →
        meaning n reading db r [] (translation views tree) ≡ occurrences r (resolved_answer n reading db views tree) }
    ensures query { (schema : Schema) (query : Query) (n : ℕ) (reading : Reading) (db : Database) (r : Row) →
        SchemaWellFormed schema → WellFormed schema query → 1 ≤ n → IsOn n reading → Meets schema n db → length r ≡ width (tree_of schema query) →
        meaning n reading db r [] (translation (views_of schema) (tree_of schema query)) ≡ occurrences r (answer schema n reading db query) }
{}

/// Nothing dangles in the term of a tree.
#[tactic(auto, using(crate::proofs::queries::Whole::laws))]
pub fn terms_are_closed()
    ensures { (views : List RQuery) (tree : RQuery) → IsClosed 0 (translation views tree) }
{}

/// The size that is reckoned from a tree and the trees of the views, where they fit, is that of the term: of well-formed queries too.
#[tactic(auto, using(crate::proofs::queries::WholeSizes::laws, crate::proofs::queries::QueryLaws::laws))]
pub fn sizes_are_those_of_terms()
    ensures tree { (views : List RQuery) (tree : RQuery) →
        DoViewsFit [] views → FitsViews views tree → term_size (translation views tree) ≡ translation_size views tree }
    ensures query { (schema : Schema) (query : Query) → SchemaWellFormed schema → WellFormed schema query →
        term_size (translation (views_of schema) (tree_of schema query)) ≡ translation_size (views_of schema) (tree_of schema query) }
{}

/// The free names of a tree's term are those of its columns: of a well-formed query's too.
#[tactic(auto, using(crate::proofs::names::FreeNames::laws, crate::proofs::queries::QueryLaws::laws))]
pub fn terms_are_free_below_their_width()
    ensures tree { (views : List RQuery) (tree : RQuery) →
        DoViewsFit [] views → FitsViews views tree → IsFreeBelow (width tree) (translation views tree) }
    ensures query { (schema : Schema) (query : Query) → SchemaWellFormed schema → WellFormed schema query →
        IsFreeBelow (width (tree_of schema query)) (translation (views_of schema) (tree_of schema query)) }
{}
