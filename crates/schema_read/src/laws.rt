//! Laws of the definitions, each the contract of a function that does nothing.
ghost use Rattle.std.specs.Prelude.{◌≡◌, ◌↔◌, ℕ, List, map};
ghost use Rattle.data_model.specs.Database.{Database};
ghost use Rattle.data_model.specs.Lists.{Each};
ghost use Rattle.data_model.specs.Numbers.{list_below};
ghost use Rattle.sql_model.specs.declared.schema.Schema.{Schema};
ghost use Rattle.sql_model.specs.declared.statement.Statement.{Statement};
ghost use Rattle.sql_model.specs.Meets.{Meets, base_tables};
ghost use Rattle.u_terms.specs.declared.facts.Facts.{Facts};
ghost use Rattle.u_terms.specs.Facts.{FactsOk, MeetsFacts};
ghost use Rattle.schema_read.specs.Builds.{Builds};
ghost use Rattle.schema_read.specs.Declarations.{count_tables};
ghost use Rattle.schema_read.specs.Fits.{KeysFit, PrimaryFits, FkeyFits};
ghost use Rattle.schema_read.specs.SchemaFacts.{AreFactsOf};

/// Statements build one schema at most.
pub fn one_schema()
    ensures relations { (statements : List Statement) (one other : Schema) →
        Builds statements one → Builds statements other → one.relations.entries ≡ other.relations.entries }

    ensures fkeys { (statements : List Statement) (one other : Schema) →
        Builds statements one → Builds statements other → one.fkeys ≡ other.fkeys }
{}

/// The base tables of a schema are numbered from 0 in order of declaration.
pub fn tables_are_numbered_in_order()
    ensures { (statements : List Statement) (schema : Schema) → Builds statements schema →
        map (λ table. table.number) (base_tables schema) ≡ list_below (count_tables statements) (λ k. k) }
{}

/// The columns of each key are columns of its table, and the place of a primary key is the place of a key.
pub fn keys_fit_their_tables()
    ensures columns { (statements : List Statement) (schema : Schema) → Builds statements schema → Each KeysFit (base_tables schema) }
    ensures primary { (statements : List Statement) (schema : Schema) → Builds statements schema → Each PrimaryFits (base_tables schema) }
{}

/// Each foreign key pairs columns of one table with as many columns of another, or the same, which are a key of it as a set.
pub fn foreign_keys_fit_their_tables()
    ensures { (statements : List Statement) (schema : Schema) → Builds statements schema →
        Each (FkeyFits (base_tables schema)) schema.fkeys }
{}

/// The facts of a schema fit together, and the databases that meet them are those that meet the schema.
pub fn facts_of_a_schema()
    ensures fit { (statements : List Statement) (schema : Schema) → Builds statements schema → (facts : Facts) → AreFactsOf schema facts → FactsOk facts }
    ensures databases { (statements : List Statement) (schema : Schema) → Builds statements schema → (facts : Facts) → AreFactsOf schema facts →
        (n : ℕ) (db : Database) → Meets schema n db ↔ MeetsFacts facts n db }
{}
