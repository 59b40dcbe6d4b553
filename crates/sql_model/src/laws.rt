//! Laws of the definitions, each the contract of a function that does nothing.
ghost use Rattle.std.specs.Prelude.{◌≡◌, [], ◌++◌, ℕ, Some};
ghost use Rattle.data_model.specs.Reading.{Reading};
ghost use Rattle.data_model.specs.Database.{Database, table_rows};
ghost use Rattle.sql_model.specs.declared.schema.Schema.{Schema};
ghost use Rattle.sql_model.specs.declared.schema.Table.{Table};
ghost use Rattle.sql_model.specs.declared.schema.Relation.TheVariants as relation;
ghost use Rattle.sql_model.specs.declared.tree.Query.TheVariants as query;
ghost use Rattle.sql_model.specs.Syntax.{Name, Query, UnionAll};
ghost use Rattle.sql_model.specs.Frames.{Environment};
ghost use Rattle.sql_model.specs.World.{World, named_rows};
ghost use Rattle.sql_model.specs.Meaning.{rows};
ghost use Rattle.sql_model.specs.Relations.{relation_named, answer};
ghost use Rattle.sql_model.specs.Meets.{Meets};
ghost use Rattle.sql_model.specs.Equivalent.{Equivalent};
ghost use Rattle.sql_model.specs.SelectStar.{select_star as star_query};

/// `p UNION ALL q` has the rows of `p` and then those of `q`.
#[tactic(auto, using(crate::proofs::SetOperators::laws))]
pub fn union_all()
    ensures { (p q : Query) (at : ℕ) (w : World) (env : Environment) →
        rows (query.Set UnionAll p q at) w env ≡ rows p w env ++ rows q w env }
{}

/// `SELECT * FROM name` has the rows of the relation of this name, in any block; by itself it answers the rows of a base table.
#[tactic(auto, using(crate::proofs::SelectStar::laws))]
pub fn select_star()
    ensures rows { (name alias : Name) (star_at name_at at : ℕ) (w : World) (env : Environment) →
        rows (star_query name alias star_at name_at at) w env ≡ named_rows name w }

    ensures answer { (schema : Schema) (n : ℕ) (reading : Reading) (db : Database) →
        (name alias : Name) (star_at name_at at : ℕ) (table : Table) →
        relation_named name schema.relations.entries ≡ Some (relation.Table table) →
        answer schema n reading db (star_query name alias star_at name_at at) ≡ table_rows db table.number }
{}

/// The database without rows meets every schema, so no claim about all that meet it is empty.
#[tactic(auto, using(crate::proofs::Meets::laws))]
pub fn no_rows_meet_a_schema()
    ensures { (schema : Schema) (n : ℕ) → Meets schema n [] }
{}

/// Equivalence of queries is an equivalence.
#[tactic(auto, using(crate::proofs::Equivalence::laws))]
pub fn equivalent_is_an_equivalence()
    ensures reflexive { (schema : Schema) (q : Query) → Equivalent schema q q }
    ensures symmetric { (schema : Schema) (p q : Query) → Equivalent schema p q → Equivalent schema q p }
    ensures transitive { (schema : Schema) (p q t : Query) →
        Equivalent schema p q → Equivalent schema q t → Equivalent schema p t }
{}
