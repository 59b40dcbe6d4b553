//! Laws of the definitions, each the contract of a function that does nothing.
ghost use Rattle.std.specs.Prelude.{◌≡◌, ◌≢◌, ℕ, List, get_or};
ghost use Rattle.data_model.specs.Database.{Database};
ghost use Rattle.data_model.specs.Reading.{Reading};
ghost use Rattle.u_terms.specs.Meaning.{meaning, put};
ghost use Rattle.u_terms.specs.Places.{IsClosed};
ghost use Rattle.u_terms.specs.Syntax.{U};

/// A closed term means the same whatever the places stand for.
#[tactic(auto, using(crate::proofs::Agreement::laws))]
pub fn closed_terms()
    ensures { (n : ℕ) (reading : Reading) (db : Database) (names : List ℕ) (u : U) (places others : List ℕ) →
        IsClosed 0 u → meaning n reading db names places u ≡ meaning n reading db names others u }
{}

/// A name that is put stands for the value, and every other name for what it stood for.
#[tactic(auto, using(crate::proofs::Agreement::laws))]
pub fn put_names()
    ensures put { (names : List ℕ) (x v : ℕ) → get_or (put names x v) x 0 ≡ v }
    ensures others { (names : List ℕ) (x v y : ℕ) → y ≢ x → get_or (put names x v) y 0 ≡ get_or names y 0 }
{}
