//! Laws of the definitions, each the contract of a function that does nothing.
ghost use Rattle.std.specs.Prelude.{◌≡◌, ◌+◌, ◌*◌, ◌++◌, ℕ, List, Bool, filter};
ghost use Rattle.data_model.specs.Numbers.{one_if, squash};
ghost use Rattle.data_model.specs.Rows.{Row, occurrences, distinct};

/// Appending adds multiplicities.
#[tactic(auto, using(crate::proofs::Occurrences::laws))]
pub fn appended_rows()
    ensures { (r : Row) (left right : List Row) → occurrences r (left ++ right) ≡ occurrences r left + occurrences r right }
{}

/// Without repeats, a row occurs once where it occurs at all.
#[tactic(auto, using(crate::proofs::Occurrences::laws))]
pub fn distinct_rows()
    ensures { (r : Row) (rows : List Row) → occurrences r (distinct rows) ≡ squash (occurrences r rows) }
{}

/// A row that a test keeps occurs as often as before, any other not at all.
#[tactic(auto, using(crate::proofs::Occurrences::laws))]
pub fn filtered_rows()
    ensures { (r : Row) (test : Row → Bool) (rows : List Row) → occurrences r (filter test rows) ≡ one_if (test r) * occurrences r rows }
{}
