//! Laws of the definitions, each the contract of a function that does nothing.
ghost use Rattle.std.specs.Prelude.{ℕ};
ghost use Rattle.shapes.specs.Shapes.{IsWhole, Shape};
ghost use Rattle.shapes.specs.Tried.{search_alike};
ghost use Rattle.bag_search.specs.Answers.{Matches, Says};
ghost use Rattle.bag_search.specs.declared.search.Match.{Match};

/// What a search with a budget comes to says whether the shapes are alike.
#[tactic(auto, using(crate::proofs::Saying::laws))]
pub fn the_search_says()
    ensures { (s t : Shape) (budget : ℕ) (found : Match) → IsWhole s → IsWhole t →
        Matches (search_alike s t) budget found → Says s t budget found }
{}
