//! Laws of the definitions, each the contract of a function that does nothing.
ghost use Rattle.std.specs.Prelude.{ℕ, List, ◌∷◌, ◌≡◌, ◌≤◌, ◌↔◌, true, length};
ghost use Rattle.shapes.specs.Shapes.{IsShape, IsWhole, Point, Shape};
ghost use Rattle.shapes.specs.Alike.{Alike, Equal};
ghost use Rattle.shapes.specs.Search.{ended, went_on};
ghost use Rattle.shapes.specs.Tests.{equal};
ghost use Rattle.shapes.specs.Unions.{AllAlike, AreShapes, TakenOut};
ghost use Rattle.shapes.specs.Tried.{IsPairing, search_alike, tried, tries};

/// The test of two points is the least equivalence that holds the equalities.
#[tactic(auto, using(crate::proofs::AlikeLaws::laws))]
pub fn equal_points()
    ensures { (s : Shape) (p q : Point) → (equal s p q ≡ true) ↔ Equal s p q }
{}

/// Being alike is an equivalence.
#[tactic(auto, using(crate::proofs::AlikeLaws::laws))]
pub fn alike_is_an_equivalence()
    ensures itself { (s : Shape) → Alike s s }
    ensures back { (s t : Shape) → IsShape s → IsShape t → Alike s t → Alike t s }
    ensures through { (s t r : Shape) → IsShape s → IsShape t → IsShape r → Alike s t → Alike t r → Alike s r }
{}

/// Where the search ends it has a pairing, and where it goes through all there is none.
#[tactic(auto, using(crate::proofs::AlikeLaws::laws))]
pub fn the_search_decides()
    ensures found { (s t : Shape) → IsWhole s → IsWhole t → (l : List ℕ) (count : ℕ) → search_alike s t ≡ ended l count → IsPairing s t l }
    ensures nothing { (s t : Shape) → IsWhole s → IsWhole t → (count : ℕ) → search_alike s t ≡ went_on count → Alike s t → ⊥ }
{}

/// It tries no more lists than there are.
#[tactic(auto, using(crate::proofs::AlikeLaws::laws))]
pub fn tried_at_most()
    ensures { (s t : Shape) → tried s t ≤ tries (length s.entries) }
{}

/// Where the blocks of two unions can be paired, the first block may be paired with any that is alike: the others can be paired still.
pub fn blocks_are_paired_in_turn()
    ensures { (s t : Shape) (ss ts rest : List Shape) → IsShape s → AreShapes ss → AreShapes ts →
        TakenOut t ts rest → Alike s t → AllAlike (s ∷ ss) ts → AllAlike ss rest }
{}
