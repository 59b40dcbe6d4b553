//! What a search for a derivation comes to for filtered unions, each law the contract of a function that does nothing.
ghost use Rattle.std.specs.Prelude.{◌≡◌, ◌≤◌, ℕ, Bool, false, List};
ghost use Rattle.alike_unions.specs.Unknown.{IsUnknownOf};
ghost use Rattle.block_shapes.specs.Classes.{Alike, FilteredUnion, Small};
ghost use Rattle.scope_core.specs.Sound.{IsSoundAlone};
ghost use Rattle.scope_core.specs.Syntax.{RQuery};
ghost use Rattle.scope_core.specs.Width.{width};
ghost use Rattle.shapes.specs.Small.{most_entries};
ghost use Rattle.shapes.specs.Tried.{tries};
ghost use Rattle.sql_to_u.specs.Answer.{translation};
ghost use Rattle.u_prover.specs.Proving.{AreAlikeSums, HaveFewColumns, IsEnough, IsUnknown, PassesLimits};
ghost use Rattle.u_terms.specs.declared.facts.Facts.{Facts};

/// The terms of two sound filtered unions that are alike are sums of blocks that are alike. So with a budget for all lists of a block's entries a
/// derivation from the one to the other is found, and only the limits of a proof can be passed by it.
pub fn alike_unions_are_found()
    ensures terms { (views : List RQuery) (left right : RQuery) (h : Alike left right) → IsSoundAlone left → IsSoundAlone right → width left ≡ width right →
        HaveFewColumns h.of_left.shapes → AreAlikeSums (width left) (translation views left) (translation views right) }
    ensures limits { (views : List RQuery) (left right : RQuery) (h : Alike left right) → IsSoundAlone left → IsSoundAlone right → width left ≡ width right →
        HaveFewColumns h.of_left.shapes → (budget : ℕ) → IsEnough h.of_left.shapes budget →
        (F : Facts) (spent : Bool) → IsUnknown F (width left) (translation views left) (translation views right) budget spent →
        (spent ≡ false) × PassesLimits F (width left) (translation views left) (translation views right) }
{}

/// Small unions have few columns, at most nine entries a block, and no derivation between their normal forms that passes a limit. So with a budget
/// for all lists of the entries of each left block one is always found, or memory runs out. 986,409 is a budget for nine entries.
pub fn small_alike_unions_are_found()
    ensures enough { (views : List RQuery) (left right : RQuery) (h : Alike left right) → Small left right → IsSoundAlone left → IsSoundAlone right →
        width left ≡ width right → (budget : ℕ) → IsEnough h.of_left.shapes budget →
        (F : Facts) (spent : Bool) → IsUnknown F (width left) (translation views left) (translation views right) budget spent → ⊥ }
    ensures most { (views : List RQuery) (left right : RQuery) → Alike left right → Small left right → IsSoundAlone left → IsSoundAlone right →
        width left ≡ width right → (budget : ℕ) → tries most_entries ≤ budget →
        (F : Facts) (spent : Bool) → IsUnknown F (width left) (translation views left) (translation views right) budget spent → ⊥ }
{}

/// Of any two sound filtered unions of one width that the budget is spent is said only where a search passes it, and of small ones that are alike
/// nothing else is said, whatever the budget.
pub fn unions_are_unknown_for_a_cause()
    ensures { (views : List RQuery) (left right : RQuery) (a : FilteredUnion left) (b : FilteredUnion right) → IsSoundAlone left → IsSoundAlone right →
        width left ≡ width right → (budget : ℕ) (F : Facts) (spent : Bool) →
        IsUnknown F (width left) (translation views left) (translation views right) budget spent → IsUnknownOf a.shapes b.shapes budget spent }
{}
