//! Laws of the classes, each the contract of a function that does nothing.
ghost use Rattle.std.specs.Prelude.{◌≡◌, Bool, true, Some};
ghost use Rattle.scope_core.specs.Plain.{is_plain_tree};
ghost use Rattle.scope_core.specs.Sound.{IsSoundAlone};
ghost use Rattle.scope_core.specs.Syntax.{RQuery};
ghost use Rattle.shapes.specs.Shapes.{IsWhole, Shape};
ghost use Rattle.block_shapes.specs.Blocks.{query_shape};
ghost use Rattle.block_shapes.specs.Classes.{Filtered, FilteredUnion, Plain};
ghost use Rattle.block_shapes.specs.Drawn.{IsDrawn};

/// A filtered block is a filtered union of one block.
#[tactic(auto, using(crate::proofs::ClassLaws::laws))]
pub fn filtered_blocks_are_unions()
    ensures { (tree : RQuery) → Filtered tree → FilteredUnion tree }
{}

/// The plain queries are those of one block without marks.
#[tactic(auto, using(crate::proofs::ClassLaws::laws))]
pub fn unmarked_blocks_are_plain()
    ensures unmarked { (tree : RQuery) → Plain tree → is_plain_tree tree ≡ true }
    ensures plain { (tree : RQuery) → is_plain_tree tree ≡ true → IsSoundAlone tree → Plain tree }
{}

/// The points of a sound block are columns that its entries have, and literals.
#[tactic(auto, using(crate::proofs::DrawnShapes::laws))]
pub fn shapes_of_sound_blocks()
    ensures drawn { (is_distinct : Bool) (tree : RQuery) (s : Shape) →
        query_shape is_distinct tree ≡ Some s → IsSoundAlone tree → IsDrawn s }
    ensures whole { (s : Shape) → IsDrawn s → IsWhole s }
{}
