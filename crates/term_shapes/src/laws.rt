//! Laws of the definitions, each the contract of a function that does nothing.
ghost use Rattle.std.specs.Prelude.{ℕ, List, ◌≤◌};
ghost use Rattle.block_costs.specs.Costs.{term_depth, term_nodes, union_nodes};
ghost use Rattle.shapes.specs.Shapes.{IsWhole, Shape};
ghost use Rattle.term_shapes.specs.BlockTerms.{HaveShapes};
ghost use Rattle.term_shapes.specs.FewOnes.{HasFewOnes, ones};
ghost use Rattle.term_shapes.specs.TermShape.{HasShape};
ghost use Rattle.u_terms.specs.Size.{depth, nodes};
ghost use Rattle.u_terms.specs.Syntax.{U};

/// The points of a shape that a term has are of its entries, or literals; those of its equalities are columns that the entries have.
#[tactic(auto, using(crate::proofs::WholeShapes::laws))]
pub fn shapes_are_whole()
    ensures { (outs : ℕ) (u : U) (s : Shape) → HasShape outs u s → IsWhole s }
{}

/// A term that has a shape is no larger and no deeper than the shape says, where the factor `1` stands in its product at most once.
pub fn terms_of_shapes_are_small()
    ensures nodes { (outs : ℕ) (u : U) (s : Shape) → HasShape outs u s → ones u ≤ 1 → nodes u ≤ term_nodes s }
    ensures depth { (outs : ℕ) (u : U) (s : Shape) → HasShape outs u s → ones u ≤ 1 → depth u ≤ term_depth s }
{}

/// Nor is a sum of such terms.
pub fn sums_of_shapes_are_small()
    ensures { (outs : ℕ) (u : U) (ss : List Shape) → HaveShapes outs u ss → HasFewOnes u → nodes u ≤ union_nodes ss }
{}
