//! Laws of normal terms and of sums of blocks, each the contract of a function that does nothing.
ghost use Rattle.std.specs.Prelude.{ℕ, Contains, List, length, ◌≤◌};
ghost use Rattle.data_model.specs.Lists.{Each};
ghost use Rattle.shapes.specs.Shapes.{Shape};
ghost use Rattle.block_costs.specs.Costs.{greatest_nodes, normal_costs, term_depth, term_nodes};
ghost use Rattle.u_terms.specs.Size.{depth, nodes};
ghost use Rattle.u_terms.specs.Syntax.{U};
ghost use Rattle.u_rules.specs.Terms.{add_leaves};
ghost use Rattle.u_deriv.specs.LineBounds.{lines_bound};
ghost use Rattle.u_moves.specs.Derivations.{Derivation, IsSound};
ghost use Rattle.normal_form.specs.NormalTerms.{IsNormal};
ghost use Rattle.term_shapes.specs.BlockTerms.{HaveShapes};
ghost use Rattle.term_shapes.specs.FewOnes.{HasFewOnes, ones};
ghost use Rattle.term_shapes.specs.TermShape.{HasShape};
ghost use Rattle.u_normal.specs.Shaped.{HasSmallBlocks, KeepsSum};

/// In each block of a normal term the factor `1` stands only alone. So a block that has a shape is no larger and no deeper than the shape says.
pub fn normal_terms_have_few_ones()
    ensures whole { (u : U) → IsNormal u → HasFewOnes u }
    ensures blocks { (u : U) → IsNormal u → Each (λ block. ones block ≤ 1) (add_leaves u) }
    ensures sizes { (outs : ℕ) (u block : U) (s : Shape) → IsNormal u → Contains (add_leaves u) block → HasShape outs block s →
        (nodes block ≤ term_nodes s) × (depth block ≤ term_depth s) }
{}

/// No block of a sum that has shapes is larger than the greatest of them says, where the factor `1` stands only alone.
pub fn blocks_of_sums_are_small()
    ensures { (outs : ℕ) (u : U) (ss : List Shape) → HaveShapes outs u ss → HasFewOnes u → HasSmallBlocks (greatest_nodes ss) u }
{}

/// Such a sum becomes normal at no more than the costs by its shapes.
pub fn sums_become_normal_within_costs()
    ensures steps { (outs : ℕ) (ss : List Shape) (d : Derivation) → KeepsSum outs ss d → length d.steps ≤ (normal_costs ss).steps }
    ensures nodes { (outs : ℕ) (ss : List Shape) (d : Derivation) → KeepsSum outs ss d → HaveShapes outs d.from ss → HasFewOnes d.from → d.nodes ≤ (normal_costs ss).nodes }
    ensures depth { (outs : ℕ) (ss : List Shape) (d : Derivation) → KeepsSum outs ss d → HaveShapes outs d.from ss → HasFewOnes d.from → d.depth ≤ (normal_costs ss).depth }
    ensures bytes { (outs : ℕ) (ss : List Shape) (d : Derivation) → KeepsSum outs ss d → HaveShapes outs d.from ss → HasFewOnes d.from → IsSound d →
        lines_bound d.steps ≤ (normal_costs ss).bytes }
{}
