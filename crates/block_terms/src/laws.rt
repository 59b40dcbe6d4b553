//! Laws of the terms of blocks, each the contract of a function that does nothing.
ghost use Rattle.std.specs.Prelude.{◌≡◌, ◌≤◌, List, [], Some, true, false};
ghost use Rattle.scope_core.specs.Sound.{IsSoundAlone};
ghost use Rattle.scope_core.specs.Syntax.{RQuery};
ghost use Rattle.scope_core.specs.Width.{width};
ghost use Rattle.sql_to_u.specs.Factors.{names_from};
ghost use Rattle.sql_to_u.specs.Translation.{TermAt, query_term};
ghost use Rattle.shapes.specs.Shapes.{Shape};
ghost use Rattle.block_shapes.specs.Blocks.{query_shape, union_shapes};
ghost use Rattle.term_shapes.specs.TermShape.{HasShape};
ghost use Rattle.term_shapes.specs.BlockTerms.{HaveShapes, IsSquashed};
ghost use Rattle.term_shapes.specs.FewOnes.{HasFewOnes};
ghost use Rattle.block_costs.specs.Costs.{union_nodes};
ghost use Rattle.u_terms.specs.Size.{nodes};

/// The term of a sound filtered block has the block's shape; where the block is under DISTINCT, it is one squash of such a term.
#[tactic(auto, using(crate::proofs::Queries::laws))]
pub fn terms_of_blocks_have_their_shapes()
    ensures bare { (views : List TermAt) (tree : RQuery) (s : Shape) →
        query_shape false tree ≡ Some s → IsSoundAlone tree →
        HasShape (width tree) (query_term views tree [] (names_from 0 (width tree)) (width tree)) s }
    ensures distinct { (views : List TermAt) (tree : RQuery) (s : Shape) →
        query_shape true tree ≡ Some s → IsSoundAlone tree →
        IsSquashed (width tree) (query_term views tree [] (names_from 0 (width tree)) (width tree)) s }
{}

/// The term of a sound filtered union is a sum of terms that have the shapes of its blocks.
#[tactic(auto, using(crate::proofs::Queries::laws))]
pub fn terms_of_unions_have_their_shapes()
    ensures { (views : List TermAt) (tree : RQuery) (shapes : List Shape) →
        union_shapes tree ≡ Some shapes → IsSoundAlone tree →
        HaveShapes (width tree) (query_term views tree [] (names_from 0 (width tree)) (width tree)) shapes }
{}

/// In each block of the term of a filtered union the factor `1` stands only alone. So neither the term nor a block is larger than the shapes say.
pub fn terms_of_unions_have_few_ones()
    ensures few { (views : List TermAt) (tree : RQuery) (shapes : List Shape) →
        union_shapes tree ≡ Some shapes →
        HasFewOnes (query_term views tree [] (names_from 0 (width tree)) (width tree)) }
    ensures nodes { (views : List TermAt) (tree : RQuery) (shapes : List Shape) →
        union_shapes tree ≡ Some shapes → IsSoundAlone tree →
        nodes (query_term views tree [] (names_from 0 (width tree)) (width tree)) ≤ union_nodes shapes }
{}
