//! Laws of these costs, each the contract of a function that does nothing.
ghost use Rattle.std.specs.Prelude.{ℕ, List, ◌≤◌, ◌↔◌, IsPermutation};
ghost use Rattle.block_costs.specs.Costs.{Pairs, lefts, rights, union_costs};
ghost use Rattle.shapes.specs.Shapes.{Shape};
ghost use Rattle.shapes.specs.Small.{SmallQuery, most_entries};

/// Between small unions no limit of a proof is passed. The limit on bytes, 1,073,741,824, has room for the first lines and the last one.
pub fn small_unions_cost_little()
    ensures steps { (pairs : Pairs) → SmallQuery most_entries (lefts pairs) → SmallQuery most_entries (rights pairs) → (union_costs pairs).steps ≤ 1000000 }
    ensures nodes { (pairs : Pairs) → SmallQuery most_entries (lefts pairs) → SmallQuery most_entries (rights pairs) → (union_costs pairs).nodes ≤ 200000 }
    ensures depth { (pairs : Pairs) → SmallQuery most_entries (lefts pairs) → SmallQuery most_entries (rights pairs) → (union_costs pairs).depth ≤ 2048 }
    ensures bytes { (pairs : Pairs) → SmallQuery most_entries (lefts pairs) → SmallQuery most_entries (rights pairs) → (union_costs pairs).bytes ≤ 1073000000 }
{}

/// A union is as small with its blocks in any other order.
pub fn sizes_stay_in_another_order()
    ensures { (entries : ℕ) (ss ts : List Shape) → IsPermutation ss ts → SmallQuery entries ss ↔ SmallQuery entries ts }
{}
