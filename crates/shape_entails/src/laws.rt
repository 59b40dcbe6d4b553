//! Laws of products that have shapes, each the contract of a function that does nothing.
ghost use Rattle.std.specs.Prelude.{◌≡◌, ◌+◌, ◌<◌, ◌≤◌, ℕ, List, [], ◌∷◌, Some, get_or, length, reverse, slice_get, IsPermutation};
ghost use Rattle.std.specs.List.{remove};
ghost use Rattle.shapes.specs.Alike.{Equal, Pairing};
ghost use Rattle.shapes.specs.Small.{columns_of};
ghost use Rattle.shapes.specs.Shapes.{IsPoint, Point, Shape, column, entry_of};
ghost use Rattle.term_shapes.specs.Factors.{sum_count, under_sums};
ghost use Rattle.term_shapes.specs.TermShape.{Atoms, HasShape, value_point};
ghost use Rattle.u_binder.specs.Changes.{exchanged};
ghost use Rattle.u_rules.specs.Terms.{S};
ghost use Rattle.u_terms.specs.Binding.{mapped, mapped_value, opened, same_name, sums};
ghost use Rattle.u_terms.specs.Size.{depth};
ghost use Rattle.u_terms.specs.Syntax.{U, Val};
ghost use Rattle.u_terms.specs.declared.term.Val.TheVariants as v;
ghost use Rattle.u_equal.specs.Entails.{Entails};
ghost use Rattle.u_equal.specs.Standing.{IsIn};
ghost use Rattle.shape_entails.specs.Values.{atoms, point_value, rows};
ghost use Rattle.shape_entails.specs.ProductOf.{IsProductOf, atom_of};
ghost use Rattle.shape_entails.specs.Places.{ArePlaces, HasAtoms, IsAround};
ghost use Rattle.shape_entails.specs.Matched.{AreApart, EntailsFactor, SameValues, SayTheSame};
ghost use Rattle.shape_entails.specs.Turning.{AreAllPlaces, AreFound, AreSources, AreTurning, AreTurns, IsTurned, source};

/// The product under the sums of a term that has a shape is one of that shape; its summed places are those of the shape's columns, and a
/// value in it that has a point is the point's value.
#[tactic(auto, using(crate::proofs::Shaped::laws))]
pub fn terms_that_have_shapes()
    ensures product { (outs : ℕ) (u : U) (s : Shape) → HasShape outs u s → IsProductOf s (under_sums u) }
    ensures places { (outs : ℕ) (u : U) (s : Shape) → HasShape outs u s → ArePlaces s (sum_count u) (under_sums u) }
    ensures values { (outs : ℕ) (u : U) (s : Shape) (a : Atoms) → HasShape outs u s → HasAtoms u a →
        (x : Val) (p : Point) → value_point a.points x ≡ Some p → point_value (under_sums u) p ≡ x }
{}

/// Each entry has its atom, and the values of its columns are the atom's.
#[tactic(auto, using(crate::proofs::Shaped::laws))]
pub fn atoms_of_entries()
    ensures there { (s : Shape) (product : U) → IsProductOf s product → (e : ℕ) → e < length s.entries →
        slice_get (atoms product) e ≡ Some (atom_of s product e) }
    ensures long { (s : Shape) (product : U) → IsProductOf s product → (e : ℕ) → e < length s.entries →
        length (get_or (rows product) e []) ≡ (entry_of s.entries e).columns }
{}

/// A product keeps its shape where other values are put at its places, and the values of its points are those.
#[tactic(auto, using(crate::proofs::Putting::laws))]
pub fn values_may_be_put()
    ensures product { (at_place : ℕ → ℕ → Val) (k : ℕ) (s : Shape) (product : U) → IsProductOf s product →
        IsProductOf s (mapped at_place same_name k product) }
    ensures values { (at_place : ℕ → ℕ → Val) (k : ℕ) (product : U) (p : Point) →
        point_value (mapped at_place same_name k product) p ≡ mapped_value at_place same_name k (point_value product p) }
{}

/// So does a product under sums, as where the outermost is opened or sums are exchanged.
#[tactic(auto, using(crate::proofs::Putting::laws))]
pub fn values_may_be_put_under_sums()
    ensures product { (at_place : ℕ → ℕ → Val) (k : ℕ) (s : Shape) (u : U) → IsProductOf s (under_sums u) →
        IsProductOf s (under_sums (mapped at_place same_name k u)) }
    ensures values { (at_place : ℕ → ℕ → Val) (k : ℕ) (u : U) (p : Point) →
        point_value (under_sums (mapped at_place same_name k u)) p ≡ mapped_value at_place same_name (k + sum_count u) (point_value (under_sums u) p) }
    ensures count { (at_place : ℕ → ℕ → Val) (k : ℕ) (u : U) → sum_count (mapped at_place same_name k u) ≡ sum_count u }
{}

/// Sums around a term add to its sums, and under them stands what stood under its own. A term has fewer sums than it is deep.
#[tactic(auto, using(crate::proofs::Putting::laws))]
pub fn sums_around_a_term()
    ensures under { (n : ℕ) (u : U) → under_sums (sums n u) ≡ under_sums u }
    ensures count { (n : ℕ) (u : U) → sum_count (sums n u) ≡ n + sum_count u }
    ensures none { (u : U) → sum_count u ≡ 0 → under_sums u ≡ u }
    ensures inside { (n : ℕ) (u : U) → n ≤ sum_count u → IsAround n u }
    ensures shallow { (u : U) → sum_count u < depth u }
{}

/// A product entails that points which its shape holds to be equal have equal values, and that each output has its point's value.
#[tactic(auto, using(crate::proofs::Matching::laws))]
pub fn shapes_are_entailed()
    ensures equal { (s : Shape) (product : U) → IsProductOf s product → (p q : Point) → Equal s p q →
        Entails product (point_value product p) (point_value product q) }
    ensures output { (s : Shape) (product : U) → IsProductOf s product → (k : ℕ) (p : Point) → slice_get s.outputs k ≡ Some p →
        Entails product (v.Free k) (point_value product p) }
    ensures turned_output { (s : Shape) (product : U) → IsProductOf s product → (k : ℕ) (p : Point) → slice_get s.outputs k ≡ Some p →
        Entails product (point_value product p) (v.Free k) }
{}

/// Products of shapes that are paired say the same, where each point has the value of its image.
pub fn paired_products_say_the_same()
    ensures { (s t : Shape) (forth back : ℕ → ℕ) → Pairing s t forth back → (left right : U) → IsProductOf s left → IsProductOf t right →
        SameValues s forth left right → SayTheSame left right }
{}

/// Where two products say the same, each entails what the other one has beside their common factors.
pub fn each_entails_what_the_other_has_beside()
    ensures right { (left right : U) (common only_left only_right : List U) → AreApart left right common only_left only_right → SayTheSame left right →
        (factor : U) → IsIn factor only_right → EntailsFactor left factor }
    ensures left { (left right : U) (common only_left only_right : List U) → AreApart left right common only_left only_right → SayTheSame left right →
        (factor : U) → IsIn factor only_left → EntailsFactor right factor }
{}

/// A term that has a shape has as many sums as the shape's entries have columns.
#[tactic(auto, using(term_shapes::proofs::Columns::laws))]
pub fn sums_are_columns()
    ensures { (outs : ℕ) (u : U) (s : Shape) → HasShape outs u s → sum_count u ≡ columns_of s.entries }
{}

/// Terms of paired shapes have as many sums, and turns that bring each place of the left one to that of the right one which its column goes
/// to bring its sums into the right one's order.
pub fn turns_begin()
    ensures as_many { (s t : Shape) (forth back : ℕ → ℕ) → Pairing s t forth back → (n m : ℕ) (left right : U) → ArePlaces s n left → ArePlaces t m right → n ≡ m }
    ensures turning { (s t : Shape) (forth back : ℕ → ℕ) → Pairing s t forth back → (left right : U) →
        ArePlaces s (sum_count left) (under_sums left) → ArePlaces t (sum_count right) (under_sums right) →
        (turns : List ℕ) → AreTurns turns → sum_count left ≡ length turns →
        ((e c i j : ℕ) → IsPoint s.entries (column e c) → point_value (under_sums left) (column e c) ≡ v.Bound i →
        point_value (under_sums right) (column (forth e) c) ≡ v.Bound j → i ≡ source turns j) →
        IsTurned s forth turns left right }
{}

/// Where all places wait, and each turn is where the next source stands among those that still do, the turns bring the sums into one order.
/// Each place is the source of one.
pub fn turns_are_found()
    ensures turning { (s t : Shape) (forth back : ℕ → ℕ) → Pairing s t forth back → (left right : U) →
        ArePlaces s (sum_count left) (under_sums left) → ArePlaces t (sum_count right) (under_sums right) →
        (sources : List ℕ) → AreSources s forth sources left right →
        (waiting turns : List ℕ) → AreAllPlaces (sum_count left) waiting → length turns ≡ sum_count left → AreFound waiting (reverse sources) turns →
        IsTurned s forth turns left right }
    ensures sources { (s t : Shape) (forth back : ℕ → ℕ) → Pairing s t forth back → (left right : U) →
        ArePlaces s (sum_count left) (under_sums left) → ArePlaces t (sum_count right) (under_sums right) →
        (sources : List ℕ) → AreSources s forth sources left right →
        (places : List ℕ) → AreAllPlaces (sum_count left) places → IsPermutation places (reverse sources) }
{}

/// Where the places that wait are those that are wanted, the next one that is wanted waits, and so do the others once it does no more.
pub fn wanted_places_wait()
    ensures next { (waiting wanted : List ℕ) (place : ℕ) → IsPermutation waiting (place ∷ wanted) → IsIn place waiting }
    ensures others { (waiting wanted : List ℕ) (place turn : ℕ) → IsPermutation waiting (place ∷ wanted) → slice_get waiting turn ≡ Some place →
        IsPermutation (remove waiting turn) wanted }
{}

/// At each turn the sum that is so many sums inside goes outermost, if it is not, and both outermost sums are opened with one name. When no
/// turn is left each column has the value of its image.
pub fn turns_go_on()
    ensures still { (s : Shape) (forth : ℕ → ℕ) (turns : List ℕ) (f g : U) (name : ℕ) → IsTurned s forth (0 ∷ turns) (S f) (S g) →
        IsTurned s forth turns (opened f name) (opened g name) }
    ensures turned { (s : Shape) (forth : ℕ → ℕ) (turn : ℕ) (turns : List ℕ) (body g : U) (name : ℕ) → IsTurned s forth (turn ∷ turns) (S (sums turn body)) (S g) →
        IsTurned s forth turns (opened (sums turn (exchanged turn 1 body)) name) (opened g name) }
    ensures all { (s : Shape) (forth : ℕ → ℕ) (left right : U) → IsTurned s forth [] left right → SameValues s forth (under_sums left) (under_sums right) }
{}

/// Two terms whose shapes are paired, turn by turn: the sum that is so many sums inside the outermost goes outermost, if it is not, and both
/// outermost sums are opened by one name. At the end their products say the same.
pub fn terms_of_paired_shapes_meet()
    ensures begin { (outs : ℕ) (left right : U) (s t : Shape) (forth back : ℕ → ℕ) → HasShape outs left s → HasShape outs right t → Pairing s t forth back →
        (sources : List ℕ) → AreSources s forth sources left right →
        (waiting turns : List ℕ) → AreAllPlaces (sum_count left) waiting → length turns ≡ sum_count left → AreFound waiting (reverse sources) turns →
        AreTurning s t forth back turns left right }
    ensures still { (s t : Shape) (forth back : ℕ → ℕ) (turns : List ℕ) (f g : U) (name : ℕ) → AreTurning s t forth back (0 ∷ turns) (S f) (S g) →
        AreTurning s t forth back turns (opened f name) (opened g name) }
    ensures turned { (s t : Shape) (forth back : ℕ → ℕ) (turn : ℕ) (turns : List ℕ) (body g : U) (name : ℕ) →
        AreTurning s t forth back (turn ∷ turns) (S (sums turn body)) (S g) →
        AreTurning s t forth back turns (opened (sums turn (exchanged turn 1 body)) name) (opened g name) }
    ensures end { (s t : Shape) (forth back : ℕ → ℕ) (left right : U) → AreTurning s t forth back [] left right → SayTheSame left right }
{}
