//! Laws of contexts, of steps and of their text, each the contract of a function that does nothing.
ghost use Rattle.std.specs.Prelude.{◌≡◌, ◌↔◌, ◌+◌, ◌≤◌, ◌<◌, ◌++◌, ℕ, List, [], length};
ghost use Rattle.std.specs.List.{flat_map};
ghost use Rattle.data_model.specs.Database.{Database};
ghost use Rattle.data_model.specs.Reading.{Reading};
ghost use Rattle.data_model.specs.Rows.{AllBelow, IsRow};
ghost use Rattle.u_terms.specs.Binding.{closed_path, put_path};
ghost use Rattle.u_terms.specs.Facts.{FactsOk};
ghost use Rattle.u_terms.specs.Meaning.{meaning};
ghost use Rattle.u_terms.specs.Names.{IsFreeBelow};
ghost use Rattle.u_terms.specs.Places.{IsClosed};
ghost use Rattle.u_terms.specs.Size.{depth, nodes};
ghost use Rattle.u_terms.specs.Syntax.{U};
ghost use Rattle.u_terms.specs.declared.facts.Facts.{Facts};
ghost use Rattle.u_rules.specs.Sides.{SameMeaning};
ghost use Rattle.u_rules.specs.Terms.{◌⊗◌};
ghost use Rattle.u_deriv.specs.Contexts.{Context, binders, filled, in_aggregate, in_sum, value_binders, way};
ghost use Rattle.u_deriv.specs.LineBounds.{IsPlain, arguments_nodes};
ghost use Rattle.u_deriv.specs.Normal.{pushed};
ghost use Rattle.u_deriv.specs.Opening.{opened_path};
ghost use Rattle.u_deriv.specs.StepText.{lines_length, run_text, steps_text};
ghost use Rattle.u_deriv.specs.Steps.{Replaced, Replays, Rewrites};
ghost use Rattle.u_deriv.specs.Turns.{turns};
ghost use Rattle.u_deriv.specs.declared.run.Run.{Run};
ghost use Rattle.u_deriv.specs.declared.step.Step.{Step, out-Step};

/// A term has one context at a path, and one subterm.
#[tactic(auto, using(crate::proofs::contexts::OneContext::laws))]
pub fn one_context()
    ensures context { (c d : Context) (s t : U) → way c ≡ way d → filled c s ≡ filled d t → c ≡ d }
    ensures subterm { (c d : Context) (s t : U) → way c ≡ way d → filled c s ≡ filled d t → s ≡ t }
{}

/// A turn into a sum and one into an aggregate's body pass a binder each. What fills a closed term is closed inside the
/// binders on the path.
#[tactic(auto, using(crate::proofs::contexts::Holes::laws))]
pub fn binders_on_a_path()
    ensures sum { (c : Context) → binders (in_sum c) ≡ binders c + 1 }
    ensures aggregate { (number : ℕ) (c : Context) → value_binders (in_aggregate number c) ≡ binders c + 1 }
    ensures closed { (c : Context) (s : U) (k : ℕ) → IsClosed k (filled c s) → IsClosed (k + binders c) s }
{}

/// A context filled with one of two terms means the same as filled with the other, where both mean the same inside the
/// binders on the path, whatever the values of these: under sums and inside the bodies of aggregates too.
#[tactic(auto, using(crate::proofs::contexts::Congruence::laws))]
pub fn contexts()
    ensures places { (n : ℕ) (reading : Reading) (db : Database) (names places : List ℕ) (c : Context) (s t : U) →
        ((inner : List ℕ) → IsRow n (binders c) inner →
        meaning n reading db names (inner ++ places) s ≡ meaning n reading db names (inner ++ places) t) →
        meaning n reading db names places (filled c s) ≡ meaning n reading db names places (filled c t) }
{}

/// The same of closed terms with names for the binders on the path, the outermost first. The names are closed where the
/// terms fill the context.
#[tactic(auto, using(crate::proofs::contexts::Congruence::laws))]
pub fn contexts_by_names()
    ensures path { (n : ℕ) (reading : Reading) (db : Database) (names places : List ℕ) (c : Context) (s t : U) (first : ℕ) →
        IsClosed 0 s → IsClosed 0 t →
        ((values : List ℕ) → IsRow n (binders c) values →
        meaning n reading db (put_path names first values) [] s ≡ meaning n reading db (put_path names first values) [] t) →
        meaning n reading db names places (filled c (closed_path s first (binders c)))
        ≡ meaning n reading db names places (filled c (closed_path t first (binders c))) }
    ensures all { (n : ℕ) (reading : Reading) (db : Database) (names places : List ℕ) (c : Context) (s t : U) (first : ℕ) →
        0 < n → AllBelow n names → IsClosed 0 s → IsClosed 0 t →
        ((others : List ℕ) → AllBelow n others → meaning n reading db others [] s ≡ meaning n reading db others [] t) →
        meaning n reading db names places (filled c (closed_path s first (binders c)))
        ≡ meaning n reading db names places (filled c (closed_path t first (binders c))) }
{}

/// What stands at a path is a closed term, its names for the binders on the path closed, exactly where it is that term after
/// it is opened by these names; and opened it is closed. So `replace` compares the opened part with `from`, and a step the
/// opened part with a side, wherever the whole is closed and has names below `outs` alone.
#[tactic(auto, using(crate::proofs::contexts::Opening::laws))]
pub fn opening_a_path()
    ensures same { (c : Context) (part from : U) (outs : ℕ) → IsFreeBelow outs (filled c part) → IsClosed 0 from →
        (part ≡ closed_path from outs (binders c)) ↔ (opened_path part outs (binders c) ≡ from) }
    ensures closed { (c : Context) (part : U) (outs : ℕ) → IsClosed 0 (filled c part) → IsClosed 0 (opened_path part outs (binders c)) }
    ensures named { (c : Context) (part : U) (outs : ℕ) → IsFreeBelow outs (filled c part) →
        IsFreeBelow (outs + binders c) (opened_path part outs (binders c)) }
{}

/// What is written in the place of a term makes the difference in nodes; and where the term was no deeper than some bound,
/// it stays within it exactly where the new part does, as many nodes further down as its path has turns. At the root the new
/// part is all that there is; a square stays as deep elsewhere, by its other factor, so where it was deeper than the bound
/// nothing but a replacement at its root brings it within.
pub fn sizes_after_a_replacement()
    ensures nodes { (outs : ℕ) (path : List Run) (before from to after : U) → Replaced outs path before from to after →
        nodes after + nodes from ≡ nodes before + nodes to }
    ensures depth { (outs : ℕ) (path : List Run) (before from to after : U) → Replaced outs path before from to after →
        (most : ℕ) → depth before ≤ most → (depth after ≤ most) ↔ (length (turns path) + depth to ≤ most) }
    ensures root { (outs : ℕ) (path : List Run) (before from to after : U) → Replaced outs path before from to after →
        length (turns path) ≡ 0 → depth after ≡ depth to }
    ensures square { (outs : ℕ) (path : List Run) (x from to after : U) → Replaced outs path (x ⊗ x) from to after →
        0 < length (turns path) → depth (x ⊗ x) ≤ depth after }
{}

/// A step keeps what a term means wherever the facts are met, under sums and inside the bodies of aggregates too. So do
/// steps one after the other.
#[tactic(auto, using(crate::proofs::steps::Soundness::laws))]
pub fn steps_keep_the_meaning()
    ensures one { (facts : Facts) → FactsOk facts → (outs : ℕ) (before : U) (step : Step) (after : U) →
        Rewrites facts outs before step after → SameMeaning facts before after }
    ensures all { (facts : Facts) → FactsOk facts → (outs : ℕ) (before : U) (steps : List Step) (after : U) →
        Replays facts outs before steps after → SameMeaning facts before after }
{}

/// A step has at most one result on a term, and so have steps one after the other.
#[tactic(auto, using(crate::proofs::steps::Applied::laws))]
pub fn one_result()
    ensures one { (facts : Facts) (outs : ℕ) (before : U) (step : Step) (after other : U) →
        Rewrites facts outs before step after → Rewrites facts outs before step other → after ≡ other }
    ensures all { (facts : Facts) (outs : ℕ) (before : U) (steps : List Step) (after other : U) →
        Replays facts outs before steps after → Replays facts outs before steps other → after ≡ other }
{}

/// A step keeps that a term is closed, and that its names are below `outs`. So do steps one after the other.
#[tactic(auto, using(crate::proofs::steps::Keeps::laws))]
pub fn steps_keep_terms_closed()
    ensures closed { (facts : Facts) (outs : ℕ) (before : U) (step : Step) (after : U) →
        Rewrites facts outs before step after → IsClosed 0 before → IsClosed 0 after }
    ensures named { (facts : Facts) (outs : ℕ) (before : U) (step : Step) (after : U) →
        Rewrites facts outs before step after → IsFreeBelow outs before → IsFreeBelow outs after }
    ensures all_closed { (facts : Facts) (outs : ℕ) (before : U) (steps : List Step) (after : U) →
        Replays facts outs before steps after → IsClosed 0 before → IsClosed 0 after }
    ensures all_named { (facts : Facts) (outs : ℕ) (before : U) (steps : List Step) (after : U) →
        Replays facts outs before steps after → IsFreeBelow outs before → IsFreeBelow outs after }
{}

/// What a plain step takes stands in its sides, so it has no more nodes than the terms before and after it have together, and no inner steps.
/// The path of any step has no more turns than the term is deep.
#[tactic(auto, using(crate::proofs::steps::Arguments::laws))]
pub fn arguments_stand_in_terms()
    ensures arguments { (facts : Facts) (outs : ℕ) (before after : U) (step : Step) → IsPlain step →
        Rewrites facts outs before step after → arguments_nodes (out-Step step).args ≤ nodes before + nodes after }
    ensures path { (facts : Facts) (outs : ℕ) (before after : U) (step : Step) →
        Rewrites facts outs before step after → length (turns (out-Step step).path) ≤ depth before }
    ensures inner { (facts : Facts) (outs : ℕ) (before after : U) (step : Step) → IsPlain step →
        Rewrites facts outs before step after → (out-Step step).inner ≡ [] }
{}

/// The lines of steps one after the other are those of the first ones and then those of the rest, and as long together.
#[tactic(auto, using(crate::proofs::steps::Lines::laws))]
pub fn lines_of_steps()
    ensures text { (first rest : List Step) → steps_text (first ++ rest) ≡ steps_text first ++ steps_text rest }
    ensures length { (first rest : List Step) → lines_length (first ++ rest) ≡ lines_length first + lines_length rest }
{}

/// With a run more, the text of a path has no more bytes than both had: two runs that become one have no longer a text.
#[tactic(auto, using(crate::proofs::paths::Texts::laws))]
pub fn texts_of_paths()
    ensures { (runs : List Run) (run : Run) → length (flat_map run_text (pushed runs run)) ≤ length (flat_map run_text runs) + length (run_text run) }
{}
