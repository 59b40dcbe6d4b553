//! Laws of derivations, each the contract of a function that does nothing.
ghost use Rattle.std.specs.Prelude.{◌≡◌, ◌+◌, ◌*◌, ◌≤◌, ◌++◌, [], ◌∷◌, List, length};
ghost use Rattle.std.specs.List.{flat_map};
ghost use Rattle.data_model.specs.Lists.{Each};
ghost use Rattle.u_terms.specs.Facts.{FactsOk};
ghost use Rattle.u_terms.specs.Syntax.{U};
ghost use Rattle.u_rules.specs.Sides.{SameMeaning};
ghost use Rattle.u_rules.specs.declared.rule.Arg.{Arg};
ghost use Rattle.u_rules.specs.declared.rule.Rule.{Rule};
ghost use Rattle.u_rules.specs.declared.rule.Rule.TheVariants as rule;
ghost use Rattle.u_deriv.specs.LineBounds.{IsPlain, arguments_nodes, lines_bound};
ghost use Rattle.u_deriv.specs.StepText.{arguments_text, lines_length, rule_text, run_text, term_text};
ghost use Rattle.u_deriv.specs.Steps.{Replays};
ghost use Rattle.u_deriv.specs.Turns.{turns};
ghost use Rattle.u_deriv.specs.declared.run.Run.{Run};
ghost use Rattle.u_deriv.specs.declared.step.Step.{Step};
ghost use Rattle.u_moves.specs.Derivations.{Derivation, HasPlainSteps, IsKnown, IsSound, IsWithin};
ghost use Rattle.u_moves.specs.Lifting.{lifted};
ghost use Rattle.u_moves.specs.Moving.{fix_step, root_step};
ghost use Rattle.u_moves.specs.Turning.{turned_back};

/// The steps of a derivation lead from its first term to its last, and each term that some first of them lead to is within its
/// bounds.
#[tactic(auto, using(crate::proofs::derivations::Showing::replayed))]
pub fn derivations_replay()
    ensures replays { (d : Derivation) → IsSound d → Replays d.facts d.outs d.from d.steps d.to }
    ensures within { (d : Derivation) → IsSound d → (first rest : List Step) (u : U) → d.steps ≡ first ++ rest →
        Replays d.facts d.outs d.from first u → IsWithin d.nodes d.depth u }
{}

/// Both ends of a derivation mean the same wherever the facts are met, and are closed, with names below `outs` alone.
#[tactic(auto, using(crate::proofs::derivations::Showing::kept))]
pub fn derivations_keep_the_meaning()
    ensures same { (d : Derivation) → FactsOk d.facts → IsSound d → SameMeaning d.facts d.from d.to }
    ensures first { (d : Derivation) → IsSound d → IsKnown 0 d.outs d.from }
    ensures last { (d : Derivation) → IsSound d → IsKnown 0 d.outs d.to }
{}

/// Steps turned back or lifted are as many as before. Turned back, their lines are as long. Lifted, no line grows by more than the text of the
/// path, less where two runs become one. Joined, they are as long as both, by `u_deriv`. Their bound adds up where they are joined, stays
/// where they are turned back, and grows in each line by 11 for each turn of the path where they are lifted.
#[tactic(auto, using(crate::proofs::derivations::Lines::laws))]
pub fn counts_and_lines()
    ensures count_back { (xs : List Step) → length (turned_back xs) ≡ length xs }
    ensures count_under { (path : List Run) (xs : List Step) → length (lifted path xs) ≡ length xs }
    ensures length_back { (xs : List Step) → lines_length (turned_back xs) ≡ lines_length xs }
    ensures length_under { (path : List Run) (xs : List Step) → lines_length (lifted path xs) ≤ length xs * length (flat_map run_text path) + lines_length xs }
    ensures bound_then { (xs ys : List Step) → lines_bound (xs ++ ys) ≡ lines_bound xs + lines_bound ys }
    ensures bound_back { (xs : List Step) → lines_bound (turned_back xs) ≡ lines_bound xs }
    ensures bound_under { (path : List Run) (xs : List Step) → lines_bound (lifted path xs) ≡ length xs * (11 * length (turns path)) + lines_bound xs }
{}

/// The line of a move, and those of the one that takes inner steps.
#[tactic(auto, using(crate::proofs::derivations::Lines::one_line))]
pub fn lines_of_moves()
    ensures length { (q : Rule) (args : List Arg) → (q ≡ rule.SqFix → ⊥) →
        lines_length (root_step q args ∷ []) ≡ 5 + length (rule_text q) + length (arguments_text args) }
    ensures bound { (q : Rule) (args : List Arg) → lines_bound (root_step q args ∷ []) ≡ 18 + 14 * arguments_nodes args }
    ensures fix { (square : Derivation) → lines_length (fix_step square ∷ []) ≡ 16 + length (term_text square.to) + lines_length square.steps }
{}

/// Moves are plain but for two rules, and steps stay plain when they are joined, turned back and lifted.
#[tactic(auto, using(crate::proofs::derivations::Lines::plain_steps))]
pub fn plain_steps_stay_plain()
    ensures root { (q : Rule) (args : List Arg) → (q ≡ rule.SqFix → ⊥) → (q ≡ rule.SumUse → ⊥) → IsPlain (root_step q args) }
    ensures then { (xs ys : List Step) → Each IsPlain xs → Each IsPlain ys → Each IsPlain (xs ++ ys) }
    ensures back { (xs : List Step) → Each IsPlain xs → Each IsPlain (turned_back xs) }
    ensures under { (path : List Run) (xs : List Step) → Each IsPlain xs → Each IsPlain (lifted path xs) }
{}

/// The bound of the lines of a derivation whose steps are plain is at most, for each step, 18, 11 for each level of its depth and 28 for each
/// of its nodes. That lines keep their bound is a law of `proof_text`.
#[tactic(auto, using(crate::proofs::derivations::Lines::bounds))]
pub fn plain_derivations_have_short_lines()
    ensures { (d : Derivation) → IsSound d → HasPlainSteps d → lines_bound d.steps ≤ length d.steps * (18 + 11 * d.depth + 28 * d.nodes) }
{}
