//! What holds of checks of proofs, each the contract of a function that does nothing.
ghost use Rattle.std.specs.Prelude.{◌≡◌, ◌↔◌, ◌<◌, ◌^◌, List, ℕ, Result, Ok, Err};
ghost use Rattle.u_deriv.specs.Steps.{Replays};
ghost use Rattle.u_deriv.specs.declared.step.Step.{Step as TheStep};
ghost use Rattle.u_rules.specs.Sides.{SameMeaning};
ghost use Rattle.u_terms.specs.Facts.{FactsOk};
ghost use Rattle.u_terms.specs.Syntax.{U};
ghost use Rattle.u_terms.specs.declared.facts.Facts.{Facts};
ghost use Rattle.proof_text.specs.Written.{ProofText};
ghost use Rattle.proof_check.specs.Accepted.{Accepted};
ghost use Rattle.proof_check.specs.Checking.{Shows};
ghost use Rattle.proof_check.specs.declared.answers.ProofFault.{ProofFault as TheFault};
ghost use Rattle.proof_check.specs.declared.answers.ProofFault.TheVariants.{NoMemory as no_memory};
ghost use Rattle.proof_check.specs.declared.answers.Verdict.{Verdict as TheVerdict};
ghost use Rattle.proof_check.specs.declared.answers.Verdict.TheVariants.{Proved as proved};

/// Bytes are shown to be a proof exactly where they are the text of steps that lead from the one term to the other and pass no limit.
pub fn a_proof_is_accepted_exactly()
    ensures { (facts : Facts) (outs : ℕ) (left right : U) (bytes : List ℕ) → outs < 2 ^ 32 →
        Shows facts outs left right bytes (Ok proved) ↔ Accepted facts outs left right bytes }
{}

/// Bytes show one thing of two terms, but for want of memory.
pub fn one_answer()
    ensures { (facts : Facts) (outs : ℕ) (left right : U) (bytes : List ℕ) (one other : Result TheVerdict TheFault) →
        (one ≡ Err no_memory → ⊥) → (other ≡ Err no_memory → ⊥) →
        Shows facts outs left right bytes one → Shows facts outs left right bytes other → one ≡ other }
{}

/// The steps of an accepted proof lead from the one term to the other, each by its rule.
pub fn accepted_proofs_replay()
    ensures { (facts : Facts) (outs : ℕ) (left right : U) (bytes : List ℕ) → Accepted facts outs left right bytes →
        (steps : List TheStep) × ProofText bytes outs steps × Replays facts outs left steps right }
{}

/// The terms of an accepted proof mean the same wherever the facts are met.
pub fn accepted_proofs_keep_the_meaning()
    ensures { (facts : Facts) (outs : ℕ) (left right : U) (bytes : List ℕ) → Accepted facts outs left right bytes → FactsOk facts →
        SameMeaning facts left right }
{}
