//! Laws of the limits of a proof, each the contract of a function that does nothing.
ghost use Rattle.std.specs.Prelude.{◌+◌, ◌≤◌, length};
ghost use Rattle.proof_check.specs.Limits.{IsWithin, most_steps};
ghost use Rattle.u_deriv.specs.LineBounds.{lines_bound};
ghost use Rattle.u_moves.specs.Derivations.{Derivation, HasPlainSteps, IsSound};
ghost use Rattle.u_prover.specs.Proving.{PassesOne, most_proof_bytes};

/// What a plain step takes, and its sides, stand in the terms before and after it. So a derivation of plain steps passes no limit where their
/// number, what is stated of its terms, and the bound of its lines with the first two lines and the last one do not.
pub fn plain_derivations_keep_the_limits()
    ensures { (d : Derivation) → IsSound d → HasPlainSteps d → length d.steps ≤ most_steps → IsWithin d.nodes d.depth →
        lines_bound d.steps + 32 ≤ most_proof_bytes → PassesOne d → ⊥ }
{}
