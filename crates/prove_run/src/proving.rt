//! A proof is searched, and written where it is whole.
ghost use Rattle.std.specs.Prelude.{ℕ};
ghost use Rattle.u_moves.specs.Derivations.{IsKnown};
ghost use Rattle.u_prover.specs.Proving.{KeepsLimits};
ghost use Rattle.prove_run.specs.Proving.{IsSearched};

use proof_text::write_proof;
use std::alloc::Global;
use u_moves::Deriv;
use u_prover::{Outcome, prove};
use u_terms::{Facts, U};
use udp_io::Sink;

/// What comes of a search.
#[derive(Clone, Copy, Debug, PartialEq, Eq)]
pub enum Searched {
    /// The text of a proof was written.
    Proved,
    /// No proof within the limits is known, and nothing was written.
    Unknown {
        /// Whether the budget ended a search.
        spent: bool,
    },
    /// The sink failed after a part of a proof.
    WriteFault,
    /// Memory ran out, and nothing was written.
    NoMemory,
}

// Writes the text of the derivation.
fn write_derivation<K: Sink>(deriv: &Deriv<'_>, out: &mut K) -> Searched
    requires { KeepsLimits deriv.now }
    ensures { (budget : ℕ) → IsSearched deriv.now.facts deriv.now.outs deriv.now.from deriv.now.to budget
        (K.written out.old) (K.written out.new) (K.faults out.old) (K.faults out.new) result }
{
    match write_proof(out, deriv.outs(), deriv.steps()) {
        Ok(()) => Searched::Proved,
        Err(_) => Searched::WriteFault,
    }
}

/// Searches a proof that leads from the left term to the right one, and writes its text. Nothing is written before the proof is whole.
pub fn prove_terms<K: Sink>(
    alloc: Global,
    facts: &Facts,
    outs: u32,
    left: &U,
    right: &U,
    budget: u64,
    out: &mut K,
) -> Searched
    requires left { IsKnown 0 outs left.now }
    requires right { IsKnown 0 outs right.now }
    ensures { IsSearched facts.now outs left.now right.now budget
        (K.written out.old) (K.written out.new) (K.faults out.old) (K.faults out.new) result }
{
    match prove(alloc, facts, outs, left, right, budget) {
        Ok(Outcome::Found { deriv }) => write_derivation(&deriv, out),
        Ok(Outcome::Unknown { spent }) => Searched::Unknown { spent },
        Err(_) => Searched::NoMemory,
    }
}
