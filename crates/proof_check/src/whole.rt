//! Proofs as a whole.
ghost use Rattle.std.specs.Prelude.{◌≡◌, ◌≤◌, []};
ghost use Rattle.u_terms.specs.Syntax.{U as TheU};
ghost use Rattle.proof_check.specs.Check.{IsNext, Reads};
ghost use Rattle.proof_check.specs.Checking.{Shows, Stands};
ghost use Rattle.proof_check.specs.Limits.{IsSmall};

use crate::answers::{ProofFault, Verdict};
use crate::checker::Checker;
use proof_text::Lines;
use std::alloc::Global;
use u_terms::{Facts, U};

/// What a proof shows of two terms with names below the width of the queries. Its first line that is none, that passes a limit
/// or whose step has no result decides.
pub fn check_proof(
    alloc: Global,
    facts: &Facts,
    outs: u32,
    left: &U,
    right: &U,
    bytes: &[u8],
) -> Result<Verdict, ProofFault>
    requires small { IsSmall left.now }
    requires few { outs ≤ 2048 }
    ensures { Shows facts.now outs left.now right.now bytes.now result }
{
    let mut checker = Checker::new(alloc, facts, outs, left)?;
    feed_all(&mut checker, bytes);
    checker.finish(right)
}

// Feeds the lines of a text, as far as the first that stops the rest.
fn feed_all(checker: &mut Checker<'_>, bytes: &[u8])
    requires first { IsNext checker.old.state 1 }
    ensures read { (left : TheU) → Stands checker.old.facts checker.old.outs left [] checker.old.state →
        Reads checker.old.facts checker.old.outs left bytes.now checker.new.state }
    ensures facts { checker.new.facts ≡ checker.old.facts }
    ensures outs { checker.new.outs ≡ checker.old.outs }
{
    let mut lines = Lines::new(bytes);
    while let Some(line) = lines.next() {
        if checker.feed(line).is_err() {
            return;
        }
    }
}
