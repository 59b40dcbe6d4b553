//! What proofs show of two terms, and blocks that are paired.
ghost use Rattle.std.specs.Prelude.{IsTrue};
ghost use Rattle.proof_check.specs.Limits.{IsSmall};

use crate::fault::CallFault;
use crate::known::is_known;
use crate::read::{number, term};
use proof_check::{ProofFault, Verdict, check_proof};
use std::alloc::Global;
use u_bag::{Matched, match_blocks};
use u_terms::{Facts, U, depth, nodes};

/// The most columns that two queries have.
const MOST_OUTS: u32 = 2_048;

// Whether a check may begin with the term.
fn is_small(term: &U) -> bool
    ensures { IsTrue result → IsSmall term.now }
{
    nodes(term) <= 200_000 && depth(term) <= 2_048
}

// The lines, each with its line feed.
fn proof_of(alloc: Global, lines: &[&str]) -> Result<Vec<u8>, CallFault> {
    let mut proof = Vec::new(alloc);
    for line in lines {
        proof.extend_from_slice(line.as_bytes())?;
        proof.push(b'\n')?;
    }
    Ok(proof)
}

/// `check OUTS TERM TERM | LINE | LINE ..`: what the proof of these lines shows of the two terms.
pub fn check(alloc: Global, facts: &Facts, words: &str) -> Result<String, CallFault> {
    let parts: Vec<&str> = words.split(" | ").collect(alloc)?;
    let [terms, lines @ ..] = parts.as_slice() else {
        return Err(CallFault::OtherWords);
    };
    let terms: Vec<&str> = terms.split(' ').collect(alloc)?;
    let [outs, left, right] = terms.as_slice() else {
        return Err(CallFault::OtherWords);
    };
    let outs = number(outs)?;
    let (left, right) = (term(alloc, left)?, term(alloc, right)?);
    let proof = proof_of(alloc, lines)?;
    shown(
        alloc,
        facts,
        outs,
        left.get(),
        right.get(),
        proof.as_slice(),
    )
}

fn shown(
    alloc: Global,
    facts: &Facts,
    outs: u32,
    left: &U,
    right: &U,
    proof: &[u8],
) -> Result<String, CallFault> {
    if outs > MOST_OUTS || !is_small(left) {
        return Err(CallFault::TooLarge);
    }
    match check_proof(alloc, facts, outs, left, right, proof) {
        Ok(Verdict::Proved) => Ok(String::from_str(alloc, "proved")?),
        Ok(Verdict::StepFails { line }) => Ok(format!(in alloc; "step fails at line {line}")?),
        Ok(Verdict::EndDiffers) => Ok(String::from_str(alloc, "end differs")?),
        Err(ProofFault::BadLine { line, column }) => {
            Ok(format!(in alloc; "line {line} column {column}")?)
        }
        Err(ProofFault::Limit { what, count }) => Ok(format!(in alloc; "{what:?} {count}")?),
        Err(ProofFault::NoMemory) => Err(CallFault::NoMemory),
        Err(fault) => Ok(format!(in alloc; "{fault:?}")?),
    }
}

/// `pair OUTS BUDGET TERM TERM`: whether the entries of two blocks are paired.
pub fn paired(alloc: Global, facts: &Facts, words: &str) -> Result<String, CallFault> {
    let words: Vec<&str> = words.split(' ').collect(alloc)?;
    let [outs, budget, left, right] = words.as_slice() else {
        return Err(CallFault::OtherWords);
    };
    let outs = number(outs)?;
    let budget = budget.parse().map_err(|_| CallFault::BadNumber)?;
    let (left, right) = (term(alloc, left)?, term(alloc, right)?);
    let found = paired_within(alloc, facts, outs, left.get(), right.get(), budget)?;
    Ok(String::from_str(alloc, found)?)
}

fn paired_within(
    alloc: Global,
    facts: &Facts,
    outs: u32,
    left: &U,
    right: &U,
    budget: u64,
) -> Result<&'static str, CallFault> {
    if !is_known(left, 0, outs) || !is_known(right, 0, outs) {
        return Err(CallFault::NotClosed);
    }
    match match_blocks(alloc, facts, outs, left, right, budget)? {
        Matched::Found { .. } => Ok("found"),
        Matched::Nothing => Ok("nothing"),
        Matched::Spent => Ok("spent"),
    }
}
