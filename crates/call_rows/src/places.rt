//! Where paths lead, and what steps make there.

use crate::fault::CallFault;
use crate::known::is_known;
use crate::read::{nested, number, path, term};
use crate::write::text;
use std::alloc::Global;
use u_deriv::{Step, StepFault, at};
use u_moves::Deriv;
use u_terms::{Facts, U, depth};

/// More names than any row has for outputs.
const MOST_OUTS: u32 = 1_000_000;

/// More than the text of any term has.
const DEPTH: u64 = 4_096;

/// `part PATH TERM`: the subterm at the end of the path.
pub fn part(alloc: Global, words: &str) -> Result<String, CallFault> {
    let (path_text, term_text) = words.split_once(' ').ok_or(CallFault::OtherWords)?;
    let path = path(alloc, path_text)?;
    let term = term(alloc, term_text)?;
    match at(term.get(), &path) {
        Some(part) => text(alloc, part),
        None => Ok(String::from_str(alloc, "nothing")?),
    }
}

/// `step OUTS TERM | LINE | LINE ..`: the term after the step of the lines, which are those of a proof.
pub fn step(alloc: Global, facts: &Facts, words: &str) -> Result<String, CallFault> {
    let parts: Vec<&str> = words.split(" | ").collect(alloc)?;
    let [before, lines @ ..] = parts.as_slice() else {
        return Err(CallFault::OtherWords);
    };
    let (outs, term_text) = before.split_once(' ').ok_or(CallFault::OtherWords)?;
    let term = term(alloc, term_text)?;
    let step = nested(alloc, lines)?;
    after(alloc, facts, number(outs)?, term.get(), step)
}

// The term after the step.
fn after(alloc: Global, facts: &Facts, outs: u32, u: &U, step: Step) -> Result<String, CallFault> {
    if outs > MOST_OUTS || depth(u) > DEPTH || !is_known(u, 0, outs) {
        return Err(CallFault::NotClosed);
    }
    match Deriv::by_rule(alloc, facts, outs, u, step) {
        Ok(made) => text(alloc, made.to()),
        Err(StepFault::NoResult) => Ok(String::from_str(alloc, "nothing")?),
        Err(StepFault::NoMemory) => Err(CallFault::NoMemory),
    }
}
