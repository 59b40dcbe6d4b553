//! Terms, values, paths and steps, as the lines of proofs write them.

use crate::fault::CallFault;
use proof_text::{LineFault, LineStep, read_step};
use std::alloc::Global;
use u_deriv::{Path, Step};
use u_rules::{Arg, Rule};
use u_terms::{Boxed, U, Val};

/// A number, in decimal digits.
pub fn number(text: &str) -> Result<u32, CallFault> {
    text.parse().map_err(|_| CallFault::BadNumber)
}

/// The step of a line. It has no inner steps yet.
pub fn step(alloc: Global, line: &str) -> Result<Step, CallFault> {
    match read_step(alloc, line.as_bytes(), true) {
        Ok(LineStep::Whole(step) | LineStep::Opens(step)) => Ok(step),
        Err(LineFault::NoMemory) => Err(CallFault::NoMemory),
        _ => Err(CallFault::BadStep),
    }
}

/// A rule and its arguments, as they stand behind the direction of a line.
pub fn instance(alloc: Global, text: &str) -> Result<(Rule, Vec<Arg>), CallFault> {
    let line = format!(in alloc; "/ > {text}")?;
    let step = step(alloc, line.as_str())?;
    Ok((step.rule, step.args.into_vec()))
}

/// A term, as the line of a step writes it as an argument.
pub fn term(alloc: Global, text: &str) -> Result<Boxed<U>, CallFault> {
    let line = format!(in alloc; "/ > sq_one {text}")?;
    match step(alloc, line.as_str())?.args.into_vec().pop() {
        Some(Arg::Term(u)) => Ok(Boxed::new(alloc, u)?),
        _ => Err(CallFault::BadWord),
    }
}

/// A value, as the line of a step writes it as an argument.
pub fn value(alloc: Global, text: &str) -> Result<Boxed<Val>, CallFault> {
    let line = format!(in alloc; "/ > eq_refl {text}")?;
    match step(alloc, line.as_str())?.args.into_vec().pop() {
        Some(Arg::Value(value)) => Ok(Boxed::new(alloc, value)?),
        _ => Err(CallFault::BadWord),
    }
}

/// A path, as it stands at the start of the line of a step.
pub fn path(alloc: Global, text: &str) -> Result<Path, CallFault> {
    let line = format!(in alloc; "{text} > sq_zero")?;
    Ok(step(alloc, line.as_str())?.path)
}

/// The step of the first line. Behind one that opens its inner steps stand in the lines up to the brace.
pub fn nested(alloc: Global, lines: &[&str]) -> Result<Step, CallFault> {
    let mut open: Vec<Step> = Vec::new(alloc);
    for line in lines {
        let done = match read_step(alloc, line.as_bytes(), true) {
            Ok(LineStep::Whole(step)) => step,
            Ok(LineStep::Closes) => open.pop().ok_or(CallFault::BadStep)?,
            Ok(LineStep::Opens(step)) => {
                open.push(step)?;
                continue;
            }
            _ => return Err(CallFault::BadStep),
        };
        match open.last_mut() {
            Some(outer) => outer.inner.push(done)?,
            None => return Ok(done),
        }
    }
    Err(CallFault::BadStep)
}
