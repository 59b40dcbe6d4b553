//! Lines of proofs.

use crate::fault::CallFault;
use proof_text::{LineFault, LineStep, read_step};
use std::alloc::Global;

/// `line LINE`: what the line is, with its line feed, or the column at which no line goes on.
pub fn line(alloc: Global, words: &str) -> Result<String, CallFault> {
    let kind = match read_step(alloc, words.as_bytes(), true) {
        Ok(LineStep::Whole(_)) => "whole",
        Ok(LineStep::Opens(_)) => "opens",
        Ok(LineStep::Closes) => "closes",
        Ok(LineStep::Ends) => "ends",
        Err(fault) => return refused(alloc, fault),
    };
    Ok(String::from_str(alloc, kind)?)
}

fn refused(alloc: Global, fault: LineFault) -> Result<String, CallFault> {
    match fault {
        LineFault::Bad { column } => Ok(format!(in alloc; "column {column}")?),
        LineFault::Limit { what, count } => Ok(format!(in alloc; "{what:?} {count}")?),
        LineFault::NoMemory => Err(CallFault::NoMemory),
    }
}
