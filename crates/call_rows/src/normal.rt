//! Normal forms.

use crate::fault::CallFault;
use crate::known::is_known;
use crate::read::term;
use crate::write::text;
use std::alloc::Global;
use u_moves::Moves;
use u_normal::{NormalFault, normal};
use u_terms::{Boxed, Facts, U};

/// The names that terms may have are below this one.
const OUTS: u32 = 1_000;

/// What a term becomes.
enum Form {
    /// It stays as it is then, without a step.
    AtRest(Boxed<U>),
    /// It becomes another one once more.
    NoRest,
    /// A term on the way has so many nodes.
    TooLarge(u64),
}

/// `normal TERM`: what the term becomes. It has to stay as it is then, without a step.
pub fn normal_form(alloc: Global, facts: &Facts, words: &str) -> Result<String, CallFault> {
    match made_twice(alloc, facts, words)? {
        Form::AtRest(found) => text(alloc, found.get()),
        Form::NoRest => Ok(String::from_str(alloc, "no rest")?),
        Form::TooLarge(nodes) => Ok(format!(in alloc; "{nodes} nodes")?),
    }
}

/// `rests TERM`: whether what the term becomes stays as it is.
pub fn rests(alloc: Global, facts: &Facts, words: &str) -> Result<String, CallFault> {
    let answer = match made_twice(alloc, facts, words)? {
        Form::AtRest(_) => "yes",
        Form::NoRest => "no",
        Form::TooLarge(_) => "too large",
    };
    Ok(String::from_str(alloc, answer)?)
}

/// `steps TERM`: by how many steps it becomes what it becomes.
pub fn step_count(alloc: Global, facts: &Facts, words: &str) -> Result<String, CallFault> {
    let term = term(alloc, words)?;
    let outs = OUTS;
    counted(Moves { alloc, facts, outs }, term.get())
}

fn counted(moves: Moves<'_>, u: &U) -> Result<String, CallFault> {
    if !is_known(u, 0, OUTS) || moves.outs != OUTS {
        return Err(CallFault::NotClosed);
    }
    match normal(moves, u) {
        Ok(made) => {
            let count = made.get().steps().len();
            Ok(format!(in moves.alloc; "{count} steps")?)
        }
        Err(NormalFault::TooLarge { nodes }) => Ok(format!(in moves.alloc; "{nodes} nodes")?),
        Err(NormalFault::NoMemory) => Err(CallFault::NoMemory),
    }
}

fn made_twice(alloc: Global, facts: &Facts, words: &str) -> Result<Form, CallFault> {
    let term = term(alloc, words)?;
    let outs = OUTS;
    becomes(Moves { alloc, facts, outs }, term.get())
}

fn becomes(moves: Moves<'_>, u: &U) -> Result<Form, CallFault> {
    if !is_known(u, 0, OUTS) || moves.outs != OUTS {
        return Err(CallFault::NotClosed);
    }
    match normal(moves, u) {
        Ok(there) => again(moves, there.get().to()),
        Err(NormalFault::TooLarge { nodes }) => Ok(Form::TooLarge(nodes)),
        Err(NormalFault::NoMemory) => Err(CallFault::NoMemory),
    }
}

fn again(moves: Moves<'_>, found: &U) -> Result<Form, CallFault> {
    if !is_known(found, 0, OUTS) || moves.outs != OUTS {
        return Err(CallFault::NotClosed);
    }
    match normal(moves, found) {
        Ok(stays) if stays.get().steps().len() == 0 => {
            Ok(Form::AtRest(Boxed::new(moves.alloc, found.copy(moves.alloc)?)?))
        }
        Ok(_) => Ok(Form::NoRest),
        Err(NormalFault::TooLarge { nodes }) => Ok(Form::TooLarge(nodes)),
        Err(NormalFault::NoMemory) => Err(CallFault::NoMemory),
    }
}
