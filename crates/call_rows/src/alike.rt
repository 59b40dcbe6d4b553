//! Pairs of terms whose shapes may be alike.

use crate::fault::CallFault;
use crate::read::{number, term};
use bag_search::{Match, match_shapes};
use shapes::Shape;
use std::alloc::Global;
use term_shapes::shape_of;
use u_terms::Boxed;

// The shape of the term of this text.
fn shape(alloc: Global, outs: u32, text: &str) -> Result<Option<Boxed<Shape>>, CallFault> {
    let term = term(alloc, text)?;
    match shape_of(alloc, outs, term.get())? {
        Some(shape) => Ok(Some(Boxed::new(alloc, shape)?)),
        None => Ok(None),
    }
}

/// `alike OUTS BUDGET TERM TERM`: the entry of the second shape for each of the first.
pub fn alike(alloc: Global, words: &str) -> Result<String, CallFault> {
    let words: Vec<&str> = words.split(' ').collect(alloc)?;
    let [outs, budget, left, right] = words.as_slice() else {
        return Err(CallFault::OtherWords);
    };
    let outs = number(outs)?;
    let Some(left) = shape(alloc, outs, left)? else {
        return Ok(String::from_str(alloc, "no shape")?);
    };
    let Some(right) = shape(alloc, outs, right)? else {
        return Ok(String::from_str(alloc, "no shape")?);
    };
    let budget = budget.parse().map_err(|_| CallFault::BadNumber)?;
    told(
        alloc,
        &match_shapes(alloc, left.get(), right.get(), budget)?,
    )
}

fn told(alloc: Global, found: &Match) -> Result<String, CallFault> {
    match found {
        Match::Found(entries) => {
            let entries = entries.as_slice();
            Ok(format!(in alloc; "{entries:?}")?)
        }
        Match::Nothing => Ok(String::from_str(alloc, "nothing")?),
        Match::Spent => Ok(String::from_str(alloc, "spent")?),
    }
}
