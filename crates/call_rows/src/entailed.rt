//! What the equalities of a product entail.
ghost use Rattle.std.specs.Prelude.{◌≡◌, IfOk};

use crate::fault::CallFault;
use crate::known::{is_known, is_known_value};
use crate::read::{term, value};
use std::alloc::Global;
use u_entail::derive;
use u_equal::{Classes, Route, factors};
use u_terms::{Boxed, Facts, U, Val};

/// The names that terms may have are below this one.
pub const OUTS: u32 = 1_000;

/// The most links along which anything is derived.
pub const MOST_LINKS: u64 = 1_000;

/// The most links that are made.
const MOST_MADE: u64 = 40_000;

/// A product, and two values.
#[derive(Drop)]
struct Question {
    product: Boxed<U>,
    left: Boxed<Val>,
    right: Boxed<Val>,
}

fn asked(alloc: Global, words: &str) -> Result<Question, CallFault> {
    let words: Vec<&str> = words.split(' ').collect(alloc)?;
    let [product, left, right] = words.as_slice() else {
        return Err(CallFault::OtherWords);
    };
    Ok(Question {
        product: term(alloc, product)?,
        left: value(alloc, left)?,
        right: value(alloc, right)?,
    })
}

/// The classes of a product.
pub fn classes(alloc: Global, product: &U) -> Result<Classes<'_>, CallFault>
    ensures { IfOk result (λ classes. classes ≡ product.now) }
{
    if factors(product) >= 1 << 32 {
        return Err(CallFault::TooLarge);
    }
    Ok(Classes::of(alloc, product)?)
}

/// `entails PRODUCT VALUE VALUE`: whether the values are equal by the equalities of the product.
pub fn entails(alloc: Global, words: &str) -> Result<String, CallFault> {
    let question = asked(alloc, words)?;
    let classes = classes(alloc, question.product.get())?;
    let answer = if classes.entails(question.left.get(), question.right.get()) {
        "yes"
    } else {
        "no"
    };
    Ok(String::from_str(alloc, answer)?)
}

/// `links PRODUCT VALUE VALUE`: how many links lead from the one value to the other.
pub fn links(alloc: Global, words: &str) -> Result<String, CallFault> {
    let question = asked(alloc, words)?;
    let classes = classes(alloc, question.product.get())?;
    match classes.route(alloc, question.left.get(), question.right.get())? {
        Some(route) => counted(alloc, &route),
        None => Ok(String::from_str(alloc, "nothing")?),
    }
}

// The links, which are made where they are not too many.
fn counted(alloc: Global, route: &Route<'_, '_>) -> Result<String, CallFault> {
    let links = route.links();
    match route.chain_within(alloc, MOST_MADE)? {
        Some(_) => Ok(format!(in alloc; "{links}")?),
        None => Ok(format!(in alloc; "{links}, not made")?),
    }
}

/// `derive PRODUCT VALUE VALUE`: by how many steps the product gains the equality of the values.
pub fn derived(alloc: Global, facts: &Facts, words: &str) -> Result<String, CallFault> {
    let question = asked(alloc, words)?;
    let (left, right) = (question.left.get(), question.right.get());
    gained(alloc, facts, question.product.get(), left, right)
}

fn gained(
    alloc: Global,
    facts: &Facts,
    product: &U,
    left: &Val,
    right: &Val,
) -> Result<String, CallFault> {
    if factors(product) >= 1 << 32 || !is_known(product, 0, OUTS) {
        return Err(CallFault::NotClosed);
    }
    if !is_known_value(left, OUTS) || !is_known_value(right, OUTS) {
        return Err(CallFault::NotClosed);
    }
    match derive(alloc, facts, OUTS, product, left, right)? {
        Some(deriv) => {
            let steps = deriv.steps().len();
            Ok(format!(in alloc; "{steps} steps")?)
        }
        None => Ok(String::from_str(alloc, "nothing")?),
    }
}
