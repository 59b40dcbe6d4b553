//! Sums and products whose parts stand in the order of their codes.
ghost use Rattle.std.specs.Prelude.{◌≡◌, ◌<◌, IfOk, IsPermutation, length};
ghost use Rattle.u_rules.specs.Terms as spec;
ghost use Rattle.u_rules.specs.Terms.{add_leaves, mul_leaves, terms};
ghost use Rattle.u_simple.specs.Order.{AreThere, chosen};

use crate::NoMemory;
use normal_form::{product, sum};
use std::alloc::Global;
use u_rules::{code_of, leaves};
use u_terms::U;

/// A part of a sum or of a product: its code, and where it stands among the parts.
#[derive(Debug, Drop, PartialEq, Eq, PartialOrd, Ord)]
pub struct Place {
    pub code: Vec<u32>,
    pub index: usize,
}

/// What is added in a term, in order, in one row to the right: `0` is left out.
pub fn sum_in_order(alloc: Global, u: &U) -> Result<U, NoMemory>
    ensures { IfOk result (λ row. IsPermutation (add_leaves u.now) (add_leaves row)) }
{
    let parts = in_order(alloc, u, false)?;
    sum(alloc, parts)
}

/// What is multiplied in a term, in order, in one row to the right: `1` is left out.
pub fn product_in_order(alloc: Global, u: &U) -> Result<U, NoMemory>
    ensures { IfOk result (λ row. IsPermutation (mul_leaves u.now) (mul_leaves row)) }
{
    let factors = in_order(alloc, u, true)?;
    product(alloc, factors)
}

// Copies of the leaves of a term, in order.
fn in_order(alloc: Global, u: &U, product: bool) -> Result<Vec<U>, NoMemory>
    ensures { IfOk result (λ parts. IsPermutation (spec.leaves product u.now) parts.items) }
{
    let gathered = leaves(alloc, u, product)?;
    let places = sorted_places(alloc, gathered.as_slice())?;
    copies(alloc, gathered.as_slice(), places.as_slice())
}

// Where the terms stand, in the order of their codes.
fn sorted_places(alloc: Global, all: &[&U]) -> Result<Vec<Place>, NoMemory>
    ensures there { IfOk result (λ places. AreThere (length all.now) places.items) }
    ensures order { IfOk result (λ places. IsPermutation (terms all.now) (chosen (terms all.now) places.items)) }
{
    let mut places = Vec::with_capacity(alloc, all.len())?;
    for (index, term) in all.iter().enumerate() {
        places.push(Place {
            code: code_of(alloc, term)?,
            index,
        })?;
    }
    places.sort()?;
    Ok(places)
}

// Copies of the terms at these places.
fn copies(alloc: Global, all: &[&U], places: &[Place]) -> Result<Vec<U>, NoMemory>
    requires { AreThere (length all.now) places.now }
    ensures { IfOk result (λ parts. parts.items ≡ chosen (terms all.now) places.now) }
{
    let mut parts = Vec::with_capacity(alloc, places.len())?;
    for place in places {
        parts.push(all[place.index].copy(alloc)?)?;
    }
    Ok(parts)
}
