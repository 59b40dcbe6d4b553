//! Equalities and marks that are gained behind the factors of a product.
ghost use Rattle.std.specs.Prelude.{◌≡◌, ◌<◌, ◌^◌, IfOk, IsTrue};
ghost use Rattle.u_terms.specs.Products.{product_of};
ghost use Rattle.u_terms.specs.Size.{depth as depth_of};
ghost use Rattle.u_terms.specs.Syntax.{U as TheU};
ghost use Rattle.u_rules.specs.Terms.{◌⊗◌, mul_leaves, terms};
ghost use Rattle.u_entail.specs.Marks.{HasMark, IsMark};
ghost use Rattle.u_entail.specs.Sides.{AreFactors};

use crate::entailed::{MOST_LINKS, OUTS, classes};
use crate::fault::CallFault;
use crate::known::{is_known, is_known_value};
use crate::read::{number, term, value};
use std::alloc::Global;
use u_entail::{MarkRoute, append, append_along, copy_mark, copy_mark_along, repeat_mark};
use u_moves::{Deriv, Moves};
use u_rules::leaves;
use u_terms::{Boxed, Facts, List, U, Val, depth};

/// More factors and more levels than the calls take.
const MANY: u64 = 1 << 20;

/// A product, and all factors: its own, and then others.
#[derive(Drop)]
struct Product {
    first: Boxed<U>,
    whole: Boxed<U>,
}

/// `append PRODUCT MORE VALUE VALUE`: by how many steps the factors of both products gain the equality of the values behind them, by the
/// equalities of the first one.
pub fn appended(alloc: Global, facts: &Facts, words: &str) -> Result<String, CallFault> {
    let words: Vec<&str> = words.split(' ').collect(alloc)?;
    let [first, more, left, right] = words.as_slice() else {
        return Err(CallFault::OtherWords);
    };
    let product = read_product(alloc, first, more)?;
    let (left, right) = (value(alloc, left)?, value(alloc, right)?);
    append_steps(alloc, facts, &product, left.get(), right.get())
}

/// `append-along PRODUCT MORE VALUE VALUE`: the same along a chain that was counted, and how many links it has.
pub fn appended_along(alloc: Global, facts: &Facts, words: &str) -> Result<String, CallFault> {
    let words: Vec<&str> = words.split(' ').collect(alloc)?;
    let [first, more, left, right] = words.as_slice() else {
        return Err(CallFault::OtherWords);
    };
    let product = read_product(alloc, first, more)?;
    let (left, right) = (value(alloc, left)?, value(alloc, right)?);
    append_links(alloc, facts, &product, left.get(), right.get())
}

/// `copy PRODUCT MORE PLACE MARK`: by how many steps the factors of both products gain the mark behind them, from the one at the place.
pub fn copied(alloc: Global, facts: &Facts, words: &str) -> Result<String, CallFault> {
    let words: Vec<&str> = words.split(' ').collect(alloc)?;
    let [first, more, place, wanted] = words.as_slice() else {
        return Err(CallFault::OtherWords);
    };
    let product = read_product(alloc, first, more)?;
    let place = number(place)? as usize;
    let wanted = term(alloc, wanted)?;
    copy_steps(alloc, facts, &product, place, wanted.get())
}

/// `copy-along PRODUCT MORE PLACE MARK`: the same along chains that were counted, and how many links they have.
pub fn copied_along(alloc: Global, facts: &Facts, words: &str) -> Result<String, CallFault> {
    let words: Vec<&str> = words.split(' ').collect(alloc)?;
    let [first, more, place, wanted] = words.as_slice() else {
        return Err(CallFault::OtherWords);
    };
    let product = read_product(alloc, first, more)?;
    let place = number(place)? as usize;
    let wanted = term(alloc, wanted)?;
    copy_links(alloc, facts, &product, place, wanted.get())
}

/// `repeat PRODUCT PLACE`: by how many steps the factors gain the mark at the place once more.
pub fn repeated(alloc: Global, facts: &Facts, words: &str) -> Result<String, CallFault> {
    let words: Vec<&str> = words.split(' ').collect(alloc)?;
    let [whole, place] = words.as_slice() else {
        return Err(CallFault::OtherWords);
    };
    let whole = term(alloc, whole)?;
    repeat_steps(alloc, facts, whole.get(), number(place)? as usize)
}

fn append_steps(
    alloc: Global,
    facts: &Facts,
    product: &Product,
    left: &Val,
    right: &Val,
) -> Result<String, CallFault>
    requires { (more : TheU) × (product.now.whole ≡ product.now.first ⊗ more) }
{
    let factors = taken(alloc, product.whole.get())?;
    let classes = classes(alloc, product.first.get())?;
    if !is_known_value(left, OUTS) {
        return Err(CallFault::NotClosed);
    }
    let moves = Moves {
        alloc,
        facts,
        outs: OUTS,
    };
    let found = append(moves, &classes, factors.as_slice(), left, right)?;
    told(alloc, found.as_ref())
}

fn append_links(
    alloc: Global,
    facts: &Facts,
    product: &Product,
    left: &Val,
    right: &Val,
) -> Result<String, CallFault>
    requires { (more : TheU) × (product.now.whole ≡ product.now.first ⊗ more) }
{
    let factors = taken(alloc, product.whole.get())?;
    let classes = classes(alloc, product.first.get())?;
    if !is_known_value(left, OUTS) {
        return Err(CallFault::NotClosed);
    }
    let Some(route) = classes.route(alloc, left, right)? else {
        return told(alloc, None);
    };
    let links = route.links();
    if links > MOST_LINKS {
        return Ok(format!(in alloc; "{links} links, not made")?);
    }
    let moves = Moves {
        alloc,
        facts,
        outs: OUTS,
    };
    let deriv = append_along(moves, &route, factors.as_slice(), left, right)?;
    counted(alloc, links, &deriv)
}

fn copy_steps(
    alloc: Global,
    facts: &Facts,
    product: &Product,
    place: usize,
    wanted: &U,
) -> Result<String, CallFault>
    requires { (more : TheU) × (product.now.whole ≡ product.now.first ⊗ more) }
{
    let factors = taken(alloc, product.whole.get())?;
    let classes = classes(alloc, product.first.get())?;
    if !has_mark(factors.as_slice(), place) {
        return Err(CallFault::OtherWords);
    }
    let moves = Moves {
        alloc,
        facts,
        outs: OUTS,
    };
    let found = copy_mark(moves, &classes, factors.as_slice(), place, wanted)?;
    told(alloc, found.as_ref())
}

fn copy_links(
    alloc: Global,
    facts: &Facts,
    product: &Product,
    place: usize,
    wanted: &U,
) -> Result<String, CallFault>
    requires { (more : TheU) × (product.now.whole ≡ product.now.first ⊗ more) }
{
    let factors = taken(alloc, product.whole.get())?;
    let classes = classes(alloc, product.first.get())?;
    let factors = factors.as_slice();
    if !has_mark(factors, place) {
        return Err(CallFault::OtherWords);
    }
    let Some(route) = MarkRoute::between(alloc, &classes, factors[place], wanted)? else {
        return told(alloc, None);
    };
    let links = route.links();
    if links > MOST_LINKS {
        return Ok(format!(in alloc; "{links} links, not made")?);
    }
    let moves = Moves {
        alloc,
        facts,
        outs: OUTS,
    };
    let deriv = copy_mark_along(moves, &route, factors, place)?;
    counted(alloc, links, &deriv)
}

fn repeat_steps(
    alloc: Global,
    facts: &Facts,
    whole: &U,
    place: usize,
) -> Result<String, CallFault> {
    let factors = taken(alloc, whole)?;
    if !has_mark(factors.as_slice(), place) {
        return Err(CallFault::OtherWords);
    }
    let moves = Moves {
        alloc,
        facts,
        outs: OUTS,
    };
    let deriv = repeat_mark(moves, factors.as_slice(), place)?;
    told(alloc, Some(&deriv))
}

fn read_product(alloc: Global, first: &str, more: &str) -> Result<Product, CallFault>
    ensures { IfOk result (λ product. (more : TheU) × (product.whole ≡ product.first ⊗ more)) }
{
    let first = term(alloc, first)?;
    let front = Boxed::new(alloc, first.get().copy(alloc)?)?;
    let whole = Boxed::new(alloc, U::Mul(front, term(alloc, more)?))?;
    Ok(Product { first, whole })
}

// The factors of a product, where the calls take them.
fn taken(alloc: Global, whole: &U) -> Result<List<&U>, CallFault>
    ensures are { IfOk result (λ factors. terms factors ≡ mul_leaves whole.now) }
    ensures taken { IfOk result (λ factors. AreFactors 1000 (terms factors)) }
    ensures shallow { IfOk result (λ factors. depth_of (product_of (terms factors)) < 2 ^ 22) }
{
    let factors = leaves(alloc, whole, true)?;
    if factors.as_slice().len() as u64 >= MANY || depth(whole) >= MANY {
        return Err(CallFault::TooLarge);
    }
    if !is_known(whole, 0, OUTS) {
        return Err(CallFault::NotClosed);
    }
    Ok(factors)
}

// Whether the factor at the place is a predicate or a negation.
fn has_mark(factors: &[&U], place: usize) -> bool
    ensures { IsTrue result → HasMark (terms factors.now) place }
{
    place < factors.len() && is_mark(factors[place])
}

fn is_mark(term: &U) -> bool
    ensures { IsTrue result → IsMark term.now }
{
    match term {
        U::Pred(_, _) | U::Not(_) => true,
        _ => false,
    }
}

fn told(alloc: Global, found: Option<&Deriv<'_>>) -> Result<String, CallFault> {
    match found {
        Some(deriv) => {
            let steps = deriv.steps().len();
            Ok(format!(in alloc; "{steps} steps")?)
        }
        None => Ok(String::from_str(alloc, "nothing")?),
    }
}

fn counted(alloc: Global, links: u64, deriv: &Deriv<'_>) -> Result<String, CallFault> {
    let steps = deriv.steps().len();
    Ok(format!(in alloc; "{links} links, {steps} steps")?)
}
