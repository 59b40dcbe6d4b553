//! What terms are built of.
ghost use Rattle.std.specs.Prelude.{◌≡◌, ◌++◌, IfOk, OnOk};
ghost use Rattle.sql_model.specs.Aggregates.{number_of};
ghost use Rattle.sql_to_u.specs.Factors.{combined_terms, key_equalities, over_names, squash_if, sum_of};
ghost use Rattle.u_terms.specs.declared.term.U.TheVariants as u;
ghost use Rattle.u_terms.specs.declared.term.Val.TheVariants as v;
ghost use Rattle.u_terms.specs.Products.{product_of};
ghost use Rattle.u_terms.specs.Binding.{closed_at};

use crate::aggregate::number_of;
use crate::naming::{first_of, name_after};
use plain_data::List;
use scope_core::NoMemory;
use sql_model::{AggFun, SetOp};
use std::alloc::Global;
use u_binder::{close_at, close_path, sums};
use u_terms::{Boxed, U, Val, depth};

/// A product of factors, in order.
#[tactic(auto, using(crate::proofs::terms::FactorLaws::products))]
pub fn product(alloc: Global, factors: Vec<U>) -> Result<U, NoMemory>
    ensures { IfOk result (λ u. u ≡ product_of factors.items) }
{
    let mut left = factors;
    let mut whole = match left.pop() {
        Some(last) => last,
        None => return Ok(U::One),
    };
    while let Some(factor) = left.pop() {
        let (factor, rest) = boxed(alloc, factor, whole)?;
        whole = U::Mul(factor, rest);
    }
    Ok(whole)
}

/// A sum of terms, in order.
#[tactic(auto, using(crate::proofs::terms::FactorLaws::products))]
pub fn sum(alloc: Global, parts: Vec<U>) -> Result<U, NoMemory>
    ensures { IfOk result (λ u. u ≡ sum_of parts.items) }
{
    let mut left = parts;
    let mut whole = match left.pop() {
        Some(last) => last,
        None => return Ok(U::Zero),
    };
    while let Some(part) = left.pop() {
        let (part, rest) = boxed(alloc, part, whole)?;
        whole = U::Add(part, rest);
    }
    Ok(whole)
}

/// The two terms below an operator.
fn boxed(alloc: Global, left: U, right: U) -> Result<(Boxed<U>, Boxed<U>), NoMemory>
    ensures { IfOk result (λ pair. (pair.0 ≡ left) × (pair.1 ≡ right)) }
{
    Ok((Boxed::new(alloc, left)?, Boxed::new(alloc, right)?))
}

/// The greatest name, count and depth with which names are closed. No term within the limits comes near them, and one that did would be told
/// as want of memory.
const MOST_NAMES: u32 = 1_000_000_000;

const DEEPEST: u64 = 1_000_000_000;

/// The sum over all values of the names from `first` on.
pub fn over_names(alloc: Global, first: u32, count: u32, body: U) -> Result<U, NoMemory>
    ensures { IfOk result (λ u. u ≡ over_names first count body) }
{
    let mut term = body;
    if first > MOST_NAMES || count > MOST_NAMES || depth(&term) > DEEPEST {
        return Err(NoMemory);
    }
    close_path(&mut term, first, count);
    sums(alloc, count, term)
}

/// The sum over all values of the names from `first` on of a product of factors.
pub fn product_over(alloc: Global, first: u32, count: u32, factors: Vec<U>) -> Result<U, NoMemory>
    ensures { IfOk result (λ u. u ≡ over_names first count (product_of factors.items)) }
{
    over_names(alloc, first, count, product(alloc, factors)?)
}

/// Whether any values of the names from `first` on make a term more than 0.
pub fn some_over(alloc: Global, first: u32, count: u32, body: U) -> Result<U, NoMemory>
    ensures { IfOk result (λ t. t ≡ u.Squash (over_names first count body)) }
{
    squash(alloc, over_names(alloc, first, count, body)?)
}

/// The term after a name is closed.
pub fn close(body: U, name: u32) -> Result<U, NoMemory>
    ensures { IfOk result (λ u. u ≡ closed_at body name) }
{
    let mut term = body;
    if depth(&term) > DEEPEST {
        return Err(NoMemory);
    }
    close_at(&mut term, name);
    Ok(term)
}

/// A term under a squash.
pub fn squash(alloc: Global, term: U) -> Result<U, NoMemory>
    ensures { IfOk result (λ t. t ≡ u.Squash term) }
{
    Ok(U::Squash(Boxed::new(alloc, term)?))
}

/// The negation of a term.
pub fn not(alloc: Global, term: U) -> Result<U, NoMemory>
    ensures { IfOk result (λ t. t ≡ u.Not term) }
{
    Ok(U::Not(Boxed::new(alloc, term)?))
}

/// A term under a squash where it is for DISTINCT.
pub fn squash_if(alloc: Global, distinct: bool, term: U) -> Result<U, NoMemory>
    ensures { IfOk result (λ u. u ≡ squash_if distinct term) }
{
    if distinct {
        return squash(alloc, term);
    }
    Ok(term)
}

/// An aggregate over the values that the name has, each as often as the term counts it.
pub fn aggregate(
    alloc: Global,
    fun: AggFun,
    distinct: bool,
    count: U,
    name: u32,
) -> Result<Val, NoMemory>
    ensures { IfOk result (λ t. t ≡ v.Agg (number_of fun) (closed_at (squash_if distinct count) name)) }
{
    let body = close(squash_if(alloc, distinct, count)?, name)?;
    Ok(Val::Agg(number_of(fun), Boxed::new(alloc, body)?))
}

/// The terms of two queries under a set operator.
pub fn combined(alloc: Global, op: SetOp, left: Boxed<U>, right: Boxed<U>) -> Result<U, NoMemory>
    ensures { IfOk result (λ u. u ≡ combined_terms op left right) }
{
    match op {
        SetOp::UnionAll => Ok(U::Add(left, right)),
        SetOp::Union => squash(alloc, U::Add(left, right)),
        SetOp::Except => Ok(U::Mul(
            Boxed::new(alloc, U::Squash(left))?,
            Boxed::new(alloc, U::Not(right))?,
        )),
        SetOp::Intersect => squash(alloc, U::Mul(left, right)),
    }
}

/// Appends an equality for each column of a key with its name.
pub fn add_keys(
    factors: &mut Vec<U>,
    columns: &[(u32, u32)],
    firsts: &[u32],
    key: u32,
) -> Result<(), NoMemory>
    ensures { OnOk result (factors.new.items ≡ factors.old.items ++ key_equalities columns.now firsts.now key) }
{
    let mut name = key;
    for (entry, column) in columns {
        let first = first_of(firsts, *entry);
        factors.push(U::Eq(Val::Free(name_after(first, *column)?), Val::Free(name)))?;
        name = name_after(name, 1)?;
    }
    Ok(())
}

/// A copy of a row of values.
pub fn copies(alloc: Global, row: &[Val]) -> Result<List<Val>, NoMemory>
    ensures { IfOk result (λ copy. copy ≡ row.now) }
{
    let mut values = Vec::new(alloc);
    for value in row {
        values.push(value.copy(alloc)?)?;
    }
    Ok(List::from_vec(values))
}
