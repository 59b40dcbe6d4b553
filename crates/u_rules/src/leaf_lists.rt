//! The leaves of sums and products, compared as multisets.
ghost use Rattle.std.specs.Prelude.{◌≡◌, ◌++◌, ◌↔◌, IsTrue, IfOk, OnOk, length, map, vec_items};
ghost use Rattle.u_rules.specs.Codes.{AreSortedCodes};
ghost use Rattle.u_rules.specs.Terms as spec;
ghost use Rattle.u_rules.specs.Terms.{add_leaves, mul_leaves, terms, TellsSame};

mod code;

pub use code::code_of;
use std::alloc::{AllocError, Global};
use u_terms::{List, U, same};

/// What is added in a term or, for a product, multiplied, from left to right, without `0` or `1`.
pub fn leaves<'a>(alloc: Global, u: &'a U, product: bool) -> Result<List<&'a U>, AllocError>
    ensures { IfOk result (λ all. terms all ≡ spec.leaves product u.now) }
{
    let mut gathered = Vec::new(alloc);
    if product {
        gather_product(u, &mut gathered)?;
    } else {
        gather_sum(u, &mut gathered)?;
    }
    Ok(List::from_vec(gathered))
}

/// Whether two sums or, for products, two products have the same leaves, each as often. Leaves in one order are compared in one pass. Of
/// others each is written once as a list of numbers, and both lists of these are sorted: m nodes in n leaves cost m log n at most,
/// whatever they are.
pub fn same_leaves(alloc: Global, left: &U, right: &U, product: bool) -> Result<bool, AllocError>
    ensures { IfOk result (λ same. TellsSame same (spec.leaves product left.now) (spec.leaves product right.now)) }
{
    let left = leaves(alloc, left, product)?;
    let right = leaves(alloc, right, product)?;
    same_terms(alloc, left.as_slice(), right.as_slice())
}

// Appends the leaves of a sum.
#[cycle(gather_sum)]
#[tactic(auto, using(crate::proofs::multisets::LeavesAt::gathering))]
fn gather_sum<'a>(sum: &'a U, gathered: &mut Vec<&'a U>) -> Result<(), AllocError>
    ensures { OnOk result (terms gathered.new.items ≡ terms gathered.old.items ++ add_leaves sum.now) }
{
    match sum {
        U::Zero => Ok(()),
        U::Add(left, right) => {
            gather_sum(left.get(), gathered)?;
            gather_sum(right.get(), gathered)
        }
        _ => Ok(gathered.push(sum)?),
    }
}

// Appends the leaves of a product.
#[cycle(gather_product)]
#[tactic(auto, using(crate::proofs::multisets::LeavesAt::gathering))]
fn gather_product<'a>(product: &'a U, gathered: &mut Vec<&'a U>) -> Result<(), AllocError>
    ensures { OnOk result (terms gathered.new.items ≡ terms gathered.old.items ++ mul_leaves product.now) }
{
    match product {
        U::One => Ok(()),
        U::Mul(left, right) => {
            gather_product(left.get(), gathered)?;
            gather_product(right.get(), gathered)
        }
        _ => Ok(gathered.push(product)?),
    }
}

// Whether both lists have the same terms, each as often.
fn same_terms(alloc: Global, left: &[&U], right: &[&U]) -> Result<bool, AllocError>
    ensures { IfOk result (λ same. TellsSame same (terms left.now) (terms right.now)) }
{
    if left.len() != right.len() {
        return Ok(false);
    }
    if same_in_order(left, right) {
        return Ok(true);
    }
    same_in_any_order(alloc, left, right)
}

// Whether both lists have the same terms in the same order.
fn same_in_order(left: &[&U], right: &[&U]) -> bool
    requires { length left.now ≡ length right.now }
    ensures { IsTrue result ↔ (terms left.now ≡ terms right.now) }
{
    left.iter().zip(right).all(|(a, b)| same(a, b))
}

// Whether both lists have the same terms, each as often, in whatever order.
fn same_in_any_order(alloc: Global, left: &[&U], right: &[&U]) -> Result<bool, AllocError>
    ensures { IfOk result (λ same. TellsSame same (terms left.now) (terms right.now)) }
{
    let left = sorted_codes(alloc, left)?;
    let right = sorted_codes(alloc, right)?;
    Ok(left == right)
}

// The codes of terms, in order.
fn sorted_codes(alloc: Global, all: &[&U]) -> Result<Vec<Vec<u32>>, AllocError>
    ensures { IfOk result (λ sorted. AreSortedCodes (terms all.now) (map vec_items sorted.items)) }
{
    let mut codes = Vec::with_capacity(alloc, all.len())?;
    for term in all {
        codes.push(code_of(alloc, term)?)?;
    }
    codes.sort()?;
    Ok(codes)
}
