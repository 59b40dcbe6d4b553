//! How many blocks a term may have.
ghost use Rattle.std.specs.Prelude.{◌≡◌, min};
ghost use Rattle.normal_form.specs.Ways as spec;

use u_terms::{U, Val};

/// How many blocks the term may have in normal form, or `u64::MAX` where there are more.
#[cycle(ways)]
#[tactic(auto, using(crate::proofs::WaysAt::ways_at))]
pub fn ways(u: &U) -> u64
    ensures { result ≡ min (spec.ways u.now) u64.MAX }
{
    match u {
        U::Zero | U::One => 1,
        U::Add(a, b) => ways(a.get()).saturating_add(ways(b.get())),
        U::Mul(a, b) => ways(a.get()).saturating_mul(ways(b.get())),
        U::Squash(a) | U::Not(a) | U::Sum(a) => ways(a.get()),
        U::Rel(_, args) | U::Pred(_, args) => list_ways(args.as_slice()),
        U::Eq(a, b) => value_ways(a).saturating_mul(value_ways(b)),
    }
}

#[cycle(ways)]
#[tactic(auto, using(crate::proofs::WaysAt::ways_at))]
fn value_ways(value: &Val) -> u64
    ensures { result ≡ min (spec.value_ways value.now) u64.MAX }
{
    match value {
        Val::Bound(_) | Val::Free(_) | Val::Lit(_) => 1,
        Val::Fun(_, args) => list_ways(args.as_slice()),
        Val::Agg(_, body) => ways(body.get()),
    }
}

#[cycle(ways)]
#[tactic(auto, using(crate::proofs::WaysAt::ways_at))]
fn list_ways(values: &[Val]) -> u64
    ensures { result ≡ min (spec.list_ways values.now) u64.MAX }
{
    let mut product: u64 = 1;
    for value in values {
        product = product.saturating_mul(value_ways(value));
    }
    product
}
