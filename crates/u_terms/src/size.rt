ghost use Rattle.std.specs.Prelude.{◌≡◌, min};
ghost use Rattle.u_terms.specs.Size as size;

use crate::term::{U, Val};

/// How many terms and values there are in a term, itself included, or `u64::MAX` where there are more.
#[cycle(nodes)]
#[tactic(auto, using(crate::proofs::Sizes::nodes_at))]
pub fn nodes(u: &U) -> u64
    ensures { result ≡ min (size.nodes u.now) u64.MAX }
{
    match u {
        U::Zero | U::One => 1,
        U::Add(a, b) | U::Mul(a, b) => nodes(a.get())
            .saturating_add(nodes(b.get()))
            .saturating_add(1),
        U::Squash(a) | U::Not(a) | U::Sum(a) => nodes(a.get()).saturating_add(1),
        U::Rel(_, args) | U::Pred(_, args) => list_nodes(args.as_slice()).saturating_add(1),
        U::Eq(a, b) => value_nodes(a)
            .saturating_add(value_nodes(b))
            .saturating_add(1),
    }
}

/// How many terms and values there are in a value, itself included, or `u64::MAX` where there are more.
#[cycle(nodes)]
#[tactic(auto, using(crate::proofs::Sizes::nodes_at))]
pub fn value_nodes(value: &Val) -> u64
    ensures { result ≡ min (size.value_nodes value.now) u64.MAX }
{
    match value {
        Val::Bound(_) | Val::Free(_) | Val::Lit(_) => 1,
        Val::Fun(_, args) => list_nodes(args.as_slice()).saturating_add(1),
        Val::Agg(_, body) => nodes(body.get()).saturating_add(1),
    }
}

#[cycle(nodes)]
fn list_nodes(values: &[Val]) -> u64
    ensures { result ≡ min (size.list_nodes values.now) u64.MAX }
{
    let mut sum: u64 = 0;
    for value in values {
        sum = sum.saturating_add(value_nodes(value));
    }
    sum
}

/// The most terms and values on a way from a term downwards, or `u64::MAX` where there are more.
#[cycle(depth)]
#[tactic(auto, using(crate::proofs::Sizes::depth_at))]
pub fn depth(u: &U) -> u64
    ensures { result ≡ min (size.depth u.now) u64.MAX }
{
    match u {
        U::Zero | U::One => 1,
        U::Add(a, b) | U::Mul(a, b) => depth(a.get()).max(depth(b.get())).saturating_add(1),
        U::Squash(a) | U::Not(a) | U::Sum(a) => depth(a.get()).saturating_add(1),
        U::Rel(_, args) | U::Pred(_, args) => list_depth(args.as_slice()).saturating_add(1),
        U::Eq(a, b) => value_depth(a).max(value_depth(b)).saturating_add(1),
    }
}

/// The most terms and values on a way from a value downwards, or `u64::MAX` where there are more.
#[cycle(depth)]
#[tactic(auto, using(crate::proofs::Sizes::depth_at))]
pub fn value_depth(value: &Val) -> u64
    ensures { result ≡ min (size.value_depth value.now) u64.MAX }
{
    match value {
        Val::Bound(_) | Val::Free(_) | Val::Lit(_) => 1,
        Val::Fun(_, args) => list_depth(args.as_slice()).saturating_add(1),
        Val::Agg(_, body) => depth(body.get()).saturating_add(1),
    }
}

#[cycle(depth)]
fn list_depth(values: &[Val]) -> u64
    ensures { result ≡ min (size.list_depth values.now) u64.MAX }
{
    let mut most: u64 = 0;
    for value in values {
        most = most.max(value_depth(value));
    }
    most
}
