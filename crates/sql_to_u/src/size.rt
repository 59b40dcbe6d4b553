//! How large a term is, without the term.
ghost use Rattle.std.specs.Prelude.{◌≡◌};
ghost use Rattle.sql_to_u.specs.Sizes as sizes;

use sql_model::SetOp;

/// The number of terms and values in a term, and the most of them on a way from the term downwards; `u64::MAX` stands for every larger number.
#[derive(Clone, Copy, Debug, Drop)]
pub struct Size {
    pub nodes: u64,
    pub depth: u64,
}

/// A name, a literal, and the terms 0 and 1.
pub fn leaf() -> Size
    ensures { result ≡ sizes.leaf }
{
    Size { nodes: 1, depth: 1 }
}

/// No terms.
pub fn nothing() -> Size
    ensures { result ≡ sizes.nothing }
{
    Size { nodes: 0, depth: 0 }
}

/// Under so many sums.
pub fn over(count: u64, size: Size) -> Size
    ensures { result ≡ sizes.over_size count size }
{
    Size {
        nodes: size.nodes.saturating_add(count),
        depth: size.depth.saturating_add(count),
    }
}

/// Under one node.
pub fn under(size: Size) -> Size
    ensures { result ≡ sizes.under size }
{
    Size {
        nodes: size.nodes.saturating_add(1),
        depth: size.depth.saturating_add(1),
    }
}

/// Beside each other, under no node.
pub fn beside(left: Size, right: Size) -> Size
    ensures { result ≡ sizes.beside left right }
{
    Size {
        nodes: left.nodes.saturating_add(right.nodes),
        depth: left.depth.max(right.depth),
    }
}

/// Beside each other, under one node.
pub fn both(left: Size, right: Size) -> Size
    ensures { result ≡ sizes.both left right }
{
    under(beside(left, right))
}

/// Under a squash where it is for DISTINCT.
pub fn squash_if(distinct: bool, size: Size) -> Size
    ensures { result ≡ sizes.squash_size_if distinct size }
{
    if distinct { under(size) } else { size }
}

/// Of two queries under a set operator.
pub fn combined(op: SetOp, left: Size, right: Size) -> Size
    ensures { result ≡ sizes.combined_size op left right }
{
    match op {
        SetOp::UnionAll => both(left, right),
        SetOp::Union => under(both(left, right)),
        SetOp::Except => both(under(left), under(right)),
        SetOp::Intersect => under(both(left, right)),
    }
}

/// A row of so many names.
#[tactic(auto, using(crate::proofs::sizes::SizeLaws::names))]
pub fn names(count: u32) -> Size
    ensures { result ≡ sizes.names_size count }
{
    let mut whole = nothing();
    for _i in 0..count {
        whole = beside(leaf(), whole);
    }
    whole
}
