//! The sizes of products, factor by factor.
ghost use Rattle.std.specs.Prelude.{◌≡◌, drop, slice_get};
ghost use Rattle.sql_to_u.specs.Sizes.{finished, no_members, with_factor};
ghost use Rattle.sql_to_u.specs.Listed.{row_sizes};

use crate::size::{Size, leaf};

/// How large a product is, or a sum: as much as is needed to go on with one more factor.
#[derive(Clone, Copy)]
pub enum Product {
    Empty,
    One(Size),
    /// So many factors, each under a node of its own, with these nodes and this depth in all, and a last one.
    More {
        count: u64,
        nodes: u64,
        depth: u64,
        last: Size,
    },
}

impl Product {
    /// With one more factor at its end.
    pub fn with(self, factor: Size) -> Product
        ensures { result ≡ with_factor self factor }
    {
        match self {
            Product::Empty => Product::One(factor),
            Product::One(first) => Product::More {
                count: 1,
                nodes: first.nodes.saturating_add(1),
                depth: first.depth.saturating_add(1),
                last: factor,
            },
            Product::More {
                count,
                nodes,
                depth,
                last,
            } => Product::More {
                count: count.saturating_add(1),
                nodes: nodes.saturating_add(last.nodes).saturating_add(1),
                depth: depth.max(last.depth.saturating_add(count).saturating_add(1)),
                last: factor,
            },
        }
    }

    /// How large it is.
    pub fn size(self) -> Size
        ensures { result ≡ finished self }
    {
        match self {
            Product::Empty => leaf(),
            Product::One(only) => only,
            Product::More {
                count,
                nodes,
                depth,
                last,
            } => Size {
                nodes: nodes.saturating_add(last.nodes),
                depth: depth.max(last.depth.saturating_add(count)),
            },
        }
    }
}

/// The members of a group: how many columns they have, and the product of their factors.
#[derive(Clone, Copy)]
pub struct GroupSize {
    pub columns: u64,
    pub factors: Product,
}

/// Of no group.
pub fn no_group() -> GroupSize
    ensures { result ≡ no_members }
{
    GroupSize {
        columns: 0,
        factors: Product::Empty,
    }
}

/// The sizes of the values of a row: so many names, or one value.
#[derive(Clone, Copy)]
pub enum Row {
    Names(usize),
    One(Size),
}

impl Row {
    /// That of the value at this place of the row, and none past the last.
    #[tactic(auto, using(crate::proofs::sizes::SizeLaws::in_rows))]
    pub fn get(self, index: usize) -> Option<Size>
        ensures { result ≡ slice_get (row_sizes self) index }
    {
        match self {
            Row::Names(count) => {
                if index < count {
                    return Some(leaf());
                }
                None
            }
            Row::One(size) => {
                if index == 0 {
                    return Some(size);
                }
                None
            }
        }
    }

    /// The values behind the first `count`.
    #[tactic(auto, using(crate::proofs::sizes::SizeLaws::rests))]
    pub fn after(self, count: usize) -> Row
        ensures { row_sizes result ≡ drop count (row_sizes self) }
    {
        match self {
            Row::Names(wide) => Row::Names(wide.saturating_sub(count)),
            Row::One(size) => {
                if count == 0 {
                    return Row::One(size);
                }
                Row::Names(0)
            }
        }
    }
}
