//! Terms and values in locally nameless form. A bound value is a place: the number of binders between it and its own,
//! counted from 0. `Sum` and `Agg` bind one value each.

use plain_data::{Boxed, List};

/// A value.
#[cycle(terms)]
#[derive(Drop)]
pub enum Val {
    /// The value of the binder that this many binders stand between.
    Bound(u32),
    /// The value of a name; the names below a query's width stand for the columns of its output row.
    Free(u32),
    /// A literal.
    Lit(u32),
    /// A function at its arguments.
    Fun(u32, List<Val>),
    /// An aggregate of the bag in which each value occurs as often as the body says of it at place 0.
    Agg(u32, Boxed<U>),
}

/// A term: a multiplicity.
#[cycle(terms)]
#[derive(Drop)]
pub enum U {
    Zero,
    One,
    Add(Boxed<U>, Boxed<U>),
    Mul(Boxed<U>, Boxed<U>),
    /// 0 for 0, and else 1.
    Squash(Boxed<U>),
    /// 1 for 0, and else 0.
    Not(Boxed<U>),
    /// The sum of the body over all values at place 0.
    Sum(Boxed<U>),
    /// How often the row of these values occurs in a table.
    Rel(u32, List<Val>),
    /// 1 where both values are one, and else 0.
    Eq(Val, Val),
    /// 1 where the predicate holds of these values, and else 0.
    Pred(u32, List<Val>),
}
