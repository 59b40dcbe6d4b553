//! What the equalities of a product entail, gained as factors: derivations from a product to the product with one factor more, an equality of
//! two values or a mark. A mark is a predicate or a negation, of any term for `repeat_mark`. `copy_mark` copies a predicate, or a predicate or an
//! equality under negations, and no other mark: `!R(..)` never.
//!
//! The calls that gain a factor behind others take the factors of the first term as a list: that term is the product of the list, which leans to
//! the right. Factors whose equalities count come first, those of the classes; others may follow. The list has fewer than 2^32 terms, all of them
//! closed, with names below `outs` alone, and `outs` with the depth of their product stays below 2^32.
#![tactic(auto)]

mod carrying;
mod copying;
mod entailed;
mod equality;
mod following;
mod gaining;
mod hops;
mod marks;
mod place;
mod spine;

pub use carrying::MarkRoute;
pub use copying::{copy_mark, copy_mark_along};
pub use entailed::{append, append_along, derive};
pub use marks::repeat_mark;
pub use std::alloc::AllocError as NoMemory;
