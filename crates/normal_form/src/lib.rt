//! The sum-product normal form of terms: what it is, how many blocks a term may have in it, and the two steps that put a term in order:
//! a sum of blocks in one row, and the factors of a product by their kinds.
#![tactic(auto)]

mod counting;
mod kind;
mod order;

pub use counting::ways;
pub use kind::{Kind, kind_of};
pub use order::{in_order, in_row, product, sum};
pub use std::alloc::AllocError as NoMemory;
