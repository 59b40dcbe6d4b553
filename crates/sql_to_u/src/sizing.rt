//! How large the term of a tree is, reckoned from the tree: in one walk, with the sizes of the views at hand. Where a function appends factors
//! to a product, it answers the product.

mod block;
mod condition;
mod value;

pub use block::query_size;
