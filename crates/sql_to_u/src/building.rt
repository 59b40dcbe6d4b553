//! Builds the terms of trees. The columns around a place are told by names, and those from `next` on are not used. The walk goes down the
//! tree, from a view to its tree over the views before it, and from an aggregate to the entries and conditions of its block, once more for
//! each aggregate: the work that is left falls at each call.

mod aggregate;
mod block;
mod condition;
mod source;
mod value;

pub use block::query_term;
