//! Reads the queries of a case.
#![tactic(auto)]

mod growing;
mod listed;
mod reading;
mod trees;

pub use reading::{MOST_LEVELS, MOST_SEPARATORS, read_inner_query, read_query};
