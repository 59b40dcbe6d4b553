//! The grammar of queries, as data, with the kinds of tokens that it tells apart.
#![tactic(auto)]

pub mod kinds;
pub mod laws;
mod letters;
mod listed;
pub mod words;

pub use kinds::Kind;
pub use listed::Listed;
