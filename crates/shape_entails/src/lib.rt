//! What the shape of a term says is entailed by the product under its sums.
#![tactic(auto)]

pub mod laws;
