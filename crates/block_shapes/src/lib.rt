//! The classes of queries for which the prover makes promises, on their resolved trees, and the shapes of their blocks.
#![tactic(auto)]

pub mod laws;
