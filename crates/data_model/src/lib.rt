//! What queries and terms are evaluated over: rows, readings of symbols, databases, and the arithmetic of
//! multiplicities. All of it is definitions in `specs/` and lemmas in `proofs/`, shared by the model of
//! queries and the model of terms, so that neither has to be converted into the other.
#![tactic(auto)]

pub mod laws;
