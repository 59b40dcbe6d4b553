//! Proofs that two terms mean the same, searched and written.
#![tactic(auto)]

mod proving;

pub use proving::{Searched, prove_terms};
