//! Checks proofs of two terms, line by line.
#![tactic(auto)]

mod answers;
mod checker;
pub mod laws;
mod level;
mod limits;
mod next;
mod part;
mod pieces;
mod sized;
mod steps;
mod whole;

pub use answers::{ProofFault, Stop, Verdict};
pub use checker::Checker;
pub use pieces::Pieces;
pub use proof_text::LimitKind;
pub use std::alloc::AllocError as NoMemory;
pub use whole::check_proof;
