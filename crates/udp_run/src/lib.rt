//! Checks of proofs, over any store and any sink.
#![tactic(auto)]

mod answer;
mod feeding;
pub mod laws;
mod output;
mod top;

pub use answer::{Status, Verdict};
pub use top::{read_case, run, say};

/// The most bytes of a case.
pub const CASE_LIMIT: usize = 1_048_576;

/// The most bytes of a proof.
pub const PROOF_LIMIT: usize = 1_073_741_824;
